// A tape's record on a store, without the check of 14: for our own crates above, which show that a tape's store once open is never corrupt
// (Steady). The store is lent and changed in place; a refused record leaves it as it was.
#![tactic(auto)]

ghost use Rattle.std.specs.Prelude.{◌≡◌};
ghost use Rattle.machine.specs.Machine.Tape.{open_record, record_of};
ghost use Rattle.tape_steps.specs.Steady.{Steady};

use answers::{Answer, Refusal};
use store::Store;
use tape_records::Record;
use words::Shape;

// A record of kind 00 or 08: 4, 5, 18, then the store of the opening.
#[tactic(auto, unfolding(machine::specs::Machine::Tape::open_record))]
fn open_record(store: &mut Store, shape: Shape) -> Result<Answer, Refusal>
    ensures answer { result ≡ (open_record store.old shape).answer }
    ensures store { store.new ≡ (open_record store.old shape).store }
{
    if store.shape.n != 0 {
        return Err(Refusal::AlreadyOpen);
    }
    *store = store_opening::opened(shape)?;
    Ok(Answer::Opened)
}

// What a record does: 2, 1, or what its kind says; 3 for a call before an opening.
#[tactic(auto, unfolding(machine::specs::Machine::Tape::record_of))]
pub fn record_sound(store: &mut Store, rec: Result<Record, Refusal>) -> Result<Answer, Refusal>
    requires { Steady store.old }
    ensures answer { result ≡ (record_of store.old rec).answer }
    ensures store { store.new ≡ (record_of store.old rec).store }
{
    match rec? {
        Record::Open(shape) => open_record(store, shape),
        _ if store.shape.n == 0 => Err(Refusal::NotOpen),
        Record::Begin(k, op, w) => lane_steps::begin_sound(store, k, op, w),
        Record::Serve(k) => memory_steps::serve_sound(store, k),
        Record::Return(k) => memory_steps::return_sound(store, k),
        Record::Deliver(k) => lane_steps::deliver_sound(store, k),
    }
}
