// The calls on any store: begin, serve, return, deliver. None has a requires; each is an equation with document 01's machine,
// refusals too. `begin` is for `operations`; the others are open to others.
#![tactic(auto)]

ghost use Rattle.std.specs.Prelude.{◌≡◌, true, false};
ghost use Rattle.std.specs.Fn.{FnOnceTakesAtMut, FnOnceReturnsAtMut};
ghost use Rattle.answers.specs.declared.Refusal.TheVariants as Refusal;
ghost use Rattle.lanes.specs.UseOrder.{LoadsOldest};
ghost use Rattle.machine.specs.Machine.Change.{refuse};
ghost use Rattle.machine.specs.Machine.Corruption.{corrupt_of};
ghost use Rattle.machine.specs.Machine.Begin.{begin_of};
ghost use Rattle.machine.specs.Machine.Serve.{serve_of};
ghost use Rattle.machine.specs.Machine.Return.{return_of};
ghost use Rattle.machine.specs.Machine.Deliver.{deliver_of};

use answers::{Answer, Refusal};
use store::{Outcome, Store};
use words::{LaneNo, Op, WordNo};

// What every call is: 14 where the store breaks its own bounds, else what its step answers and makes of the store.
fn checked<F: FnOnce(&mut Store) -> Result<Answer, Refusal>>(s: Store, step: F) -> Outcome
    requires { corrupt_of s ≡ false → FnOnceTakesAtMut F.FnOnce step s }
    ensures corrupt { corrupt_of s ≡ true → result ≡ refuse Refusal.Corrupt s }
    ensures sound { corrupt_of s ≡ false → FnOnceReturnsAtMut F.FnOnce step s result.answer result.store }
{
    if store_corruption::corrupt(s) {
        return store_commit::refused(Refusal::Corrupt, s);
    }
    let mut store = s;
    let answer = step(&mut store);
    Outcome { answer, store }
}

// A begin call on any store.
#[tactic(auto, unfolding(machine::specs::Machine::Begin::begin_of))]
pub fn begin(s: Store, k: LaneNo, op: Op, w: WordNo) -> Outcome
    ensures { result ≡ begin_of s k op w }
{
    checked(s, |store| lane_steps::begin_sound(store, k, op, w))
}

// Serve k.
#[tactic(auto, unfolding(machine::specs::Machine::Serve::serve_of))]
pub fn serve(s: Store, k: LaneNo) -> Outcome
    ensures { result ≡ serve_of s k }
{
    checked(s, |store| memory_steps::serve_sound(store, k))
}

// Return k; `return` is a word of the language.
#[tactic(auto, unfolding(machine::specs::Machine::Return::return_of))]
pub fn return_head(s: Store, k: LaneNo) -> Outcome
    ensures { result ≡ return_of s k }
{
    checked(s, |store| memory_steps::return_sound(store, k))
}

// Deliver k.
#[tactic(auto, unfolding(machine::specs::Machine::Deliver::deliver_of))]
pub fn deliver(s: Store, k: LaneNo) -> Outcome
    ensures { result ≡ deliver_of LoadsOldest s k }
{
    checked(s, |store| lane_steps::deliver_sound(store, k))
}
