// A refusal, and a store put back together after memory's part of a call: lane, block, control and the queues of those that a message goes to.
// The lanes that a message goes to are the set bits of a byte, bit j for lane j: the look at full queues and the queueing walk the set bits, the lowest first.
// The store is changed in a local, which is put back at the end. Functions with a requires are for the crates above and not for others.
#![tactic(auto)]

ghost use Rattle.std.specs.Prelude.{◌≡◌, ◌<◌};
ghost use Rattle.machine.specs.Machine.LaneBytes.{move_with, move_of};
ghost use Rattle.machine.specs.Machine.Change.{refuse, commit_move};
ghost use Rattle.lanes.specs.declared.Lane.{Lane};
ghost use Rattle.store.specs.declared.Block.{Block};
ghost use Rattle.store.specs.declared.Control.{Control};
ghost use Rattle.store_commit.specs.Bits.{lowest_bit, without_lowest};
ghost use Rattle.queues.specs.Queues.{capacity};

use answers::{Answer, Refusal};
use machine::MemoryPart;
use store::{Outcome, Store};
use words::{BlockNo, LaneNo};

// The lowest set bit of a byte, 8 for the byte 0.
fn lowest(x: u8) -> usize
    ensures { result ≡ lowest_bit x }
{
    x.trailing_zeros() as usize
}

// A byte without its lowest set bit.
fn without_lowest(x: u8) -> u8
    requires { 0 < x }
    ensures { result ≡ without_lowest x }
{
    x & (x - 1)
}

// A refusal leaves the store as it was.
pub fn refused(r: Refusal, s: Store) -> Outcome
    ensures { result ≡ refuse r s }
{
    Outcome {
        answer: Err(r),
        store: s,
    }
}

// Lane k, block a, the control and the down queues after memory's part of a call; 12, with the store as it was, if a queue that its message joins is full.
fn commit_part(
    store: &mut Store,
    k: LaneNo,
    a: BlockNo,
    part: MemoryPart,
) -> Result<Answer, Refusal>
    requires { (k.0 < 8) × (a.0 < 64) }
    ensures answer { result ≡ (commit_move store.old k a (move_with part)).answer }
    ensures store { store.new ≡ (commit_move store.old k a (move_with part)).store }
{
    let mut t = *store;
    t.lanes[k.0 as usize] = part.lane;
    t.blocks[a.0 as usize] = part.block;
    t.control = part.control;
    // A while, since the walk counts no index: each turn takes the lowest bit out of those that are left.
    let mut left = part.to;
    while 0 < left {
        let h = lowest(left);
        t.lanes[h].downs = t.lanes[h]
            .downs
            .push(part.message)
            .ok_or(Refusal::QueueFull)?;
        left = without_lowest(left);
    }
    *store = t;
    Ok(Answer::Step)
}

// The same of a part that may be refused: its own refusal leaves the store as it was.
pub fn commit_move(
    store: &mut Store,
    k: LaneNo,
    a: BlockNo,
    part: Result<MemoryPart, Refusal>,
) -> Result<Answer, Refusal>
    requires { (k.0 < 8) × (a.0 < 64) }
    ensures answer { (l : Lane) (b : Block) (x : Control) → result ≡ (commit_move store.old k a (move_of l b x part)).answer }
    ensures store { (l : Lane) (b : Block) (x : Control) → store.new ≡ (commit_move store.old k a (move_of l b x part)).store }
{
    commit_part(store, k, a, part?)
}
