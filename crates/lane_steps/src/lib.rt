// A lane's calls on a store that is not corrupt, begin and deliver, without the check of 14. They are for the crates above: a call pays that
// check before it, a tape and settle pay it once for many steps. The store is lent and changed in place; a refused call leaves it as it was.
#![tactic(auto)]

ghost use Rattle.std.specs.Prelude.{◌≡◌, false, ◌≤◌, ◌<◌};
ghost use Rattle.lanes.specs.UseOrder.{LoadsOldest};
ghost use Rattle.machine.specs.Machine.Begun.{last_place};
ghost use Rattle.machine.specs.Machine.Corruption.{corrupt_of};
ghost use Rattle.machine.specs.Machine.Change.{counted, answer_to, step_of, commit_lane};
ghost use Rattle.machine.specs.Machine.Begin.{begin_of};
ghost use Rattle.machine.specs.Machine.Deliver.{deliver_of};

use answers::{Answer, Refusal};
use machine::{LaneAnswer, LanePart};
use store::Store;
use words::{LaneNo, Op, WordNo};

// Completions so far once a lane's part is counted: a completion is one more.
fn count(a: LaneAnswer, done: u32) -> u32
    requires { counted (Ok a) done ≤ last_place }
    ensures { result ≡ counted (Ok a) done }
{
    match a {
        LaneAnswer::Value(_) => done + 1,
        LaneAnswer::Waits | LaneAnswer::Stepped => done,
    }
}

// The answer of a call on lane k by what its part came to: a completion is made here, and its place is the count with itself in it.
fn answer_to(k: LaneNo, done: u32, a: LaneAnswer) -> Answer
    ensures { Ok result ≡ answer_to k done (Ok a) }
{
    match a {
        LaneAnswer::Value(v) => Answer::Done(answers::completed(k, v, done)),
        LaneAnswer::Waits => Answer::Wait,
        LaneAnswer::Stepped => Answer::Step,
    }
}

// Lane k's part of a call is put back, and counted.
#[tactic(auto, unfolding(machine::specs::Machine::Change::commit_lane))]
fn commit_lane(store: &mut Store, k: LaneNo, part: LanePart) -> Answer
    requires lane { k.0 < 8 }
    requires place { counted (Ok part.answer) store.old.completions ≤ last_place }
    ensures answer { Ok result ≡ (commit_lane store.old k (step_of part)).answer }
    ensures store { store.new ≡ (commit_lane store.old k (step_of part)).store }
{
    let done = count(part.answer, store.completions);
    store.lanes[k.0 as usize] = part.lane;
    store.completions = done;
    answer_to(k, done, part.answer)
}

// Begin on a store that is not corrupt.
#[tactic(auto, unfolding(machine::specs::Machine::Begin::begin_of))]
pub fn begin_sound(store: &mut Store, k: LaneNo, op: Op, w: WordNo) -> Result<Answer, Refusal>
    requires { corrupt_of store.old ≡ false }
    ensures answer { result ≡ (begin_of store.old k op w).answer }
    ensures store { store.new ≡ (begin_of store.old k op w).store }
{
    let shape = store.shape;
    if shape.n <= k.0 {
        return Err(Refusal::NoSuchLane);
    }
    if shape.m <= w.block().0 {
        return Err(Refusal::NoSuchWord);
    }
    let l = store.lanes[k.0 as usize];
    if !lane_begin::admits(l, shape.c, op, w) {
        return Err(Refusal::LaneBusy);
    }
    if store_places::exhausted(store) {
        return Err(Refusal::PlacesExhausted);
    }
    let part = lane_begin::begin_lane(l, shape.c, op, w)?;
    Ok(commit_lane(store, k, part))
}

// Deliver on a store that is not corrupt. A refused message stays in its queue.
#[tactic(auto, unfolding(machine::specs::Machine::Deliver::deliver_of))]
pub fn deliver_sound(store: &mut Store, k: LaneNo) -> Result<Answer, Refusal>
    requires { corrupt_of store.old ≡ false }
    ensures answer { result ≡ (deliver_of LoadsOldest store.old k).answer }
    ensures store { store.new ≡ (deliver_of LoadsOldest store.old k).store }
{
    let shape = store.shape;
    if shape.n <= k.0 {
        return Err(Refusal::NoSuchLane);
    }
    let l = store.lanes[k.0 as usize];
    let part = lane_deliver::deliver_lane(l, shape.c)?;
    Ok(commit_lane(store, k, part))
}
