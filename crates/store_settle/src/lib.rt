// Settle: 01's steps again and again until the store is quiet, as one call.
// settle is open to others and has no requires.
#![tactic(auto)]

ghost use Rattle.std.specs.Prelude.{◌≡◌, false, [], ◌+◌, ◌≤◌, length};
ghost use Rattle.lanes.specs.UseOrder.{LoadsOldest};
ghost use Rattle.machine.specs.Machine.Corruption.{corrupt_of};
ghost use Rattle.answers.specs.Completions.{done_in};
ghost use Rattle.machine.specs.Machine.Settle.{settle_of, refuse_settle};
ghost use Rattle.store_settle.specs.Settles.{array_of, outcome_of, Counted, listed_of};

use answers::{Answer, Completion, Refusal};
use machine::SettleCounts;
use store::Store;
use words::LaneNo;

// The completions of a settle in order: those before len; the places from len on are not used. An operation that completes waits no
// more and settle begins none, so there are at most as many as lanes. An array and not a Vec: nothing here is on the heap.
#[derive(Clone, Copy)]
pub struct Completions {
    pub len: u8,
    pub at: [Completion; 8],
}

// What a settle gives.
#[derive(Clone, Copy)]
pub struct SettleOutcome {
    pub answer: Result<SettleCounts, Refusal>,
    pub completions: Completions,
    pub store: Store,
}

// No completion so far.
fn none() -> Completions
    ensures { result ≡ array_of [] }
{
    Completions {
        len: 0,
        at: [answers::completed(LaneNo(0), 0, 0); 8],
    }
}

// The completion of an answer, if it has one, goes behind the others.
fn list(d: &mut Completions, a: Answer)
    requires { length (done_in (Ok a)) + d.old.len ≤ 8 }
    ensures { d.new ≡ listed_of d.old (Ok a) }
{
    if let Answer::Done(x) = a {
        d.at[d.len as usize] = x;
        d.len += 1;
    }
}

// A refused settle gives its number alone; the store is the one before the call.
fn refuse(r: Refusal, store: Store) -> SettleOutcome
    ensures { (result ≡ outcome_of (refuse_settle r store)) × Counted store result.answer }
{
    SettleOutcome {
        answer: Err(r),
        completions: none(),
        store,
    }
}

// Settle of a store that is not corrupt.
fn settle_sound(first: Store) -> SettleOutcome
    requires { corrupt_of first ≡ false }
    ensures { (result ≡ outcome_of (settle_of LoadsOldest first)) × Counted first result.answer }
{
    let mut s = first;
    let mut done = none();
    let mut steps: u16 = 0;
    let mut orders: u8 = 0;
    // A while, since nothing counts the steps beforehand: it ends where the store is quiet.
    while !store_quiet::quiet(&s) {
        match store_settle_step::step(&mut s) {
            Ok(x) => {
                list(&mut done, x.answer);
                steps += 1;
                orders += x.orders;
            }
            Err(r) => return refuse(r, first),
        }
    }
    let counts = SettleCounts { steps, orders };
    SettleOutcome {
        answer: Ok(counts),
        completions: done,
        store: s,
    }
}

// Settle: the step count, the orders that its own serves sent, by which the count is exact, and the completions in order; or why it was
// refused: 14, or the number of the step that was.
#[tactic(auto, unfolding(machine::specs::Machine::Settle::settle_of))]
pub fn settle(s: Store) -> SettleOutcome
    ensures { (result ≡ outcome_of (settle_of LoadsOldest s)) × Counted s result.answer }
{
    if store_corruption::corrupt(s) {
        return refuse(Refusal::Corrupt, s);
    }
    settle_sound(s)
}
