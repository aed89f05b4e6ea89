// One step of settle on a store that is not corrupt: found and taken, and the orders counted that it queued. The store is lent and changed in place; a refused
// step leaves it as it was. For settle and not for others.
#![tactic(auto)]

ghost use Rattle.std.specs.Prelude.{◌≡◌, false, ◌<◌, ◌≤◌, IfSome};
ghost use Rattle.words.specs.Folds.{lowest_to};
ghost use Rattle.store.specs.Stores.{lane_at};
ghost use Rattle.lanes.specs.UseOrder.{LoadsOldest};
ghost use Rattle.machine.specs.Machine.Corruption.{corrupt_of};
ghost use Rattle.machine.specs.Machine.Serve.{serve_of};
ghost use Rattle.machine.specs.Machine.Settle.{settle_step};
ghost use Rattle.machine.specs.Machine.Sized.{Sized};
ghost use Rattle.store_settle_step.specs.Kinds.{enabled_of, lane_found, step_of, taken_of, sent_for};

use answers::{Answer, Refusal};
use lanes::{Lane, Waiting};
use store::{Control, Store};
use words::LaneNo;

// The three steps that settle repeats, in the order in which it tries them.
#[derive(Clone, Copy)]
enum StepKind {
    Deliver,
    Return,
    Serve,
}

// What a step answers, and how many orders it queued.
#[derive(Clone, Copy)]
pub struct TakenStep {
    pub answer: Answer,
    pub orders: u8,
}

// Whether a lane has something for the step.
fn enabled(x: StepKind, l: Lane) -> bool
    ensures { result ≡ enabled_of x l }
{
    match x {
        StepKind::Deliver => 0 < l.downs.len,
        StepKind::Return => 0 < l.returns.len,
        StepKind::Serve => l.waiting.unserved(),
    }
}

// The lowest lane that has something for the step. Where there is one, the store's arrays have their lengths, as every store's have.
fn lowest(x: StepKind, s: &Store) -> Option<LaneNo>
    requires { s.now.shape.n ≤ 8 }
    ensures sized { IfSome result (λ k. Sized s.now) }
    ensures lane { result ≡ lane_found (lowest_to (λ k. enabled_of x (lane_at s.now k)) s.now.shape.n) s.now.shape.n }
{
    for k in 0..s.shape.n {
        if enabled(x, s.lanes[k as usize]) {
            return Some(LaneNo(k));
        }
    }
    None
}

// The orders that a serve sent, by what waited and the control after it: the service that it opened awaits an answer to each; one that has closed
// sent none.
fn sent_for(w: Waiting, x: Control) -> u8
    ensures { result ≡ sent_for w x }
{
    match w {
        Waiting::Unserved(o) => x.service(o.word.block()).map_or(0, |v| v.awaited),
        Waiting::Idle | Waiting::Served(_) => 0,
    }
}

// Serve lane k, and count its orders.
fn serve_step(store: &mut Store, k: LaneNo) -> Result<TakenStep, Refusal>
    requires { (corrupt_of store.old ≡ false) × (k.0 < store.old.shape.n) × Sized store.old }
    ensures step { result ≡ taken_of store.old (serve_of store.old k) }
    ensures store { store.new ≡ (serve_of store.old k).store }
{
    let waiting = store.lanes[k.0 as usize].waiting;
    let answer = memory_steps::serve_sound(store, k)?;
    Ok(TakenStep {
        answer,
        orders: sent_for(waiting, store.control),
    })
}

// The step on lane k. Serve alone queues orders.
fn take_step(x: StepKind, store: &mut Store, k: LaneNo) -> Result<TakenStep, Refusal>
    requires { (corrupt_of store.old ≡ false) × (k.0 < store.old.shape.n) × Sized store.old }
    ensures step { result ≡ taken_of store.old (step_of x store.old k) }
    ensures store { store.new ≡ (step_of x store.old k).store }
{
    let answer = match x {
        StepKind::Deliver => lane_steps::deliver_sound(store, k)?,
        StepKind::Return => memory_steps::return_sound(store, k)?,
        StepKind::Serve => return serve_step(store, k),
    };
    Ok(TakenStep { answer, orders: 0 })
}

// The next step: deliver, else return, else serve, at the lowest lane; 16 where there is none of these.
#[tactic(auto, unfolding(machine::specs::Machine::Settle::settle_step))]
pub fn step(store: &mut Store) -> Result<TakenStep, Refusal>
    requires { corrupt_of store.old ≡ false }
    ensures step { result ≡ taken_of store.old (settle_step LoadsOldest store.old) }
    ensures store { store.new ≡ (settle_step LoadsOldest store.old).store }
{
    if let Some(k) = lowest(StepKind::Deliver, store) {
        return take_step(StepKind::Deliver, store, k);
    }
    if let Some(k) = lowest(StepKind::Return, store) {
        return take_step(StepKind::Return, store, k);
    }
    if let Some(k) = lowest(StepKind::Serve, store) {
        return take_step(StepKind::Serve, store, k);
    }
    Err(Refusal::Unexpected)
}
