// A lane's part of deliver. A lane is handed in by value and comes back in a LanePart; a refused part has the reason alone.
// These functions are for the crates above and not for others: the bounds that some require are those of a store that is not
// corrupt.
#![tactic(auto)]

ghost use Rattle.std.specs.Prelude.{◌≡◌, ◌≤◌};
ghost use Rattle.lanes.specs.Search.{search_of, vacant_of};
ghost use Rattle.lanes.specs.UseOrder.{LoadsOldest};
ghost use Rattle.machine.specs.Machine.Change.{part_of};
ghost use Rattle.machine.specs.Machine.Deliver.{reply, update_at, purged_of, purge_at, claimed, fill_at, grant_at, bare_at, served_on, grant_to, bare_to, deliver_kind, deliver_lane};
ghost use Rattle.queues.specs.Queues.{capacity};

use answers::Refusal;
use lanes::{Lane, Operation, Waiting};
use machine::{LaneAnswer, LanePart};
use queues::{DownKind, DownMessage, Message, ReturnKind, ReturnMessage};
use words::{BlockNo, Line, Op};

// An answer to an order joins the return queue.
#[tactic(auto, unfolding(machine::specs::Machine::Deliver::reply))]
fn reply(l: Lane, m: ReturnMessage) -> Result<LanePart, Refusal>
    ensures { result ≡ part_of (reply capacity m l) }
{
    let returns = l.returns.push(m).ok_or(Refusal::QueueFull)?;
    Ok(LanePart {
        answer: LaneAnswer::Stepped,
        lane: Lane { returns, ..l },
    })
}

// UPDATE.
#[tactic(auto, using(lanes::proofs::Firsts::first_bound))]
fn update(l: Lane, c: u8, a: BlockNo) -> Result<LanePart, Refusal>
    requires { c ≤ 8 }
    ensures { result ≡ part_of (update_at capacity (search_of l c a) a l) }
{
    let Some(i) = l.search(c, a) else {
        return reply(l, Message::bare(ReturnKind::Gone, a));
    };
    let x = l.lines[i.0 as usize];
    let mut t = l;
    t.lines[i.0 as usize] = Line {
        private: false,
        ..x
    };
    reply(t, Message::with_words(ReturnKind::Updated, a, x.words))
}

// What a line that is purged sends: main memory lacks the words of a PRIVATE line.
fn purged(a: BlockNo, x: Line) -> ReturnMessage
    ensures { result ≡ purged_of a x }
{
    if x.private {
        Message::with_words(ReturnKind::PurgedWords, a, x.words)
    } else {
        Message::bare(ReturnKind::Purged, a)
    }
}

// PURGE.
#[tactic(auto, using(lanes::proofs::Firsts::first_bound))]
fn purge(l: Lane, c: u8, a: BlockNo) -> Result<LanePart, Refusal>
    requires { c ≤ 8 }
    ensures { result ≡ part_of (purge_at capacity (search_of l c a) a l) }
{
    let Some(i) = l.search(c, a) else {
        let missing = Message::bare(ReturnKind::Gone, a);
        return reply(l, missing);
    };
    let x = l.lines[i.0 as usize];
    let mut t = l;
    t.lines[i.0 as usize] = x.invalidated();
    reply(t, purged(a, x))
}

// A granted line: PRIVATE is set if the operation isn't load, and reset if it is.
fn claim(x: Line, op: Op) -> Line
    ensures { result ≡ claimed op x }
{
    Line {
        private: !op.is_load(),
        ..x
    }
}

// A grant's words come into the lowest-numbered line that is not valid, and the lane waits no more. Filled for a load, the line is the oldest then.
#[tactic(auto, using(lanes::proofs::Firsts::first_bound))]
fn fill(l: Lane, c: u8, m: DownMessage, o: Operation) -> Result<LanePart, Refusal>
    requires { c ≤ 8 }
    ensures { result ≡ part_of (fill_at LoadsOldest (vacant_of l c) c m o l) }
{
    let i = l.vacant(c).ok_or(Refusal::Unexpected)?;
    let Message { block, words, .. } = m;
    let x = Line {
        valid: true,
        private: false,
        block,
        words,
    };
    let order = lanes::inserted(l.order, c, i, o.op);
    let filled = claim(x, o.op);
    let t = l.with_waiting(Waiting::Idle);
    Ok(lane_begin::complete_with(t, order, i, filled, o.op, o.word))
}

// A grant with words, for operation o.
fn grant(l: Lane, c: u8, m: DownMessage, o: Operation) -> Result<LanePart, Refusal>
    requires { c ≤ 8 }
    ensures { result ≡ part_of (grant_at LoadsOldest (search_of l c m.block) c m o l) }
{
    let Some(_) = l.search(c, m.block) else {
        return fill(l, c, m, o);
    };
    Err(Refusal::Unexpected)
}

// A bare grant of block a, for operation o, after which the lane waits no more.
#[tactic(auto, using(lanes::proofs::Firsts::first_bound))]
fn bare_grant(l: Lane, c: u8, a: BlockNo, o: Operation) -> Result<LanePart, Refusal>
    requires { c ≤ 8 }
    ensures { result ≡ part_of (bare_at (search_of l c a) c o l) }
{
    let Some(i) = l.search(c, a) else {
        return Err(Refusal::Unexpected);
    };
    let held = l.lines[i.0 as usize];
    let y = claim(held, o.op);
    let t = l.with_waiting(Waiting::Idle);
    Ok(lane_begin::complete(t, c, i, y, o.op, o.word))
}

// The served operation on block a.
fn served_on(x: Waiting, a: BlockNo) -> Result<Operation, Refusal>
    ensures { result ≡ served_on x a }
{
    match x {
        Waiting::Served(o) if o.word.block() == a => Ok(o),
        _ => Err(Refusal::Unexpected),
    }
}

// A grant with words.
fn grant_to(l: Lane, c: u8, m: DownMessage) -> Result<LanePart, Refusal>
    requires { c ≤ 8 }
    ensures { result ≡ part_of (grant_to LoadsOldest (served_on l.waiting m.block) c m l) }
{
    let o = served_on(l.waiting, m.block)?;
    grant(l, c, m, o)
}

// A bare grant.
fn bare_to(l: Lane, c: u8, m: DownMessage) -> Result<LanePart, Refusal>
    requires { c ≤ 8 }
    ensures { result ≡ part_of (bare_to (served_on l.waiting m.block) c m l) }
{
    let o = served_on(l.waiting, m.block)?;
    bare_grant(l, c, m.block, o)
}

// What a message does in a lane that has taken it.
fn receive(l: Lane, c: u8, m: DownMessage) -> Result<LanePart, Refusal>
    requires { c ≤ 8 }
    ensures { result ≡ part_of (deliver_kind capacity LoadsOldest m.kind c m l) }
{
    match m.kind {
        DownKind::Update => update(l, c, m.block),
        DownKind::Purge => purge(l, c, m.block),
        DownKind::Grant => grant_to(l, c, m),
        DownKind::BareGrant => bare_to(l, c, m),
    }
}

// The lane's part of deliver.
#[tactic(auto, unfolding(machine::specs::Machine::Deliver::deliver_lane))]
pub fn deliver_lane(l: Lane, c: u8) -> Result<LanePart, Refusal>
    requires { c ≤ 8 }
    ensures { result ≡ part_of (deliver_lane capacity LoadsOldest c l) }
{
    let (m, downs) = l.downs.take().ok_or(Refusal::NothingPending)?;
    receive(Lane { downs, ..l }, c, m)
}
