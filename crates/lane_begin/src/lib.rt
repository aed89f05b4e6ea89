// A lane's part of begin; a completion, which its part of deliver has too (crates/lane_deliver). A lane is handed in by value and comes back in a
// LanePart; a refused part has the reason alone. These functions are for the crates above and not for others: the bounds that some require are those of
// a store that is not corrupt.
#![tactic(auto)]

ghost use Rattle.std.specs.Prelude.{◌≡◌, ◌≤◌, ◌<◌};
ghost use Rattle.lanes.specs.UseOrder.{place_at};
ghost use Rattle.machine.specs.Machine.Change.{part_of};
ghost use Rattle.machine.specs.Machine.Begin.{complete_with, complete, waits, hit, read_of, eject_of, evict, miss, begin_lane, admits_of};
ghost use Rattle.queues.specs.Queues.{capacity};

use answers::Refusal;
use lanes::{Command, Lane, Operation, Waiting};
use machine::{LaneAnswer, LanePart};
use queues::{Message, ReturnKind, ReturnMessage};
use words::{Line, LineNo, Op, Performed, WordNo};

// The operation is done on line x, which comes to stand at i, and the lane's use order is the one given. What it waits for is not touched.
#[tactic(auto, unfolding(machine::specs::Machine::Begin::complete_with))]
pub fn complete_with(l: Lane, order: [LineNo; 8], i: LineNo, x: Line, op: Op, w: WordNo) -> LanePart
    requires { i.0 < 8 }
    ensures { Ok result ≡ part_of (complete_with order i x op w l) }
{
    let Performed { value, line } = x.perform(op, w);
    let mut lane = Lane { order, ..l };
    lane.lines[i.0 as usize] = line;
    LanePart {
        answer: LaneAnswer::Value(value),
        lane,
    }
}

// The same, and it is a use of that line.
pub fn complete(l: Lane, c: u8, i: LineNo, x: Line, op: Op, w: WordNo) -> LanePart
    requires { (c ≤ 8) × (i.0 < 8) }
    ensures { Ok result ≡ part_of (complete c i x op w l) }
{
    complete_with(l, lanes::used(l.order, c, i), i, x, op, w)
}

// The lane waits with a command.
fn wait(l: Lane, command: Command, op: Op, word: WordNo) -> LanePart
    ensures { Ok result ≡ part_of (waits command op word l) }
{
    LanePart {
        answer: LaneAnswer::Waits,
        lane: l.with_waiting(Waiting::Unserved(Operation { command, op, word })),
    }
}

// Begin on a block that line i holds: load needs no more, the others need PRIVATE.
#[tactic(auto, unfolding(machine::specs::Machine::Begin::hit))]
fn hit(l: Lane, c: u8, i: LineNo, op: Op, w: WordNo) -> LanePart
    requires { (c ≤ 8) × (i.0 < 8) }
    ensures { Ok result ≡ part_of (hit c i op w l) }
{
    let held = l.lines[i.0 as usize];
    if op.is_load() || held.private {
        complete(l, c, i, held, op, w)
    } else {
        wait(l, Command::Exclude, op, w)
    }
}

// The command of a miss.
fn read_of(op: Op) -> Command
    ensures { result ≡ read_of op }
{
    if op.is_load() {
        Command::ReadShared
    } else {
        Command::ReadExclusive
    }
}

// What a line that is given up sends: main memory lacks the words of a PRIVATE line.
fn eject(x: Line) -> ReturnMessage
    ensures { result ≡ eject_of x }
{
    if x.private {
        Message::with_words(ReturnKind::WriteEject, x.block, x.words)
    } else {
        Message::bare(ReturnKind::Eject, x.block)
    }
}

// The eviction of line i, after which the lane waits.
#[tactic(auto, unfolding(machine::specs::Machine::Begin::evict))]
fn evict(l: Lane, i: LineNo, op: Op, w: WordNo) -> Result<LanePart, Refusal>
    requires { i.0 < 8 }
    ensures { result ≡ part_of (evict capacity i op w l) }
{
    let x = l.lines[i.0 as usize];
    let returns = l.returns.push(eject(x)).ok_or(Refusal::QueueFull)?;
    let mut lane = Lane { returns, ..l };
    lane.lines[i.0 as usize] = x.invalidated();
    Ok(wait(lane, read_of(op), op, w))
}

// Begin on a block not held: a line must be free for the grant's words.
#[tactic(auto, unfolding(machine::specs::Machine::Begin::miss))]
fn miss(l: Lane, c: u8, op: Op, w: WordNo) -> Result<LanePart, Refusal>
    requires { (c ≤ 8) × ((place_at l.order 0).0 < 8) }
    ensures { result ≡ part_of (miss capacity c op w l) }
{
    match l.vacant(c) {
        Some(_) => Ok(wait(l, read_of(op), op, w)),
        None => evict(l, l.order[0], op, w),
    }
}

// Whether the lane begins the operation: one that waits begins a load that hits, and nothing else.
#[tactic(auto, unfolding(machine::specs::Machine::Begin::admits_of))]
pub fn admits(l: Lane, c: u8, op: Op, w: WordNo) -> bool
    requires { c ≤ 8 }
    ensures { result ≡ admits_of c op w l }
{
    l.waiting.idle() || l.search(c, w.block()).is_some() && op.is_load()
}

// The lane's part of begin.
#[tactic(auto, using(lanes::proofs::Firsts::first_bound), unfolding(machine::specs::Machine::Begin::begin_lane))]
pub fn begin_lane(l: Lane, c: u8, op: Op, w: WordNo) -> Result<LanePart, Refusal>
    requires { (c ≤ 8) × ((place_at l.order 0).0 < 8) }
    ensures { result ≡ part_of (begin_lane capacity c op w l) }
{
    let Some(i) = l.search(c, w.block()) else {
        return miss(l, c, op, w);
    };
    Ok(hit(l, c, i, op, w))
}
