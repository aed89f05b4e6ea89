// Refusal 14, a lane's part: whether a lane breaks a bound. Each function mirrors the definition of its name in
// machine/specs/Machine/Corruption.antt. All are for the crates above and not for others.
#![tactic(auto)]

ghost use Rattle.std.specs.Prelude.{◌≡◌, ◌<◌, ◌≤◌};
ghost use Rattle.queues.specs.declared.Message.{Message};
ghost use Rattle.queues.specs.Queues.{capacity};
ghost use Rattle.machine.specs.Machine.Corruption.{bad_line, bad_lines, bad_queue, bad_waiting, bad_use, bad_order, bad_lane};

use lanes::{Lane, Waiting};
use queues::{CAPACITY, Queue};
use words::{Line, LineNo};

// Whether a valid line has a block number out of range.
fn bad_line(l: Line, m: u8) -> bool
    ensures { result ≡ bad_line m l }
{
    l.valid && m <= l.block.0
}

// Whether one of the first c lines has.
fn bad_lines(lines: [Line; 8], c: u8, m: u8) -> bool
    requires { c ≤ 8 }
    ensures { result ≡ bad_lines c m lines }
{
    lines[..c as usize].iter().any(|x| bad_line(*x, m))
}

// Whether a queue of either direction is longer than its places, or has a message with a block number out of range.
fn bad_queue<K: Copy>(q: Queue<K>, m: u8) -> bool
    ensures { (nothing : Message K) → result ≡ bad_queue nothing capacity m q }
{
    CAPACITY < q.len || q.at[..q.len as usize].iter().any(|x| m <= x.block.0)
}

// Whether a waiting operation's word is out of range.
fn bad_waiting(w: Waiting, m: u8) -> bool
    ensures { result ≡ bad_waiting m w }
{
    match w {
        Waiting::Idle => false,
        Waiting::Unserved(o) | Waiting::Served(o) => m <= o.word.block().0,
    }
}

// Whether place k of a use order names no line of the first c, or one that an earlier place names.
fn bad_use(order: [LineNo; 8], c: u8, k: u8) -> bool
    requires { k < 8 }
    ensures { result ≡ bad_use c order k }
{
    let x = order[k as usize];
    c <= x.0 || order[..k as usize].iter().any(|y| *y == x)
}

// Whether a use order does not name each of the first c lines once.
fn bad_order(order: [LineNo; 8], c: u8) -> bool
    requires { c ≤ 8 }
    ensures { result ≡ bad_order c order }
{
    (0..c).any(|k| bad_use(order, c, k))
}

// Whether a lane of c lines breaks a bound.
#[tactic(auto, unfolding(machine::specs::Machine::Corruption::bad_lane, words::specs::Folds::any_of))]
pub fn bad_lane(l: Lane, c: u8, m: u8) -> bool
    requires { c ≤ 8 }
    ensures { result ≡ bad_lane capacity c m l }
{
    bad_lines(l.lines, c, m)
        || bad_order(l.order, c)
        || bad_queue(l.returns, m)
        || bad_queue(l.downs, m)
        || bad_waiting(l.waiting, m)
}
