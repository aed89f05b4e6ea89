// Memory's part of serve: a lane, a block and the control are handed in by value and come back in a MemoryPart.
// The orders of a serve are one byte, bit j (value 2 to the power j) for lane j, worked out before any of them is queued.
// Functions with a requires are for the crates above and not for others.
#![tactic(auto)]

ghost use Rattle.std.specs.Prelude.{◌≡◌, ◌<◌};
ghost use Rattle.machine.specs.Machine.LaneBytes.{bits_in, byte_of, orders_byte, move_with};
ghost use Rattle.machine.specs.Machine.Serve.{sends_of, order_of, bare_of, ready_of, service_for, serve_move};

use answers::Refusal;
use lanes::{Command, Lane, Operation, Waiting};
use machine::MemoryPart;
use queues::{DownKind, Message};
use store::{Block, Control, Service};
use words::LaneNo;

// Whether a command sends orders to the other lanes.
fn sends(x: Command, modified: bool) -> bool
    ensures { result ≡ sends_of x modified }
{
    match x {
        Command::ReadShared => modified,
        Command::ReadExclusive | Command::Exclude => true,
    }
}

// The order that a command sends.
fn order_kind(x: Command) -> DownKind
    ensures { result ≡ order_of x }
{
    match x {
        Command::ReadShared => DownKind::Update,
        Command::ReadExclusive | Command::Exclude => DownKind::Purge,
    }
}

// Eight flags in one byte, flag j as bit j.
fn flags_byte(p: [bool; 8]) -> u8
    ensures { result ≡ byte_of p }
{
    let low = p[0] as u8 | (p[1] as u8) << 1 | (p[2] as u8) << 2 | (p[3] as u8) << 3;
    let high = (p[4] as u8) << 4 | (p[5] as u8) << 5 | (p[6] as u8) << 6 | (p[7] as u8) << 7;
    low | high
}

// The lanes that lane k's command sends orders to, in a byte.
#[tactic(auto, unfolding(machine::specs::Machine::LaneBytes::orders_byte, machine::specs::Machine::LaneBytes::byte_of, machine::specs::Machine::Serve::ordered, words::specs::Folds::sum_to))]
fn orders_byte(b: Block, k: LaneNo, x: Command) -> u8
    requires { k.0 < 8 }
    ensures { result ≡ orders_byte b k x }
{
    if sends(x, b.modified) {
        let mut others = b.present;
        others[k.0 as usize] = false;
        return flags_byte(others);
    }
    0
}

// How many bits of a byte are set.
fn count(x: u8) -> u8
    ensures { result ≡ bits_in x }
{
    x.count_ones() as u8
}

// Whether the grant for a command is bare, by the lane's PRESENT.
fn is_bare(x: Command, present: bool) -> bool
    ensures { result ≡ bare_of x present }
{
    matches!(x, Command::Exclude) && present
}

// Serve's own checks: 9, 10, 11.
#[tactic(auto, unfolding(machine::specs::Machine::Serve::ready_of))]
pub fn check_ready(l: Lane, limit: u8, x: Control) -> Result<Operation, Refusal>
    ensures { result ≡ ready_of l limit x }
{
    let Waiting::Unserved(o) = l.waiting else {
        return Err(Refusal::NothingPending);
    };
    if x.busy_for(limit, o.word.block()) {
        return Err(Refusal::ControlBusy);
    }
    if 0 < l.returns.len {
        return Err(Refusal::ReturnsPending);
    }
    Ok(o)
}

// The service of lane k's operation.
fn service_for(k: LaneNo, o: Operation, b: Block, awaited: u8) -> Service
    requires { k.0 < 8 }
    ensures { result ≡ service_for k o b awaited }
{
    Service {
        lane: k,
        block: o.word.block(),
        command: o.command,
        awaited,
        bare: is_bare(o.command, b.present[k.0 as usize]),
    }
}

// Memory takes lane k's command: orders go out, or the service closes at once.
pub fn serve_move(l: Lane, b: Block, x: Control, k: LaneNo, o: Operation) -> MemoryPart
    requires { k.0 < 8 }
    ensures { move_with result ≡ serve_move k o l b x }
{
    let to = orders_byte(b, k, o.command);
    let n = count(to);
    let v = service_for(k, o, b, n);
    let lane = l.with_waiting(Waiting::Served(o));
    if n == 0 {
        return memory_close::close_service(v, lane, b, x);
    }
    MemoryPart {
        lane,
        block: b,
        control: x.open(v),
        to,
        message: Message::bare(order_kind(o.command), o.word.block()),
    }
}
