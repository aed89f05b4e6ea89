// Close, which serve and return share; and what return needs beside it, a part that sends nothing.
// Memory's part of a call goes up as a MemoryPart, and a contract says which Move of the definitions it stands for.
// Functions with a requires are for the crates above and not for others.
#![tactic(auto)]

ghost use Rattle.std.specs.Prelude.{◌≡◌, ◌<◌};
ghost use Rattle.store.specs.LaneSets.{only};
ghost use Rattle.machine.specs.Machine.LaneBytes.{byte_of, move_with};
ghost use Rattle.machine.specs.Machine.Serve.{exclusively, closed_block, grant_of, close};
ghost use Rattle.machine.specs.Machine.Return.{send_nothing};

use lanes::{Command, Lane};
use machine::MemoryPart;
use queues::{DownKind, DownMessage, Message};
use store::{Block, Control, Service};
use words::{BlockNo, LaneNo};

// Lane k alone.
fn only_lane(k: LaneNo) -> [bool; 8]
    requires { k.0 < 8 }
    ensures { result ≡ only k }
{
    let mut t = [false; 8];
    t[k.0 as usize] = true;
    t
}

// Lane k alone, in a byte.
fn lane_byte(k: LaneNo) -> u8
    requires { k.0 < 8 }
    ensures { result ≡ byte_of (only k) }
{
    1 << k.0
}

// Memory's part where nothing is sent.
pub fn send_nothing(lane: Lane, block: Block, control: Control) -> MemoryPart
    ensures { move_with result ≡ send_nothing lane block control }
{
    MemoryPart {
        lane,
        block,
        control,
        to: 0,
        message: Message::bare(DownKind::Update, BlockNo(0)),
    }
}

// The block of lane k alone.
fn exclusive_block(b: Block, k: LaneNo) -> Block
    requires { k.0 < 8 }
    ensures { result ≡ exclusively b k }
{
    Block {
        present: only_lane(k),
        modified: true,
        ..b
    }
}

// The block once lane k's command for it is granted.
fn closed_block(x: Command, b: Block, k: LaneNo) -> Block
    requires { k.0 < 8 }
    ensures { result ≡ closed_block x b k }
{
    match x {
        Command::ReadShared => {
            let mut u = b;
            u.present[k.0 as usize] = true;
            u
        }
        Command::ReadExclusive | Command::Exclude => exclusive_block(b, k),
    }
}

// The grant of a service.
fn grant(b: Block, v: Service) -> DownMessage
    ensures { result ≡ grant_of b v }
{
    if v.bare {
        Message::bare(DownKind::BareGrant, v.block)
    } else {
        Message::with_words(DownKind::Grant, v.block, b.words)
    }
}

// A service closes; control is the one without it.
pub fn close_service(v: Service, lane: Lane, b: Block, control: Control) -> MemoryPart
    requires { v.lane.0 < 8 }
    ensures { move_with result ≡ close v lane b control }
{
    MemoryPart {
        lane,
        block: closed_block(v.command, b, v.lane),
        control,
        to: lane_byte(v.lane),
        message: grant(b, v),
    }
}
