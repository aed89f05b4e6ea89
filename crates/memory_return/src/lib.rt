// Memory's part of return: a lane, a block and the control are handed in by value and come back in a MemoryPart.
// Functions with a requires are for the crates above and not for others.
#![tactic(auto)]

ghost use Rattle.std.specs.Prelude.{◌≡◌, ◌<◌};
ghost use Rattle.queues.specs.Queues.{after_take};
ghost use Rattle.lanes.specs.declared.Lane.{Lane};
ghost use Rattle.lanes.specs.Lanes.{with_returns};
ghost use Rattle.store.specs.declared.Block.{Block};
ghost use Rattle.store.specs.Control.{answer_of};
ghost use Rattle.machine.specs.Machine.LaneBytes.{move_of};
ghost use Rattle.machine.specs.Machine.Return.{absent, written_back, taken_by, is_answer, counted_move, return_move};
ghost use Rattle.memory_return.specs.Bounds.{LaneBelow};

use answers::Refusal;
use lanes::Lane;
use machine::MemoryPart;
use queues::{ReturnKind, ReturnMessage};
use store::{Block, Control, Counted};
use words::{BlockNo, LaneNo};

// The block with k's PRESENT reset.
fn absent_block(k: LaneNo, b: Block) -> Block
    requires { k.0 < 8 }
    ensures { result ≡ absent k b }
{
    let mut u = b;
    u.present[k.0 as usize] = false;
    u
}

// The block with words written back and MODIFIED reset.
fn written_block(words: [u32; 4], b: Block) -> Block
    ensures { result ≡ written_back words b }
{
    Block {
        words,
        modified: false,
        ..b
    }
}

// What lane k's message makes of its block.
fn taken_block(x: ReturnMessage, k: LaneNo, b: Block) -> Block
    requires { k.0 < 8 }
    ensures { result ≡ taken_by x.kind x.words k b }
{
    let u = absent_block(k, b);
    match x.kind {
        ReturnKind::Eject | ReturnKind::Purged | ReturnKind::Gone => u,
        ReturnKind::WriteEject | ReturnKind::PurgedWords => written_block(x.words, u),
        ReturnKind::Updated => written_block(x.words, b),
    }
}

// Whether a message answers an order.
fn is_answer(kind: ReturnKind) -> bool
    ensures { result ≡ is_answer kind }
{
    !matches!(kind, ReturnKind::Eject | ReturnKind::WriteEject)
}

// An answer for block a is counted; t and u are the lane and the block after the message is taken, and the move is said of any before it.
fn count_answer(y: Control, a: BlockNo, t: Lane, u: Block) -> Result<MemoryPart, Refusal>
    requires { LaneBelow y 8 }
    ensures { (l : Lane) (b : Block) → move_of l b y result ≡ counted_move (answer_of y a) l b y t u }
{
    match y.answer(a).ok_or(Refusal::Unexpected)? {
        Counted::Awaits(v) => Ok(memory_close::send_nothing(t, u, y.update(v))),
        Counted::Closes(v) => Ok(memory_close::close_service(v, t, u, y.close(v))),
    }
}

// The lane once the head of its return queue has left.
fn without_head(l: Lane) -> Lane
    ensures { result ≡ with_returns (after_take l.returns) l }
{
    match l.returns.take() {
        Some((_, returns)) => Lane { returns, ..l },
        None => l,
    }
}

// Memory takes x, the head of lane k's return queue.
pub fn return_move(
    l: Lane,
    b: Block,
    y: Control,
    k: LaneNo,
    x: ReturnMessage,
) -> Result<MemoryPart, Refusal>
    requires { (k.0 < 8) × LaneBelow y 8 }
    ensures { move_of l b y result ≡ return_move k x l b y }
{
    let t = without_head(l);
    let u = taken_block(x, k, b);
    if is_answer(x.kind) {
        count_answer(y, x.block, t, u)
    } else {
        Ok(memory_close::send_nothing(t, u, y))
    }
}
