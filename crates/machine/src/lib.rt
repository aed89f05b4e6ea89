// Document 01's machine, with document 02's requests that have landed, is in specs/, as definitions that the calls' contracts cite. Here are the declared types that they speak
// of beside the store's own, and those in which the code hands on its part of a call.
#![tactic(auto)]

use lanes::Lane;
use queues::DownMessage;
use store::{Block, Control};

// What a lane's part of a call comes to where it isn't refused: the value of the operation that completes, an operation that waits, or a step.
#[derive(Clone, Copy)]
pub enum LaneAnswer {
    Value(u32),
    Waits,
    Stepped,
}

// A lane's part of a call that isn't refused: what it comes to, and the lane after it.
#[derive(Clone, Copy)]
pub struct LanePart {
    pub answer: LaneAnswer,
    pub lane: Lane,
}

// Memory's part of a call that isn't refused: what becomes of the lane, the block and the control; the message that it sends, and to which lanes,
// as one byte: bit j (value 2 to the power j) for lane j.
#[derive(Clone, Copy)]
pub struct MemoryPart {
    pub lane: Lane,
    pub block: Block,
    pub control: Control,
    pub to: u8,
    pub message: DownMessage,
}

// The counts of a settle: its steps, and the orders that it sent itself.
#[derive(Clone, Copy)]
pub struct SettleCounts {
    pub steps: u16,
    pub orders: u8,
}
