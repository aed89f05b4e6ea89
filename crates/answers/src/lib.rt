// What a call answers: the documents' refusals by name, completions, and the answer itself.
#![tactic(auto)]

ghost use Rattle.std.specs.Prelude.{◌≡◌};
ghost use Rattle.answers.specs.Refusals.{number_of};
ghost use Rattle.answers.specs.Completions.{completion_of};

use words::LaneNo;

// Why a call is refused, with the number that 01 or 02 gives it. Behind each: 01's word.
#[derive(Clone, Copy)]
pub enum Refusal {
    Truncated = 1, // cut: a tape ends inside a record
    UnknownKind = 2, // stranger: no record has this kind
    NotOpen = 3, // shut: no opening so far
    AlreadyOpen = 4, // open already
    InvalidShape = 5, // no such bench: n, c or m out of range
    NoSuchLane = 6,
    NoSuchWord = 7,
    LaneBusy = 8, // occupied: the lane's operation waits, and this is no load that hits
    NothingPending = 9, // nothing there: no operation to serve, or an empty queue
    ControlBusy = 10, // engaged: the operation's block is in service, or L services are under way
    ReturnsPending = 11, // returns first: the lane's return queue has a message
    QueueFull = 12, // jam
    TapeTooLong = 13, // too long
    Corrupt = 14, // spoilt: the store breaks its own bounds
    BufferTooShort = 15, // sheet short: the picture, or a tape's text, may not fit
    Unexpected = 16, // stray: a message that nobody waits for, or a settle that is stuck
    PlacesExhausted = 17, // document 02, W1: no place is left for one completion more
    InvalidLimit = 18, // document 02, W6: L is outside 1 to 8
}

impl Refusal {
    // The number of the refusal.
    pub fn number(self) -> u8
        ensures { result ≡ number_of self }
    {
        self as u8
    }
}

// An operation that is done: its lane, the value it gives, and its place among the completions since opening, counting from 1.
#[derive(Clone, Copy)]
pub struct Completion {
    pub lane: LaneNo,
    pub value: u32,
    pub place: u32,
}

// The one way to make a completion.
pub fn completed(lane: LaneNo, value: u32, place: u32) -> Completion
    ensures { result ≡ completion_of lane value place }
{
    Completion { lane, value, place }
}

// What a call or a tape's record answers where it is not refused.
#[derive(Clone, Copy)]
pub enum Answer {
    Opened,
    Done(Completion),
    Wait,
    Step,
}
