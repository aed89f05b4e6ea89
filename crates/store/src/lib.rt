// The store: main memory's blocks, the control with its services, the lanes.
// Functions are for the crates above and not for others.
#![tactic(auto)]

ghost use Rattle.std.specs.Prelude.{◌≡◌, ◌<◌, ℕ, IfSome};
ghost use Rattle.store.specs.Control.{slot_count, slot_number, with_slot, is_for, slot_of, service_of, open_services, busy_of, busy_for, free_slot, with_service, with_updated, without_service, answer_of};

use answers::{Answer, Refusal};
use lanes::{Command, Lane};
use words::{BlockNo, LaneNo, Shape};

// A block of main memory with its directory entry: PRESENT, a presence flag for each lane, and MODIFIED.
#[derive(Clone, Copy)]
pub struct Block {
    pub words: [u32; 4],
    pub present: [bool; 8],
    pub modified: bool,
}

// A service: whom it is for, the command, the answers still awaited, and whether its grant is bare.
#[derive(Clone, Copy)]
pub struct Service {
    pub lane: LaneNo,
    pub block: BlockNo,
    pub command: Command,
    pub awaited: u8,
    pub bare: bool,
}

// The slots of the control.
pub const SLOTS: usize = 8;

// The control: services of different blocks, each in a slot. A new one takes the lowest free slot and stays there until it closes.
#[derive(Clone, Copy)]
pub struct Control {
    pub slots: [Option<Service>; SLOTS],
}

// What an answer does that somebody awaits: the service awaits one answer fewer, or closes.
#[derive(Clone, Copy)]
pub enum Counted {
    Awaits(Service),
    Closes(Service),
}

// Whether there is a service of block a in the slot.
pub fn is_for(slot: Option<Service>, a: BlockNo) -> bool
    ensures { result ≡ is_for a slot }
{
    match slot {
        Some(v) => v.block == a,
        None => false,
    }
}

impl Control {
    // The slot of block a's service.
    fn find(self, a: BlockNo) -> Option<usize>
        ensures { result ≡ slot_number (slot_of self a) }
    {
        self.slots.iter().position(|slot| is_for(*slot, a))
    }

    // The lowest free slot.
    fn vacant(self) -> Option<usize>
        ensures { result ≡ slot_number (free_slot self) }
    {
        self.slots.iter().position(|slot| slot.is_none())
    }

    // How many services are under way.
    pub fn services(self) -> u8
        ensures { result ≡ open_services self }
    {
        self.slots.iter().filter(|slot| slot.is_some()).count() as u8
    }

    // Whether a service is under way.
    pub fn busy(self) -> bool
        ensures { result ≡ busy_of self }
    {
        0 < self.services()
    }

    // 10: whether block a is in service, or as many services are under way as the limit allows.
    pub fn busy_for(self, limit: u8, a: BlockNo) -> bool
        ensures { result ≡ busy_for limit self a }
    {
        self.find(a).is_some() || limit <= self.services()
    }

    // The control with another slot i, if there is such a slot.
    fn with_slot(self, i: Option<usize>, slot: Option<Service>) -> Control
        requires { IfSome i (λ k. k < slot_count) }
        ensures { (k : ℕ) → i ≡ slot_number k → result ≡ with_slot k slot self }
    {
        match i {
            Some(k) => {
                let mut x = self;
                x.slots[k] = slot;
                x
            }
            None => self,
        }
    }

    // A service is opened, in the lowest free slot.
    #[tactic(auto, unfolding(crate::specs::Control::with_service))]
    pub fn open(self, v: Service) -> Control
        ensures { result ≡ with_service v self }
    {
        self.with_slot(self.vacant(), Some(v))
    }

    // The service of v's block is v now.
    #[tactic(auto, unfolding(crate::specs::Control::with_updated))]
    pub fn update(self, v: Service) -> Control
        ensures { result ≡ with_updated v self }
    {
        self.with_slot(self.find(v.block), Some(v))
    }

    // v's block has no service any more.
    #[tactic(auto, unfolding(crate::specs::Control::without_service))]
    pub fn close(self, v: Service) -> Control
        ensures { result ≡ without_service v self }
    {
        self.with_slot(self.find(v.block), None)
    }

    // The service of block a.
    pub fn service(self, a: BlockNo) -> Option<Service>
        ensures { result ≡ service_of self a }
    {
        self.slots[self.find(a)?]
    }

    // An answer for block a: it belongs to the service of its block.
    pub fn answer(self, a: BlockNo) -> Option<Counted>
        ensures { result ≡ answer_of self a }
    {
        let v = self.service(a)?;
        match v.awaited {
            0 => None,
            1 => Some(Counted::Closes(v)),
            n => Some(Counted::Awaits(Service {
                awaited: n - 1,
                ..v
            })),
        }
    }
}

// The whole store: n lanes of c lines and m blocks, and a limit L of services at a time; what stands past n, c and m is no part of it. It counts the completions since opening.
#[derive(Clone, Copy)]
pub struct Store {
    pub shape: Shape,
    pub control: Control,
    pub completions: u32,
    pub lanes: [Lane; 8],
    pub blocks: [Block; 64],
}

// What a call gives: its answer, and the store after it.
#[derive(Clone, Copy)]
pub struct Outcome {
    pub answer: Result<Answer, Refusal>,
    pub store: Store,
}
