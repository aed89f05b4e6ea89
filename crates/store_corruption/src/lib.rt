// Refusal 14: whether a store breaks its own bounds. Each function mirrors the definition of its name in
// machine/specs/Machine/Corruption.antt. Only `corrupt` is open to others.
#![tactic(auto)]

ghost use Rattle.std.specs.Prelude.{◌≡◌, ◌<◌, ◌≤◌};
ghost use Rattle.words.specs.Folds.{any_to};
ghost use Rattle.queues.specs.Queues.{capacity};
ghost use Rattle.store.specs.Control.{slot_at, is_for};
ghost use Rattle.store.specs.Stores.{lane_at, block_at};
ghost use Rattle.machine.specs.Machine.Corruption.{bad_lane, bad_flags, bad_service, bad_slot, bad_control, corrupt_of};

use store::{Block, Control, SLOTS, Service, Store};
use words::{BlockNo, Shape};

// Whether one of the n lanes breaks a bound.
fn bad_lanes(s: &Store) -> bool
    requires { (s.now.shape.n ≤ 8) × (s.now.shape.c ≤ 8) }
    ensures { result ≡ any_to (λ k. bad_lane capacity s.now.shape.c s.now.shape.m (lane_at s.now k)) s.now.shape.n }
{
    let Shape { n, c, m, .. } = s.shape;
    s.lanes[..n as usize]
        .iter()
        .any(|l| lane_corruption::bad_lane(*l, c, m))
}

// Whether PRESENT is set for a lane although its number is n or above.
#[tactic(auto, unfolding(machine::specs::Machine::Corruption::bad_flags))]
fn bad_flags(b: &Block, n: u8) -> bool
    ensures { result ≡ bad_flags n b.now }
{
    b.present
        .iter()
        .enumerate()
        .any(|(k, x)| n as usize <= k && *x)
}

// .. in one of the m blocks.
fn bad_blocks(s: &Store) -> bool
    requires { s.now.shape.m ≤ 64 }
    ensures { result ≡ any_to (λ a. bad_flags s.now.shape.n (block_at s.now a)) s.now.shape.m }
{
    s.blocks[..s.shape.m as usize]
        .iter()
        .any(|b| bad_flags(b, s.shape.n))
}

// Whether a service has a lane or block number out of range, or awaits more than n - 1 answers.
fn bad_service(v: Service, n: u8, m: u8) -> bool
    ensures { result ≡ bad_service n m v }
{
    n <= v.lane.0 || m <= v.block.0 || n <= v.awaited
}

// Whether a slot before slot k has a service of block a.
fn taken_before(x: &Control, a: BlockNo, k: usize) -> bool
    requires { k ≤ 8 }
    ensures { result ≡ any_to (λ j. is_for a (slot_at x.now j)) k }
{
    x.slots[..k].iter().any(|slot| store::is_for(*slot, a))
}

// Whether the service in slot k breaks a bound, or an earlier one has its block.
fn bad_slot(x: &Control, n: u8, m: u8, k: usize) -> bool
    requires { k < 8 }
    ensures { result ≡ bad_slot n m x.now k }
{
    match x.slots[k] {
        Some(v) => bad_service(v, n, m) || taken_before(x, v.block, k),
        None => false,
    }
}

// Whether the services exceed L, or one of them is bad.
#[tactic(auto, unfolding(machine::specs::Machine::Corruption::bad_control))]
fn bad_control(shape: Shape, x: &Control) -> bool
    ensures { result ≡ bad_control shape x.now }
{
    shape.limit < x.services() || (0..SLOTS).any(|k| bad_slot(x, shape.n, shape.m, k))
}

// Whether the store breaks its own bounds.
#[tactic(auto, unfolding(machine::specs::Machine::Corruption::corrupt_of, words::specs::Folds::any_of))]
pub fn corrupt(s: Store) -> bool
    ensures { result ≡ corrupt_of s }
{
    store_opening::bad_shape(s.shape)
        || store_opening::bad_limit(s.shape)
        || bad_control(s.shape, &s.control)
        || bad_lanes(&s)
        || bad_blocks(&s)
        || store_places::overrun(&s)
}
