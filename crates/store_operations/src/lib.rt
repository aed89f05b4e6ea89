// The calls open to others that begin an operation: load, store, exchange, add. None has a requires; each is an equation with
// document 01's machine, refusals too.
#![tactic(auto)]

ghost use Rattle.std.specs.Prelude.{◌≡◌};
ghost use Rattle.words.specs.declared.Op.TheVariants as Op;
ghost use Rattle.machine.specs.Machine.Begin.{begin_of};

use store::{Outcome, Store};
use words::{LaneNo, Op, WordNo};

// Load.
pub fn load(s: Store, k: LaneNo, w: WordNo) -> Outcome
    ensures { result ≡ begin_of s k Op.Load w }
{
    store_calls::begin(s, k, Op::Load, w)
}

// Store v.
pub fn store_value(s: Store, k: LaneNo, w: WordNo, v: u32) -> Outcome
    ensures { result ≡ begin_of s k (Op.Store v) w }
{
    store_calls::begin(s, k, Op::Store(v), w)
}

// Exchange v.
pub fn exchange(s: Store, k: LaneNo, w: WordNo, v: u32) -> Outcome
    ensures { result ≡ begin_of s k (Op.Exchange v) w }
{
    store_calls::begin(s, k, Op::Exchange(v), w)
}

// Add v.
pub fn add(s: Store, k: LaneNo, w: WordNo, v: u32) -> Outcome
    ensures { result ≡ begin_of s k (Op.Add v) w }
{
    store_calls::begin(s, k, Op::Add(v), w)
}
