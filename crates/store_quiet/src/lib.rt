// Quiet: whether there is nothing left to do for settle. The definitions are store's (store/specs/Quiet.antt).
// For settle and not for others.
#![tactic(auto)]

ghost use Rattle.std.specs.Prelude.{◌≡◌};
ghost use Rattle.store.specs.Quiet.{active_of, quiet_of};

use lanes::Lane;
use store::Store;

// Whether the lane's operation waits or one of its queues is filled.
#[tactic(auto, unfolding(store::specs::Quiet::active_of))]
fn active(l: &Lane) -> bool
    ensures { result ≡ active_of l.now }
{
    !l.waiting.idle() || 0 < l.returns.len || 0 < l.downs.len
}

// Whether the store is quiet: no operation waits, no service, queues empty. For settle, on a store that is not corrupt.
#[tactic(auto, unfolding(store::specs::Quiet::quiet_of))]
pub fn quiet(s: &Store) -> bool
    ensures { result ≡ quiet_of s.now }
{
    !s.control.busy() && !s.lanes.iter().take(s.shape.n as usize).any(active)
}
