// 01's bound on the steps of a settle, R + G + 2 × Q + S + 2 × n × U, for the test programs: they put it out, so that it is compared with
// the reference's.
#![tactic(auto)]

ghost use Rattle.std.specs.Prelude.{◌≤◌, true, false, cond, ◌≡◌, min, take, length};
ghost use Rattle.machine.specs.Machine.Corruption.{corrupt_of};
ghost use Rattle.machine.specs.Machine.Settle.{is_order, downs_of, bound_of};

use queues::{DownKind, DownMessage, DownQueue};
use store::Store;

// Whether a message is an order.
fn is_order(x: DownKind) -> bool
    ensures { result ≡ is_order x }
{
    matches!(x, DownKind::Update | DownKind::Purge)
}

// The messages of a down queue.
fn messages(q: &DownQueue) -> &[DownMessage]
    ensures value { result.now ≡ take (min q.now.len 8) q.now.at }
    ensures places { length q.now.at ≡ 8 }
{
    let places = &q.at[..];
    &places[..places.len().min(q.len as usize)]
}

// How many of them are orders.
fn orders(q: &DownQueue) -> u16
    ensures value { result ≡ downs_of true q.now }
    ensures few { result ≤ 8 }
{
    messages(q).iter().filter(|m| is_order(m.kind)).count() as u16
}

// How many of them are grants. Not one function with `orders` over a flag: the two names say more than `true` and `false`.
fn grants(q: &DownQueue) -> u16
    ensures value { result ≡ downs_of false q.now }
    ensures few { result ≤ 8 }
{
    messages(q).iter().filter(|m| !is_order(m.kind)).count() as u16
}

// The bound of a store of at most 8 lanes.
fn bound(s: &Store) -> u16
    requires { s.now.shape.n ≤ 8 }
    ensures { result ≡ bound_of s.now }
{
    let n = s.shape.n;
    let lanes = &s.lanes[..n as usize];
    let (mut r, mut g, mut q, mut u) = (0, 0, 0, 0);
    for lane in lanes {
        r += lane.returns.len as u16;
        g += grants(&lane.downs);
        q += orders(&lane.downs);
        u += lane.waiting.unserved() as u16;
    }
    r + g + 2 * q + s.control.services() as u16 + 2 * n as u16 * u
}

// The bound of a store that is not corrupt; of another 0.
pub fn checked_bound(s: Store) -> u16
    ensures { result ≡ cond (corrupt_of s) 0 (bound_of s) }
{
    if store_corruption::corrupt(s) {
        return 0;
    }
    bound(&s)
}
