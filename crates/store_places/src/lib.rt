// Document 02, W1: completions so far plus operations waiting, which never pass the last place in 32 bits. The definitions are
// machine's (machine/specs/Machine/Begun.antt). For our own crates above.
#![tactic(auto)]

ghost use Rattle.std.specs.Prelude.{◌≡◌};
ghost use Rattle.machine.specs.Machine.Begun.{begun_in, exhausted_of, overrun_of};

use store::Store;

// The last place.
const LAST_PLACE: u64 = 4294967295;

// Completions so far plus operations waiting.
fn begun(s: &Store) -> u64
    ensures { result ≡ begun_in s.now }
{
    let lanes = s.lanes.iter().take(s.shape.n as usize);
    s.completions as u64 + lanes.filter(|l| !l.waiting.idle()).count() as u64
}

// 17: no place is left for one operation more. A tape pays one comparison for it: the lanes are looked at only where n more operations could
// reach the last place.
pub fn exhausted(s: &Store) -> bool
    ensures { result ≡ exhausted_of s.now }
{
    LAST_PLACE <= s.completions as u64 + s.shape.n as u64 && begun(s) == LAST_PLACE
}

// 14: there are more operations than places.
pub fn overrun(s: &Store) -> bool
    ensures { result ≡ overrun_of s.now }
{
    LAST_PLACE < begun(s)
}
