// Bytes into a lent buffer. `put` requires that the bytes fit; it is for the crates above and not for others.
// Buffer and place are two parameters, not a struct: one that holds a `&mut` needs a clause more on each function, that it still holds the same.
#![tactic(auto)]

ghost use Rattle.std.specs.Prelude.{◌≡◌, ◌+◌, ◌≤◌, length};
ghost use Rattle.buffers.specs.Written.{written};

// Writes bytes from place `at` on and gives the place after them.
pub fn put(out: &mut [u8], at: usize, bytes: &[u8]) -> usize
    requires { at + length bytes.now ≤ length out.old }
    ensures { (result ≡ at + length bytes.now) × (out.new ≡ written out.old at bytes.now) }
{
    let end = at + bytes.len();
    out[at..end].copy_from_slice(bytes);
    end
}
