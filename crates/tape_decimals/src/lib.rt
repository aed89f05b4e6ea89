// A number in decimal into a lent buffer. It requires that the digits fit; it is for the crates above and not for others.
#![tactic(auto)]

ghost use Rattle.std.specs.Prelude.{◌≡◌, ◌+◌, ◌≤◌, ◌<◌, length};
ghost use Rattle.machine.specs.Machine.Text.{decimal_in};
ghost use Rattle.buffers.specs.Written.{written};

// A number in decimal, in at most `more` digits.
pub fn decimal_in(out: &mut [u8], at: usize, more: usize, n: u32) -> usize
    requires { at + more ≤ length out.old }
    ensures { (result ≡ at + length (decimal_in more n)) × (out.new ≡ written out.old at (decimal_in more n)) }
{
    if more == 0 {
        return at;
    }
    if n < 10 {
        return buffers::put(out, at, &[b'0' + n as u8]);
    }
    let last = decimal_in(out, at, more - 1, n / 10);
    buffers::put(out, last, &[b'0' + (n % 10) as u8])
}
