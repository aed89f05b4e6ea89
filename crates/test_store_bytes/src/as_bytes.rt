// What every part of a store has in common: so many bytes, written and read back. Arrays stand part by part, numbers low byte first.
ghost use Rattle.std.specs.Prelude.{ℕ, ◌+◌, ◌*◌, ◌≤◌, ◌<◌, length};

use words::LineNo;

// What stands in the first bytes of a slice.
pub trait AsBytes: Copy {
    ghost SIZE: { ℕ };

    // How many bytes those are.
    const SIZE: usize;

    fn put(&self, out: &mut [u8])
        requires { SIZE ≤ length out.old };

    fn from_bytes(bytes: &[u8]) -> Self
        requires { SIZE ≤ length bytes.now };
}

impl AsBytes for u32 {
    ghost SIZE = { 4 };

    const SIZE: usize = 4;

    fn put(&self, out: &mut [u8]) {
        out[..4].copy_from_slice(&self.to_le_bytes());
    }

    fn from_bytes(bytes: &[u8]) -> u32 {
        u32::from_le_bytes([bytes[0], bytes[1], bytes[2], bytes[3]])
    }
}

impl AsBytes for bool {
    ghost SIZE = { 1 };

    const SIZE: usize = 1;

    fn put(&self, out: &mut [u8]) {
        out[0] = *self as u8;
    }

    fn from_bytes(bytes: &[u8]) -> bool {
        bytes[0] != 0
    }
}

impl AsBytes for LineNo {
    ghost SIZE = { 1 };

    const SIZE: usize = 1;

    fn put(&self, out: &mut [u8]) {
        out[0] = self.0;
    }

    fn from_bytes(bytes: &[u8]) -> LineNo {
        LineNo(bytes[0])
    }
}

// Parts one behind the other.
pub(crate) fn put_all<T: AsBytes>(xs: &[T], out: &mut [u8])
    requires some { 0 < T.SIZE }
    requires room { length xs.now * T.SIZE ≤ length out.old }
{
    for (x, part) in xs.iter().zip(out.chunks_exact_mut(T::SIZE)) {
        x.put(part);
    }
}

pub(crate) fn all_from<T: AsBytes, const N: usize>(bytes: &[u8]) -> [T; N]
    requires { N * T.SIZE ≤ length bytes.now }
{
    std::array::from_fn(
        |i| -> T
            requires { i * T.SIZE + T.SIZE ≤ length bytes.now }
        { T::from_bytes(&bytes[i * T::SIZE..]) },
    )
}

// A case by its number. A number that names no case is read as the last case.
pub(crate) trait Numbered: Copy {
    fn number(self) -> u8;

    fn of_number(x: u8) -> Self;
}
