// A lane and its parts.
ghost use Rattle.std.specs.Prelude.{◌≤◌, length};

use crate::as_bytes::{AsBytes, Numbered, all_from, put_all};
use lanes::{Command, Lane, Operation, Waiting};
use queues::{DownKind, Message, Queue, ReturnKind};
use words::{BlockNo, Line, Op, WordNo};

impl Numbered for Command {
    fn number(self) -> u8 {
        self as u8
    }

    fn of_number(x: u8) -> Command {
        match x {
            0 => Command::ReadShared,
            1 => Command::ReadExclusive,
            _ => Command::Exclude,
        }
    }
}

impl Numbered for ReturnKind {
    fn number(self) -> u8 {
        self as u8
    }

    fn of_number(x: u8) -> ReturnKind {
        match x {
            0 => ReturnKind::Eject,
            1 => ReturnKind::WriteEject,
            2 => ReturnKind::Updated,
            3 => ReturnKind::Purged,
            4 => ReturnKind::PurgedWords,
            _ => ReturnKind::Gone,
        }
    }
}

impl Numbered for DownKind {
    fn number(self) -> u8 {
        self as u8
    }

    fn of_number(x: u8) -> DownKind {
        match x {
            0 => DownKind::Update,
            1 => DownKind::Purge,
            2 => DownKind::Grant,
            _ => DownKind::BareGrant,
        }
    }
}

impl AsBytes for Line {
    ghost SIZE = { 19 };

    const SIZE: usize = 19;

    fn put(&self, out: &mut [u8]) {
        out[0] = self.valid as u8;
        out[1] = self.private as u8;
        out[2] = self.block.0;
        put_all(&self.words, &mut out[3..]);
    }

    fn from_bytes(bytes: &[u8]) -> Line {
        Line {
            valid: bytes[0] != 0,
            private: bytes[1] != 0,
            block: BlockNo(bytes[2]),
            words: all_from(&bytes[3..]),
        }
    }
}

impl<K: Numbered> AsBytes for Message<K> {
    ghost SIZE = { 18 };

    const SIZE: usize = 18;

    fn put(&self, out: &mut [u8]) {
        out[0] = self.kind.number();
        out[1] = self.block.0;
        put_all(&self.words, &mut out[2..]);
    }

    fn from_bytes(bytes: &[u8]) -> Message<K> {
        Message {
            kind: K::of_number(bytes[0]),
            block: BlockNo(bytes[1]),
            words: all_from(&bytes[2..]),
        }
    }
}

impl<K: Numbered> AsBytes for Queue<K> {
    ghost SIZE = { 145 };

    const SIZE: usize = 145;

    fn put(&self, out: &mut [u8]) {
        out[0] = self.len;
        put_all(&self.at, &mut out[1..]);
    }

    fn from_bytes(bytes: &[u8]) -> Queue<K> {
        Queue {
            len: bytes[0],
            at: all_from(&bytes[1..]),
        }
    }
}

// The operation's number, and its v; a load's v is 0.
impl AsBytes for Op {
    ghost SIZE = { 5 };

    const SIZE: usize = 5;

    fn put(&self, out: &mut [u8]) {
        let (number, v) = match *self {
            Op::Load => (0, 0),
            Op::Store(v) => (1, v),
            Op::Exchange(v) => (2, v),
            Op::Add(v) => (3, v),
        };
        out[0] = number;
        v.put(&mut out[1..]);
    }

    fn from_bytes(bytes: &[u8]) -> Op {
        let v = u32::from_bytes(&bytes[1..]);
        match bytes[0] {
            0 => Op::Load,
            1 => Op::Store(v),
            2 => Op::Exchange(v),
            _ => Op::Add(v),
        }
    }
}

impl AsBytes for Operation {
    ghost SIZE = { 7 };

    const SIZE: usize = 7;

    fn put(&self, out: &mut [u8]) {
        out[0] = self.command.number();
        self.op.put(&mut out[1..]);
        out[6] = self.word.0;
    }

    fn from_bytes(bytes: &[u8]) -> Operation {
        Operation {
            command: Command::of_number(bytes[0]),
            op: AsBytes::from_bytes(&bytes[1..]),
            word: WordNo(bytes[6]),
        }
    }
}

impl AsBytes for Waiting {
    ghost SIZE = { 8 };

    const SIZE: usize = 8;

    fn put(&self, out: &mut [u8]) {
        match self {
            Waiting::Idle => out[..8].fill(0),
            Waiting::Unserved(o) => put_operation(1, o, out),
            Waiting::Served(o) => put_operation(2, o, out),
        }
    }

    fn from_bytes(bytes: &[u8]) -> Waiting {
        let o = Operation::from_bytes(&bytes[1..]);
        match bytes[0] {
            0 => Waiting::Idle,
            1 => Waiting::Unserved(o),
            _ => Waiting::Served(o),
        }
    }
}

// An operation behind the number of its case.
fn put_operation(number: u8, o: &Operation, out: &mut [u8])
    requires { 8 ≤ length out.old }
{
    out[0] = number;
    o.put(&mut out[1..]);
}

impl AsBytes for Lane {
    ghost SIZE = { 458 };

    const SIZE: usize = 458;

    fn put(&self, out: &mut [u8]) {
        put_all(&self.lines, out);
        put_all(&self.order, &mut out[152..]);
        self.returns.put(&mut out[160..]);
        self.downs.put(&mut out[305..]);
        self.waiting.put(&mut out[450..]);
    }

    fn from_bytes(bytes: &[u8]) -> Lane {
        Lane {
            lines: all_from(bytes),
            order: all_from(&bytes[152..]),
            returns: AsBytes::from_bytes(&bytes[160..]),
            downs: AsBytes::from_bytes(&bytes[305..]),
            waiting: AsBytes::from_bytes(&bytes[450..]),
        }
    }
}
