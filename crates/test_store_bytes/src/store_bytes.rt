// The store, its control and its blocks.
use crate::as_bytes::{AsBytes, Numbered, all_from, put_all};
use lanes::Command;
use store::{Block, Control, Service, Store};
use words::{BlockNo, LaneNo, Shape};

impl AsBytes for Shape {
    ghost SIZE = { 4 };

    const SIZE: usize = 4;

    fn put(&self, out: &mut [u8]) {
        out[..4].copy_from_slice(&[self.n, self.c, self.m, self.limit]);
    }

    fn from_bytes(bytes: &[u8]) -> Shape {
        Shape {
            n: bytes[0],
            c: bytes[1],
            m: bytes[2],
            limit: bytes[3],
        }
    }
}

impl AsBytes for Service {
    ghost SIZE = { 5 };

    const SIZE: usize = 5;

    fn put(&self, out: &mut [u8]) {
        out[0] = self.lane.0;
        out[1] = self.block.0;
        out[2] = self.command.number();
        out[3] = self.awaited;
        out[4] = self.bare as u8;
    }

    fn from_bytes(bytes: &[u8]) -> Service {
        Service {
            lane: LaneNo(bytes[0]),
            block: BlockNo(bytes[1]),
            command: Command::of_number(bytes[2]),
            awaited: bytes[3],
            bare: bytes[4] != 0,
        }
    }
}

// A slot: 1 and the service in it, or zeros.
impl AsBytes for Option<Service> {
    ghost SIZE = { 6 };

    const SIZE: usize = 6;

    fn put(&self, out: &mut [u8]) {
        match self {
            Some(service) => {
                out[0] = 1;
                service.put(&mut out[1..]);
            }
            None => out[..6].fill(0),
        }
    }

    fn from_bytes(bytes: &[u8]) -> Option<Service> {
        match bytes[0] {
            0 => None,
            _ => Some(AsBytes::from_bytes(&bytes[1..])),
        }
    }
}

impl AsBytes for Block {
    ghost SIZE = { 25 };

    const SIZE: usize = 25;

    fn put(&self, out: &mut [u8]) {
        put_all(&self.words, out);
        put_all(&self.present, &mut out[16..]);
        out[24] = self.modified as u8;
    }

    fn from_bytes(bytes: &[u8]) -> Block {
        Block {
            words: all_from(bytes),
            present: all_from(&bytes[16..]),
            modified: bytes[24] != 0,
        }
    }
}

impl AsBytes for Store {
    ghost SIZE = { 5320 };

    const SIZE: usize = 5320;

    fn put(&self, out: &mut [u8]) {
        self.shape.put(out);
        self.completions.put(&mut out[4..]);
        put_all(&self.control.slots, &mut out[8..]);
        put_all(&self.lanes, &mut out[56..]);
        put_all(&self.blocks, &mut out[3720..]);
    }

    fn from_bytes(bytes: &[u8]) -> Store {
        Store {
            shape: AsBytes::from_bytes(bytes),
            completions: AsBytes::from_bytes(&bytes[4..]),
            control: Control {
                slots: all_from(&bytes[8..]),
            },
            lanes: all_from(&bytes[56..]),
            blocks: all_from(&bytes[3720..]),
        }
    }
}
