// A call from its kind, and what a call answers as bytes, in the format of tests/reference/README.md. Nothing here is proved of the bytes but
// that the functions are safe and end.
#![tactic(auto)]

ghost use Rattle.std.specs.Prelude.{◌≤◌, length};

use answers::{Answer, Completion, Refusal};
use machine::SettleCounts;
use store::{Outcome, Store};
use store_settle::Completions;
use test_store_bytes::AsBytes;
use words::{LaneNo, WordNo};

// What a case or a record asks for.
#[derive(Clone, Copy)]
pub enum Kind {
    Open,
    Load,
    Store,
    Exchange,
    Add,
    Serve,
    Return,
    Deliver,
    OpenLimited,
    Picture,
    Settle,
    Show,
}

// A number that is no kind's is deliver.
impl From<u8> for Kind {
    fn from(number: u8) -> Kind {
        match number {
            0 => Kind::Open,
            1 => Kind::Load,
            2 => Kind::Store,
            3 => Kind::Exchange,
            4 => Kind::Add,
            5 => Kind::Serve,
            6 => Kind::Return,
            8 => Kind::OpenLimited,
            16 => Kind::Picture,
            17 => Kind::Settle,
            18 => Kind::Show,
            _ => Kind::Deliver,
        }
    }
}

// What an answer is; its number, from 0 on, is the answer's first byte.
#[derive(Clone, Copy)]
pub enum Tag {
    Opened,
    Done,
    Wait,
    Step,
    Refused,
    Picture,
    Settled,
}

impl From<Tag> for u8 {
    fn from(tag: Tag) -> u8 {
        tag as u8
    }
}

// An answer's bytes: its tag, a lane or a refusal's number, a value, how many completions there are, a settle's orders, and a completion's place.
#[derive(Clone, Copy)]
pub struct Reply {
    pub tag: u8,
    pub small: u8,
    pub value: u32,
    pub listed: u8,
    pub orders: u8,
    pub place: u32,
}

impl Reply {
    // A reply that has no more than its tag.
    pub fn of<T: Into<u8>>(tag: T) -> Reply {
        Reply {
            tag: tag.into(),
            small: 0,
            value: 0,
            listed: 0,
            orders: 0,
            place: 0,
        }
    }

    // The reply's 12 bytes.
    pub fn put(&self, out: &mut [u8])
        requires { 12 ≤ length out.old }
    {
        out[0] = self.tag;
        out[1] = self.small;
        self.value.put(&mut out[2..]);
        out[6] = self.listed;
        out[7] = self.orders;
        self.place.put(&mut out[8..]);
    }
}

pub fn refused(r: Refusal) -> Reply {
    Reply {
        small: r.number(),
        ..Reply::of(Tag::Refused)
    }
}

pub fn call_reply(a: Result<Answer, Refusal>) -> Reply {
    match a {
        Ok(Answer::Opened) => Reply::of(Tag::Opened),
        Ok(Answer::Done(x)) => Reply {
            small: x.lane.0,
            value: x.value,
            place: x.place,
            ..Reply::of(Tag::Done)
        },
        Ok(Answer::Wait) => Reply::of(Tag::Wait),
        Ok(Answer::Step) => Reply::of(Tag::Step),
        Err(r) => refused(r),
    }
}

pub fn settle_reply(a: Result<SettleCounts, Refusal>, listed: u8) -> Reply {
    match a {
        Ok(x) => Reply {
            value: x.steps as u32,
            listed,
            orders: x.orders,
            ..Reply::of(Tag::Settled)
        },
        Err(r) => Reply {
            listed,
            ..refused(r)
        },
    }
}

// What a call gives that is no picture and no settle. Its kind may be given as a byte.
pub fn called<T: Into<Kind>>(s: Store, kind: T, k: LaneNo, w: WordNo, v: u32) -> Outcome {
    match kind.into() {
        Kind::Load => store_operations::load(s, k, w),
        Kind::Store => store_operations::store_value(s, k, w, v),
        Kind::Exchange => store_operations::exchange(s, k, w, v),
        Kind::Add => store_operations::add(s, k, w, v),
        Kind::Serve => store_calls::serve(s, k),
        Kind::Return => store_calls::return_head(s, k),
        _ => store_calls::deliver(s, k),
    }
}

fn put_completion(x: &Completion, out: &mut [u8])
    requires { 9 ≤ length out.old }
{
    out[0] = x.lane.0;
    x.value.put(&mut out[1..]);
    x.place.put(&mut out[5..]);
}

// What stands behind a settle's reply: the completions that are listed, 9 bytes each in room for 8, and the bound of the store before.
pub fn put_settled(out: &mut [u8], d: Completions, bound: u16)
    requires { 74 ≤ length out.old }
{
    let listed = d.len.min(8) as usize;
    for (x, part) in d.at[..listed].iter().zip(out.chunks_exact_mut(9)) {
        put_completion(x, part);
    }
    out[72..74].copy_from_slice(&bound.to_le_bytes());
}
