// Reads records, each an opening, a call or the wish to see the store, and writes what each gives; tests/reference/README.md has the
// bytes. One store goes from record to record. It ends where the input does.
#![tactic(auto)]

ghost use Rattle.std.specs.Prelude.{◌≤◌, length};

use std::io;
use std::io::Read;
use store::{Outcome, Store};
use test_reply_bytes::{Kind, Reply, call_reply, called, put_settled, settle_reply};
use test_store_bytes::AsBytes;
use words::{LaneNo, Shape, WordNo};

// A kind and its fields.
const RECORD_BYTES: usize = 8;

// The proved loop has to end: more records than any input has.
const MOST_RECORDS: u32 = 100000000;

fn write_reply(rt: &HostRuntime, r: Reply) -> io::Result<()> {
    let mut out = [0u8; 12];
    r.put(&mut out);
    rt.write_all(&out)
}

// Writes the answer and hands on the store.
fn told(rt: &HostRuntime, o: Outcome) -> io::Result<Store> {
    write_reply(rt, call_reply(o.answer))?;
    Ok(o.store)
}

// Settle: the answer, the completions and the bound.
fn settled(rt: &HostRuntime, s: Store) -> io::Result<Store> {
    let o = store_settle::settle(s);
    let d = o.completions;
    write_reply(rt, settle_reply(o.answer, d.len))?;
    let mut out = [0u8; 74];
    put_settled(&mut out, d, test_bounds::checked_bound(s));
    rt.write_all(&out)?;
    Ok(o.store)
}

// Shows the store and hands it on.
fn shown(rt: &HostRuntime, s: Store) -> io::Result<Store> {
    let mut out = [0u8; 5320];
    s.put(&mut out);
    rt.write_all(&out)?;
    Ok(s)
}

// An opening of the shape in a record, with the limit L.
fn opened(bytes: &[u8], limit: u8) -> Outcome
    requires { 8 ≤ length bytes.now }
{
    store_opening::open(Shape {
        n: bytes[1],
        c: bytes[2],
        m: bytes[3],
        limit,
    })
}

// A record on the store that the records before it left.
fn answer(rt: &HostRuntime, s: Store, bytes: &[u8]) -> io::Result<Store>
    requires { 8 ≤ length bytes.now }
{
    let v = u32::from_bytes(&bytes[3..]);
    match Kind::from(bytes[0]) {
        Kind::Open => told(rt, opened(bytes, 1)),
        Kind::OpenLimited => told(rt, opened(bytes, bytes[4])),
        Kind::Settle => settled(rt, s),
        Kind::Show => shown(rt, s),
        kind => told(rt, called(s, kind, LaneNo(bytes[1]), WordNo(bytes[2]), v)),
    }
}

// Reads a record and answers it; none where the input has ended.
fn next(rt: &HostRuntime, s: Store) -> io::Result<Option<Store>> {
    let mut bytes = [0u8; RECORD_BYTES];
    if rt.stdin().read_exact(&mut bytes).is_err() {
        return Ok(None);
    }
    Ok(Some(answer(rt, s, &bytes)?))
}

// The first opening stands in the input; before it the store is the blank one.
fn main(rt: HostRuntime) -> io::Result<()> {
    let mut s = store_opening::blank();
    for _ in 0..MOST_RECORDS {
        let Some(after) = next(&rt, s)? else { break };
        s = after;
    }
    Ok(())
}
