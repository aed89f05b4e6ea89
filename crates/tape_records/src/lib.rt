// A tape's records: what stands at the start of a tape, and how many bytes of it that takes. This is the one place that reads a kind byte
// and knows how long a record is.
#![tactic(auto)]

ghost use Rattle.std.specs.Prelude.{◌≡◌, ◌≤◌, length};
ghost use Rattle.words.specs.Units.{limited};
ghost use Rattle.tape_records.specs.Records.{kind_of, body_length, form_of, operand_of, begin_fields, fields_of, field, read_of, parse_of};

use answers::Refusal;
use words::{LaneNo, Op, Shape, WordNo};

// The kind bytes.
const OPEN: u8 = 0;

const LOAD: u8 = 1;

const STORE: u8 = 2;

const EXCHANGE: u8 = 3;

const ADD: u8 = 4;

const SERVE: u8 = 5;

const RETURN: u8 = 6;

const DELIVER: u8 = 7;

const OPEN_LIMITED: u8 = 8;

// The first above the highest kind (specs/Records.antt, highest_kind): no record has it.
const NO_KIND: u8 = 9;

// The step that a kind byte picks.
#[derive(Clone, Copy)]
pub enum Kind {
    Open,
    Load,
    Store,
    Exchange,
    Add,
    Serve,
    Return,
    Deliver,
    OpenLimited,
}

// The one reading of a kind byte: the body's length and the step, or 2.
fn form_of(byte: u8) -> Result<(usize, Kind), Refusal>
    ensures { result ≡ form_of byte }
{
    match byte {
        OPEN => Ok((3, Kind::Open)),
        LOAD => Ok((2, Kind::Load)),
        STORE => Ok((6, Kind::Store)),
        EXCHANGE => Ok((6, Kind::Exchange)),
        ADD => Ok((6, Kind::Add)),
        SERVE => Ok((1, Kind::Serve)),
        RETURN => Ok((1, Kind::Return)),
        DELIVER => Ok((1, Kind::Deliver)),
        OPEN_LIMITED => Ok((4, Kind::OpenLimited)),
        NO_KIND..=255 => Err(Refusal::UnknownKind),
    }
}

impl TryFrom<u8> for Kind {
    type Error = Refusal;

    ghost try_from_gives = { λ byte r. r ≡ kind_of byte };

    fn try_from(byte: u8) -> Result<Self, Refusal> {
        let (_, kind) = form_of(byte)?;
        Ok(kind)
    }
}

impl Kind {
    // The length of the body behind the kind byte.
    pub fn body_length(self) -> usize
        ensures { result ≡ body_length self }
    {
        match self {
            Kind::Open => 3,
            Kind::Load => 2,
            Kind::Store | Kind::Exchange | Kind::Add => 6,
            Kind::Serve | Kind::Return | Kind::Deliver => 1,
            Kind::OpenLimited => 4,
        }
    }
}

// A record: its kind's case with its fields.
#[derive(Clone, Copy)]
pub enum Record {
    Open(Shape),
    Begin(LaneNo, Op, WordNo),
    Serve(LaneNo),
    Return(LaneNo),
    Deliver(LaneNo),
}

// A record, or why there is none: the tape ends inside it (01: cut), or no record has its kind (01: stranger); and how many bytes of the tape
// it takes.
#[derive(Clone, Copy)]
pub struct Parsed {
    pub size: usize,
    pub rec: Result<Record, Refusal>,
}

// v of a store, exchange or add, behind lane and word: four bytes, low byte first.
fn operand(body: &[u8]) -> u32
    requires { 6 ≤ length body.now }
    ensures { result ≡ operand_of body.now }
{
    u32::from_le_bytes([body[2], body[3], body[4], body[5]])
}

// Lane and word of a begin record, with its operation.
fn begin_fields(body: &[u8], op: Op) -> Record
    requires { 2 ≤ length body.now }
    ensures { result ≡ begin_fields op body.now }
{
    Record::Begin(LaneNo(body[0]), op, WordNo(body[1]))
}

// The shape in the body of an open record: kind 08 has its limit behind the blocks, 00 means L = 1.
fn shape(body: &[u8], limit: u8) -> Shape
    requires { 3 ≤ length body.now }
    ensures { result ≡ limited (field body.now 0) (field body.now 1) (field body.now 2) limit }
{
    Shape {
        n: body[0],
        c: body[1],
        m: body[2],
        limit,
    }
}

// The record of a kind from its body.
fn fields(kind: Kind, body: &[u8]) -> Record
    requires { body_length kind ≤ length body.now }
    ensures { result ≡ fields_of kind body.now }
{
    match kind {
        Kind::Open => Record::Open(shape(body, 1)),
        Kind::Load => begin_fields(body, Op::Load),
        Kind::Store => begin_fields(body, Op::Store(operand(body))),
        Kind::Exchange => begin_fields(body, Op::Exchange(operand(body))),
        Kind::Add => begin_fields(body, Op::Add(operand(body))),
        Kind::Serve => Record::Serve(LaneNo(body[0])),
        Kind::Return => Record::Return(LaneNo(body[0])),
        Kind::Deliver => Record::Deliver(LaneNo(body[0])),
        Kind::OpenLimited => Record::Open(shape(body, body[3])),
    }
}

// The record at the start of a tape, with how many bytes it takes: 2, 1, then the record.
#[tactic(auto, using(crate::proofs::Parsing::read_empty, crate::proofs::Parsing::read_unknown, crate::proofs::Parsing::read_truncated, crate::proofs::Parsing::read_whole))]
fn read(tape: &[u8]) -> Result<(usize, Record), Refusal>
    ensures { result ≡ read_of tape.now }
{
    let (&byte, body) = tape.split_first().ok_or(Refusal::Truncated)?;
    let (length, kind) = form_of(byte)?;
    if body.len() < length {
        return Err(Refusal::Truncated);
    }
    Ok((1 + length, fields(kind, body)))
}

// What stands at the start of a tape. A record after which no more are read takes all that is left.
#[tactic(auto, unfolding(crate::specs::Records::parse_of))]
pub fn parse(tape: &[u8]) -> Parsed
    ensures { result ≡ parse_of tape.now }
{
    match read(tape) {
        Ok((size, rec)) => Parsed { size, rec: Ok(rec) },
        Err(r) => Parsed {
            size: tape.len(),
            rec: Err(r),
        },
    }
}
