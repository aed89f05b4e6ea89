// The picture: a record of 19 bytes for each valid line, into a lent buffer.
// Only `picture` is open to others; the other functions require what it has checked.
#![tactic(auto)]

ghost use Rattle.std.specs.Prelude.{◌≡◌, ◌+◌, ◌≤◌, length};
ghost use Rattle.buffers.specs.Written.{written};
ghost use Rattle.machine.specs.Machine.Picture.{word_bytes, record_bytes, picture_bytes, picture_of};
ghost use Rattle.store_picture.specs.Records.{line_record, lane_records, block_records, valid_in, valid_of};

use answers::Refusal;
use lanes::Lane;
use store::Store;
use words::{BlockNo, LaneNo, Line};

// The length of a record.
const RECORD: usize = 19;

// How many of the first c lines of a lane are valid.
fn valid_in(l: Lane, c: u8) -> usize
    requires { c ≤ 8 }
    ensures { result ≡ valid_in l c }
{
    l.lines[..usize::from(c)].iter().filter(|x| x.valid).count()
}

// How many lines are valid.
fn valid_lines(s: Store) -> usize
    requires { (s.shape.n ≤ 8) × (s.shape.c ≤ 8) }
    ensures { result ≡ valid_of s }
{
    let mut count: usize = 0;
    for lane in &s.lanes[..usize::from(s.shape.n)] {
        count += valid_in(*lane, s.shape.c);
    }
    count
}

// A word in four bytes, low byte first.
fn write_word(part: &mut [u8], at: usize, x: u32) -> usize
    requires { at + 4 ≤ length part.old }
    ensures { (result ≡ at + 4) × (part.new ≡ written part.old at (word_bytes x)) }
{
    buffers::put(part, at, &x.to_le_bytes())
}

// A record, from the start of a part of the buffer on.
fn write_record(part: &mut [u8], k: LaneNo, x: Line)
    requires { 19 ≤ length part.old }
    ensures { part.new ≡ written part.old 0 (record_bytes k.0 x) }
{
    let mut place = buffers::put(part, 0, &[16, k.0, x.block.0]);
    for word in x.words {
        place = write_word(part, place, word);
    }
}

// The record of a line, where it is valid and has block a, into the part of the buffer that starts at its offset; the next offset.
fn write_line(buffer: &mut [u8], at: usize, a: BlockNo, k: LaneNo, x: Line) -> usize
    requires { at + length (line_record a.0 k.0 x) ≤ length buffer.old }
    ensures { (result ≡ at + length (line_record a.0 k.0 x)) × (buffer.new ≡ written buffer.old at (line_record a.0 k.0 x)) }
{
    if x.holds(a) {
        write_record(&mut buffer[at..], k, x);
        return at + RECORD;
    }
    at
}

// The records of block a in lane k.
fn write_lane(buffer: &mut [u8], at: usize, a: BlockNo, k: LaneNo, l: Lane, c: u8) -> usize
    requires { (c ≤ 8) × (at + length (lane_records a.0 k.0 l c) ≤ length buffer.old) }
    ensures { (result ≡ at + length (lane_records a.0 k.0 l c)) × (buffer.new ≡ written buffer.old at (lane_records a.0 k.0 l c)) }
{
    let mut place = at;
    for line in &l.lines[..usize::from(c)] {
        place = write_line(buffer, place, a, k, *line);
    }
    place
}

// The records of block a.
fn write_block(buffer: &mut [u8], at: usize, a: BlockNo, s: Store) -> usize
    requires { (s.shape.n ≤ 8) × (s.shape.c ≤ 8) × (at + length (block_records s a.0) ≤ length buffer.old) }
    ensures { (result ≡ at + length (block_records s a.0)) × (buffer.new ≡ written buffer.old at (block_records s a.0)) }
{
    let mut place = at;
    for k in 0..s.shape.n {
        place = write_lane(
            buffer,
            place,
            a,
            LaneNo(k),
            s.lanes[usize::from(k)],
            s.shape.c,
        );
    }
    place
}

// The records of all blocks.
fn write_blocks(buffer: &mut [u8], s: Store) -> usize
    requires { (s.shape.n ≤ 8) × (s.shape.c ≤ 8) × (length (picture_bytes s) ≤ length buffer.old) }
    ensures { (result ≡ length (picture_bytes s)) × (buffer.new ≡ written buffer.old 0 (picture_bytes s)) }
{
    let mut place: usize = 0;
    for a in 0..s.shape.m {
        place = write_block(buffer, place, BlockNo(a), s);
    }
    place
}

// Picture.
pub fn picture(s: Store, buffer: &mut [u8]) -> Result<usize, Refusal>
    ensures { (result ≡ (picture_of s buffer.old).answer) × (buffer.new ≡ (picture_of s buffer.old).buffer) }
{
    if store_corruption::corrupt(s) {
        return Err(Refusal::Corrupt);
    }
    let needed = RECORD * valid_lines(s);
    if buffer.len() < needed {
        return Err(Refusal::BufferTooShort);
    }
    let end = write_blocks(buffer, s);
    Ok(end)
}
