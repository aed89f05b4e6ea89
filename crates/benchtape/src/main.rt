// benchtape: one read of a tape from standard input, `tape_replay::print`, one write of its text to standard output. All that is printed is
// proved there; no contract can speak of what is read or written.
#![tactic(auto)]

ghost use Rattle.std.specs.Prelude.{◌≡◌, ◌≤◌, length};
ghost use Rattle.machine.specs.Machine.Text.{printed, text_most};
ghost use Rattle.buffers.specs.Written.{written};
ghost use Rattle.benchtape.specs.Reading.{bytes_of};

use std::fmt::InlineText;
use std::io;
use std::io::Read;
use tape_replay::TEXT_MOST;

// Reads until the buffer is full or the input ends; how many bytes there are, or why a read failed.
fn read_tape(rt: &HostRuntime, buf: &mut [u8]) -> io::Result<usize>
    ensures { bytes_of result ≤ length buf.new }
{
    let mut input = rt.stdin();
    let mut done: usize = 0;
    // A while, since how much a read gives is known only after it.
    while done < buf.len() {
        let more = input.read(&mut buf[done..])?;
        if more == 0 {
            break;
        }
        done += more;
    }
    Ok(done)
}

// Room for the longest text.
fn room() -> [u8; TEXT_MOST]
    ensures { text_most ≡ length result }
{
    [0; TEXT_MOST]
}

// The tape's text, at the start of a buffer with room for it; its length.
fn text_of(tape: &[u8], out: &mut [u8]) -> usize
    requires { text_most ≤ length out.old }
    ensures { (result ≡ length (printed tape.now))
        × (out.new ≡ written out.old 0 (printed tape.now))
        × (result ≤ length out.new) }
{
    tape_replay::print(tape, out).unwrap_or(0)
}

// One read, the text, one write. A read or a write that fails is told on standard error, and nothing more is written.
fn bench(rt: &HostRuntime, tape: &mut [u8], out: &mut [u8])
    requires { text_most ≤ length out.old }
{
    match read_tape(rt, tape) {
        Ok(n) => {
            let size = text_of(&tape[..n], out);
            if let Err(error) = rt.write_all(&out[..size]) {
                unwritten(rt, error);
            }
        }
        Err(error) => unread(rt, error),
    }
}

fn unread(rt: &HostRuntime, error: io::Error) {
    fail(rt, "benchtape: the tape can't be read", error);
}

fn unwritten(rt: &HostRuntime, error: io::Error) {
    fail(rt, "benchtape: the text can't be written", error);
}

// Writes a line to standard error: what failed, a colon and the error's words. Where that fails too, nothing is left to do.
fn fail(rt: &HostRuntime, what: &str, error: io::Error) {
    let text = InlineText::<128>::of(error);
    let words = without_number(text.as_str());
    let _ = eprintln!(rt; "{what}: {words}");
}

// An error's text without the system's number of it.
fn without_number(text: &str) -> &str {
    match text.split_once(" (os error ") {
        Some((words, _)) => words,
        None => text,
    }
}

// A byte more than a tape may have is read, so that a longer one is known.
fn main(rt: HostRuntime) {
    let mut tape = [0u8; 65537];
    let mut text = room();
    bench(&rt, &mut tape, &mut text);
}
