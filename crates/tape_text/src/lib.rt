// The text of benchtape's lines, into a lent buffer. Each function writes from place `at` on and gives the place after its text.
// All of them require that the text fits; they are for the crates above and not for others.
#![tactic(auto)]

ghost use Rattle.std.specs.Prelude.{◌≡◌, [], ◌∷◌, ◌++◌, ◌+◌, ◌≤◌, length};
ghost use Rattle.answers.specs.declared.Refusal.TheVariants.{TapeTooLong};
ghost use Rattle.answers.specs.declared.Answer.TheVariants.{Done};
ghost use Rattle.machine.specs.Machine.Text.{spaced, refused_text, answer_text, line_text, end_text};
ghost use Rattle.buffers.specs.Written.{written};

use answers::{Answer, Completion, Refusal};

// A space and a number.
fn spaced_into(out: &mut [u8], at: usize, n: u32) -> usize
    requires { at + 11 ≤ length out.old }
    ensures { (result ≡ at + length (spaced n)) × (out.new ≡ written out.old at (spaced n)) }
{
    let digits = buffers::put(out, at, b" ");
    tape_decimals::decimal_in(out, digits, 10, n)
}

// `refused` with the number.
fn refused_into(out: &mut [u8], at: usize, x: Refusal) -> usize
    requires { at + 18 ≤ length out.old }
    ensures { (result ≡ at + length (refused_text x)) × (out.new ≡ written out.old at (refused_text x)) }
{
    let number = buffers::put(out, at, b"refused");
    spaced_into(out, number, u32::from(x.number()))
}

// `done` with lane, value and place.
fn done_into(out: &mut [u8], at: usize, x: Completion) -> usize
    requires { at + 37 ≤ length out.old }
    ensures { (result ≡ at + length (answer_text (Ok (Done x)))) × (out.new ≡ written out.old at (answer_text (Ok (Done x)))) }
{
    let lane = buffers::put(out, at, b"done");
    let value = spaced_into(out, lane, u32::from(x.lane.0));
    let place = spaced_into(out, value, x.value);
    spaced_into(out, place, x.place)
}

// What a record answers.
#[tactic(auto, unfolding(machine::specs::Machine::Text::answer_text))]
fn answer_into(out: &mut [u8], at: usize, a: Result<Answer, Refusal>) -> usize
    requires { at + 37 ≤ length out.old }
    ensures { (result ≡ at + length (answer_text a)) × (out.new ≡ written out.old at (answer_text a)) }
{
    match a {
        Ok(Answer::Opened) => buffers::put(out, at, b"open"),
        Ok(Answer::Done(x)) => done_into(out, at, x),
        Ok(Answer::Wait) => buffers::put(out, at, b"wait"),
        Ok(Answer::Step) => buffers::put(out, at, b"step"),
        Err(x) => refused_into(out, at, x),
    }
}

// A record's line.
pub fn line_into(out: &mut [u8], at: usize, index: u32, a: Result<Answer, Refusal>) -> usize
    requires { at + 64 ≤ length out.old }
    ensures { (result ≡ at + length (line_text index a)) × (out.new ≡ written out.old at (line_text index a)) }
{
    let space = tape_decimals::decimal_in(out, at, 10, index);
    let answer = buffers::put(out, space, b" ");
    let newline = answer_into(out, answer, a);
    buffers::put(out, newline, b"\n")
}

// The last line: `end` and the number of lines before it.
pub fn end_into(out: &mut [u8], at: usize, count: u32) -> usize
    requires { at + 64 ≤ length out.old }
    ensures { (result ≡ at + length (end_text count)) × (out.new ≡ written out.old at (end_text count)) }
{
    let number = buffers::put(out, at, b"end");
    let stop = spaced_into(out, number, count);
    buffers::put(out, stop, b"\n")
}

// The one line of a tape that is too long.
pub fn too_long_into(out: &mut [u8], at: usize) -> usize
    requires { at + 64 ≤ length out.old }
    ensures { (result ≡ at + length (refused_text TapeTooLong ++ (10 ∷ []))) × (out.new ≡ written out.old at (refused_text TapeTooLong ++ (10 ∷ []))) }
{
    let after = refused_into(out, at, Refusal::TapeTooLong);
    buffers::put(out, after, b"\n")
}
