// The spelling program: lines `k<tab>field` from standard input, and for each `verdict<tab>spelling` on standard output; nothing
// stands behind the tab where the field is refused. A line of another shape is FORM, and an input above 65,536 bytes has the one
// answer LONGTEXT.

#![tactic(auto)]

ghost use Rattle.std.specs.Prelude.{◌≤◌, ◌<◌, IfOk, length};
ghost use Rattle.limits.specs.Limits.{host_text_bytes};
ghost use Rattle.program.specs.Program.{Status};
ghost use Rattle.lpac_spell.specs.Asks.{AskedIs};

use limits::refusal::Refusal;
use reader::number::decimal_at;
use reader::term::stands_at;
use std::io::{Read, Write};
use std::process::ExitCode;

// What a line asks for: the k, and the place of the field to be spelled at it.
#[derive(Drop)]
struct Asked {
    k: u64,
    at: usize,
}

// What a line asks for, where it has the shape. Every k beyond the greatest has one answer, also where no word holds it.
fn asks(line: &[u8]) -> Option<Asked>
    ensures { AskedIs line.now result }
{
    let n = decimal_at(line, 0).ok()?;
    if !stands_at(line, n.end, b'\t') {
        return None;
    }
    Some(Asked {
        k: n.value.unwrap_or(limits::GREATEST_RING + 1),
        at: n.end + 1,
    })
}

// Spells what a line asks for, and gives how many bytes the spelling has.
fn spell_line(line: &[u8], scratch: &mut [u64], out: &mut [u8]) -> Result<usize, Refusal>
    ensures { IfOk result (λ n. n ≤ length out.new) }
{
    let asked = asks(line).ok_or(Refusal::Form)?;
    speller::spell(&line[asked.at..], asked.k, scratch, out)
}

// Writes an answer, and tells whether it was written. Each write is tried, also behind one that failed.
fn say<W: Write>(to: &mut W, verdict: u64, spelling: &[u8]) -> bool {
    write!(to, "{verdict}").is_ok()
        & to.write_all(b"\t").is_ok()
        & to.write_all(spelling).is_ok()
        & to.write_all(b"\n").is_ok()
}

// Answers a line.
fn answer<W: Write>(to: &mut W, line: &[u8], scratch: &mut [u64], out: &mut [u8]) -> bool {
    match spell_line(line, scratch, out) {
        Ok(n) => say(to, limits::ACCEPTED, &out[..n]),
        Err(why) => say(to, why.number(), b""),
    }
}

// Answers the lines of a text, the last of which may lack its byte 10, as long as answers can be written.
fn answer_lines<W: Write>(to: &mut W, text: &[u8], scratch: &mut [u64], out: &mut [u8]) -> bool {
    let mut at = 0;
    while at < text.len() {
        let e = reader::find::line_end(text, at);
        if e == text.len() {
            return say(to, limits::FORM, b"");
        }
        if !answer(to, &text[at..e], scratch, out) {
            return false;
        }
        at = e + 1;
    }
    true
}

// Answers the lines of a text that is not too long.
fn answer_text<W: Write>(to: &mut W, text: &[u8]) -> bool {
    if limits::HOST_TEXT_BYTES < text.len() {
        return say(to, limits::LONGTEXT, b"");
    }
    let mut scratch = [0u64; limits::LEAST_SPELLING_SCRATCH];
    // A spelling takes less (`NeverFull` of the crate promises), so that FULL does not come up.
    let mut out = [0u8; 2 * limits::LINE_BYTES];
    answer_lines(to, text, &mut scratch, &mut out)
}

// Reads a text into a room that holds more than is taken, so that a longer text is known by its length, and answers its lines.
fn answer_input<R: Read, W: Write, E: Write>(
    input: &mut R,
    to: &mut W,
    errors: &mut E,
    text: &mut [u8],
) -> u32
    requires { host_text_bytes < length text.old }
    ensures { Status result }
{
    let Ok(n) = program::read_input(input, text, limits::HOST_TEXT_BYTES) else {
        return program::fail(errors, b"lpac_spell: standard input cannot be read\n");
    };
    program::status(
        errors,
        answer_text(to, &text[..n]),
        b"lpac_spell: the answer cannot be written\n",
    )
}

// The program. Its result is the exit status: 0 where all was answered, 2 where it was not.
pub fn lpac_spell_program<R: Read, W: Write, E: Write>(
    input: &mut R,
    to: &mut W,
    errors: &mut E,
) -> u32
    ensures { Status result }
{
    let mut text = [0u8; limits::HOST_TEXT_BYTES + 1];
    answer_input(input, to, errors, &mut text)
}

fn main(rt: HostRuntime) -> ExitCode {
    let status = lpac_spell_program(&mut rt.stdin(), &mut rt.stdout(), &mut rt.stderr());
    program::exit_code(status)
}
