// What the programs share: a whole input read into a lent room, an answer's numbers written, and the status that a program ends with.

#![tactic(auto)]

ghost use Rattle.std.specs.Prelude.{◌≡◌, true, false, ◌<◌, ◌≤◌, ◌++◌, length, take, IfOk};
ghost use Rattle.std.specs.Io.KnownBytes.{Consumes, IsAtEnd, Appends};
ghost use Rattle.std.specs.Fmt.{decimal};
ghost use Rattle.std.specs.Process.{exit_status};
ghost use Rattle.program.specs.Program.{IsPrefixLen, bytes_of, six_numbers, status_of, Status};

use std::io::{Read, Write};
use std::process::ExitCode;

// The exit statuses: all was answered; an input could not be read or an answer not be written.
pub const DONE: u32 = 0;

pub const FAILED: u32 = 2;

// A read failed: how many bytes had come before it.
#[derive(Clone, Copy)]
pub struct Cut {
    pub bytes: usize,
}

// Reads until the input ends or more than `most` bytes are there, and gives how many came: in a room of no more than `most` a longer
// input would be cut, and look like one that ended.
pub fn read_input<R: Read>(input: &mut R, room: &mut [u8], most: usize) -> Result<usize, Cut>
    requires { most < length room.old }
    ensures inside { IsPrefixLen (bytes_of result) room.new }
    ensures bytes { Consumes (R.remaining input.old) (R.remaining input.new) (take (bytes_of result) room.new) }
    ensures end { IfOk result (λ n. n ≤ most → IsAtEnd (R.remaining input.new)) }
{
    let mut done: usize = 0;
    while done <= most {
        match input.read(&mut room[done..]) {
            Ok(0) => return Ok(done),
            Ok(n) => done += n,
            Err(_) => return Err(Cut { bytes: done }),
        }
    }
    Ok(done)
}

// Writes a number and the byte behind it, and tells whether both were written. Each write is tried, also behind one that failed.
fn say_number<W: Write>(to: &mut W, n: u64, behind: &[u8]) -> bool
    ensures { result ≡ true → Appends (W.contents to.old) (W.contents to.new) (decimal n ++ behind.now) }
{
    let number = write!(to, "{n}").is_ok();
    let rest = to.write_all(behind).is_ok();
    number & rest
}

// Writes six numbers on a line, parted by tabs, and tells whether all were written.
fn say_six<W: Write>(to: &mut W, numbers: [u64; 6]) -> bool
    ensures { result ≡ true → Appends (W.contents to.old) (W.contents to.new) (six_numbers numbers) }
{
    let [a, b, c, d, e, f] = numbers;
    say_number(to, a, b"\t")
        & say_number(to, b, b"\t")
        & say_number(to, c, b"\t")
        & say_number(to, d, b"\t")
        & say_number(to, e, b"\t")
        & say_number(to, f, b"\n")
}

// Says on standard error what went wrong, and gives the status for it.
pub fn fail<E: Write>(errors: &mut E, what: &[u8]) -> u32
    ensures { result ≡ status_of false }
{
    let _ = errors.write_all(what);
    FAILED
}

// The status of a program whose answer was written; where it was not, this is said.
pub fn status<E: Write>(errors: &mut E, written: bool, otherwise: &[u8]) -> u32
    ensures { result ≡ status_of written }
{
    if written {
        return DONE;
    }
    fail(errors, otherwise)
}

// Writes the six numbers of an answer, and gives the status for it.
pub fn say_answer<W: Write, E: Write>(
    to: &mut W,
    errors: &mut E,
    numbers: [u64; 6],
    otherwise: &[u8],
) -> u32
    ensures status { Status result }
    ensures said { result ≡ status_of true → Appends (W.contents to.old) (W.contents to.new) (six_numbers numbers) }
{
    let said = say_six(to, numbers);
    status(errors, said, otherwise)
}

// What `main` returns for a status, so that the process ends with it.
pub fn exit_code(status: u32) -> ExitCode
    requires { Status status }
    ensures { exit_status result ≡ status }
{
    ExitCode::from(status as u8)
}
