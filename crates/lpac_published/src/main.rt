// The program for published texts, `lpac_published K CONSTRAINTS TARGET PROOF`: three files are checked at K, and the six numbers of the
// answer are written, parted by tabs.

#![tactic(auto)]

ghost use Rattle.std.specs.Prelude.{◌<◌, length, IfSome};
ghost use Rattle.limits.specs.Limits.{host_text_bytes};
ghost use Rattle.program.specs.Program.{IsPrefixLen, Status};
ghost use Rattle.lpac_published.specs.RingArgument.{RingArgumentIs};

use reader::number::number_at;
use std::env::FillError;
use std::fs::OpenOptions;
use std::io::Write;
use std::process::ExitCode;
use std::rt::{Env, Files};

// The program's own name, K and three files.
const ARGUMENTS: usize = 5;

// Linux takes no argument of more bytes than this, its last 0 among them.
const LONGEST_ARGUMENT: usize = 131072;

// Linux takes no path of more bytes than this, its last 0 among them.
const PATH_BYTES: usize = 4096;

// The k that stands for what a word says as K, if it is a decimal: 0 for all that are out of range.
fn ring_argument(word: &[u8]) -> Option<u64>
    ensures { RingArgumentIs word.now result }
{
    let Ok(n) = number_at(word, 0, 1, limits::GREATEST_RING) else {
        return None;
    };
    if n.end == word.len() {
        Some(n.value.unwrap_or(0))
    } else {
        None
    }
}

// Reads the file that an argument names, if it can be read. A missing or overlong argument is no file's name, and one that is not UTF-8
// names none here.
fn read_file(rt: &HostRuntime, argument: usize, room: &mut [u8]) -> Option<usize>
    requires { host_text_bytes < length room.old }
    ensures { IfSome result (λ n. IsPrefixLen n room.new) }
{
    let mut path = [0u8; PATH_BYTES];
    let n = rt.arg(argument, &mut path).ok()?;
    let name = str::from_utf8(&path[..n]).ok()?;
    let mut file = rt.open_file(OpenOptions::new().read(true), name).ok()?;
    program::read_input(&mut file, room, limits::HOST_TEXT_BYTES).ok()
}

// Reads the files into rooms that hold more than is taken, so that a longer one is known by its length, and says the answer at k.
fn answer_files<W: Write, E: Write>(
    rt: &HostRuntime,
    to: &mut W,
    errors: &mut E,
    k: u64,
    constraints: &mut [u8],
    target: &mut [u8],
    proof: &mut [u8],
) -> u32
    requires { (host_text_bytes < length constraints.old) × (host_text_bytes < length target.old) × (host_text_bytes < length proof.old) }
    ensures { Status result }
{
    let Some(n) = read_file(rt, 2, constraints) else {
        return program::fail(errors, b"lpac_published: the constraints cannot be read\n");
    };
    let Some(m) = read_file(rt, 3, target) else {
        return program::fail(errors, b"lpac_published: the target cannot be read\n");
    };
    let Some(l) = read_file(rt, 4, proof) else {
        return program::fail(errors, b"lpac_published: the proof cannot be read\n");
    };
    program::say_answer(
        to,
        errors,
        lpac_host::published_answer(k, &constraints[..n], &target[..m], &proof[..l]).numbers(),
        b"lpac_published: the answer cannot be written\n",
    )
}

// Reads K. The room is longer than the system lets an argument be.
fn read_ring(rt: &HostRuntime) -> Option<u64> {
    let mut word = [0u8; LONGEST_ARGUMENT];
    let n = rt.arg(1, &mut word).ok()?;
    ring_argument(&word[..n])
}

// Whether there is an argument of this place. No byte of it is read.
fn has_argument(rt: &HostRuntime, place: usize) -> bool {
    !matches!(rt.arg(place, &mut []), Err(FillError::NotPresent))
}

// The program. Its result is the exit status: 0 where an answer was given, 2 where none was.
pub fn lpac_published_program<W: Write, E: Write>(
    rt: &HostRuntime,
    to: &mut W,
    errors: &mut E,
) -> u32
    ensures { Status result }
{
    if !has_argument(rt, ARGUMENTS - 1) || has_argument(rt, ARGUMENTS) {
        return program::fail(
            errors,
            b"lpac_published: four arguments are asked for, K CONSTRAINTS TARGET PROOF\n",
        );
    }
    let Some(k) = read_ring(rt) else {
        return program::fail(
            errors,
            b"lpac_published: K is a decimal number without leading zeros\n",
        );
    };
    let mut constraints = [0u8; limits::HOST_TEXT_BYTES + 1];
    let mut target = [0u8; limits::HOST_TEXT_BYTES + 1];
    let mut proof = [0u8; limits::HOST_TEXT_BYTES + 1];
    answer_files(rt, to, errors, k, &mut constraints, &mut target, &mut proof)
}

fn main(rt: HostRuntime) -> ExitCode {
    let status = lpac_published_program(&rt, &mut rt.stdout(), &mut rt.stderr());
    program::exit_code(status)
}
