// The check program: a text from standard input is checked, and the six numbers of the answer are written, parted by tabs.

#![tactic(auto)]

ghost use Rattle.std.specs.Prelude.{◌<◌, length};
ghost use Rattle.limits.specs.Limits.{host_text_bytes};
ghost use Rattle.program.specs.Program.{Status};

use std::io::{Read, Write};
use std::process::ExitCode;

// Reads a text into a room that holds more than is taken, so that a longer text is known by its length, and says the answer.
fn answer_input<R: Read, W: Write, E: Write>(
    input: &mut R,
    to: &mut W,
    errors: &mut E,
    text: &mut [u8],
) -> u32
    requires { host_text_bytes < length text.old }
    ensures { Status result }
{
    let Ok(n) = program::read_input(input, text, limits::HOST_TEXT_BYTES) else {
        return program::fail(errors, b"lpac_check: standard input cannot be read\n");
    };
    program::say_answer(
        to,
        errors,
        lpac_host::host_answer(&text[..n]).numbers(),
        b"lpac_check: the answer cannot be written\n",
    )
}

// The program. Its result is the exit status: 0 where an answer was given, 2 where none was.
pub fn lpac_check_program<R: Read, W: Write, E: Write>(
    input: &mut R,
    to: &mut W,
    errors: &mut E,
) -> u32
    ensures { Status result }
{
    let mut text = [0u8; limits::HOST_TEXT_BYTES + 1];
    answer_input(input, to, errors, &mut text)
}

fn main(rt: HostRuntime) -> ExitCode {
    let status = lpac_check_program(&mut rt.stdin(), &mut rt.stdout(), &mut rt.stderr());
    program::exit_code(status)
}
