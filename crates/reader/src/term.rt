// Terms read, with their signs, magnitudes and variables. Each reader of a part gives the end of the part and the byte, counted from 1,
// of the first digit of the first number out of its range, if there is one; or it stops.
ghost use Rattle.std.specs.Prelude.{◌≡◌, is_none, cond, ◌≤◌, length};
ghost use Rattle.limits.specs.Verdicts.{ACCEPTED, NUMBER};
ghost use Rattle.written.specs.Worded.{signed_word};
ghost use Rattle.reader.specs.Fields.{stands_at, first_of, VariablesIs, MagnitudeIs, TermIs};

use crate::number::number_at;
use crate::stop::Stop;
use terms::Term;
use words::Set;

// The variables of a term.
#[derive(Drop)]
struct Variables {
    set: Set,
    end: usize,
    outside: Option<usize>,
}

// A magnitude with its sign, as a word holds it.
#[derive(Drop)]
struct Magnitude {
    coefficient: u64,
    end: usize,
    outside: Option<usize>,
}

#[derive(Drop)]
pub(crate) struct TermRead {
    pub(crate) term: Term,
    pub(crate) end: usize,
    pub(crate) outside: Option<usize>,
}

// Whether the byte b stands at at.
pub fn stands_at(s: &[u8], at: usize, b: u8) -> bool
    ensures { result ≡ stands_at s.now at b }
{
    at < s.len() && s[at] == b
}

// The first of two verdicts.
pub fn first_verdict(a: u64, b: u64) -> u64
    ensures { result ≡ first_of a b }
{
    if a == limits::ACCEPTED { b } else { a }
}

// The verdict on numbers, by the first of them that is out of its range.
pub(crate) fn verdict_on(outside: Option<usize>) -> u64
    ensures { result ≡ cond (is_none outside) ACCEPTED NUMBER }
{
    match outside {
        None => limits::ACCEPTED,
        Some(_) => limits::NUMBER,
    }
}

// The variables at at, each behind a dot.
fn read_variables(s: &[u8], at: usize) -> Result<Variables, Stop>
    requires { at ≤ length s.now }
    ensures { VariablesIs s.now at result }
{
    let mut set = [0; limits::SET_WORDS];
    let mut outside = None;
    let mut i = at;
    while stands_at(s, i, b'.') {
        let n = number_at(s, i + 1, 0, limits::VARIABLES - 1)?;
        let Some(v) = n.value else {
            outside = outside.or(Some(i + 2));
            i = n.end;
            continue;
        };
        let more = words::with(set, v as usize);
        set = more;
        i = n.end;
    }
    Ok(Variables {
        set,
        end: i,
        outside,
    })
}

// A magnitude with its sign.
pub fn signed(c: u64, negative: bool) -> u64
    ensures { result ≡ signed_word negative c }
{
    if negative { words::negative(c) } else { c }
}

// The sign and the magnitude at at, from 1 to greatest.
fn read_magnitude(s: &[u8], at: usize, greatest: u64) -> Result<Magnitude, Stop>
    requires { at ≤ length s.now }
    ensures { MagnitudeIs greatest s.now at result }
{
    let negative = stands_at(s, at, b'-');
    let i = at + usize::from(negative);
    let n = number_at(s, i, 1, greatest)?;
    let Some(m) = n.value else {
        return Ok(Magnitude {
            coefficient: 0,
            end: n.end,
            outside: Some(i + 1),
        });
    };
    Ok(Magnitude {
        coefficient: signed(m, negative),
        end: n.end,
        outside: None,
    })
}

// The term at at.
pub(crate) fn read_term(s: &[u8], at: usize, greatest: u64) -> Result<TermRead, Stop>
    requires { at ≤ length s.now }
    ensures { TermIs greatest s.now at result }
{
    let m = read_magnitude(s, at, greatest)?;
    let vs = read_variables(s, m.end)?;
    Ok(TermRead {
        term: terms::term_of(vs.set, m.coefficient),
        end: vs.end,
        outside: m.outside.or(vs.outside),
    })
}
