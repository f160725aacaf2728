// Monomials read: a constant, names, or both, joined by `*`.
ghost use Rattle.std.specs.Prelude.{◌≡◌, true, false, ◌≤◌, ◌<◌, ◌^◌, ℕ, length, Some};
ghost use Rattle.std.specs.Int.Bits.{bit_or};
ghost use Rattle.limits.specs.Limits.{variables};
ghost use Rattle.words.specs.Words.{number_of};
ghost use Rattle.paper.specs.Grammar.{is_digit};
ghost use Rattle.names.specs.Numbered.{StillLent};
ghost use Rattle.named.specs.Reads.{is_at, NamesIs, ConstantIs, MonomialIs};

use super::name::read_name;
use super::token::{constant_at, digit_at, skip_spaces};
use names::numbering::Numbering;
use reader::stop::Stop;
use reader::term::{signed, stands_at};
use terms::Term;
use words::Set;

// Names behind a first set of variables, with all their variables, where none of them is bad.
#[derive(Drop)]
struct NamesRead {
    set: Set,
    end: usize,
    bad: bool,
}

// A constant as a coefficient: ACCEPTED or NUMBER, and whether it is 0.
#[derive(Drop)]
struct ConstantRead {
    value: u64,
    end: usize,
    why: u64,
    zero: bool,
}

// A monomial as a term, where its numbers are in range and its names are not bad: ACCEPTED or NUMBER; whether it is a constant of value 0 alone.
#[derive(Drop)]
pub struct MonomialRead {
    pub term: Term,
    pub end: usize,
    pub why: u64,
    pub zero: bool,
    pub bad: bool,
}

// A set with a name's number; a bad name has none.
fn with_number(set: Set, number: Option<usize>) -> Set
    requires { (v : ℕ) → number ≡ Some v → v < variables }
    ensures { (v : ℕ) → number ≡ Some v → number_of result ≡ bit_or (2 ^ v) (number_of set) }
{
    match number {
        Some(v) => words::with(set, v),
        None => set,
    }
}

// The names at at, each behind a `*`, put to the variables of first.
fn read_names(names: &mut Numbering<'_>, s: &[u8], at: usize, first: Set) -> Result<NamesRead, Stop>
    requires { at ≤ length s.now }
    ensures read { NamesIs names.old names.new s.now at (number_of first) result }
    ensures plain { names.new.plain ≡ names.old.plain }
    ensures lent { StillLent names.old names.new }
{
    let mut set = first;
    let mut bad = false;
    let mut i = at;
    while stands_at(s, i, b'*') {
        let v = read_name(names, s, skip_spaces(s, i + 1))?;
        let more = with_number(set, v.number);
        set = more;
        bad = bad | v.number.is_none();
        i = v.end;
    }
    Ok(NamesRead { set, end: i, bad })
}

// The constant at at as a coefficient: 0 is out of range.
fn read_constant(s: &[u8], at: usize) -> Result<ConstantRead, Stop>
    requires { at ≤ length s.now }
    ensures { ConstantIs s.now at result }
{
    let n = constant_at(s, at, 0, limits::GREATEST_MAGNITUDE)?;
    let end = n.end;
    let (value, why, zero) = match n.value {
        None => (0, limits::NUMBER, false),
        Some(0) => (0, limits::NUMBER, true),
        Some(value) => (value, limits::ACCEPTED, false),
    };
    Ok(ConstantRead {
        value,
        end,
        why,
        zero,
    })
}

// The monomial at at, which begins with a constant.
fn behind_constant(
    names: &mut Numbering<'_>,
    s: &[u8],
    at: usize,
    negative: bool,
) -> Result<MonomialRead, Stop>
    requires { is_at is_digit s.now at ≡ true }
    ensures read { MonomialIs names.old names.new negative s.now at result }
    ensures plain { names.new.plain ≡ names.old.plain }
    ensures lent { StillLent names.old names.new }
{
    let c = read_constant(s, at)?;
    let vs = read_names(names, s, c.end, [0; limits::SET_WORDS])?;
    Ok(MonomialRead {
        term: terms::term_of(vs.set, signed(c.value, negative)),
        end: vs.end,
        why: c.why,
        zero: c.zero & (vs.end == c.end),
        bad: vs.bad,
    })
}

// The monomial at at, which begins with a name or not at all.
fn of_names(
    names: &mut Numbering<'_>,
    s: &[u8],
    at: usize,
    negative: bool,
) -> Result<MonomialRead, Stop>
    requires { (at ≤ length s.now) × (is_at is_digit s.now at ≡ false) }
    ensures read { MonomialIs names.old names.new negative s.now at result }
    ensures plain { names.new.plain ≡ names.old.plain }
    ensures lent { StillLent names.old names.new }
{
    let v = read_name(names, s, at)?;
    let one = with_number([0; limits::SET_WORDS], v.number);
    let vs = read_names(names, s, v.end, one)?;
    Ok(MonomialRead {
        term: terms::term_of(vs.set, signed(1, negative)),
        end: vs.end,
        why: limits::ACCEPTED,
        zero: false,
        bad: v.number.is_none() | vs.bad,
    })
}

// The monomial at at, behind a minus or not.
pub fn read_monomial(
    names: &mut Numbering<'_>,
    s: &[u8],
    at: usize,
    negative: bool,
) -> Result<MonomialRead, Stop>
    requires { at ≤ length s.now }
    ensures read { MonomialIs names.old names.new negative s.now at result }
    ensures plain { names.new.plain ≡ names.old.plain }
    ensures lent { StillLent names.old names.new }
{
    if digit_at(s, at) {
        return behind_constant(names, s, at, negative);
    }
    of_names(names, s, at, negative)
}
