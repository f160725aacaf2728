// The pairs of a linear combination: ids and factors, each read once.
ghost use Rattle.std.specs.Prelude.{◌≡◌, ℕ, ◌+◌, ◌*◌, ◌≤◌, length};
ghost use Rattle.limits.specs.Limits.{field_terms, term_words, least_scratch};
ghost use Rattle.words.specs.Parts.{Within};
ghost use Rattle.paper.specs.Statement.{renamed_field};
ghost use Rattle.paper.specs.Published.{Name, one, poly, factor, summand};
ghost use Rattle.written.specs.Worded.{Holds};
ghost use Rattle.reader.specs.Verdicts.{lesser_of};
ghost use Rattle.names.specs.Numbered.{StillLent};
ghost use Rattle.scratch.specs.Scratch.{factor_at, goal_at};
ghost use Rattle.published.specs.Pairs.{IdIs, PlacedIs, FactorIs, in_parentheses, SummandIs, comma_poly};

use named::poly::{PolyRead, read_poly};
use named::token::{constant_at, skip_spaces, symbol_at};
use names::numbering::Numbering;
use reader::stop::Stop;
use reader::term::stands_at;
use reader::verdict::lesser;

// An id and its end: ACCEPTED or NUMBER.
#[derive(Drop)]
pub struct IdRead {
    pub value: u32,
    pub end: usize,
    pub why: u64,
}

// A summand: its id, and how many terms its factor has, which stand in the factor's region; whether one of its names is bad.
#[derive(Drop)]
pub struct SummandRead {
    pub index: u32,
    pub terms: usize,
    pub end: usize,
    pub why: u64,
    pub bad: bool,
}

impl SummandRead {
    // Of its id and its factor.
    pub(crate) fn new(i: IdRead, f: PolyRead) -> SummandRead
        ensures { result ≡ record { index = i.value; terms = f.terms; end = f.end; why = lesser_of i.why f.why; bad = f.bad } }
    {
        SummandRead {
            index: i.value,
            terms: f.terms,
            end: f.end,
            why: lesser(i.why, f.why),
            bad: f.bad,
        }
    }
}

// The id at at.
pub(crate) fn read_id(s: &[u8], at: usize) -> Result<IdRead, Stop>
    requires { at ≤ length s.now }
    ensures { IdIs s.now at result }
{
    let n = constant_at(s, at, 1, limits::GREATEST_INDEX)?;
    let Some(value) = n.value else {
        return Ok(IdRead {
            value: 0,
            end: n.end,
            why: limits::NUMBER,
        });
    };
    Ok(IdRead {
        value: value as u32,
        end: n.end,
        why: limits::ACCEPTED,
    })
}

// Puts the polynomial 1 into the factor's region.
pub(crate) fn put_one(scratch: &mut [u64])
    requires { least_scratch ≤ length scratch.old }
    ensures holds { (f : Name → ℕ) → Holds (renamed_field f one) 1 factor_at scratch.new }
    ensures kept { Within factor_at goal_at scratch.old scratch.new }
{
    let t = terms::term_of([0; limits::SET_WORDS], 1);
    terms::write_term(scratch, scratch::FACTOR, t);
}

// The polynomial at at, put into the region from word base on.
pub(crate) fn read_polynomial(
    names: &mut Numbering<'_>,
    s: &[u8],
    at: usize,
    scratch: &mut [u64],
    base: usize,
) -> Result<PolyRead, Stop>
    requires { (at ≤ length s.now) × (base + field_terms * term_words ≤ length scratch.old) }
    ensures read { PlacedIs base poly names.old names.new s.now at scratch.old scratch.new result }
    ensures plain { names.new.plain ≡ names.old.plain }
    ensures lent { StillLent names.old names.new }
{
    let last = base + scratch::REGION;
    read_poly(names, s, at, &mut scratch[base..last])
}

// The polynomial behind the comma at at, put into the region from word base on.
pub(crate) fn behind_comma(
    names: &mut Numbering<'_>,
    s: &[u8],
    at: usize,
    scratch: &mut [u64],
    base: usize,
) -> Result<PolyRead, Stop>
    requires { (at ≤ length s.now) × (base + field_terms * term_words ≤ length scratch.old) }
    ensures read { PlacedIs base comma_poly names.old names.new s.now at scratch.old scratch.new result }
    ensures plain { names.new.plain ≡ names.old.plain }
    ensures lent { StillLent names.old names.new }
{
    let from = symbol_at(s, at, b',')?;
    read_polynomial(names, s, from, scratch, base)
}

// The polynomial in parentheses at at, behind a `*`.
fn in_parentheses(
    names: &mut Numbering<'_>,
    s: &[u8],
    at: usize,
    scratch: &mut [u64],
) -> Result<PolyRead, Stop>
    requires { (at ≤ length s.now) × (least_scratch ≤ length scratch.old) }
    ensures read { FactorIs in_parentheses names.old names.new s.now at scratch.old scratch.new result }
    ensures plain { names.new.plain ≡ names.old.plain }
    ensures lent { StillLent names.old names.new }
{
    let from = symbol_at(s, skip_spaces(s, at), b'(')?;
    let p = read_polynomial(names, s, from, scratch, scratch::FACTOR)?;
    let end = symbol_at(s, p.end, b')')?;
    Ok(PolyRead { end, ..p })
}

// The factor at at, which is 1 where it is omitted.
fn read_factor(
    names: &mut Numbering<'_>,
    s: &[u8],
    at: usize,
    scratch: &mut [u64],
) -> Result<PolyRead, Stop>
    requires { (at ≤ length s.now) × (least_scratch ≤ length scratch.old) }
    ensures read { FactorIs factor names.old names.new s.now at scratch.old scratch.new result }
    ensures plain { names.new.plain ≡ names.old.plain }
    ensures lent { StillLent names.old names.new }
{
    if stands_at(s, at, b'*') {
        return in_parentheses(names, s, at + 1, scratch);
    }
    put_one(scratch);
    Ok(PolyRead {
        why: limits::ACCEPTED,
        end: at,
        terms: 1,
        bad: false,
    })
}

// The summand at at: an id, and its factor.
pub(crate) fn read_summand(
    names: &mut Numbering<'_>,
    s: &[u8],
    at: usize,
    scratch: &mut [u64],
) -> Result<SummandRead, Stop>
    requires { (at ≤ length s.now) × (least_scratch ≤ length scratch.old) }
    ensures read { SummandIs summand names.old names.new s.now at scratch.old scratch.new result }
    ensures plain { names.new.plain ≡ names.old.plain }
    ensures lent { StillLent names.old names.new }
{
    let i = read_id(s, at)?;
    let f = read_factor(names, s, i.end, scratch)?;
    Ok(SummandRead::new(i, f))
}
