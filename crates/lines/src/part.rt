// Parts of a line behind a tab: numbers, polynomials, pairs. Each gives its end and how it is refused: ACCEPTED, NUMBER or TERMS, the first
// that applies; or the place where it stops.
ghost use Rattle.std.specs.Prelude.{◌+◌, ◌*◌, ◌≤◌, length};
ghost use Rattle.limits.specs.Limits.{greatest_index, field_terms, term_words, least_scratch};
ghost use Rattle.paper.specs.Grammar.{decimal, number};
ghost use Rattle.paper.specs.Statement.{within};
ghost use Rattle.lines.specs.Parts.{NumberPart, FieldPart, PairPart};

use reader::field::{FieldRead, read_field};
use reader::keyword::word_at;
use reader::number::number_at;
use reader::stop::Stop;
use reader::verdict::lesser;

// A number of a line, or 0 where it is out of its range.
#[derive(Drop)]
pub(crate) struct NumberRead {
    pub value: u32,
    pub end: usize,
    pub why: u64,
}

// A pair: its index, and how many terms its factor has, which stand in the factor's region.
#[derive(Drop)]
pub(crate) struct PairRead {
    pub index: u32,
    pub terms: usize,
    pub end: usize,
    pub why: u64,
}

// The number at at, from low to high, which half a word holds.
pub(crate) fn read_number(s: &[u8], at: usize, low: u64, high: u64) -> Result<NumberRead, Stop>
    requires { (at ≤ length s.now) × (high ≤ greatest_index) }
    ensures { NumberPart decimal (within low high) s.now at result }
{
    let n = number_at(s, at, low, high)?;
    match n.value {
        Some(value) => Ok(NumberRead {
            value: value as u32,
            end: n.end,
            why: limits::ACCEPTED,
        }),
        None => Ok(NumberRead {
            value: 0,
            end: n.end,
            why: limits::NUMBER,
        }),
    }
}

// The number behind the tab at at, from low to high.
pub(crate) fn tab_number(s: &[u8], at: usize, low: u64, high: u64) -> Result<NumberRead, Stop>
    requires { (at ≤ length s.now) × (high ≤ greatest_index) }
    ensures { NumberPart number (within low high) s.now at result }
{
    let behind = word_at(s, at, b"\t")?;
    read_number(s, behind, low, high)
}

// The polynomial behind the tab at at, put into the region from word base on.
pub(crate) fn tab_field(
    s: &[u8],
    at: usize,
    scratch: &mut [u64],
    base: usize,
) -> Result<FieldRead, Stop>
    requires { (at ≤ length s.now) × (base + field_terms * term_words ≤ length scratch.old) }
    ensures { FieldPart s.now at base scratch.old scratch.new result }
{
    let behind = word_at(s, at, b"\t")?;
    let last = base + scratch::REGION;
    read_field(
        s,
        behind,
        &mut scratch[base..last],
        limits::GREATEST_MAGNITUDE,
    )
}

// The pair at at; its factor goes into the factor's region.
pub(crate) fn read_pair(s: &[u8], at: usize, scratch: &mut [u64]) -> Result<PairRead, Stop>
    requires { (at ≤ length s.now) × (least_scratch ≤ length scratch.old) }
    ensures { PairPart s.now at scratch.old scratch.new result }
{
    let i = read_number(s, at, 1, limits::GREATEST_INDEX)?;
    let f = tab_field(s, i.end, scratch, scratch::FACTOR)?;
    Ok(PairRead {
        index: i.value,
        terms: f.terms,
        end: f.end,
        why: lesser(i.why, f.why),
    })
}
