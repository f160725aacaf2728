// Polynomials read into runs of terms.
ghost use Rattle.std.specs.Prelude.{◌≡◌, ◌*◌, ◌≤◌, length};
ghost use Rattle.limits.specs.Limits.{field_terms, term_words};
ghost use Rattle.paper.specs.Published.{minus};
ghost use Rattle.reader.specs.Places.{Got};
ghost use Rattle.reader.specs.Fields.{stands_at};
ghost use Rattle.names.specs.Numbered.{StillLent};
ghost use Rattle.named.specs.Reads.{MonomialsIs, PolyIs};

use super::monomial::read_monomial;
use super::token::skip_spaces;
use names::numbering::Numbering;
use reader::field::{put_term, with_count};
use reader::stop::Stop;
use reader::term::{first_verdict, stands_at};

// A polynomial: ACCEPTED, NUMBER or TERMS, the first that applies, its end and how many terms it has; whether one of its names is bad.
#[derive(Drop)]
pub struct PolyRead {
    pub why: u64,
    pub end: usize,
    pub terms: usize,
    pub bad: bool,
}

// The monomials at at, each behind a `+` or a `-`, put behind the first term of out: how many there are with the first.
fn read_rest(
    names: &mut Numbering<'_>,
    s: &[u8],
    at: usize,
    out: &mut [u64],
) -> Result<PolyRead, Stop>
    requires { (at ≤ length s.now) × (field_terms * term_words ≤ length out.old) }
    ensures read { MonomialsIs names.old names.new s.now at out.old out.new result }
    ensures plain { names.new.plain ≡ names.old.plain }
    ensures lent { StillLent names.old names.new }
{
    let mut terms: usize = 1;
    let mut why = limits::ACCEPTED;
    let mut bad = false;
    let mut i = at;
    while stands_at(s, i, b'+') | stands_at(s, i, b'-') {
        let m = read_monomial(names, s, skip_spaces(s, i + 1), stands_at(s, i, b'-'))?;
        put_term(out, terms, m.term, m.why);
        terms += 1;
        why = first_verdict(why, m.why);
        bad = bad | m.bad;
        i = m.end;
    }
    Ok(PolyRead {
        why,
        end: i,
        terms,
        bad,
    })
}

// The place of a first monomial: behind the minus at at, if there is one.
fn behind_minus(s: &[u8], at: usize, negative: bool) -> usize
    requires { (at ≤ length s.now) × (negative ≡ stands_at s.now at 45) }
    ensures { Got minus s.now at negative result }
{
    if negative {
        return skip_spaces(s, at + 1);
    }
    at
}

// The polynomial at at, as a run at the front of out, at most as many terms as a field may have.
pub fn read_poly(
    names: &mut Numbering<'_>,
    s: &[u8],
    at: usize,
    out: &mut [u64],
) -> Result<PolyRead, Stop>
    requires { (at ≤ length s.now) × (field_terms * term_words ≤ length out.old) }
    ensures read { PolyIs names.old names.new s.now at out.old out.new result }
    ensures plain { names.new.plain ≡ names.old.plain }
    ensures lent { StillLent names.old names.new }
{
    let negative = stands_at(s, at, b'-');
    let m = read_monomial(names, s, behind_minus(s, at, negative), negative)?;
    put_term(out, 0, m.term, m.why);
    let r = read_rest(names, s, m.end, out)?;
    if (r.terms == 1) & m.zero & !negative {
        return Ok(PolyRead {
            why: limits::ACCEPTED,
            end: r.end,
            terms: 0,
            bad: false,
        });
    }
    Ok(PolyRead {
        why: with_count(first_verdict(m.why, r.why), r.terms),
        end: r.end,
        terms: r.terms,
        bad: m.bad | r.bad,
    })
}
