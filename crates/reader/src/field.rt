// Fields read into runs of terms.
ghost use Rattle.std.specs.Prelude.{◌≡◌, cond, ◌*◌, ◌≤◌, ltb, length};
ghost use Rattle.limits.specs.Limits.{field_terms, term_words};
ghost use Rattle.limits.specs.Verdicts.{ACCEPTED, TERMS};
ghost use Rattle.reader.specs.Fields.{first_of, PutBehind, RestIs, FieldIs};

use crate::stop::Stop;
use crate::term::{first_verdict, read_term, stands_at, verdict_on};
use terms::Term;

// The terms of a field behind its first: how many the field has with the first, and the bytes, counted from 1, of the first digit of the
// first number out of its range and of the beginning of the first term too many, if there is one.
#[derive(Drop)]
struct Rest {
    terms: usize,
    end: usize,
    outside: Option<usize>,
    extra: Option<usize>,
}

// A field: ACCEPTED or the first of NUMBER and TERMS that applies; where it ends; how many terms it has; and the bytes, counted
// from 1, of the first digit of the first number out of its range and of the beginning of the first term too many, 0 where there is none.
#[derive(Clone, Copy)]
pub struct FieldRead {
    pub why: u64,
    pub end: usize,
    pub terms: usize,
    pub outside: usize,
    pub extra: usize,
}

// Puts a term behind the n terms of out, if there is room for it and its numbers are in their ranges.
pub fn put_term(out: &mut [u64], n: usize, t: Term, why: u64)
    requires { field_terms * term_words ≤ length out.old }
    ensures { PutBehind n why t out.old out.new }
{
    if why == limits::ACCEPTED && n < limits::FIELD_TERMS {
        terms::write_term(out, n * limits::TERM_WORDS, t);
    }
}

// The terms at at, each behind a space, put behind the first term of out.
fn read_rest(s: &[u8], at: usize, out: &mut [u64], greatest: u64) -> Result<Rest, Stop>
    requires { (at ≤ length s.now) × (field_terms * term_words ≤ length out.old) }
    ensures { RestIs greatest s.now at out.old out.new result }
{
    let mut r = Rest {
        terms: 1,
        end: at,
        outside: None,
        extra: None,
    };
    while stands_at(s, r.end, b' ') {
        let t = read_term(s, r.end + 1, greatest)?;
        if r.terms == limits::FIELD_TERMS {
            r.extra = Some(r.end + 2);
        }
        put_term(out, r.terms, t.term, verdict_on(t.outside));
        r.terms += 1;
        r.outside = r.outside.or(t.outside);
        r.end = t.end;
    }
    Ok(r)
}

// TERMS, where nothing before it applies.
pub fn with_count(why: u64, terms: usize) -> u64
    ensures { result ≡ first_of why (cond (ltb field_terms terms) TERMS ACCEPTED) }
{
    if limits::FIELD_TERMS < terms {
        first_verdict(why, limits::TERMS)
    } else {
        why
    }
}

// The field at at, as a run at the front of out, at most as many terms as a field may have. Magnitudes are from 1 to greatest,
// but the field `0` has no terms.
pub fn read_field(s: &[u8], at: usize, out: &mut [u64], greatest: u64) -> Result<FieldRead, Stop>
    requires { (at ≤ length s.now) × (field_terms * term_words ≤ length out.old) }
    ensures { FieldIs greatest s.now at out.old out.new result }
{
    let t = read_term(s, at, greatest)?;
    put_term(out, 0, t.term, verdict_on(t.outside));
    let r = read_rest(s, t.end, out, greatest)?;
    if r.end == at + 1 && s[at] == b'0' {
        return Ok(FieldRead {
            why: limits::ACCEPTED,
            end: r.end,
            terms: 0,
            outside: 0,
            extra: 0,
        });
    }
    let outside = t.outside.or(r.outside);
    Ok(FieldRead {
        why: with_count(verdict_on(outside), r.terms),
        end: r.end,
        terms: r.terms,
        outside: outside.unwrap_or(0),
        extra: r.extra.unwrap_or(0),
    })
}
