// Pieces of a spelling, written into a lent output from a place on; each function gives the place after what it wrote.
ghost use Rattle.std.specs.Prelude.{◌+◌, ◌*◌, ◌^◌, ◌≤◌, ◌<◌, length, drop};
ghost use Rattle.ground.specs.Lists.{gather};
ghost use Rattle.limits.specs.Limits.{variables, term_words};
ghost use Rattle.algebra.specs.Polynomial.{members};
ghost use Rattle.words.specs.Words.{number_of};
ghost use Rattle.terms.specs.Terms.{term_of, decode};
ghost use Rattle.paper.specs.Spelling.{spell_number, spell_coefficient, spell_term, spell};
ghost use Rattle.writer.specs.Writing.{Wrote, dotted, spaced, Cut};

use super::measure::number_length;
use super::sign::with_sign;
use terms::Term;
use words::Set;
use words::ring::Ring;

// Writes the decimal of a number, its digits from the last to the first.
pub fn write_number(out: &mut [u8], at: usize, n: u64) -> usize
    requires { at + length (spell_number n) ≤ length out.old }
    ensures { Wrote out.old at (spell_number n) out.new result }
{
    let end = at + number_length(n);
    let mut left = n;
    for i in (at..end).rev() {
        out[i] = b'0' + (left % 10) as u8;
        left /= 10;
    }
    end
}

// Writes a variable with its dot.
pub fn write_variable(out: &mut [u8], at: usize, v: u64) -> usize
    requires { at + length (dotted v) ≤ length out.old }
    ensures { Wrote out.old at (dotted v) out.new result }
{
    out[at] = b'.';
    write_number(out, at + 1, v)
}

// Writes the variables of one word of a set, whose lowest digit is variable first.
fn write_word(out: &mut [u8], at: usize, w: u64, first: u64) -> usize
    requires { (first + 64 ≤ variables) × (at + length (gather dotted (members 64 first w)) ≤ length out.old) }
    ensures { Wrote out.old at (gather dotted (members 64 first w)) out.new result }
{
    let mut i = at;
    let mut left = w;
    while 0 < left {
        let v = words::lowest(left) as u64;
        left = words::without_lowest(left);
        i = write_variable(out, i, first + v);
    }
    i
}

// Writes the variables of a set.
fn write_set(out: &mut [u8], at: usize, a: Set) -> usize
    requires { at + length (gather dotted (members variables 0 (number_of a))) ≤ length out.old }
    ensures { Wrote out.old at (gather dotted (members variables 0 (number_of a))) out.new result }
{
    let mut end = at;
    for i in 0..limits::SET_WORDS {
        end = write_word(out, end, a[i], 64 * i as u64);
    }
    end
}

// Writes a coefficient in a ring.
pub fn write_coefficient(out: &mut [u8], at: usize, c: u64, ring: Ring) -> usize
    requires { (c < 2 ^ ring.k) × (at + length (spell_coefficient ring.k c) ≤ length out.old) }
    ensures { Wrote out.old at (spell_coefficient ring.k c) out.new result }
{
    let s = with_sign(c, ring);
    if s.minus {
        out[at] = b'-';
        return write_number(out, at + 1, s.magnitude);
    }
    write_number(out, at, s.magnitude)
}

// Writes a term in a ring.
pub fn write_term(out: &mut [u8], at: usize, t: Term, ring: Ring) -> usize
    requires { ((term_of t).coef < 2 ^ ring.k) × (at + length (spell_term ring.k (term_of t)) ≤ length out.old) }
    ensures { Wrote out.old at (spell_term ring.k (term_of t)) out.new result }
{
    let a = terms::set_of(t);
    let end = write_coefficient(out, at, t[limits::SET_WORDS], ring);
    write_set(out, end, a)
}

// Writes a space, and a term in a ring behind it.
fn write_spaced(out: &mut [u8], at: usize, t: Term, ring: Ring) -> usize
    requires { ((term_of t).coef < 2 ^ ring.k) × (at + length (spaced ring.k (term_of t)) ≤ length out.old) }
    ensures { Wrote out.old at (spaced ring.k (term_of t)) out.new result }
{
    out[at] = b' ';
    write_term(out, at + 1, t, ring)
}

// Writes all terms but the first of a run of n terms in a ring.
fn write_rest(out: &mut [u8], at: usize, s: &[u64], n: usize, ring: Ring) -> usize
    requires { (1 ≤ n) × (n * term_words ≤ length s.now) × Cut ring.k (decode n s.now)
        × (at + length (gather (spaced ring.k) (drop 1 (decode n s.now))) ≤ length out.old) }
    ensures { Wrote out.old at (gather (spaced ring.k) (drop 1 (decode n s.now))) out.new result }
{
    let mut end = at;
    for i in 1..n {
        let t = terms::read_term(s, i * limits::TERM_WORDS);
        end = write_spaced(out, end, t, ring);
    }
    end
}

// Writes a run of n terms in a ring.
pub fn write_run(out: &mut [u8], at: usize, s: &[u64], n: usize, ring: Ring) -> usize
    requires { (n * term_words ≤ length s.now) × Cut ring.k (decode n s.now) × (at + length (spell ring.k (decode n s.now)) ≤ length out.old) }
    ensures { Wrote out.old at (spell ring.k (decode n s.now)) out.new result }
{
    if n == 0 {
        out[at] = b'0';
        return at + 1;
    }
    let t = terms::read_term(s, 0);
    let end = write_term(out, at, t, ring);
    write_rest(out, end, s, n, ring)
}
