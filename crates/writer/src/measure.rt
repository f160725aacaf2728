// How many bytes a spelling takes.
ghost use Rattle.std.specs.Prelude.{◌≡◌, ◌+◌, ◌*◌, ◌^◌, ◌≤◌, ◌<◌, leb, length};
ghost use Rattle.ground.specs.Lists.{gather};
ghost use Rattle.limits.specs.Limits.{variables, term_words, field_terms};
ghost use Rattle.algebra.specs.Polynomial.{members};
ghost use Rattle.words.specs.Words.{number_of};
ghost use Rattle.terms.specs.Terms.{term_of, decode};
ghost use Rattle.paper.specs.Spelling.{spell_number, spell_coefficient, spell_term, spell};
ghost use Rattle.writer.specs.Writing.{dotted, Cut, room};

use super::sign::with_sign;
use terms::Term;
use words::Set;
use words::ring::Ring;

// The bytes of a variable with its dot, at most.
const VARIABLE_ROOM: usize = 4;

// The bytes of a term without variables, with its sign and its space, at most.
const TERM_ROOM: usize = 22;

// The bytes of a number's decimal.
pub fn number_length(n: u64) -> usize
    ensures { result ≡ length (spell_number n) }
{
    match n.checked_ilog10() {
        Some(tens) => tens as usize + 1,
        None => 1,
    }
}

// The bytes of the variables of one word of a set, whose lowest digit is variable first.
fn word_length(w: u64, first: u64) -> usize
    requires { first + 64 ≤ variables }
    ensures { result ≡ length (gather dotted (members 64 first w)) }
{
    let mut sum = 0;
    let mut left = w;
    while 0 < left {
        let v = words::lowest(left) as u64;
        left = words::without_lowest(left);
        sum += 1 + number_length(first + v);
    }
    sum
}

// The bytes of a set's variables.
fn set_length(a: Set) -> usize
    ensures { result ≡ length (gather dotted (members variables 0 (number_of a))) }
{
    let mut sum = 0;
    for i in 0..limits::SET_WORDS {
        sum += word_length(a[i], 64 * i as u64);
    }
    sum
}

// The bytes of a coefficient in a ring.
pub fn coefficient_length(c: u64, ring: Ring) -> usize
    requires { c < 2 ^ ring.k }
    ensures { result ≡ length (spell_coefficient ring.k c) }
{
    let s = with_sign(c, ring);
    let digits = number_length(s.magnitude);
    if s.minus {
        return digits + 1;
    }
    digits
}

// The bytes of a term in a ring.
fn term_length(t: Term, ring: Ring) -> usize
    requires { (term_of t).coef < 2 ^ ring.k }
    ensures { result ≡ length (spell_term ring.k (term_of t)) }
{
    coefficient_length(t[limits::SET_WORDS], ring) + set_length(terms::set_of(t))
}

// The bytes of a run of n terms in a ring.
pub fn run_length(s: &[u64], n: usize, ring: Ring) -> usize
    requires { (n ≤ field_terms) × (n * term_words ≤ length s.now) × Cut ring.k (decode n s.now) }
    ensures { result ≡ length (spell ring.k (decode n s.now)) }
{
    if n == 0 {
        return 1;
    }
    let t = terms::read_term(s, 0);
    let mut sum = term_length(t, ring);
    for i in 1..n {
        let t = terms::read_term(s, i * limits::TERM_WORDS);
        sum += 1 + term_length(t, ring);
    }
    sum
}

// More bytes than a run of n terms takes in any ring, by the ones of its sets.
fn run_room(s: &[u64], n: usize) -> usize
    requires { (n ≤ field_terms) × (n * term_words ≤ length s.now) }
    ensures { result ≡ room (decode n s.now) }
{
    let mut sum = 1;
    for i in 0..n {
        let t = terms::read_term(s, i * limits::TERM_WORDS);
        sum += TERM_ROOM + VARIABLE_ROOM * words::count(terms::set_of(t));
    }
    sum
}

// Whether a run of n terms in a ring takes at most size bytes. Where even the room by its ones is there, nothing is measured.
pub fn run_fits(s: &[u64], n: usize, ring: Ring, size: usize) -> bool
    requires { (n ≤ field_terms) × (n * term_words ≤ length s.now) × Cut ring.k (decode n s.now) }
    ensures { result ≡ leb (length (spell ring.k (decode n s.now))) size }
{
    if run_room(s, n) <= size {
        return true;
    }
    run_length(s, n, ring) <= size
}
