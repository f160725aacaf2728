// Reducing a run in falling order: neighbours with one set are added, coefficients cut to the ring, and zeros dropped.
ghost use Rattle.std.specs.Prelude.{◌+◌, ◌*◌, ◌≤◌, [], ◌++◌, length};
ghost use Rattle.limits.specs.Limits.{term_words};
ghost use Rattle.algebra.specs.Polynomial.{put, reduce};
ghost use Rattle.terms.specs.Terms.{term_of, decode, Leaves};
ghost use Rattle.reduction.specs.Order.{Falls};

use terms::{Term, read_term, same_set, set_of, term_of, write_term};
use words::ring::Ring;

// Puts the set of t with coefficient c, cut to the ring, behind the first n terms, unless that is zero, and gives how many there are then.
fn put(s: &mut [u64], n: usize, t: Term, c: u64, ring: Ring) -> usize
    requires { (n + 1) * term_words ≤ length s.old }
    ensures { Leaves (n + 1) (decode n s.old ++ put ring.k (term_of t).set c []) s.old s.new result }
{
    let d = ring.cut(c);
    if d == 0 {
        return n;
    }
    let u = term_of(set_of(t), d);
    write_term(s, n * limits::TERM_WORDS, u);
    n + 1
}

// Reduces n terms in falling order, and gives how many are left.
pub(crate) fn merge(s: &mut [u64], n: usize, ring: Ring) -> usize
    requires { (n * term_words ≤ length s.old) × Falls 1 (decode n s.old) }
    ensures { Leaves n (reduce ring.k (decode n s.old)) s.old s.new result }
{
    if n == 0 {
        return 0;
    }
    let mut left = 0;
    let mut c = s[limits::SET_WORDS];
    let last = n - 1;
    for i in 0..last {
        let t = read_term(s, i * limits::TERM_WORDS);
        let u = read_term(s, (i + 1) * limits::TERM_WORDS);
        if same_set(t, u) {
            c = c.wrapping_add(u[limits::SET_WORDS]);
            continue;
        }
        left = put(s, left, t, c, ring);
        c = u[limits::SET_WORDS];
    }
    let t = read_term(s, last * limits::TERM_WORDS);
    put(s, left, t, c, ring)
}
