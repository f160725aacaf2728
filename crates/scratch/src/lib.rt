// The scratch in regions: the products of a line from word 0 on, then a stated polynomial or p, a factor, and the goal.

#![tactic(auto)]

ghost use Rattle.std.specs.Prelude.{◌≡◌, List, ℕ, ◌+◌, ◌*◌, ◌≤◌, ◌<◌, length, drop};
ghost use Rattle.words.specs.Parts.{Within};
ghost use Rattle.limits.specs.Limits.{field_terms, line_products, term_words, variables, least_scratch};
ghost use Rattle.algebra.specs.Polynomial.{equal, products, product, extension};
ghost use Rattle.terms.specs.Terms.{decode, rounded, Leaves, Appended};
ghost use Rattle.paper.specs.Statement.{Written};
ghost use Rattle.paper.specs.Rules.{holds_goal};
ghost use Rattle.written.specs.Worded.{Holds};
ghost use Rattle.table.specs.Table.{PackedColumns, store_of_columns};
ghost use Rattle.scratch.specs.Scratch.{stated_at, goal_at, RunAt, ReducedAt};

use table::{Counts, Starts};
use words::Set;
use words::ring::Ring;

// The words of a region for one field.
pub const REGION: usize = limits::FIELD_TERMS * limits::TERM_WORDS;

// The words at which the regions behind the products begin.
pub const STATED: usize = limits::LINE_PRODUCTS * limits::TERM_WORDS;

pub const FACTOR: usize = STATED + REGION;

pub const GOAL: usize = FACTOR + REGION;

// A field that was reduced in its region: how many terms are left, and the variables that it makes seen.
#[derive(Drop)]
pub struct Reduced {
    pub terms: usize,
    pub shown: Set,
}

// Reduces a field, the n terms as written in the region from word base on, in the ring.
pub fn reduce_field(scratch: &mut [u64], base: usize, n: usize, ring: Ring) -> Reduced
    requires { ((w : Written) × Holds w n base scratch.old) × (base + field_terms * term_words ≤ length scratch.old) }
    ensures { (w : Written) → Holds w n base scratch.old → ReducedAt ring.k w base scratch.old scratch.new result }
{
    let last = base + REGION;
    let left = reduction::reduce(&mut scratch[base..last], n, ring);
    Reduced {
        terms: left,
        shown: terms::variables(&scratch[base..], left),
    }
}

// Copies the n terms of the stated region to the goal's.
pub fn copy_to_goal(scratch: &mut [u64], n: usize)
    requires { (n ≤ field_terms) × (least_scratch ≤ length scratch.old) }
    ensures { RunAt goal_at (decode n (drop stated_at scratch.old)) scratch.old scratch.new n }
{
    for i in 0..n {
        let t = terms::read_term(scratch, STATED + i * limits::TERM_WORDS);
        terms::write_term(scratch, GOAL + i * limits::TERM_WORDS, t);
    }
}

// Whether the n terms of a goal are one of the stored polynomials.
pub fn is_stored<'a>(
    starts: &'a Starts,
    counts: &'a Counts,
    stored: usize,
    pool: &[u64],
    goal: &[u64],
    n: usize,
) -> bool
    requires { ((used : ℕ) × PackedColumns starts.now counts.now stored used × (used * term_words ≤ length pool.now))
        × (n * term_words ≤ length goal.now) }
    ensures { (indices : List ℕ) → result ≡ holds_goal (decode n goal.now) (store_of_columns indices starts.now counts.now pool.now stored) }
{
    for j in 0..stored {
        let at = starts[j] as usize * limits::TERM_WORDS;
        let m = counts[j] as usize;
        if terms::same_run(&pool[at..], m, goal, n) {
            return true;
        }
    }
    false
}

// Writes the products of the l terms of a with the m terms of b behind the n terms of out, coefficients modulo 2 ^ 64.
pub fn append_products(out: &mut [u64], n: usize, a: &[u64], l: usize, b: &[u64], m: usize)
    requires { ((n + l * m) * term_words ≤ length out.old) × (l * term_words ≤ length a.now) × (m * term_words ≤ length b.now) }
    ensures { Appended 0 n (l * m) (rounded (products (decode l a.now) (decode m b.now))) out.old out.new }
{
    for i in 0..l {
        let t = terms::read_term(a, i * limits::TERM_WORDS);
        terms::append_times(out, n + i * m, t, b, m);
    }
}

// Writes the products of the n terms of the stated region with each other from word 0 on, coefficients modulo 2 ^ 64.
fn square(scratch: &mut [u64], n: usize)
    requires { (n * n ≤ line_products) × (least_scratch ≤ length scratch.old) }
    ensures { Leaves line_products (rounded (products (decode n (drop stated_at scratch.old)) (decode n (drop stated_at scratch.old)))) scratch.old scratch.new (n * n) }
{
    let (front, stated) = scratch.split_at_mut(STATED);
    append_products(front, 0, stated, n, stated, n);
}

// Whether the n terms of the stated region are their own square in the ring.
pub fn is_bit(scratch: &mut [u64], n: usize, ring: Ring) -> bool
    requires { (n * n ≤ line_products) × (least_scratch ≤ length scratch.old) }
    ensures equals { result ≡ equal (product ring.k (decode n (drop stated_at scratch.old)) (decode n (drop stated_at scratch.old))) (decode n (drop stated_at scratch.old)) }
    ensures within { Within 0 stated_at scratch.old scratch.new }
{
    square(scratch, n);
    reduction::is_reduced(scratch, STATED, n, n * n, ring)
}

// Makes -v + p of p, the n terms of the stated region, and gives how many terms it has.
pub fn define(scratch: &mut [u64], n: usize, v: usize, ring: Ring) -> usize
    requires { (n < field_terms) × (v < variables) × (least_scratch ≤ length scratch.old) }
    ensures { RunAt stated_at (extension ring.k v (decode n (drop stated_at scratch.old))) scratch.old scratch.new result }
{
    let set = words::with([0; limits::SET_WORDS], v);
    let t = terms::term_of(set, u64::MAX);
    terms::write_term(scratch, STATED + n * limits::TERM_WORDS, t);
    reduction::reduce(&mut scratch[STATED..FACTOR], n + 1, ring)
}

// Whether the n terms of the stated region are the goal.
pub fn is_goal(scratch: &[u64], n: usize, goal_terms: usize) -> bool
    requires { (n ≤ field_terms) × (goal_terms ≤ field_terms) × (least_scratch ≤ length scratch.now) }
    ensures { result ≡ equal (decode n (drop stated_at scratch.now)) (decode goal_terms (drop goal_at scratch.now)) }
{
    terms::same_run(&scratch[STATED..], n, &scratch[GOAL..], goal_terms)
}
