// What the steps look at besides the state: the table, and words.
ghost use Rattle.std.specs.Prelude.{◌≡◌, ◌||◌, List, ℕ, ◌*◌, ◌+◌, ◌^◌, ◌≤◌, ◌<◌, length, drop};
ghost use Rattle.std.specs.Int.Bits.{bit_or};
ghost use Rattle.limits.specs.Limits.{stored_polynomials, field_terms, term_words, variables, least_scratch, most_pool_terms};
ghost use Rattle.limits.specs.Refusals.{outcome};
ghost use Rattle.algebra.specs.Polynomial.{equal, extension};
ghost use Rattle.words.specs.Words.{number_of};
ghost use Rattle.terms.specs.Terms.{decode};
ghost use Rattle.paper.specs.Statement.{Written, Pair, reduced};
ghost use Rattle.paper.specs.Rules.{first, Store, stored, find, shows, shows_all};
ghost use Rattle.written.specs.Worded.{Holds};
ghost use Rattle.table.specs.Table.{store_of};
ghost use Rattle.scratch.specs.Scratch.{stated_at, goal_at};
ghost use Rattle.sums.specs.Sums.{factors_of, products_of, Summed};
ghost use Rattle.steps.specs.Parts.{admit_rows, lin_rows, ext_rows, CandidateIs, PoolTakes};

use limits::refusal::Refusal;
use sums::Sum;
use table::{Table, find};
use words::Set;
use words::ring::Ring;

// What an in, a lin or an ext line has to store: how many terms, those of the stated region, how many products it made, and the
// variables seen then.
#[derive(Drop)]
pub struct Candidate {
    pub terms: usize,
    pub products: usize,
    pub seen: Set,
}

// Whether a line stands in its phase, and under an index that is free.
pub(crate) fn admit(phase: u8, place: u8, table: &Table, index: u32) -> Result<(), Refusal>
    requires { table.now.stored ≤ stored_polynomials }
    ensures { (pool : List ℕ) → outcome result ≡ first (admit_rows place phase (stored (store_of table.now pool) index)) }
{
    if phase != place {
        return Err(Refusal::Order);
    }
    match find(&table.indices, table.stored, index) {
        Some(_) => Err(Refusal::Taken),
        None => Ok(()),
    }
}

// Whether the goal is reached, now or by the n terms of the stated region.
pub(crate) fn reaches(reached: bool, scratch: &[u64], n: usize, goal_terms: usize) -> bool
    requires { (n ≤ field_terms) × (goal_terms ≤ field_terms) × (least_scratch ≤ length scratch.now) }
    ensures { result ≡ (reached || equal (decode n (drop stated_at scratch.now)) (decode goal_terms (drop goal_at scratch.now))) }
{
    reached || scratch::is_goal(scratch, n, goal_terms)
}

// Makes -v + p of p, the n terms of the stated region as written, where v is not seen and p is a bit.
pub(crate) fn extend(
    scratch: &mut [u64],
    n: usize,
    v: usize,
    ring: Ring,
    seen: Set,
) -> Result<Candidate, Refusal>
    requires { ((p : Written) × Holds p n stated_at scratch.old) × (v < variables) × (least_scratch ≤ length scratch.old) }
    ensures { (p : Written) → Holds p n stated_at scratch.old
        → CandidateIs (ext_rows ring.k (number_of seen) v p) (extension ring.k v (reduced ring.k p)) (length (reduced ring.k p) * length (reduced ring.k p)) (bit_or (bit_or (2 ^ v) (shows ring.k p)) (number_of seen)) scratch.old scratch.new result }
{
    let p = scratch::reduce_field(scratch, scratch::STATED, n, ring);
    let shown = p.shown;
    let all = words::union(shown, seen);
    if words::has(all, v) {
        return Err(Refusal::Seen);
    }
    let m = p.terms;
    let products = m * m;
    if limits::LINE_PRODUCTS < products {
        return Err(Refusal::Products);
    }
    if !scratch::is_bit(scratch, m, ring) {
        return Err(Refusal::NotBit);
    }
    Ok(Candidate {
        terms: scratch::define(scratch, m, v, ring),
        products,
        seen: words::with(all, v),
    })
}

// Looks whether a sum is refused, or is the stated polynomial, the n terms of the stated region as written.
pub(crate) fn check_sum(
    scratch: &mut [u64],
    n: usize,
    ring: Ring,
    sum: Result<Sum, Refusal>,
    seen: Set,
) -> Result<Candidate, Refusal>
    requires { ((p : Written) × Holds p n stated_at scratch.old)
        × ((store : Store) × (qs : List Pair) × Summed ring.k store qs scratch.old sum) × (least_scratch ≤ length scratch.old) }
    ensures { (p : Written) → Holds p n stated_at scratch.old → (store : Store) (qs : List Pair) → Summed ring.k store qs scratch.old sum
        → CandidateIs (lin_rows ring.k store p qs) (reduced ring.k p) (products_of ring.k (find store) qs) (bit_or (bit_or (shows ring.k p) (shows_all ring.k (factors_of qs))) (number_of seen)) scratch.old scratch.new result }
{
    let sum = sum?;
    let p = scratch::reduce_field(scratch, scratch::STATED, n, ring);
    if !reduction::is_reduced(scratch, scratch::STATED, p.terms, sum.terms, ring) {
        return Err(Refusal::Mismatch);
    }
    let shown = p.shown;
    let factors = sum.seen;
    let all = words::union(shown, factors);
    Ok(Candidate {
        terms: p.terms,
        products: sum.terms,
        seen: words::union(all, seen),
    })
}

// Where there is room for a polynomial of n terms more, these terms, those of the stated region, stand behind the used ones of the pool.
pub(crate) fn append_to_pool(
    table: &Table,
    n: usize,
    pool: &mut [u64],
    scratch: &[u64],
    capacity: usize,
) -> Result<(), Refusal>
    requires { (n ≤ field_terms) × (table.now.used ≤ capacity) × (capacity * term_words ≤ length pool.old) × (capacity ≤ most_pool_terms)
        × (least_scratch ≤ length scratch.now) }
    ensures { PoolTakes table.now.stored table.now.used n capacity pool.old scratch.now result pool.new }
{
    if limits::STORED_POLYNOMIALS <= table.stored {
        return Err(Refusal::Full);
    }
    if capacity < table.used + n {
        return Err(Refusal::Full);
    }
    let end = table.used * limits::TERM_WORDS;
    terms::move_run(&scratch[scratch::STATED..], n, pool, end);
    Ok(())
}
