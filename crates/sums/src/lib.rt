// The sum of a lin line, pair by pair: whether the pairs name stored polynomials, and the products of their factors with these.

#![tactic(auto)]

ghost use Rattle.std.specs.Prelude.{List, [], ◌∷◌, ◌++◌, ℕ, ◌≤◌, ◌<◌, Ok, length, drop};
ghost use Rattle.limits.specs.Limits.{field_terms, line_products, least_scratch};
ghost use Rattle.words.specs.Words.{number_of};
ghost use Rattle.terms.specs.Terms.{decode};
ghost use Rattle.paper.specs.Statement.{Written, Pair};
ghost use Rattle.paper.specs.Rules.{Store};
ghost use Rattle.written.specs.Worded.{Holds};
ghost use Rattle.table.specs.Table.{poly_at};
ghost use Rattle.table.specs.Stores.{store_in};
ghost use Rattle.scratch.specs.Scratch.{factor_at, Kept};
ghost use Rattle.sums.specs.Sums.{Summed, Extended};

use limits::refusal::Refusal;
use scratch::Reduced;
use table::stored::Stored;
use words::Set;
use words::ring::Ring;

// Of the pairs so far: how many products they have, which stand from word 0 of the scratch on, and the variables that their
// factors make seen.
#[derive(Drop)]
pub struct Sum {
    pub terms: usize,
    pub seen: Set,
}

impl Sum {
    // Of no pairs.
    pub fn none() -> Sum
        ensures { (k : ℕ) (store : Store) (scratch : List ℕ) → Summed k store [] scratch (Ok result) }
    {
        Sum {
            terms: 0,
            seen: [0; limits::SET_WORDS],
        }
    }
}

// Puts the products of the factor's region with the j-th polynomial behind the terms from word 0 on, unless there are too many.
fn add_products(
    stored: &Stored<'_>,
    j: usize,
    scratch: &mut [u64],
    factor: Reduced,
    sum: Sum,
) -> Result<Sum, Refusal>
    requires { (j < stored.now.polynomials) × (factor.terms ≤ field_terms) × (sum.terms ≤ line_products)
        × (least_scratch ≤ length scratch.old) }
    ensures { Extended (decode factor.terms (drop factor_at scratch.old)) (poly_at stored.now.starts.now stored.now.counts.now stored.now.pool.now j) (number_of factor.shown) sum scratch.old scratch.new result }
{
    let m = stored.counts[j] as usize;
    let terms = sum.terms + factor.terms * m;
    if limits::LINE_PRODUCTS < terms {
        return Err(Refusal::Products);
    }
    let start = stored.starts[j] as usize * limits::TERM_WORDS;
    let (front, factors) = scratch.split_at_mut(scratch::FACTOR);
    scratch::append_products(
        front,
        sum.terms,
        factors,
        factor.terms,
        &stored.pool[start..],
        m,
    );
    Ok(Sum {
        terms,
        seen: words::union(factor.shown, sum.seen),
    })
}

// The sum with one pair more: the f terms in the factor's region, as written, times the polynomial under an index.
// A pair that names nothing stored refuses the sum whatever was found before, and once there are too many products nothing else is
// looked at.
pub fn add_factor(
    stored: &Stored<'_>,
    scratch: &mut [u64],
    index: u32,
    f: usize,
    sum: Result<Sum, Refusal>,
) -> Result<Sum, Refusal>
    requires { (least_scratch ≤ length scratch.old) × ((w : Written) × Holds w f factor_at scratch.old)
        × ((qs : List Pair) × Summed stored.now.ring (store_in stored.now) qs scratch.old sum) }
    ensures summed { (w : Written) → Holds w f factor_at scratch.old → (qs : List Pair) → Summed stored.now.ring (store_in stored.now) qs scratch.old sum
        → Summed stored.now.ring (store_in stored.now) (qs ++ (record { index = index; factor = w } ∷ [])) scratch.new result }
    ensures kept { Kept scratch.old scratch.new }
{
    let found = table::find(stored.indices, stored.polynomials, index);
    let place = found.ok_or(Refusal::Missing)?;
    let sum = sum?;
    let ring = Ring { k: stored.ring };
    let factor = scratch::reduce_field(scratch, scratch::FACTOR, f, ring);
    add_products(stored, place, scratch, factor, sum)
}
