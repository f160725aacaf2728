// Linear combinations: pairs, each read once and added to the sum of those before it.
ghost use Rattle.std.specs.Prelude.{◌≡◌, false, List, [], ◌∷◌, ◌++◌, ◌||◌, ◌≤◌, length};
ghost use Rattle.limits.specs.Limits.{least_scratch};
ghost use Rattle.limits.specs.Verdicts.{ACCEPTED};
ghost use Rattle.paper.specs.Statement.{Written, Pair};
ghost use Rattle.paper.specs.Published.{summand, summands};
ghost use Rattle.written.specs.Worded.{Holds};
ghost use Rattle.reader.specs.Verdicts.{lesser_of};
ghost use Rattle.names.specs.Numbered.{StillLent};
ghost use Rattle.scratch.specs.Scratch.{factor_at, Kept};
ghost use Rattle.table.specs.Stores.{store_in};
ghost use Rattle.sums.specs.Sums.{Summed};
ghost use Rattle.published.specs.Pairs.{NoPairs, Behind, AddedIs, SumIs};

use super::pairs::{SummandRead, read_summand};
use limits::refusal::Refusal;
use named::token::skip_spaces;
use names::numbering::Numbering;
use reader::stop::Stop;
use reader::term::stands_at;
use reader::verdict::lesser;
use sums::{Sum, add_factor};
use table::stored::Stored;

// Pairs up to end, with the verdict on what is written and their sum, where nothing refuses them and none of their names is bad; whether
// one of these is bad.
#[derive(Drop)]
pub struct SumRead {
    pub sum: Result<Sum, Refusal>,
    pub end: usize,
    pub why: u64,
    pub bad: bool,
}

impl SumRead {
    // No pairs, up to end.
    pub(crate) fn none(end: usize) -> SumRead
        ensures { NoPairs result }
    {
        SumRead {
            sum: Ok(Sum::none()),
            end,
            why: limits::ACCEPTED,
            bad: false,
        }
    }

    // These and the pair q, whose factor stands in its region: it is added where nothing refuses them all and no name is bad.
    pub(crate) fn with(self, stored: &Stored<'_>, scratch: &mut [u64], q: SummandRead) -> SumRead
        requires { (least_scratch ≤ length scratch.old)
            × (lesser_of self.why q.why ≡ ACCEPTED → (self.bad || q.bad) ≡ false
            → ((w : Written) × Holds w q.terms factor_at scratch.old) × ((qs : List Pair) × Summed stored.now.ring (store_in stored.now) qs scratch.old self.sum)) }
        ensures behind { Behind self q result }
        ensures summed { result.why ≡ ACCEPTED → result.bad ≡ false → (w : Written) → Holds w q.terms factor_at scratch.old
            → (qs : List Pair) → Summed stored.now.ring (store_in stored.now) qs scratch.old self.sum
            → Summed stored.now.ring (store_in stored.now) (qs ++ (record { index = q.index; factor = w } ∷ [])) scratch.new result.sum }
        ensures kept { Kept scratch.old scratch.new }
    {
        let why = lesser(self.why, q.why);
        let bad = self.bad | q.bad;
        let sum = if (why == limits::ACCEPTED) & !bad {
            add_factor(stored, scratch, q.index, q.terms, self.sum)
        } else {
            self.sum
        };
        SumRead {
            sum,
            end: q.end,
            why,
            bad,
        }
    }
}

// The summand at at, added to the sum of those before it.
fn add_summand(
    stored: &Stored<'_>,
    names: &mut Numbering<'_>,
    s: &[u8],
    at: usize,
    scratch: &mut [u64],
    so_far: SumRead,
) -> Result<SumRead, Stop>
    requires { (at ≤ length s.now) × (least_scratch ≤ length scratch.old)
        × (so_far.why ≡ ACCEPTED → so_far.bad ≡ false → (qs : List Pair) × Summed stored.now.ring (store_in stored.now) qs scratch.old so_far.sum) }
    ensures read { AddedIs stored.now.ring (store_in stored.now) summand names.old names.new s.now at scratch.old scratch.new so_far result }
    ensures plain { names.new.plain ≡ names.old.plain }
    ensures lent { StillLent names.old names.new }
{
    let q = read_summand(names, s, at, scratch)?;
    Ok(so_far.with(stored, scratch, q))
}

// The summands at at, each behind a `+` but the first, and their sum.
pub(crate) fn read_sum(
    stored: &Stored<'_>,
    names: &mut Numbering<'_>,
    s: &[u8],
    at: usize,
    scratch: &mut [u64],
) -> Result<SumRead, Stop>
    requires { (at ≤ length s.now) × (least_scratch ≤ length scratch.old) }
    ensures read { SumIs stored.now.ring (store_in stored.now) summands names.old names.new s.now at scratch.old scratch.new result }
    ensures plain { names.new.plain ≡ names.old.plain }
    ensures lent { StillLent names.old names.new }
{
    let mut r = add_summand(stored, names, s, at, scratch, SumRead::none(at))?;
    while stands_at(s, r.end, b'+') {
        let next = skip_spaces(s, r.end + 1);
        r = add_summand(stored, names, s, next, scratch, r)?;
    }
    Ok(r)
}
