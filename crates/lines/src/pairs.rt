// The pairs of a lin line: each factor is read into its region, and from there it goes into the sum.
ghost use Rattle.std.specs.Prelude.{◌≤◌, length};
ghost use Rattle.limits.specs.Limits.{least_scratch};
ghost use Rattle.table.specs.Stores.{store_in};
ghost use Rattle.lines.specs.Parts.{PairsPart};

use super::part::read_pair;
use limits::refusal::Refusal;
use reader::stop::Stop;
use reader::term::stands_at;
use reader::verdict::lesser;
use sums::{Sum, add_factor};
use table::stored::Stored;

// Pairs with their end and how they are refused, and their sum, where nothing refuses them.
#[derive(Drop)]
pub(crate) struct PairsRead {
    pub end: usize,
    pub why: u64,
    pub sum: Result<Sum, Refusal>,
}

// One pair or more from at on, each behind a tab. Once a number is out of range or a factor too long, nothing is summed.
pub(crate) fn read_pairs(
    stored: &Stored<'_>,
    s: &[u8],
    at: usize,
    scratch: &mut [u64],
) -> Result<PairsRead, Stop>
    requires { (at ≤ length s.now) × (least_scratch ≤ length scratch.old) }
    ensures { PairsPart stored.now.ring (store_in stored.now) s.now at scratch.old scratch.new result }
{
    if !stands_at(s, at, b'\t') {
        return Err(Stop { at });
    }
    let mut why = limits::ACCEPTED;
    let mut sum = Ok(Sum::none());
    let mut i = at;
    while stands_at(s, i, b'\t') {
        let q = read_pair(s, i + 1, scratch)?;
        why = lesser(why, q.why);
        if why == limits::ACCEPTED {
            sum = add_factor(stored, scratch, q.index, q.terms, sum);
        }
        i = q.end;
    }
    Ok(PairsRead { end: i, why, sum })
}
