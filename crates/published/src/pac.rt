// The pairs of PAC's product and of its sum, read once and summed.
ghost use Rattle.std.specs.Prelude.{◌≡◌, false, List, ◌≤◌, length};
ghost use Rattle.limits.specs.Limits.{least_scratch};
ghost use Rattle.limits.specs.Verdicts.{ACCEPTED};
ghost use Rattle.paper.specs.Statement.{Pair};
ghost use Rattle.paper.specs.Published.{addends, multiplied};
ghost use Rattle.reader.specs.Verdicts.{lesser_of};
ghost use Rattle.names.specs.Numbered.{StillLent};
ghost use Rattle.names.specs.declared.numbering.Numbering.{Numbering};
ghost use Rattle.table.specs.Stores.{store_in};
ghost use Rattle.sums.specs.Sums.{Summed};
ghost use Rattle.published.specs.Pairs.{SummandIs, multiplied_pair, OneAdded, SumIs};

use super::combination::SumRead;
use super::pairs::{IdRead, SummandRead, behind_comma, put_one, read_id};
use named::token::symbol_at;
use names::numbering::Numbering;
use reader::stop::Stop;
use table::stored::Stored;

// The pair of PAC's product at at: an id, and a polynomial behind a comma.
fn read_multiplied_pair(
    names: &mut Numbering<'_>,
    s: &[u8],
    at: usize,
    scratch: &mut [u64],
) -> Result<SummandRead, Stop>
    requires { (at ≤ length s.now) × (least_scratch ≤ length scratch.old) }
    ensures read { SummandIs multiplied_pair names.old names.new s.now at scratch.old scratch.new result }
    ensures plain { names.new.plain ≡ names.old.plain }
    ensures lent { StillLent names.old names.new }
{
    let i = read_id(s, at)?;
    let f = behind_comma(names, s, i.end, scratch, scratch::FACTOR)?;
    Ok(SummandRead::new(i, f))
}

// The pair of PAC's product at at, and its sum.
pub(crate) fn read_multiplied(
    stored: &Stored<'_>,
    names: &mut Numbering<'_>,
    s: &[u8],
    at: usize,
    scratch: &mut [u64],
) -> Result<SumRead, Stop>
    requires { (at ≤ length s.now) × (least_scratch ≤ length scratch.old) }
    ensures read { SumIs stored.now.ring (store_in stored.now) multiplied names.old names.new s.now at scratch.old scratch.new result }
    ensures plain { names.new.plain ≡ names.old.plain }
    ensures lent { StillLent names.old names.new }
{
    let q = read_multiplied_pair(names, s, at, scratch)?;
    Ok(SumRead::none(at).with(stored, scratch, q))
}

// An id alone behind those of so_far: what it names is added.
fn add_one(stored: &Stored<'_>, scratch: &mut [u64], so_far: SumRead, i: IdRead) -> SumRead
    requires { (least_scratch ≤ length scratch.old)
        × (lesser_of so_far.why i.why ≡ ACCEPTED → so_far.bad ≡ false → (qs : List Pair) × Summed stored.now.ring (store_in stored.now) qs scratch.old so_far.sum) }
    ensures { OneAdded stored.now.ring (store_in stored.now) i scratch.old scratch.new so_far result }
{
    put_one(scratch);
    let q = SummandRead {
        index: i.value,
        terms: 1,
        end: i.end,
        why: i.why,
        bad: false,
    };
    so_far.with(stored, scratch, q)
}

// The two ids of PAC's sum at at, parted by a comma, and the sum of what they name.
pub(crate) fn read_addends(
    stored: &Stored<'_>,
    s: &[u8],
    at: usize,
    scratch: &mut [u64],
) -> Result<SumRead, Stop>
    requires { (at ≤ length s.now) × (least_scratch ≤ length scratch.old) }
    ensures { (names : Numbering) → SumIs stored.now.ring (store_in stored.now) addends names names s.now at scratch.old scratch.new result }
{
    let i = read_id(s, at)?;
    let j = read_id(s, symbol_at(s, i.end, b',')?)?;
    let first = add_one(stored, scratch, SumRead::none(at), i);
    Ok(add_one(stored, scratch, first, j))
}
