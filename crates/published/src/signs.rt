// The pairs behind a sign: a sum of summands, or PAC's sum or product.
ghost use Rattle.std.specs.Prelude.{◌≡◌, ◌≤◌, length};
ghost use Rattle.limits.specs.Limits.{least_scratch};
ghost use Rattle.names.specs.Numbered.{StillLent};
ghost use Rattle.table.specs.Stores.{store_in};
ghost use Rattle.published.specs.Pairs.{SumIs, pairs_behind};

use super::combination::{SumRead, read_sum};
use super::pac::{read_addends, read_multiplied};
use names::numbering::Numbering;
use reader::stop::Stop;
use table::stored::Stored;

// The pairs at at that stand behind the sign b, and their sum.
pub(crate) fn pairs_behind(
    b: u8,
    stored: &Stored<'_>,
    names: &mut Numbering<'_>,
    s: &[u8],
    at: usize,
    scratch: &mut [u64],
) -> Result<SumRead, Stop>
    requires { (at ≤ length s.now) × (least_scratch ≤ length scratch.old) }
    ensures read { SumIs stored.now.ring (store_in stored.now) (pairs_behind b) names.old names.new s.now at scratch.old scratch.new result }
    ensures plain { names.new.plain ≡ names.old.plain }
    ensures lent { StillLent names.old names.new }
{
    match b {
        b'%' => read_sum(stored, names, s, at, scratch),
        b'+' => read_addends(stored, s, at, scratch),
        _ => read_multiplied(stored, names, s, at, scratch),
    }
}
