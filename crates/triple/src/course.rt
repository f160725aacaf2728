// The statements of one text, judged one by one.
ghost use Rattle.std.specs.Prelude.{◌≡◌, ◌+◌, ◌≤◌, length};
ghost use Rattle.limits.specs.Limits.{text_bytes};
ghost use Rattle.paper.specs.Published.{pieces};
ghost use Rattle.steps.specs.State.{Ready};
ghost use Rattle.published.specs.Statements.{kind_behind, items_of};
ghost use Rattle.triple.specs.Courses.{BeginsAt, Judging};

use limits::refusal::Refusal;
use named::token::skip_spaces;
use names::numbering::Numbering;
use published::statement::{NONE, TARGET, read_statement};
use reader::find::find_byte;
use steps::state::State;
use table::stored::Stored;

// Why a statement is refused, and its index.
#[derive(Drop)]
pub(crate) struct Refused {
    pub why: Refusal,
    pub index: u32,
}

// Where the statements from from on begin: behind white space, or at the end.
pub(crate) fn begin_at(text: &[u8], from: usize) -> usize
    ensures { BeginsAt text.now from result }
{
    if text.len() < from {
        return text.len();
    }
    skip_spaces(text, from)
}

// The kind of a statement behind one of this kind.
pub(crate) fn kind_behind(kind: u8) -> u8
    ensures { result ≡ kind_behind kind }
{
    if kind == TARGET {
        return NONE;
    }
    kind
}

// Judges the statements of a text, of which the first is of this kind, up to the first that is refused.
pub(crate) fn judge_text(
    kind: u8,
    text: &[u8],
    names: &mut Numbering<'_>,
    state: &mut State,
    pool: &mut [u64],
    scratch: &mut [u64],
    capacity: usize,
) -> Result<(), Refused>
    requires { Ready capacity state.old pool.old scratch.old × (state.old.lines + length text.now ≤ text_bytes) }
    ensures { Judging capacity (items_of kind (pieces text.now)) names.old state.old pool.old scratch.old
        result names.new state.new pool.new scratch.new (state.old.lines + length text.now) }
{
    let mut next = kind;
    let mut at = begin_at(text, 0);
    while at < text.len() {
        let e = find_byte(text, at, b';');
        let stored = Stored {
            indices: &state.table.indices,
            starts: &state.table.starts,
            counts: &state.table.counts,
            polynomials: state.table.stored,
            pool,
            ring: state.ring,
        };
        let read = read_statement(next, &stored, names, &text[at..e], e < text.len(), scratch);
        let index = read.index;
        if let Err(why) = state.judge(read.said, pool, scratch, capacity) {
            return Err(Refused { why, index });
        }
        at = begin_at(text, e + 1);
        next = kind_behind(next);
    }
    Ok(())
}
