// A pass over three texts, whose names have plain numbers or are numbered by place.
ghost use Rattle.std.specs.Prelude.{◌≡◌, true};
ghost use Rattle.limits.specs.Limits.{text_bytes};
ghost use Rattle.paper.specs.Statement.{modulo, is_ring};
ghost use Rattle.paper.specs.Named.{named_items};
ghost use Rattle.steps.specs.State.{Ready};
ghost use Rattle.checker.specs.Checked.{Rooms};
ghost use Rattle.triple.specs.Courses.{counted_index, Judging};
ghost use Rattle.triple.specs.Triple.{texts_of, PassIs};

use super::course::{Refused, begin_at, judge_text};
use super::texts::Texts;
use checker::answer::{Answer, ending, report};
use names::numbering::Numbering;
use published::statement::{CONSTRAINT, STEP, TARGET};
use steps::state::{INPUTS, State};

// The index that a refusal reports.
fn counted_index(verdict: u64, index: u32) -> u64
    ensures { result ≡ counted_index verdict index }
{
    if limits::TERMS <= verdict {
        return index as u64;
    }
    0
}

// Judges three texts in turn; without a target the proof is not read.
fn judge_texts(
    texts: &Texts<'_>,
    names: &mut Numbering<'_>,
    state: &mut State,
    pool: &mut [u64],
    scratch: &mut [u64],
    capacity: usize,
) -> Result<(), Refused>
    requires { Ready capacity state.old pool.old scratch.old × (state.old.lines ≡ 0) }
    ensures { Judging capacity (named_items (texts_of texts.now)) names.old state.old pool.old scratch.old
        result names.new state.new pool.new scratch.new text_bytes }
{
    judge_text(
        CONSTRAINT,
        texts.constraints,
        names,
        state,
        pool,
        scratch,
        capacity,
    )?;
    judge_text(TARGET, texts.target, names, state, pool, scratch, capacity)?;
    if begin_at(texts.target, 0) == texts.target.len() {
        return Ok(());
    }
    judge_text(STEP, texts.proof, names, state, pool, scratch, capacity)
}

// The answer of three texts, as an error where a statement was refused.
pub(crate) fn pass(
    k: u32,
    texts: &Texts<'_>,
    names: &mut Numbering<'_>,
    pool: &mut [u64],
    scratch: &mut [u64],
    capacity: usize,
) -> Result<Answer, Answer>
    requires { (is_ring (modulo k) ≡ true) × (names.old.names ≡ 0) × Rooms capacity pool.old scratch.old }
    ensures passed { PassIs names.old.plain capacity k (texts_of texts.now) result }
    ensures plain { names.new.plain ≡ names.old.plain }
{
    let mut state = State::new();
    state.ring = k;
    state.phase = INPUTS;
    match judge_texts(texts, names, &mut state, pool, scratch, capacity) {
        Ok(()) => Ok(ending(&state)),
        Err(refused) => {
            let v = refused.why.number();
            let i = counted_index(v, refused.index);
            Err(report(&state, v, state.lines + 1, i))
        }
    }
}
