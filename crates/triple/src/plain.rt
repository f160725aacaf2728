// Whether every name of three texts is plain: their statements are read for their names alone.
ghost use Rattle.std.specs.Prelude.{◌≡◌, true, List, ◌++◌, ◌≤◌, length};
ghost use Rattle.limits.specs.Limits.{text_bytes, least_scratch};
ghost use Rattle.paper.specs.Published.{pieces, NamedItem};
ghost use Rattle.paper.specs.Named.{named_items};
ghost use Rattle.published.specs.Statements.{items_of};
ghost use Rattle.triple.specs.Courses.{all_plain, known_or, unreadable};
ghost use Rattle.triple.specs.Triple.{texts_of};

use super::course::{begin_at, kind_behind};
use super::texts::Texts;
use limits::refusal::Refusal;
use names::numbering::Numbering;
use published::statement::{CONSTRAINT, STEP, TARGET, read_statement};
use reader::find::find_byte;
use steps::said::Said;
use steps::state::State;
use table::stored::Stored;

// Whether a statement can't be read.
fn is_unreadable(said: &Result<Said, Refusal>) -> bool
    ensures { result ≡ unreadable said.now }
{
    matches!(said, Err(Refusal::LongLine | Refusal::Form))
}

// Whether names are plain, if one text, whose first statement is of this kind, settles it: by a name that isn't, or a statement that can't
// be read. Else the statements behind it do.
fn plain_text(
    kind: u8,
    text: &[u8],
    names: &mut Numbering<'_>,
    pool: &[u64],
    scratch: &mut [u64],
) -> Option<bool>
    requires { (length text.now ≤ text_bytes) × (names.old.plain ≡ true) × (least_scratch ≤ length scratch.old) }
    ensures known { (rest : List NamedItem) → all_plain (items_of kind (pieces text.now) ++ rest) ≡ known_or (all_plain rest) result }
    ensures plain { names.new.plain ≡ true }
{
    let state = State::new();
    let stored = Stored {
        indices: &state.table.indices,
        starts: &state.table.starts,
        counts: &state.table.counts,
        polynomials: state.table.stored,
        pool,
        ring: state.ring,
    };
    let mut next = kind;
    let mut at = begin_at(text, 0);
    while at < text.len() {
        let e = find_byte(text, at, b';');
        let read = read_statement(next, &stored, names, &text[at..e], e < text.len(), scratch);
        if read.bad {
            return Some(false);
        }
        if is_unreadable(&read.said) {
            return Some(true);
        }
        at = begin_at(text, e + 1);
        next = kind_behind(next);
    }
    None
}

// The names of three texts; without a target the proof is not read.
pub(crate) fn every_plain(
    texts: &Texts<'_>,
    names: &mut Numbering<'_>,
    pool: &[u64],
    scratch: &mut [u64],
) -> bool
    requires { (names.old.plain ≡ true) × (least_scratch ≤ length scratch.old) }
    ensures { result ≡ all_plain (named_items (texts_of texts.now)) }
{
    if let Some(known) = plain_text(CONSTRAINT, texts.constraints, names, pool, scratch) {
        return known;
    }
    if let Some(known) = plain_text(TARGET, texts.target, names, pool, scratch) {
        return known;
    }
    if begin_at(texts.target, 0) == texts.target.len() {
        return true;
    }
    match plain_text(STEP, texts.proof, names, pool, scratch) {
        Some(known) => known,
        None => true,
    }
}
