// A statement read, once: its kind with its numbers, its polynomial as it was written, in the stated region of the scratch, and the sum of its pairs.
ghost use Rattle.std.specs.Prelude.{◌≡◌, false, ℕ, ◌≤◌, length, Err};
ghost use Rattle.limits.specs.Limits.{least_scratch};
ghost use Rattle.limits.specs.Verdicts.{NAMES};
ghost use Rattle.paper.specs.Rules.{Store};
ghost use Rattle.paper.specs.Published.{constraint, target, read_by};
ghost use Rattle.names.specs.Numbered.{StillLent};
ghost use Rattle.table.specs.Stores.{store_in};
ghost use Rattle.published.specs.Statements.{reader_of, ClosedIs, WholeIs, NamedItemIs};

use super::pairs::{read_id, read_polynomial};
use super::step::read_step;
use limits::refusal::{Refusal, verdict};
use names::numbering::Numbering;
use reader::stop::Stop;
use reader::verdict::lesser;
use steps::said::Said;
use table::stored::Stored;

// Which statements a text has at a place: constraints; the target, and none behind it; steps of a proof.
pub const CONSTRAINT: u8 = 0;

pub const TARGET: u8 = 1;

pub const NONE: u8 = 2;

pub const STEP: u8 = 3;

// What a statement says, its index, if it has one, and whether one of its names is bad.
#[derive(Drop)]
pub struct StatementRead {
    pub said: Result<Said, Refusal>,
    pub index: u32,
    pub bad: bool,
}

// A statement of which nothing is taken.
fn no_statement(why: Refusal) -> StatementRead
    ensures { result ≡ record { said = Err why; index = 0; bad = false } }
{
    StatementRead {
        said: Err(why),
        index: 0,
        bad: false,
    }
}

// What was read of a statement up to end, if the statement ends there: refused by why, else where a name is bad.
pub(crate) fn closed(
    s: &[u8],
    end: usize,
    why: u64,
    read: StatementRead,
) -> Result<StatementRead, Stop>
    requires { why ≤ NAMES }
    ensures { ClosedIs (length s.now) end why read result }
{
    if end < s.len() {
        return Err(Stop { at: end });
    }
    if let Err(why) = verdict(why) {
        return Ok(StatementRead {
            said: Err(why),
            ..read
        });
    }
    if read.bad {
        return Ok(StatementRead {
            said: Err(Refusal::Names),
            ..read
        });
    }
    Ok(read)
}

// A constraint: its id and its polynomial.
fn read_constraint(
    names: &mut Numbering<'_>,
    s: &[u8],
    scratch: &mut [u64],
) -> Result<StatementRead, Stop>
    requires { least_scratch ≤ length scratch.old }
    ensures read { (k : ℕ) (store : Store) → WholeIs k store constraint names.old names.new s.now 0 scratch.old scratch.new result }
    ensures plain { names.new.plain ≡ names.old.plain }
    ensures lent { StillLent names.old names.new }
{
    let i = read_id(s, 0)?;
    let p = read_polynomial(names, s, i.end, scratch, scratch::STATED)?;
    let read = StatementRead {
        said: Ok(Said::Input(i.value, p.terms)),
        index: i.value,
        bad: p.bad,
    };
    closed(s, p.end, lesser(i.why, p.why), read)
}

// The target: its polynomial.
fn read_target(
    names: &mut Numbering<'_>,
    s: &[u8],
    scratch: &mut [u64],
) -> Result<StatementRead, Stop>
    requires { least_scratch ≤ length scratch.old }
    ensures read { (k : ℕ) (store : Store) → WholeIs k store target names.old names.new s.now 0 scratch.old scratch.new result }
    ensures plain { names.new.plain ≡ names.old.plain }
    ensures lent { StillLent names.old names.new }
{
    let p = read_polynomial(names, s, 0, scratch, scratch::STATED)?;
    let read = StatementRead {
        said: Ok(Said::Goal(p.terms)),
        index: 0,
        bad: p.bad,
    };
    closed(s, p.end, p.why, read)
}

// A statement of a kind, to its end.
fn read_whole(
    kind: u8,
    stored: &Stored<'_>,
    names: &mut Numbering<'_>,
    s: &[u8],
    scratch: &mut [u64],
) -> Result<StatementRead, Stop>
    requires { least_scratch ≤ length scratch.old }
    ensures read { WholeIs stored.now.ring (store_in stored.now) (reader_of kind) names.old names.new s.now 0 scratch.old scratch.new result }
    ensures plain { names.new.plain ≡ names.old.plain }
    ensures lent { StillLent names.old names.new }
{
    match kind {
        CONSTRAINT => read_constraint(names, s, scratch),
        TARGET => read_target(names, s, scratch),
        NONE => Err(Stop { at: 0 }),
        _ => read_step(stored, names, s, scratch),
    }
}

// A statement of a kind, whose `;` is taken off: without one it has bad form at its end at the latest. Its names are numbered with those that
// are held, and the sum of its pairs is over the stored polynomials.
pub fn read_statement(
    kind: u8,
    stored: &Stored<'_>,
    names: &mut Numbering<'_>,
    s: &[u8],
    ended: bool,
    scratch: &mut [u64],
) -> StatementRead
    requires { least_scratch ≤ length scratch.old }
    ensures read { NamedItemIs stored.now.ring (store_in stored.now) names.old names.new (read_by (reader_of kind) (record { content = s.now; ended = ended })) scratch.old scratch.new result }
    ensures plain { names.new.plain ≡ names.old.plain }
    ensures lent { StillLent names.old names.new }
{
    if limits::LINE_BYTES < s.len() {
        return no_statement(Refusal::LongLine);
    }
    if !ended {
        return no_statement(Refusal::Form);
    }
    match read_whole(kind, stored, names, s, scratch) {
        Ok(read) => read,
        Err(_) => no_statement(Refusal::Form),
    }
}
