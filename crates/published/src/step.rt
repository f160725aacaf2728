// A step of a published proof: its id, a sign, and what the sign stands for.
ghost use Rattle.std.specs.Prelude.{◌≡◌, List, ℕ, ◌≤◌, length};
ghost use Rattle.limits.specs.Limits.{least_scratch};
ghost use Rattle.paper.specs.Rules.{Store};
ghost use Rattle.paper.specs.Published.{linear, delete, extend, proof_step};
ghost use Rattle.names.specs.Numbered.{StillLent};
ghost use Rattle.names.specs.declared.numbering.Numbering.{Numbering};
ghost use Rattle.table.specs.Stores.{store_in};
ghost use Rattle.published.specs.Pairs.{IdAt, pairs_behind};
ghost use Rattle.published.specs.Statements.{WholeIs};

use super::pairs::{IdRead, behind_comma, read_id};
use super::signs::pairs_behind;
use super::statement::{StatementRead, closed};
use limits::refusal::Refusal;
use named::name::read_name;
use named::token::skip_spaces;
use names::numbering::Numbering;
use reader::stop::Stop;
use reader::verdict::lesser;
use scratch::STATED;
use steps::said::Said;
use table::stored::Stored;

// A linear combination at at, behind its id and the sign b: pairs, and the polynomial stated.
fn read_linear(
    i: IdRead,
    b: u8,
    stored: &Stored<'_>,
    names: &mut Numbering<'_>,
    s: &[u8],
    at: usize,
    scratch: &mut [u64],
) -> Result<StatementRead, Stop>
    requires { IdAt s.now 0 i × (at ≤ length s.now) × (least_scratch ≤ length scratch.old) }
    ensures read { (h : IdAt s.now 0 i) → WholeIs stored.now.ring (store_in stored.now) (linear (pairs_behind b) h.value) names.old names.new s.now at scratch.old scratch.new result }
    ensures plain { names.new.plain ≡ names.old.plain }
    ensures lent { StillLent names.old names.new }
{
    let q = pairs_behind(b, stored, names, s, at, scratch)?;
    let p = behind_comma(names, s, q.end, scratch, STATED)?;
    let head = lesser(i.why, q.why);
    let read = StatementRead {
        said: Ok(Said::Lin(i.value, p.terms, q.sum)),
        index: i.value,
        bad: q.bad | p.bad,
    };
    closed(s, p.end, lesser(head, p.why), read)
}

// An extension at at, behind its id and its sign: a name, and its polynomial.
fn read_extend(
    i: IdRead,
    names: &mut Numbering<'_>,
    s: &[u8],
    at: usize,
    scratch: &mut [u64],
) -> Result<StatementRead, Stop>
    requires { IdAt s.now 0 i × (at ≤ length s.now) × (least_scratch ≤ length scratch.old) }
    ensures read { (h : IdAt s.now 0 i) (k : ℕ) (store : Store) → WholeIs k store (extend h.value) names.old names.new s.now at scratch.old scratch.new result }
    ensures plain { names.new.plain ≡ names.old.plain }
    ensures lent { StillLent names.old names.new }
{
    let v = read_name(names, s, at)?;
    let p = behind_comma(names, s, v.end, scratch, STATED)?;
    let said = match v.number {
        Some(number) => Ok(Said::Ext(i.value, number as u32, p.terms)),
        None => Err(Refusal::Names),
    };
    let read = StatementRead {
        said,
        index: i.value,
        bad: v.number.is_none() | p.bad,
    };
    closed(s, p.end, lesser(i.why, p.why), read)
}

// A deletion, behind its id and its sign: nothing.
fn read_delete(i: IdRead, s: &[u8], at: usize) -> Result<StatementRead, Stop>
    requires { IdAt s.now 0 i × (at ≤ length s.now) }
    ensures { (h : IdAt s.now 0 i) (k : ℕ) (store : Store) (names : Numbering) (words : List ℕ) → WholeIs k store (delete h.value) names names s.now at words words result }
{
    let read = StatementRead {
        said: Ok(Said::Del(i.value)),
        index: i.value,
        bad: false,
    };
    closed(s, at, i.why, read)
}

// A step of a proof.
pub(crate) fn read_step(
    stored: &Stored<'_>,
    names: &mut Numbering<'_>,
    s: &[u8],
    scratch: &mut [u64],
) -> Result<StatementRead, Stop>
    requires { least_scratch ≤ length scratch.old }
    ensures read { WholeIs stored.now.ring (store_in stored.now) proof_step names.old names.new s.now 0 scratch.old scratch.new result }
    ensures plain { names.new.plain ≡ names.old.plain }
    ensures lent { StillLent names.old names.new }
{
    let i = read_id(s, 0)?;
    let end = i.end;
    if end == s.len() {
        return Err(Stop { at: end });
    }
    let b = s[end];
    let at = skip_spaces(s, end + 1);
    match b {
        b'%' | b'+' | b'*' => read_linear(i, b, stored, names, s, at, scratch),
        b'=' => read_extend(i, names, s, at, scratch),
        b'd' => read_delete(i, s, at),
        _ => Err(Stop { at: end }),
    }
}
