// A line read, once: its kind with its numbers, its polynomial as it was written, in the stated region of the scratch, and the sum of its pairs.
ghost use Rattle.std.specs.Prelude.{ℕ, true, List, ◌≤◌, length};
ghost use Rattle.limits.specs.Limits.{greatest_index, least_scratch};
ghost use Rattle.paper.specs.Grammar.{number, statement, ring_line, input_line, goal_line, lin_line, del_line, ext_line};
ghost use Rattle.paper.specs.Statement.{within};
ghost use Rattle.paper.specs.Rules.{Store};
ghost use Rattle.paper.specs.Answer.{item_of};
ghost use Rattle.table.specs.Stores.{store_in};
ghost use Rattle.steps.specs.Items.{ItemIs};
ghost use Rattle.lines.specs.Parts.{keyed, NumberPart};
ghost use Rattle.lines.specs.Lines.{short_item, LineIs, KindIs};

use super::pairs::read_pairs;
use super::part::{NumberRead, tab_field, tab_number};
use limits::refusal::{Refusal, verdict};
use reader::keyword::keyword;
use reader::stop::Stop;
use reader::verdict::lesser;
use steps::said::Said;
use table::stored::Stored;

// What a line says up to its end, and how that is refused: ACCEPTED, NUMBER or TERMS, the first that applies.
#[derive(Drop)]
struct LineRead {
    said: Said,
    end: usize,
    why: u64,
}

// The keyword w, and a number from low to high behind a tab.
pub(crate) fn headed(s: &[u8], w: &[u8], low: u64, high: u64) -> Result<NumberRead, Stop>
    requires { high ≤ greatest_index }
    ensures { NumberPart (keyed w.now number) (within low high) s.now 0 result }
{
    let behind = keyword(s, w)?;
    tab_number(s, behind, low, high)
}

// ring k
fn read_ring(s: &[u8]) -> Result<LineRead, Stop>
    ensures { (k : ℕ) (store : Store) (words : List ℕ) → KindIs k store ring_line s.now words words result }
{
    let k = headed(s, b"ring", 1, limits::GREATEST_RING)?;
    Ok(LineRead {
        said: Said::Ring(k.value),
        end: k.end,
        why: k.why,
    })
}

// in index polynomial
fn read_input(s: &[u8], scratch: &mut [u64]) -> Result<LineRead, Stop>
    requires { least_scratch ≤ length scratch.old }
    ensures { (k : ℕ) (store : Store) → KindIs k store input_line s.now scratch.old scratch.new result }
{
    let i = headed(s, b"in", 1, limits::GREATEST_INDEX)?;
    let p = tab_field(s, i.end, scratch, scratch::STATED)?;
    Ok(LineRead {
        said: Said::Input(i.value, p.terms),
        end: p.end,
        why: lesser(i.why, p.why),
    })
}

// goal polynomial
fn read_goal(s: &[u8], scratch: &mut [u64]) -> Result<LineRead, Stop>
    requires { least_scratch ≤ length scratch.old }
    ensures { (k : ℕ) (store : Store) → KindIs k store goal_line s.now scratch.old scratch.new result }
{
    let behind = keyword(s, b"goal")?;
    let p = tab_field(s, behind, scratch, scratch::STATED)?;
    Ok(LineRead {
        said: Said::Goal(p.terms),
        end: p.end,
        why: p.why,
    })
}

// lin index polynomial pairs
fn read_lin(stored: &Stored<'_>, s: &[u8], scratch: &mut [u64]) -> Result<LineRead, Stop>
    requires { least_scratch ≤ length scratch.old }
    ensures { KindIs stored.now.ring (store_in stored.now) lin_line s.now scratch.old scratch.new result }
{
    let i = headed(s, b"lin", 1, limits::GREATEST_INDEX)?;
    let p = tab_field(s, i.end, scratch, scratch::STATED)?;
    let qs = read_pairs(stored, s, p.end, scratch)?;
    let head = lesser(i.why, p.why);
    Ok(LineRead {
        said: Said::Lin(i.value, p.terms, qs.sum),
        end: qs.end,
        why: lesser(head, qs.why),
    })
}

// del index
fn read_del(s: &[u8]) -> Result<LineRead, Stop>
    ensures { (k : ℕ) (store : Store) (words : List ℕ) → KindIs k store del_line s.now words words result }
{
    let i = headed(s, b"del", 1, limits::GREATEST_INDEX)?;
    Ok(LineRead {
        said: Said::Del(i.value),
        end: i.end,
        why: i.why,
    })
}

// ext index variable polynomial
fn read_ext(s: &[u8], scratch: &mut [u64]) -> Result<LineRead, Stop>
    requires { least_scratch ≤ length scratch.old }
    ensures { (k : ℕ) (store : Store) → KindIs k store ext_line s.now scratch.old scratch.new result }
{
    let i = headed(s, b"ext", 1, limits::GREATEST_INDEX)?;
    let v = tab_number(s, i.end, 0, limits::VARIABLES - 1)?;
    let p = tab_field(s, v.end, scratch, scratch::STATED)?;
    let numbers = lesser(i.why, v.why);
    Ok(LineRead {
        said: Said::Ext(i.value, v.value, p.terms),
        end: p.end,
        why: lesser(numbers, p.why),
    })
}

// What the kind of a line reads of it; its first byte settles the kind.
fn read_kind(stored: &Stored<'_>, s: &[u8], scratch: &mut [u64]) -> Result<LineRead, Stop>
    requires { least_scratch ≤ length scratch.old }
    ensures { LineIs stored.now.ring (store_in stored.now) (statement (record { content = s.now; ended = true })) s.now scratch.old scratch.new result }
{
    let Some(&first) = s.first() else {
        return Err(Stop { at: 0 });
    };
    match first {
        b'r' => read_ring(s),
        b'i' => read_input(s, scratch),
        b'g' => read_goal(s, scratch),
        b'l' => read_lin(stored, s, scratch),
        b'd' => read_del(s),
        b'e' => read_ext(s, scratch),
        _ => Err(Stop { at: 0 }),
    }
}

// A line that ends with byte 10: what it says, if nothing refuses it and the line ends there.
fn read_ended(stored: &Stored<'_>, s: &[u8], scratch: &mut [u64]) -> Result<Said, Refusal>
    requires { least_scratch ≤ length scratch.old }
    ensures { ItemIs stored.now.ring (store_in stored.now) (short_item (statement (record { content = s.now; ended = true }))) scratch.old scratch.new result }
{
    let Ok(line) = read_kind(stored, s, scratch) else {
        return Err(Refusal::Form);
    };
    if line.end < s.len() {
        return Err(Refusal::Form);
    }
    verdict(line.why)?;
    Ok(line.said)
}

// A line, whose byte 10 is taken off: without one it has bad form at its end at the latest. The sum is over the stored polynomials.
pub fn read_line(
    stored: &Stored<'_>,
    s: &[u8],
    ended: bool,
    scratch: &mut [u64],
) -> Result<Said, Refusal>
    requires { least_scratch ≤ length scratch.old }
    ensures { ItemIs stored.now.ring (store_in stored.now) (item_of (record { content = s.now; ended = ended })) scratch.old scratch.new result }
{
    if limits::LINE_BYTES < s.len() {
        return Err(Refusal::LongLine);
    }
    if !ended {
        return Err(Refusal::Form);
    }
    read_ended(stored, s, scratch)
}
