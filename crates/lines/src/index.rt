// The index that a refused line reports.
ghost use Rattle.std.specs.Prelude.{◌≡◌, true, ℕ, ◌≤◌};
ghost use Rattle.limits.specs.Verdicts.{TERMS};
ghost use Rattle.paper.specs.Grammar.{Bytes, got, number, statement};
ghost use Rattle.paper.specs.Statement.{Statement, is_index, numbers_in_range};
ghost use Rattle.paper.specs.Answer.{index_of};
ghost use Rattle.steps.specs.Items.{index_of_read};
ghost use Rattle.lines.specs.Parts.{keyed};

use super::read::headed;

// The index behind the keyword w, if one stands there.
fn head_index(s: &[u8], w: &[u8]) -> u32
    ensures { (i : ℕ) (u : Bytes) → keyed w.now number s.now ≡ got i u → is_index i ≡ true → result ≡ i }
{
    match headed(s, w, 1, limits::GREATEST_INDEX) {
        Ok(i) => i.value,
        Err(_) => 0,
    }
}

// The index of a line, which stands behind its keyword; ring and goal lines have none.
fn index_of(s: &[u8]) -> u32
    ensures { (st : Statement) (t : Bytes) → statement (record { content = s.now; ended = true }) ≡ got st t → numbers_in_range st ≡ true → result ≡ index_of st }
{
    let Some(&first) = s.first() else {
        return 0;
    };
    match first {
        b'i' => head_index(s, b"in"),
        b'l' => head_index(s, b"lin"),
        b'd' => head_index(s, b"del"),
        b'e' => head_index(s, b"ext"),
        _ => 0,
    }
}

// The index that a line refused with v reports.
pub fn refused_index(s: &[u8], ended: bool, v: u64) -> u64
    requires { TERMS ≤ v → (st : Statement) × (t : Bytes) × (statement (record { content = s.now; ended = ended }) ≡ got st t) × (numbers_in_range st ≡ true) }
    ensures { result ≡ index_of_read v (statement (record { content = s.now; ended = ended })) }
{
    if v < limits::TERMS {
        return 0;
    }
    index_of(s) as u64
}
