// The spelling writer: a polynomial field in its one fixed spelling.

#![tactic(auto)]

ghost use Rattle.std.specs.Prelude.{List, ℕ, ◌*◌, ◌≤◌, length};
ghost use Rattle.limits.specs.Limits.{greatest_magnitude, field_terms, term_words, least_spelling_scratch};
ghost use Rattle.limits.specs.Refusals.{outcome};
ghost use Rattle.limits.specs.Verdicts.{NAMES};
ghost use Rattle.algebra.specs.Polynomial.{reduce};
ghost use Rattle.terms.specs.Terms.{decode};
ghost use Rattle.paper.specs.Spelling.{spell, spell_read, whole_field};
ghost use Rattle.reader.specs.Fields.{FieldAt};
ghost use Rattle.speller.specs.Spells.{Gives, Spells, fitted, FieldJudged};

use limits::refusal::{Refusal, verdict};
use reader::field::{FieldRead, read_field};
use words::ring::Ring;

// Whether a field that was read as f is refused at k, with FORM, NUMBER or TERMS, the first that applies.
fn judge(field: &[u8], k: u64, f: FieldRead) -> Result<(), Refusal>
    requires { f.why ≤ NAMES }
    ensures { (s r : List ℕ) → FieldAt greatest_magnitude field.now 0 s r f → FieldJudged field.now k r f.terms (outcome result) }
{
    if f.end != field.len() {
        return Err(Refusal::Form);
    }
    if k == 0 || limits::GREATEST_RING < k {
        return Err(Refusal::Number);
    }
    verdict(f.why)
}

// Reduces a run of n terms in place and writes what is left, if the output has room for it.
fn write_reduced(s: &mut [u64], n: usize, ring: Ring, out: &mut [u8]) -> Result<usize, Refusal>
    requires { (n ≤ field_terms) × (n * term_words ≤ length s.old) }
    ensures { Gives (fitted (spell ring.k (reduce ring.k (decode n s.old))) (length out.old)) out.old out.new result }
{
    let m = reduction::reduce(s, n, ring);
    if !writer::measure::run_fits(s, m, ring, out.len()) {
        return Err(Refusal::Full);
    }
    Ok(writer::write::write_run(out, 0, s, m, ring))
}

// The field at k, read into the scratch and written into the output; the scratch is left as it comes.
fn spell_within(field: &[u8], k: u64, scratch: &mut [u64], out: &mut [u8]) -> Result<usize, Refusal>
    requires { least_spelling_scratch ≤ length scratch.old }
    ensures { Gives (spell_read k (length out.old) (whole_field field.now)) out.old out.new result }
{
    let Ok(f) = read_field(field, 0, scratch, limits::GREATEST_MAGNITUDE) else {
        return Err(Refusal::Form);
    };
    judge(field, k, f)?;
    write_reduced(scratch, f.terms, Ring { k: k as u32 }, out)
}

// Writes the field's spelling at k into the output, and gives how many bytes it has. Refused, the output stays as it is; the scratch is zero
// afterwards, and untouched where it is too short.
pub fn spell(field: &[u8], k: u64, scratch: &mut [u64], out: &mut [u8]) -> Result<usize, Refusal>
    ensures { Spells field.now k scratch.old out.old result scratch.new out.new }
{
    if scratch.len() < limits::LEAST_SPELLING_SCRATCH {
        return Err(Refusal::Short);
    }
    if limits::LINE_BYTES < field.len() {
        words::zero(scratch);
        return Err(Refusal::LongLine);
    }
    let spelled = spell_within(field, k, scratch, out);
    words::zero(scratch);
    spelled
}
