// The host calls: a program in C or Rust lends a text, or three published ones, and gets the verdict and the line as one number.

#![tactic(auto)]

ghost use Rattle.std.specs.Prelude.{◌≡◌};
ghost use Rattle.limits.specs.Limits.{host_text_bytes};
ghost use Rattle.checker.specs.Checked.{answer_of};
ghost use Rattle.lpac_host.specs.Hosted.{host_number, Bounded, host_answer, Hosted, published_host_answer, PublishedHosted};

use checker::answer::{Answer, unread};
use triple::too_long;

// What one line weighs in the number, above every verdict.
const LINE_WEIGHT: u64 = 32;

// The verdict of an answer, plus 32 times its line.
fn host_number(a: Answer) -> u64
    requires { Bounded host_text_bytes (answer_of a) }
    ensures { result ≡ host_number (answer_of a) }
{
    a.verdict + LINE_WEIGHT * a.line
}

// ---- one text

// The answer to a text in room of the call's own. A longer text than it takes is not read.
pub fn host_answer(text: &[u8]) -> Answer
    ensures { answer_of result ≡ host_answer text.now }
{
    if limits::HOST_TEXT_BYTES < text.len() {
        return unread(limits::LONGTEXT);
    }
    let mut pool = [0u64; limits::HOST_POOL];
    let mut scratch = [0u64; limits::HOST_SCRATCH];
    checker::check(text, &mut pool, &mut scratch)
}

// The number of the answer to a text.
pub fn lpac_verdict(text: &[u8]) -> u64
    ensures { Hosted text.now result }
{
    host_number(host_answer(text))
}

// ---- three published texts

// The answer to three texts at k in room of the call's own. Longer texts than it takes are not read.
pub fn published_answer(k: u64, constraints: &[u8], target: &[u8], proof: &[u8]) -> Answer
    ensures { answer_of result ≡ published_host_answer k (record { constraints = constraints.now; target = target.now; proof = proof.now }) }
{
    if too_long(
        limits::HOST_TEXT_BYTES,
        constraints.len(),
        target.len(),
        proof.len(),
    ) {
        return unread(limits::LONGTEXT);
    }
    let mut pool = [0u64; limits::HOST_POOL];
    let mut scratch = [0u64; limits::HOST_SCRATCH];
    triple::check(k, constraints, target, proof, &mut pool, &mut scratch)
}

// The number of the answer to three texts at k.
pub fn lpac_published_verdict(k: u64, constraints: &[u8], target: &[u8], proof: &[u8]) -> u64
    ensures { PublishedHosted k (record { constraints = constraints.now; target = target.now; proof = proof.now }) result }
{
    host_number(published_answer(k, constraints, target, proof))
}
