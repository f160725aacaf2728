// The checker of published texts: constraints, target and proof, with k beside them. The lent rooms are zeroed.

#![tactic(auto)]

ghost use Rattle.std.specs.Prelude.{◌≡◌, true, cond, ◌+◌, ltb};
ghost use Rattle.paper.specs.Statement.{modulo, is_ring};
ghost use Rattle.limits.specs.Verdicts.{NUMBER};
ghost use Rattle.paper.specs.Answer as paper;
ghost use Rattle.checker.specs.Checked.{answer_of, Rooms};
ghost use Rattle.triple.specs.Triple.{texts_of, answer_in, AnsweredIfPlain, CheckedTexts};

mod course;
mod pass;
mod plain;
mod texts;

use checker::answer::{Answer, unread};
use checker::capacity;
use names::numbering::Numbering;
use pass::pass;
use plain::every_plain;
use texts::Texts;

// Whether three texts of these lengths have more than `most` bytes together.
pub fn too_long(most: usize, constraints: usize, target: usize, proof: usize) -> bool
    ensures { result ≡ ltb most (constraints + target + proof) }
{
    let Some(left) = most.checked_sub(constraints) else {
        return true;
    };
    let Some(left) = left.checked_sub(target) else {
        return true;
    };
    left < proof
}

// The answer of three texts where a is the answer if every name is plain. If not, names are numbered by place.
fn judged_again(
    a: Answer,
    k: u32,
    texts: &Texts<'_>,
    names: &mut Numbering<'_>,
    pool: &mut [u64],
    scratch: &mut [u64],
    capacity: usize,
) -> Answer
    requires { (is_ring (modulo k) ≡ true) × (names.old.plain ≡ true) × Rooms capacity pool.old scratch.old }
    ensures { AnsweredIfPlain capacity k (texts_of texts.now) a → answer_of result ≡ answer_in capacity k (texts_of texts.now) }
{
    if every_plain(texts, names, pool, scratch) {
        return a;
    }
    // By place now, and none is held yet.
    names.plain = false;
    names.names = 0;
    match pass(k, texts, names, pool, scratch, capacity) {
        Ok(b) => b,
        Err(b) => b,
    }
}

// The answer of three texts. Names are taken as plain first: where nothing is refused then they are.
fn judged(
    k: u32,
    texts: &Texts<'_>,
    pool: &mut [u64],
    scratch: &mut [u64],
    capacity: usize,
) -> Answer
    requires { (is_ring (modulo k) ≡ true) × Rooms capacity pool.old scratch.old }
    ensures { answer_of result ≡ answer_in capacity k (texts_of texts.now) }
{
    let mut room = [0u8; names::ROOM];
    let mut hints = [0u16; names::HINTS];
    let mut names = Numbering {
        plain: true,
        names: 0,
        room: &mut room,
        hints: &mut hints,
    };
    match pass(k, texts, &mut names, pool, scratch, capacity) {
        Ok(a) => a,
        Err(a) => judged_again(a, k, texts, &mut names, pool, scratch, capacity),
    }
}

// The answer of three texts with numbers modulo 2 ^ k. Pool and scratch are zero afterwards, or untouched where one is too small or the texts are
// too long.
pub fn check(
    k: u64,
    constraints: &[u8],
    target: &[u8],
    proof: &[u8],
    pool: &mut [u64],
    scratch: &mut [u64],
) -> Answer
    ensures { CheckedTexts k (record { constraints = constraints.now; target = target.now; proof = proof.now }) pool.old scratch.old result pool.new scratch.new }
{
    if pool.len() < limits::LEAST_POOL || scratch.len() < limits::LEAST_SCRATCH {
        return unread(limits::SHORT);
    }
    if too_long(
        limits::TEXT_BYTES,
        constraints.len(),
        target.len(),
        proof.len(),
    ) {
        return unread(limits::LONGTEXT);
    }
    let texts = Texts {
        constraints,
        target,
        proof,
    };
    let room = capacity(pool.len());
    let a = in_ring(k, &texts, pool, scratch, room);
    words::zero(pool);
    words::zero(scratch);
    a
}

// The answer of three texts, or that k is out of range.
fn in_ring(
    k: u64,
    texts: &Texts<'_>,
    pool: &mut [u64],
    scratch: &mut [u64],
    capacity: usize,
) -> Answer
    requires { Rooms capacity pool.old scratch.old }
    ensures { answer_of result ≡ cond (is_ring (modulo k)) (answer_in capacity k (texts_of texts.now)) (paper.unread NUMBER) }
{
    if k < 1 || limits::GREATEST_RING < k {
        return unread(limits::NUMBER);
    }
    judged(k as u32, texts, pool, scratch, capacity)
}
