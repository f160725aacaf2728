// The checker: a text is judged line by line, and the lent rooms are zeroed.

#![tactic(auto)]

ghost use Rattle.std.specs.Prelude.{◌≡◌};
ghost use Rattle.paper.specs.Answer as paper;
ghost use Rattle.checker.specs.Checked.{Checked};

pub mod answer;
pub mod run;

use answer::{Answer, unread};
use run::run;

// The terms that a pool of so many words holds.
pub fn capacity(words: usize) -> usize
    ensures { result ≡ paper.capacity_of words }
{
    (words / limits::TERM_WORDS).min(limits::MOST_POOL_TERMS)
}

// The answer for a text. Pool and scratch are zero afterwards, or untouched where one is too small or the text too long.
pub fn check(text: &[u8], pool: &mut [u64], scratch: &mut [u64]) -> Answer
    ensures { Checked text.now pool.old scratch.old result pool.new scratch.new }
{
    if pool.len() < limits::LEAST_POOL || scratch.len() < limits::LEAST_SCRATCH {
        return unread(limits::SHORT);
    }
    if limits::TEXT_BYTES < text.len() {
        return unread(limits::LONGTEXT);
    }
    let room = capacity(pool.len());
    let a = run(text, pool, scratch, room);
    words::zero(pool);
    words::zero(scratch);
    a
}
