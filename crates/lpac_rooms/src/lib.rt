// Calls for tests and benchmarks: rooms of any size are lent from outside, and everything that is decided comes back.

#![tactic(auto)]

ghost use Rattle.std.specs.Prelude.{◌/◌, length};
ghost use Rattle.limits.specs.Limits.{term_words};
ghost use Rattle.algebra.specs.Polynomial.{reduce};
ghost use Rattle.terms.specs.Terms.{decode, Leaves};
ghost use Rattle.lpac_rooms.specs.Rooms.{Answered};

use words::ring::Ring;

// The six numbers of a text's answer in these rooms, which are left as the check leaves them.
#[unsafe(no_mangle)]
pub extern "C" fn lpac_answer(
    text: &[u8],
    pool: &mut [u64],
    scratch: &mut [u64],
    numbers: &mut [u64; 6],
)
    ensures { Answered text.now pool.old scratch.old pool.new scratch.new numbers.new }
{
    *numbers = checker::check(text, pool, scratch).numbers();
}

// Reduces a run modulo 2 ^ 64 in place, and gives how many terms are left.
#[unsafe(no_mangle)]
pub extern "C" fn lpac_reduce(run: &mut [u64]) -> usize
    ensures { Leaves (length run.old / term_words) (reduce 64 (decode (length run.old / term_words) run.old)) run.old run.new result }
{
    let n = run.len() / limits::TERM_WORDS;
    reduction::reduce(run, n, Ring { k: 64 })
}
