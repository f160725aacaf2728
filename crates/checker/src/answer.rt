// Answers: their six numbers, and those that a state gives.
ghost use Rattle.std.specs.Prelude.{◌≡◌, List, ℕ};
ghost use Rattle.paper.specs.Answer as paper;
ghost use Rattle.table.specs.Table.{Packed};
ghost use Rattle.steps.specs.State.{state_of};
ghost use Rattle.checker.specs.Checked.{answer_of, numbers_of};

use steps::state::{STEPS, State};

#[derive(Drop)]
pub struct Answer {
    pub verdict: u64,
    pub line: u64,
    pub index: u64,
    pub products: u64,
    pub polynomials: u64,
    pub terms: u64,
}

impl Answer {
    // The six numbers, in the order in which they are written.
    pub fn numbers(&self) -> [u64; 6]
        ensures { result ≡ numbers_of self.now }
    {
        [
            self.verdict,
            self.line,
            self.index,
            self.products,
            self.polynomials,
            self.terms,
        ]
    }
}

// Nothing was read.
pub fn unread(why: u64) -> Answer
    ensures { answer_of result ≡ paper.unread why }
{
    Answer {
        verdict: why,
        line: 0,
        index: 0,
        products: 0,
        polynomials: 0,
        terms: 0,
    }
}

// The answer with the counts of this state.
pub fn report(state: &State, verdict: u64, line: u64, index: u64) -> Answer
    requires { Packed state.now.table }
    ensures { (pool scratch : List ℕ) → answer_of result ≡ paper.report (state_of state.now pool scratch) verdict line index }
{
    Answer {
        verdict,
        line,
        index,
        products: state.products,
        polynomials: state.table.stored as u64,
        terms: state.table.used as u64,
    }
}

// The answer behind the last line.
pub fn ending(state: &State) -> Answer
    requires { Packed state.now.table }
    ensures { (pool scratch : List ℕ) → answer_of result ≡ paper.ending (state_of state.now pool scratch) state.now.lines }
{
    let n = state.lines;
    if state.phase != STEPS {
        return report(state, limits::NOGOAL, n, 0);
    }
    if state.reached {
        return report(state, limits::ACCEPTED, 0, 0);
    }
    report(state, limits::NOTREACHED, n, 0)
}
