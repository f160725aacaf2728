// The state between two lines.
ghost use Rattle.steps.specs.State.{AtStart};

use table::Table;
use words::Set;

// The phases: before the ring line, before the goal line, after it.
pub const OPENING: u8 = 0;

pub const INPUTS: u8 = 1;

pub const STEPS: u8 = 2;

#[derive(Drop)]
pub struct State {
    pub phase: u8,
    // The coefficients are modulo 2 ^ ring.
    pub ring: u32,
    pub table: Table,
    // The variables that have been seen.
    pub seen: Set,
    pub goal_terms: usize,
    pub reached: bool,
    // The products of all statements that stood, and how many statements those are.
    pub products: u64,
    pub lines: u64,
}

impl State {
    // Before the first line.
    pub fn new() -> State
        ensures { AtStart result }
    {
        State {
            phase: OPENING,
            ring: 0,
            table: Table::new(),
            seen: [0; limits::SET_WORDS],
            goal_terms: 0,
            reached: false,
            products: 0,
            lines: 0,
        }
    }
}
