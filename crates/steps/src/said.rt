// What an item of a text says, as its reader hands it to the steps.
use limits::refusal::Refusal;
use sums::Sum;

// A statement by its kind: its numbers, how many terms its polynomial has, which stand in the stated region as they were written,
// and the sum of its pairs, if it is a lin. A reader gives this or a refusal: of a line that is too long, of one that it cannot read,
// or for what is written, the first that applies.
#[derive(Drop)]
pub enum Said {
    Ring(u32),
    Input(u32, usize),
    Goal(usize),
    Lin(u32, usize, Result<Sum, Refusal>),
    Del(u32),
    Ext(u32, u32, usize),
}
