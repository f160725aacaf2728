// Lines of a text: a line is read once, its fields go into the scratch as they were written, and the pairs of a lin line into their sum.

#![tactic(auto)]

pub mod index;
mod pairs;
mod part;
pub mod read;
