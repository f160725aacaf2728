// Published LPAC texts: a statement is read once, its fields go into the scratch as they were written, and its pairs into their sum.

#![tactic(auto)]

pub mod combination;
pub mod pac;
pub mod pairs;
mod signs;
pub mod statement;
pub mod step;
