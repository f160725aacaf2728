// The steps of the checker: methods that change the state where a statement stands, and say how it is refused where it does not.

#![tactic(auto)]

pub mod check;
pub mod said;
pub mod state;
pub mod step;
