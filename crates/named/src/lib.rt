// What published texts are made of, read from bytes: tokens with the white space behind them, names with their numbers, and polynomials.

#![tactic(auto)]

pub mod monomial;
pub mod name;
pub mod poly;
pub mod token;
