// Numbers, keywords and fields read from bytes as the paper defines them. A reader works on one line without its byte 10, at places of that line.

#![tactic(auto)]

pub mod field;
pub mod find;
pub mod keyword;
pub mod number;
pub mod stop;
pub mod term;
pub mod verdict;
