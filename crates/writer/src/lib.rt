// The fixed spelling of a run of terms: how many bytes it takes, and writing it into a lent output.

#![tactic(auto)]

pub mod measure;
pub mod sign;
pub mod write;
