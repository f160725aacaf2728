// The paper's numbers as the code has them; specs/Limits.antt and specs/Verdicts.antt define them.

#![tactic(auto)]

pub mod refusal;

use refusal::Refusal;

// ---- the width: a set of variables in 64-bit words, and a term, which is its set and then its coefficient
pub const SET_WORDS: usize = 5;

pub const TERM_WORDS: usize = SET_WORDS + 1;

pub const VARIABLES: u64 = 64 * SET_WORDS as u64;

// ---- what a number may be
pub const GREATEST_RING: u64 = 64;

pub const GREATEST_INDEX: u64 = 4294967295;

pub const GREATEST_MAGNITUDE: u64 = 18446744073709551615;

// ---- how much a text may hold
pub const TEXT_BYTES: usize = 1048576;

pub const LINE_BYTES: usize = 8192;

pub const NAME_BYTES: usize = 31;

pub const FIELD_TERMS: usize = 96;

pub const STORED_POLYNOMIALS: usize = 512;

pub const LINE_PRODUCTS: usize = 1024;

// ---- the lent room
pub const LEAST_POOL: usize = FIELD_TERMS * TERM_WORDS;

pub const MOST_POOL_TERMS: usize = 65536;

// The products of a line, and three fields.
pub const LEAST_SCRATCH: usize = (LINE_PRODUCTS + 3 * FIELD_TERMS) * TERM_WORDS;

pub const LEAST_SPELLING_SCRATCH: usize = FIELD_TERMS * TERM_WORDS;

// ---- what the host call and the check program lend, and the longest text they take
pub const HOST_POOL: usize = 8000;

pub const HOST_SCRATCH: usize = LEAST_SCRATCH;

pub const HOST_TEXT_BYTES: usize = 65536;

// ---- verdicts: 0, and the numbers of the refusals
pub const ACCEPTED: u64 = 0;

pub const SHORT: u64 = Refusal::Short as u64;

pub const LONGTEXT: u64 = Refusal::LongText as u64;

pub const LONGLINE: u64 = Refusal::LongLine as u64;

pub const FORM: u64 = Refusal::Form as u64;

pub const NUMBER: u64 = Refusal::Number as u64;

pub const TERMS: u64 = Refusal::Terms as u64;

pub const ORDER: u64 = Refusal::Order as u64;

pub const TAKEN: u64 = Refusal::Taken as u64;

pub const MISSING: u64 = Refusal::Missing as u64;

pub const SEEN: u64 = Refusal::Seen as u64;

pub const PRODUCTS: u64 = Refusal::Products as u64;

pub const MISMATCH: u64 = Refusal::Mismatch as u64;

pub const NOTBIT: u64 = Refusal::NotBit as u64;

pub const FULL: u64 = Refusal::Full as u64;

pub const NOGOAL: u64 = Refusal::NoGoal as u64;

pub const NOTREACHED: u64 = Refusal::NotReached as u64;

// Of published texts, directly after TERMS.
pub const NAMES: u64 = Refusal::Names as u64;
