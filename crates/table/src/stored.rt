// The stored polynomials, as everything that reads them has them.
ghost use Rattle.std.specs.Prelude.{◌≤◌, ◌<◌};
ghost use Rattle.table.specs.Table.{PoolHolds};

use super::{Counts, Indices, Starts};

// The columns of so many polynomials, the pool with their terms, and the ring: the coefficients are modulo 2 ^ ring. Nothing is stored
// before the ring is known.
#[derive(Drop)]
pub struct Stored<'a> {
    pub indices: &'a Indices,
    pub starts: &'a Starts,
    pub counts: &'a Counts,
    pub polynomials: usize,
    pub pool: &'a [u64],
    pub ring: u32,
    ghost holds: { PoolHolds starts.now counts.now polynomials pool.now },
    ghost ringed: { 0 < polynomials → (1 ≤ ring) × (ring ≤ 64) },
}
