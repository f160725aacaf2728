// Arithmetic modulo 2 ^ 64, and sets of variables in words: variable v is digit v % 64 of word v / 64.

#![tactic(auto)]

pub mod ring;
pub mod search;

ghost use Rattle.std.specs.Prelude.{◌≡◌, ℕ, ◌+◌, ◌-◌, ◌*◌, ◌%◌, ◌^◌, ◌<◌, ◌≤◌, length, replicate, bit_or};
ghost use Rattle.limits.specs.Limits.{variables};
ghost use Rattle.algebra.specs.Polynomial.{has, members};
ghost use Rattle.words.specs.Words.{number_of, order_of, Lowest};

use std::cmp::Ordering;

// A set of variables, its lowest word first.
pub type Set = [u64; limits::SET_WORDS];

// ---- coefficients

// The product modulo 2 ^ 64.
pub fn times(a: u64, b: u64) -> u64
    ensures { result ≡ (a * b) % 2 ^ 64 }
{
    // By halves: the product of the high halves weighs 2 ^ 64 and is left out. The compiler makes one multiplication of this shape.
    let a0 = a & 0xffff_ffff;
    let b0 = b & 0xffff_ffff;
    let low = a0 * b0;
    let left = (a >> 32) * b0;
    let right = a0 * (b >> 32);
    let cross = left.wrapping_add(right);
    low.wrapping_add(cross << 32)
}

// What is added to c to give 0 modulo 2 ^ 64.
pub fn negative(c: u64) -> u64
    ensures { result ≡ (2 ^ 64 - c) % 2 ^ 64 }
{
    0u64.wrapping_sub(c)
}

// ---- sets

// The variables of a and those of b.
pub fn union(a: Set, b: Set) -> Set
    ensures { number_of result ≡ bit_or (number_of a) (number_of b) }
{
    let mut r = a;
    for i in 0..limits::SET_WORDS {
        r[i] |= b[i];
    }
    r
}

// Whether v is a variable of a.
pub fn has(a: Set, v: usize) -> bool
    requires { v < variables }
    ensures { result ≡ has (number_of a) v }
{
    (a[v / 64] >> (v % 64)) & 1 == 1
}

// The variables of a, and v.
pub fn with(a: Set, v: usize) -> Set
    requires { v < variables }
    ensures { number_of result ≡ bit_or (2 ^ v) (number_of a) }
{
    let mut r = a;
    r[v / 64] |= 1 << (v % 64);
    r
}

// The order of two sets as numbers, which are written in words: the highest words that differ decide.
pub fn compare(a: Set, b: Set) -> Ordering
    ensures { result ≡ order_of (number_of a) (number_of b) }
{
    if a[4] != b[4] {
        return a[4].cmp(&b[4]);
    }
    if a[3] != b[3] {
        return a[3].cmp(&b[3]);
    }
    if a[2] != b[2] {
        return a[2].cmp(&b[2]);
    }
    if a[1] != b[1] {
        return a[1].cmp(&b[1]);
    }
    if a[0] != b[0] {
        return a[0].cmp(&b[0]);
    }
    Ordering::Equal
}

// How many variables a has.
pub fn count(a: Set) -> usize
    ensures { result ≡ length (members variables 0 (number_of a)) }
{
    a.iter().map(|w| w.count_ones() as usize).sum()
}

// ---- one word of a set

// The lowest variable of a word.
pub fn lowest(w: u64) -> u32
    requires { 0 < w }
    ensures { Lowest 64 w result }
{
    w.trailing_zeros()
}

// A word without its lowest variable.
pub fn without_lowest(w: u64) -> u64
    requires { 0 < w }
    ensures { (v : ℕ) → Lowest 64 w v → result + 2 ^ v ≡ w }
{
    w & (w - 1)
}

// ---- a lent room

// Makes every word 0.
pub fn zero(room: &mut [u64])
    ensures { room.new ≡ replicate (length room.old) 0 }
{
    room.fill(0);
}
