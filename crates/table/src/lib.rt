// The table of the stored polynomials, whose terms lie one behind the other in the pool.

#![tactic(auto)]

pub mod stored;

ghost use Rattle.std.specs.Prelude.{◌≡◌, ℕ, ◌+◌, ◌≤◌, ◌<◌, length, get_or};
ghost use Rattle.std.specs.List.{copy_within};
ghost use Rattle.limits.specs.Limits.{stored_polynomials};
ghost use Rattle.table.specs.Table.{Packed};
ghost use Rattle.table.specs.Columns.{Finds, Shifted, Lowered, Fresh, Pushable, Added, Pushed, Removable, Removed, Forgotten};

use words::search;

pub type Indices = [u32; limits::STORED_POLYNOMIALS];

// All stored polynomials together have fewer than 2 ^ 16 terms.
pub type Starts = [u16; limits::STORED_POLYNOMIALS];

// No stored polynomial is longer than a field.
pub type Counts = [u8; limits::STORED_POLYNOMIALS];

#[derive(Drop)]
pub struct Table {
    // Of each stored polynomial, the oldest first: its index, the term of the pool where it starts, how many terms it has.
    pub indices: Indices,
    pub starts: Starts,
    pub counts: Counts,
    // How many polynomials are stored, and how many terms of the pool they use.
    pub stored: usize,
    pub used: usize,
}

impl Table {
    // No polynomial is stored.
    pub fn new() -> Table
        ensures { Fresh result }
    {
        Table {
            indices: [0; limits::STORED_POLYNOMIALS],
            starts: [0; limits::STORED_POLYNOMIALS],
            counts: [0; limits::STORED_POLYNOMIALS],
            stored: 0,
            used: 0,
        }
    }

    // Puts a polynomial of count terms, which lie behind the used ones of the pool, behind the stored ones.
    pub fn push(&mut self, index: u32, count: usize)
        requires { Pushable self.old count }
        ensures columns { Added self.old index count self.new }
        ensures store { Packed self.old → Pushed self.old index count self.new }
    {
        let at = self.stored;
        self.indices[at] = index;
        self.starts[at] = self.used as u16;
        self.counts[at] = count as u8;
        self.stored = at + 1;
        self.used += count;
    }

    // Takes the j-th polynomial out of the columns and its terms out of the pool: those behind it move down.
    pub fn remove(&mut self, j: usize, pool: &mut [u64])
        requires { Removable self.old pool.old j }
        ensures columns { Removed self.old pool.old j self.new pool.new }
        ensures store { Packed self.old → Forgotten self.old pool.old j self.new pool.new }
    {
        let n = self.stored;
        let used = self.used;
        let start = self.starts[j] as usize;
        let count = self.counts[j];
        let len = count as usize;
        close_gap(&mut self.indices, j, 1, n);
        close_gap(&mut self.starts, j, 1, n);
        close_gap(&mut self.counts, j, 1, n);
        lower(&mut self.starts, j, n - 1, count as u16);
        close_gap(
            pool,
            start * limits::TERM_WORDS,
            len * limits::TERM_WORDS,
            used * limits::TERM_WORDS,
        );
        self.stored = n - 1;
        self.used = used - len;
    }
}

// The first place of x among the first n indices.
pub fn find(column: &Indices, n: usize, x: u32) -> Option<usize>
    requires { n ≤ stored_polynomials }
    ensures { Finds column.now n x result }
{
    search::find_from(&column[..n], 0, x)
}

// Lowers the starts from the j-th up to the n-th by fall.
fn lower(column: &mut Starts, j: usize, n: usize, fall: u16)
    requires { (j ≤ n) × (n ≤ length column.old) × ((k : ℕ) → j ≤ k → k < n → fall ≤ get_or column.old k 0) }
    ensures { Lowered column.old j n fall column.new }
{
    for k in j..n {
        column[k] -= fall;
    }
}

// Moves those behind at + len, up to used, down to at.
pub fn close_gap<T: Copy>(run: &mut [T], at: usize, len: usize, used: usize)
    requires { (at + len ≤ used) × (used ≤ length run.old) }
    ensures moved { run.new ≡ copy_within run.old (at + len) used at }
    ensures by_index { Shifted run.old at len used run.new }
{
    run.copy_within(at + len..used, at);
}
