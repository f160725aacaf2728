// Where a reader stops.

// Bytes that are not of the grammar, and the place of the first of them.
#[derive(Clone, Copy)]
pub struct Stop {
    pub at: usize,
}
