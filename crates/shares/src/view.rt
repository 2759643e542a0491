//! What a seat knows of its board. The rule of the board and its contracts speak of these types; no
//! value of them is made but the limits.

use std::collections::LinkedList;

/// One atomic step of a seat on its board, with the number that it found.
pub enum SeatStep {
    /// One was added to the number of the next block, which was this one.
    Drew(u64),
    /// An image was posted, and the least image was then the second.
    Posted(u64, u64),
    /// The least image was loaded.
    SawLeast(u64),
    /// The number of the next block was loaded.
    SawNext(u64),
}

/// What a seat knows.
pub struct SeatView {
    /// Its parts of the right to know the whole: one for each seat that it is made of.
    pub parts: u64,
    /// Its steps, in order.
    pub steps: LinkedList<SeatStep>,
}

/// What the rule of a board is told once.
#[derive(Drop)]
pub struct BoardLimits {
    pub blocks: u64,
    pub seats: u64,
}
