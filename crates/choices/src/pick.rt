//! Departures by their numbers.

/// A departure by its numbers.
#[derive(Clone, Copy, Default)]
pub struct Pick {
    /// Which of the volatile parts of its cut, from 0 in their order.
    pub part: u32,
    /// Which fate, from 0 in their order: the drop, then the heads, then the tails.
    pub fate: u8,
}
