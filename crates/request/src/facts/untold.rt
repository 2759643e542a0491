//! How much of a search records left undone.

/// How much records of a program didn't tell.
#[derive(Clone, Copy)]
pub struct Untold {
    /// How many cases no record tells.
    pub cases: u64,
    /// At how many cuts the search was stopped.
    pub stopped: u64,
}
