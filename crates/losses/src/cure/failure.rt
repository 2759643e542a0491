//! A failure: an image, and a program that fails on it.

use crate::flushes::Window;

/// What is kept of a failing line.
#[derive(Clone, Copy, Drop)]
pub struct Failure {
    /// The number of the program.
    pub program: u8,
    /// The places of a flush that takes the image away, where there are some.
    pub window: Option<Window>,
}
