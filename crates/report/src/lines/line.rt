//! A failing line.

use arrayvec::ArrayVec;
use choices::Departure;
use epochs::By;
use interp::Outcome;

/// A failing line: an image on which a program does not answer 0 (docs/OUTPUT.md, The report).
#[derive(Drop)]
pub struct Line {
    /// The number of the image.
    pub image: u64,
    /// Its cut.
    pub cut: u32,
    /// The number of the program.
    pub program: u8,
    /// What the program ended in.
    pub outcome: Outcome,
    /// What departs as one.
    pub by: By,
    /// The parts of the image that are not whole.
    pub departures: ArrayVec<Departure, 3>,
}
