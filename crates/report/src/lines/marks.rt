//! The image and the program of a line.

/// The image and the program of a failing line.
#[derive(Clone, Copy, Drop)]
pub struct LineMark {
    /// The number of the image.
    pub image: u64,
    /// The number of the program.
    pub program: u8,
}
