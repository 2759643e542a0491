//! A part that splits a case.

use arrayvec::ArrayVec;

/// A part whose fates tell the choices of a case apart, by its number among the parts at risk, and these fates in groups by what
/// they show.
#[derive(Drop)]
pub struct Parted {
    /// The number of the part.
    pub part: usize,
    /// The groups, by the first fate of each.
    pub groups: ArrayVec<u16, 16>,
}
