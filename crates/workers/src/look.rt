//! What is known of an image without a run.

use interp::Outcome;

/// A checker that isn't known to find an image good, and what it ends in there, where that is known.
#[derive(Drop)]
pub(crate) struct Stop {
    pub(crate) checker: usize,
    pub(crate) outcome: Option<Outcome>,
}

/// What entries say of an image.
#[derive(Drop)]
pub(crate) enum EntryLook {
    /// From the image on, this many images in a row are good.
    Good(u64),
    /// The image isn't known to be good by this checker.
    Stops(Stop),
}
