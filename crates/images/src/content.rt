//! The bytes of a sector of a key.

ghost use Rattle.std.specs.Prelude.{◌≡◌, IfOk};
ghost use Rattle.images.specs.Contents.{bytes_of};

use crate::image::Sector;
use std::alloc::{AllocError, Global};

/// The bytes of a sector of an image.
#[derive(Drop)]
pub(crate) enum SectorContent<'a> {
    /// They lie in the log or its initial content, or are a sector of zeros.
    Lent(&'a Sector),
    /// A torn unit shows in the sector.
    Torn(Box<Sector>),
}

impl<'a> SectorContent<'a> {
    /// The bytes.
    #[tactic(auto, unfolding(crate::specs::Contents::bytes_of))]
    pub(crate) fn bytes(&self) -> &Sector
        ensures { result.now ≡ bytes_of self.now }
    {
        match self {
            SectorContent::Lent(sector) => sector,
            SectorContent::Torn(sector) => sector,
        }
    }

    /// A copy, which takes memory where a torn unit shows.
    #[tactic(auto, unfolding(crate::specs::Contents::bytes_of))]
    pub(crate) fn copy(&self, alloc: Global) -> Result<SectorContent<'a>, AllocError>
        ensures { IfOk result (λ copy. bytes_of copy ≡ bytes_of self.now) }
    {
        match self {
            SectorContent::Lent(sector) => Ok(SectorContent::Lent(sector)),
            SectorContent::Torn(sector) => Ok(SectorContent::Torn(Box::new(alloc, **sector)?)),
        }
    }
}
