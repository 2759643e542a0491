//! A sector of an image that differs from the base of its cut.

ghost use Rattle.std.specs.Prelude.{◌≡◌, IfOk};
ghost use Rattle.std.specs.Cmp.{partial_equiv_from_equiv};
ghost use Rattle.lanes.specs.Sector.{mix};
ghost use Rattle.images.specs.Equal.{same_sector, sector_input, sector_equivalence, sector_alike};

use crate::content::SectorContent;
use crate::image::Sector;
use std::alloc::{AllocError, Global};
use std::hash::{Hash, Hasher};
use std::marker::Model;

/// A sector of an image that differs from the base of its cut (docs/CRASH-MODEL.md, Keys of images). It
/// borrows its bytes from the log, but where a torn unit shows in it.
///
/// Contracts see its number and its bytes.
#[derive(Drop)]
pub struct ChangedSector<'a> {
    number: u32,
    content: SectorContent<'a>,
    /// The mix of the bytes.
    mixed: u64,
}

impl<'a> Model for ChangedSector<'a> {
    ghost use Rattle.std.specs.Prelude.{◌≡◌};
    ghost use Rattle.lanes.specs.Sector.{mix};
    ghost use Rattle.images.specs.Contents.{bytes_of};
    ghost use Rattle.images.specs.Keys.{ChangedValue};

    ghost Value = { ChangedValue };

    ghost view = { λ s. record { number = s.number; content = bytes_of s.content } };

    ghost invariant = { λ s. s.mixed ≡ mix (bytes_of s.content) };
}

impl<'a> ChangedSector<'a> {
    /// A sector whose bytes lie in the log.
    #[tactic(auto, unfolding(crate::specs::Contents::bytes_of))]
    pub(crate) fn borrow_sector(number: u32, sector: &'a Sector) -> ChangedSector<'a>
        ensures { result ≡ record { number = number; content = sector.now } }
    {
        ChangedSector {
            number,
            content: SectorContent::Lent(sector),
            mixed: lanes::mix(sector),
        }
    }

    /// A sector in which a torn unit shows.
    #[tactic(auto, unfolding(crate::specs::Contents::bytes_of))]
    pub(crate) fn torn_sector(
        alloc: Global,
        number: u32,
        sector: &Sector,
    ) -> Result<ChangedSector<'a>, AllocError>
        ensures { IfOk result (λ changed. changed ≡ record { number = number; content = sector.now }) }
    {
        Ok(ChangedSector {
            number,
            content: SectorContent::Torn(Box::new(alloc, *sector)?),
            mixed: lanes::mix(sector),
        })
    }

    /// A copy of the sector.
    pub(crate) fn copy(&self, alloc: Global) -> Result<ChangedSector<'a>, AllocError>
        ensures { IfOk result (λ copy. copy ≡ self.now) }
    {
        Ok(ChangedSector {
            number: self.number,
            content: self.content.copy(alloc)?,
            mixed: self.mixed,
        })
    }

    /// Its number on the device.
    pub fn number(&self) -> u32
        ensures { result ≡ self.now.number }
    {
        self.number
    }

    /// Its bytes in the image.
    pub fn content(&self) -> &[u8; 512]
        ensures { result.now ≡ self.now.content }
    {
        self.content.bytes()
    }

    /// The mix of its bytes, which is worked out once.
    pub(crate) fn mix(&self) -> u64
        ensures { result ≡ mix self.now.content }
    {
        self.mixed
    }
}

impl<'a> PartialEq for ChangedSector<'a> {
    ghost eq = { same_sector };

    ghost laws = { partial_equiv_from_equiv sector_equivalence };

    #[tactic(auto, unfolding(crate::specs::Equal::same_sector), using(lanes::proofs::CallerLemmas::same_test))]
    fn eq(&self, other: &ChangedSector<'a>) -> bool {
        self.number() == other.number() && lanes::same(self.content(), other.content())
    }
}

impl<'a> Eq for ChangedSector<'a> {
    ghost laws = { sector_equivalence };
}

impl<'a> Hash for ChangedSector<'a> {
    ghost hash_input = { sector_input };

    ghost respects_eq = { sector_alike };

    #[tactic(auto, unfolding(crate::specs::Equal::sector_input))]
    fn hash<H: Hasher>(&self, state: &mut H) {
        state.write_u32(self.number());
        state.write_u64(self.mix());
    }
}
