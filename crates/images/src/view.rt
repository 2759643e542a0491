//! The view of a crash image.

ghost use Rattle.std.specs.Prelude.{◌≡◌, ◌<◌, ◌≤◌, length, slice_get, Some, IfOk};
ghost use Rattle.base.specs.Sizes.{most_sectors};

use crate::changed::ChangedSector;
use crate::changes::Changes;
use crate::image::Sector;
use crate::key::Key;
use crate::listing::{change_of, torn_change};
use crate::torn::{TornSector, torn_content};
use crate::versions::Versions;
use arrayvec::ArrayVec;
use choices::Departure;
use helpers::{Context, Device};
use logfmt::Log;
use std::alloc::{AllocError, Global};
use std::marker::Model;

/// A crash image as a device, with its context (docs/CRASH-MODEL.md). It borrows its sectors from the
/// log, but those in which a torn unit shows.
///
/// Contracts see a view as a log, a cut and the departures.
#[derive(Drop)]
pub struct View<'a> {
    pub(crate) versions: Versions<'a>,
    pub(crate) cut: u32,
    pub(crate) departures: ArrayVec<Departure, 3>,
    pub(crate) torn: ArrayVec<TornSector, 3>,
    pub(crate) context: Context,
}

impl<'a> Model for View<'a> {
    ghost use Rattle.images.specs.Views.{ViewValue};
    ghost use Rattle.images.specs.Table.{IsView};

    ghost Value = { ViewValue };

    ghost view = { λ v. record { log = v.versions; cut = v.cut; departures = v.departures.items } };

    ghost invariant = { λ v. IsView (record { log = v.versions; cut = v.cut; departures = v.departures.items }) v.torn.items v.context };
}

impl<'a> View<'a> {
    ghost use Rattle.logfmt.specs.Bounds.{IsLog};
    ghost use Rattle.images.specs.Views.{context_at, sectors_of};
    ghost use Rattle.images.specs.Keys.{key_of};
    ghost use Rattle.images.specs.Table.{AreParts};
    ghost use Rattle.images.specs.Changes.{change_at, whole_image, image_of};

    /// The context of the image: how many sectors the device has, the epoch of the cut, and how many
    /// marks stand before it.
    pub fn context(&self) -> Context
        ensures value { result ≡ context_at self.now.log self.now.cut }
        ensures device { result.sectors ≤ most_sectors }
        ensures epoch { result.epoch ≤ 65536 }
        ensures marks { result.marks ≤ 65536 }
        ensures bounds { IsLog self.now.log }
    {
        self.context
    }

    /// The log.
    pub(crate) fn log(&self) -> &Log
        ensures { result.now ≡ self.now.log }
    {
        self.versions.log()
    }

    /// The cut.
    pub(crate) fn cut(&self) -> u32
        ensures value { result ≡ self.now.cut }
        ensures within { result ≤ length self.now.log.entries }
    {
        self.cut
    }

    /// A sector of the image.
    pub(crate) fn form(&self, number: u32) -> &Sector
        requires { number < self.now.log.sectors }
        ensures { slice_get (sectors_of self.now) number ≡ Some result.now }
    {
        match self
            .versions
            .borrow_sector(number, self.cut, self.departures.as_slice())
        {
            Some(sector) => sector,
            None => torn_content(self.torn.as_slice(), number),
        }
    }

    /// The departures, rising by part.
    pub(crate) fn departures(&self) -> &[Departure]
        ensures value { result.now ≡ self.now.departures }
        ensures few { length result.now ≤ 3 }
        ensures parts { AreParts self.now.log self.now.departures }
        ensures bounds { IsLog self.now.log }
        ensures within { self.now.cut ≤ length self.now.log.entries }
    {
        self.departures.as_slice()
    }

    /// A sector of the image, if it differs from what the units before a cut leave.
    pub(crate) fn change(
        &self,
        alloc: Global,
        number: u32,
        flush: u32,
    ) -> Result<Option<ChangedSector<'a>>, AllocError>
        requires number { number < self.now.log.sectors }
        requires flush { flush ≤ length self.now.log.entries }
        ensures { IfOk result (λ change. change ≡ change_at (whole_image self.now.log flush) (image_of self.now) number) }
    {
        let versions = &self.versions;
        let base = versions.durable(number, flush);
        match versions.borrow_sector(number, self.cut, self.departures.as_slice()) {
            Some(sector) => Ok(change_of(number, base, sector)),
            None => torn_change(
                alloc,
                number,
                base,
                torn_content(self.torn.as_slice(), number),
            ),
        }
    }

    /// The key of the image and of the program with that number: `None` where more than 64 sectors
    /// differ from the base of the cut. Each call looks at the sectors that were covered after the last
    /// flush; who wants the keys of many images keeps a `Changes`.
    pub fn key(&self, alloc: Global, program: u8) -> Result<Option<Key<'a>>, AllocError>
        ensures { IfOk result (λ key. key ≡ key_of self.now program) }
    {
        let mut changes = Changes::over(alloc, self.versions.same());
        match changes.key(alloc, self)? {
            Some(mut key) => {
                key.set_program(program);
                Ok(Some(key))
            }
            None => Ok(None),
        }
    }
}

impl<'a> Device for View<'a> {
    ghost use Rattle.images.specs.Views.{sectors_of};
    ghost use Rattle.images.specs.Whole.{whole_view};

    ghost content = { λ v. sectors_of v };

    fn sectors(&self) -> u32 {
        self.log().sectors()
    }

    fn sector(&self, n: u32) -> Option<&[u8; 512]> {
        if n < self.context.sectors {
            Some(self.form(n))
        } else {
            None
        }
    }

    ghost whole = { λ v n s h. whole_view v n s h };
}
