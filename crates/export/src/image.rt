//! An image with its choice.

ghost use Rattle.std.specs.Prelude.{◌≡◌, ◌<◌, ◌≤◌, [], length, slice_get, Some, IfOk};

use arrayvec::ArrayVec;
use choices::{Choice, Departure};
use helpers::Device;
use images::{History, View};
use logfmt::Log;
use std::alloc::{AllocError, Global};
use std::marker::Model;

/// An image of a log, by its cut and its departures: a crash image, or what the device held before entry 0.
///
/// Contracts see a log, a cut and departures.
#[derive(Drop)]
pub(crate) struct ExportedImage<'a> {
    log: &'a Log<'a>,
    /// The crash image; none of what the device held before entry 0.
    view: Option<View<'a>>,
    cut: u32,
    departures: ArrayVec<Departure, 3>,
}

impl<'a> Model for ExportedImage<'a> {
    ghost use Rattle.images.specs.Views.{ViewValue};
    ghost use Rattle.export.specs.Kept.{IsImage};

    ghost Value = { ViewValue };

    ghost view = { λ i. record { log = i.log.now; cut = i.cut; departures = i.departures.items } };

    ghost invariant = { λ i. IsImage (record { log = i.log.now; cut = i.cut; departures = i.departures.items }) i.view };
}

impl<'a> ExportedImage<'a> {
    ghost use Rattle.logfmt.specs.Bounds.{IsLog};
    ghost use Rattle.images.specs.Table.{AreParts};
    ghost use Rattle.images.specs.Views.{IsMember, sectors_of, view_of};

    /// What the device held before entry 0.
    pub(crate) fn initial(log: &'a Log<'a>) -> ExportedImage<'a>
        ensures { result ≡ record { log = log.now; cut = 0; departures = [] } }
    {
        let _sectors = log.sectors();
        ExportedImage {
            log,
            view: None,
            cut: 0,
            departures: ArrayVec::new(),
        }
    }

    /// The crash image of a choice.
    pub(crate) fn of(
        alloc: Global,
        log: &'a Log<'a>,
        history: &'a History<'a>,
        choice: &Choice,
    ) -> Result<ExportedImage<'a>, AllocError>
        requires log { history.now.log ≡ log.now }
        requires member { IsMember history.now choice.now }
        ensures { IfOk result (λ image. image ≡ view_of history.now choice.now) }
    {
        let _sectors = log.sectors();
        let view = history.view(alloc, choice)?;
        Ok(ExportedImage {
            log,
            view: Some(view),
            cut: choice.cut(),
            departures: choice.departures_owned(),
        })
    }

    /// The log.
    pub(crate) fn log(&self) -> &'a Log<'a>
        ensures value { result.now ≡ self.now.log }
        ensures bounds { IsLog self.now.log }
    {
        self.log
    }

    /// Its cut.
    pub(crate) fn cut(&self) -> u32
        ensures value { result ≡ self.now.cut }
        ensures within { result ≤ length self.now.log.entries }
    {
        self.cut
    }

    /// Its departures, rising by part.
    pub(crate) fn departures(&self) -> &[Departure]
        ensures value { result.now ≡ self.now.departures }
        ensures parts { AreParts self.now.log self.now.departures }
        ensures bounds { IsLog self.now.log }
    {
        self.departures.as_slice()
    }

    /// A sector of it.
    pub(crate) fn sector(&self, number: u32) -> &[u8; 512]
        requires { number < self.now.log.sectors }
        ensures { slice_get (sectors_of self.now) number ≡ Some result.now }
    {
        let initial = self.log.initial();
        match &self.view {
            Some(view) => match view.sector(number) {
                Some(sector) => sector,
                None => initial.sector(number),
            },
            None => initial.sector(number),
        }
    }
}
