//! The image of an open case's representative.

ghost use Rattle.std.specs.Prelude.{◌≡◌, ◌<◌, ◌≤◌, length, slice_get, Some, IfOk};
ghost use Rattle.known_runs.specs.Imaged.{AreFull};

use case_text::{KnownParts, set_at};
use cases::Cut;
use choices::Departure;
use epochs::By;
use logfmt::Log;
use std::alloc::{AllocError, Global};
use std::marker::Model;

/// The image of a case's representative, by its cut and its departures.
///
/// Contracts see a log, a cut and departures.
#[derive(Drop)]
pub(crate) struct WantedImage<'a> {
    log: &'a Log<'a>,
    cut: Cut<'a>,
    tears: bool,
    /// What may become of each part at risk.
    sets: Vec<u16>,
    departures: Vec<Departure>,
}

impl<'a> Model for WantedImage<'a> {
    ghost use Rattle.images.specs.Views.{ViewValue};
    ghost use Rattle.known_runs.specs.Imaged.{IsImage};

    ghost Value = { ViewValue };

    ghost view = { λ i. record { log = i.cut.log; cut = i.cut.cut; departures = i.departures.items } };

    ghost invariant = { λ i. IsImage i.log.now i.cut i.tears i.sets.items i.departures.items };
}

/// Returns for each part, by its number, the set of what a case leaves it; all fates, where it has no set.
fn full_sets(alloc: Global, sets: &[u16], tears: bool, count: usize) -> Result<Vec<u16>, AllocError>
    ensures long { IfOk result (λ full. length full.items ≡ count) }
    ensures same { IfOk result (λ full. AreFull tears sets.now full.items) }
{
    let mut full = Vec::new(alloc);
    for number in 0..count {
        full.push(set_at(sets, tears, number))?;
    }
    Ok(full)
}

impl<'a> WantedImage<'a> {
    ghost use Rattle.logfmt.specs.Bounds.{IsLog};
    ghost use Rattle.images.specs.Table.{AreParts};
    ghost use Rattle.images.specs.Views.{sectors_of};
    ghost use Rattle.known_runs.specs.Imaged.{view_of_case};

    /// The image of the representative of a case, at a cut of a log. It takes memory for what the case leaves each part.
    pub(crate) fn of(
        alloc: Global,
        log: &'a Log<'a>,
        by: By,
        tears: bool,
        number: u32,
        sets: &[u16],
    ) -> Result<WantedImage<'a>, AllocError>
        requires cut { number ≤ length log.now.entries }
        ensures { IfOk result (λ image. image ≡ view_of_case (record { log = log.now; way = by; cut = number }) tears sets.now) }
    {
        let _sectors = log.sectors();
        let cut = Cut::new(alloc, log, by, number)?;
        let mut known = KnownParts::new(alloc);
        known.read(tears, cut.parts(), sets)?;
        let count = cut.parts().len();
        let sets = full_sets(alloc, sets, tears, count)?;
        Ok(WantedImage {
            log,
            cut,
            tears,
            sets,
            departures: known.into_lost(),
        })
    }

    /// The log.
    pub(crate) fn log(&self) -> &'a Log<'a>
        ensures value { result.now ≡ self.now.log }
        ensures bounds { IsLog self.now.log }
    {
        self.log
    }

    /// Its cut.
    pub(crate) fn cut(&self) -> u32
        ensures value { result ≡ self.now.cut }
        ensures within { result ≤ length self.now.log.entries }
    {
        self.cut.number()
    }

    /// Its departures, rising by part.
    pub(crate) fn departures(&self) -> &[Departure]
        ensures value { result.now ≡ self.now.departures }
        ensures parts { AreParts self.now.log self.now.departures }
        ensures bounds { IsLog self.now.log }
    {
        self.departures.as_slice()
    }

    /// A sector of it.
    pub(crate) fn sector(&self, number: u32) -> [u8; 512]
        requires { number < self.now.log.sectors }
        ensures { slice_get (sectors_of self.now) number ≡ Some result }
    {
        self.cut.sector(self.sets.as_slice(), number)
    }
}
