//! The sectors of a crash image in which a torn unit shows.

ghost use Rattle.std.specs.Prelude.{◌≡◌, ◌+◌, ◌<◌, ◌≤◌, [], ℕ, IsFalse, false, length, slice_get, Some};
ghost use Rattle.base.specs.Sizes.{most_sectors};
ghost use Rattle.choices.specs.declared.choice.Departure.{Departure as LogDeparture};
ghost use Rattle.epochs.specs.Plan.{IsPart};
ghost use Rattle.logfmt.specs.Bounds.{IsLog};
ghost use Rattle.images.specs.declared.torn.TornSector.{TornSector as Torn};
ghost use Rattle.images.specs.Table.{HasSector, AreTorn, DepartOnce, leaves, tear_of};

use crate::image::Sector;
use crate::versions::Versions;
use arrayvec::ArrayVec;
use choices::{Departure, Fate};

/// A sector in which a torn unit shows, with its bytes in the image.
#[derive(Clone, Copy)]
pub(crate) struct TornSector {
    pub(crate) number: u32,
    pub(crate) content: Sector,
}

impl Default for TornSector {
    fn default() -> TornSector {
        TornSector {
            number: 0,
            content: [0; 512],
        }
    }
}

/// In which of its sectors a part of that many is torn; the first where it is dropped.
fn tear_of(fate: Fate, count: u32) -> u32
    requires some { 1 ≤ count }
    requires few { count ≤ most_sectors }
    ensures value { result ≡ tear_of fate count }
    ensures inside { result < count }
{
    match fate {
        Fate::Drop => 0,
        Fate::Head(eighths) => u32::from(eighths.count()) * count / 8,
        Fate::Tail(eighths) => (8 * count - u32::from(eighths.count()) * count) / 8,
    }
}

/// The sector in which a departure tears its part; the part's first where it is dropped.
fn tear(departure: Departure) -> u32
    requires some { 1 ≤ departure.part.count }
    requires device { departure.part.sector + departure.part.count ≤ most_sectors }
    ensures value { result ≡ departure.part.sector + tear_of departure.fate departure.part.count }
    ensures inside { result < departure.part.sector + departure.part.count }
{
    let part = departure.part;
    part.sector + tear_of(departure.fate, part.count)
}

/// Whether a part with that fate is torn: something of it reaches the device, and something doesn't.
fn tears(fate: Fate) -> bool
    ensures { result ≡ leaves (Some fate) }
{
    match fate {
        Fate::Drop => false,
        Fate::Head(_) => true,
        Fate::Tail(_) => true,
    }
}

/// Whether one of the departures tears its part.
#[inline(always)]
pub(crate) fn tear_any(departures: &[Departure]) -> bool
    ensures { IsFalse result → (i : ℕ) (d : LogDeparture) → slice_get departures.now i ≡ Some d → leaves (Some d.fate) ≡ false }
{
    for departure in departures {
        if tears(departure.fate) {
            return true;
        }
    }
    false
}

/// Fills an empty list with the sectors in which a torn unit shows: with that of each departure that
/// tears its part, whatever shows there.
#[inline(never)]
pub(crate) fn put_torn(
    torn: &mut ArrayVec<TornSector, 3>,
    versions: &Versions<'_>,
    cut: u32,
    departures: &[Departure],
)
    requires empty { torn.old.items ≡ [] }
    requires bounds { IsLog versions.now }
    requires cut { cut ≤ length versions.now.entries }
    requires few { length departures.now ≤ 3 }
    requires parts { (i : ℕ) (d : LogDeparture) → slice_get departures.now i ≡ Some d → IsPart versions.now d.part }
    requires once { DepartOnce departures.now }
    ensures { AreTorn versions.now cut departures.now torn.new.items }
{
    for departure in departures {
        if tears(departure.fate) {
            let number = tear(*departure);
            torn.push(TornSector {
                number,
                content: versions.form_sector(number, cut, departures),
            });
        }
    }
}

/// The bytes of a torn sector.
pub(crate) fn torn_content(torn: &[TornSector], number: u32) -> &Sector
    requires { HasSector torn.now number }
    ensures { (j : ℕ) × (t : Torn) × (slice_get torn.now j ≡ Some t) × (t.number ≡ number) × (result.now ≡ t.content) }
{
    for sector in torn {
        if sector.number == number {
            return &sector.content;
        }
    }
    unreachable!()
}
