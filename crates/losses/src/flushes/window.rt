//! The window of an image: where a flush would take it away.

ghost use Rattle.std.specs.Prelude.{◌≡◌, ◌<◌, ◌≤◌, ◌+◌, ℕ, true, length, filter, slice_get, Some, IfSome, IfNone, All};
ghost use Rattle.epochs.specs.Parts.{part_count};
ghost use Rattle.losses.specs.Windows.{drops, is_end, IsWindow, HasNoWindow};

use choices::{Departure, Fate};
use epochs::By;
use logfmt::{Entry, Log};

/// The places of a flush that takes an image away: right before each of the entries from `start` to `end`.
#[derive(Clone, Copy)]
pub struct Window {
    /// The entry after the first one of which something departs.
    pub start: u32,
    /// The last entry before the cut of which something arrived, or that is a mark.
    pub end: u32,
}

/// Whether a departure is the loss of a part of that entry.
fn drops(departure: Departure, entry: u32) -> bool
    ensures { result ≡ drops entry departure }
{
    let is_drop = match departure.fate {
        Fate::Drop => true,
        Fate::Head(_) => false,
        Fate::Tail(_) => false,
    };
    departure.part.entry == entry && is_drop
}

/// How many parts of an entry are lost.
fn count_drops(departures: &[Departure], entry: u32) -> u64
    requires { length departures.now ≤ 3 }
    ensures { result ≡ length (filter (drops entry) departures.now) }
{
    let mut count = 0;
    for departure in departures {
        count += u64::from(drops(*departure, entry));
    }
    count
}

/// Whether an entry may end a window: something of it arrived, or it is a mark.
fn is_end(by: By, entries: &[Entry], departures: &[Departure], number: u32) -> bool
    requires number { number < length entries.now }
    requires few { length departures.now ≤ 3 }
    ensures { result ≡ is_end by entries.now departures.now number }
{
    let entry = &entries[number as usize];
    entry.flags.mark || count_drops(departures, number) < by.parts(entry)
}

/// The window of the image of a cut and these departures, rising, where it has one.
pub fn window_of(by: By, log: &Log, cut: u32, departures: &[Departure]) -> Option<Window>
    requires cut { cut ≤ length log.now.entries }
    requires few { length departures.now ≤ 3 }
    requires before { All (λ departure. departure.part.entry < cut) departures.now }
    ensures found { IfSome result (IsWindow by log.now.entries cut departures.now) }
    ensures none { IfNone result (HasNoWindow by log.now.entries cut departures.now) }
{
    let first = departures.first()?;
    let start = first.part.entry + 1;
    let mut end = cut;
    while end > start {
        end -= 1;
        if is_end(by, log.entries(), departures, end) {
            return Some(Window { start, end });
        }
    }
    None
}
