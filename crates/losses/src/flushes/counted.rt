//! The flushes that are missing, with how many windows are counted at each.

ghost use Rattle.std.specs.Prelude.{◌≡◌, ◌<◌, ◌≤◌, ◌∷◌, ◌++◌, List, [], ℕ, length, slice_get, Some, IfOk};
ghost use Rattle.std.specs.List.Sorted.{IsNonDecreasing};
ghost use Rattle.losses.specs.Places.{AreWindows, HoldsOne};
ghost use Rattle.losses.specs.Counted.{AreMissing, places_before, missing};

use crate::flushes::places::places_of;
use crate::flushes::window::Window;
use std::alloc::{AllocError, Global};

/// A flush that is missing. It may stand right before any of the entries from `from` to `at`.
#[derive(Clone, Copy, Drop)]
pub struct MissingFlush {
    /// The first entry before which it may stand: the greatest start of the windows that are counted here.
    pub from: u32,
    /// The last one: the place that was picked.
    pub at: u32,
    /// How many windows are counted here: those of which this is the first place.
    pub failing: usize,
}

/// Returns which of the places, rising, is the first that a window holds.
fn first_in(places: &[u32], window: Window) -> usize
    requires order { IsNonDecreasing places.now }
    requires one { HoldsOne window places.now }
    ensures within { result < length places.now }
    ensures value { result ≡ places_before places.now window }
{
    places.partition_point(|place| *place < window.start)
}

/// The flushes at these places, at which nothing is counted yet.
fn none_counted(alloc: Global, places: &[u32]) -> Result<Vec<MissingFlush>, AllocError>
    ensures { IfOk result (λ flushes. flushes.items ≡ missing [] places.now) }
{
    let mut flushes = Vec::with_capacity(alloc, places.len())?;
    for place in places {
        flushes.push(MissingFlush {
            from: 0,
            at: *place,
            failing: 0,
        })?;
    }
    Ok(flushes)
}

/// Counts one window more where it belongs.
fn count(flushes: &mut Vec<MissingFlush>, places: &[u32], window: Window)
    requires order { IsNonDecreasing places.now }
    requires one { HoldsOne window places.now }
    requires counted { (ws : List Window) × (flushes.old.items ≡ missing ws places.now) × (length ws < 18446744073709551615) }
    ensures { (ws : List Window) → flushes.old.items ≡ missing ws places.now → flushes.new.items ≡ missing (ws ++ window ∷ []) places.now }
{
    let flush = &mut flushes[first_in(places, window)];
    flush.failing += 1;
    flush.from = flush.from.max(window.start);
}

/// The fewest flushes that take away all images with these windows, of a log of that many entries, rising.
///
/// It takes 4 bytes for each entry, and 20 for each flush.
///
/// # Errors
///
/// Memory was refused.
pub fn missing_flushes(
    alloc: Global,
    windows: &[Window],
    entries: usize,
) -> Result<Vec<MissingFlush>, AllocError>
    requires few { entries ≤ 65536 }
    requires windows { AreWindows entries windows.now }
    ensures { IfOk result (λ flushes. AreMissing windows.now flushes.items) }
{
    let places = places_of(alloc, windows, entries)?;
    let mut flushes = none_counted(alloc, places.as_slice())?;
    for window in windows {
        count(&mut flushes, places.as_slice(), *window);
    }
    Ok(flushes)
}
