//! The fewest places of which each window holds one.

ghost use Rattle.std.specs.Prelude.{◌≡◌, ◌<◌, ◌≤◌, ℕ, List, length, slice_get, Some, IfOk};
ghost use Rattle.std.specs.List.Sorted.{IsNonDecreasing};
ghost use Rattle.losses.specs.declared.flushes.window.Window.{Window};
ghost use Rattle.losses.specs.Places.{AreWindows, AreStarts, ArePlaces};

use crate::flushes::window::Window;
use std::alloc::{AllocError, Global};

/// Returns for each of `entries` entries the greatest start of the windows that end there, or 0 where none does.
fn starts_of(alloc: Global, windows: &[Window], entries: usize) -> Result<Vec<u32>, AllocError>
    requires { AreWindows entries windows.now }
    ensures { IfOk result (λ starts. AreStarts entries windows.now starts.items) }
{
    let mut starts = Vec::new(alloc);
    starts.resize(entries, 0)?;
    for window in windows {
        let end = window.end as usize;
        if starts[end] < window.start {
            starts[end] = window.start;
        }
    }
    Ok(starts)
}

/// The places that are picked for these windows, rising, by the table of their starts.
fn places_by(alloc: Global, starts: &[u32]) -> Result<Vec<u32>, AllocError>
    requires { length starts.now ≤ 65536 }
    ensures { (ws : List Window) → AreWindows (length starts.now) ws → AreStarts (length starts.now) ws starts.now → IfOk result (λ places. ArePlaces ws places.items) }
{
    let mut places = Vec::new(alloc);
    let mut last = 0;
    for (end, start) in starts.iter().enumerate() {
        if *start > last {
            last = end as u32;
            places.push(last)?;
        }
    }
    Ok(places)
}

/// The places that are picked for the windows of a log of that many entries, rising.
pub(crate) fn places_of(
    alloc: Global,
    windows: &[Window],
    entries: usize,
) -> Result<Vec<u32>, AllocError>
    requires few { entries ≤ 65536 }
    requires windows { AreWindows entries windows.now }
    ensures places { IfOk result (λ places. ArePlaces windows.now places.items) }
    ensures order { IfOk result (λ places. IsNonDecreasing places.items) }
{
    let starts = starts_of(alloc, windows, entries)?;
    places_by(alloc, starts.as_slice())
}
