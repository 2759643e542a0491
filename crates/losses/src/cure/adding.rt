//! The log of the next round.

ghost use Rattle.std.specs.Prelude.{◌≡◌, ◌≢◌, ◌<◌, [], length, IfOk};
ghost use Rattle.logfmt.specs.Flushed.{with_flushes};
ghost use Rattle.losses.specs.Counted.{AreMissing};
ghost use Rattle.losses.specs.Places.{AreWindows};
ghost use Rattle.losses.specs.FailureWindows.{places_in, HoldNoFlush, calm_entries};

use crate::flushes::{MissingFlush, Window, missing_flushes};
use logfmt::Log;
use std::alloc::{AllocError, Global};

/// A log to which the flushes of a round were added.
#[derive(Drop)]
pub struct Added<'x> {
    /// The log with them.
    pub log: Log<'x>,
    /// The flushes.
    pub flushes: Vec<MissingFlush>,
}

/// The places that were picked.
fn places_of(alloc: Global, flushes: &[MissingFlush]) -> Result<Vec<u32>, AllocError>
    ensures { IfOk result (λ places. places.items ≡ places_in flushes.now) }
{
    let mut places = Vec::with_capacity(alloc, flushes.len())?;
    for flush in flushes {
        places.push(flush.at)?;
    }
    Ok(places)
}

/// Adds the flushes that are missing for these windows to a log, of which no window holds a flush entry. Where there is a window,
/// fewer entries are left that are no flush entries.
///
/// # Errors
///
/// Memory was refused.
pub fn add_missing<'x>(
    alloc: Global,
    log: Log<'x>,
    windows: &[Window],
) -> Result<Added<'x>, AllocError>
    requires some { windows.now ≢ [] }
    requires inside { AreWindows (length log.entries) windows.now }
    requires calm { HoldNoFlush log.entries windows.now }
    ensures missing { IfOk result (λ added. AreMissing windows.now added.flushes.items) }
    ensures log { IfOk result (λ added. added.log ≡ with_flushes (places_in added.flushes.items) log.entry) }
    ensures fewer { IfOk result (λ added. calm_entries added.log.entries < calm_entries log.entry.entries) }
{
    let flushes = missing_flushes(alloc, windows, log.entries().len())?;
    let places = places_of(alloc, flushes.as_slice())?;
    Ok(Added {
        log: log.with_flushes(places.as_slice()),
        flushes,
    })
}
