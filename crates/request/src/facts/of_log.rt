//! What notes say of a log, as it is by itself.

ghost use Rattle.std.specs.Prelude.{◌≡◌, length, IfOk, IfSome};
ghost use Rattle.epochs.specs.Cuts.{cuts_of};
ghost use Rattle.request.specs.LogFacts.{AreLogFacts};

use crate::Options;
use crate::facts::flushes::count_flushes;
use crate::facts::forced::count_forced;
use crate::facts::large::count_large;
use crate::facts::promises::{Promises, promises_of};
use crate::facts::recording::Recording;
use epochs::Plan;
use logfmt::Log;
use std::alloc::{AllocError, Global};

/// What notes say of a log.
#[derive(Drop)]
pub struct LogFacts {
    /// How many entries have more sectors than may be lost together, and aren't forced.
    pub large: usize,
    /// How many entries have FUA, and write or discard something.
    pub forced: usize,
    /// How many entries are flush entries, with those that are added.
    pub flushes: usize,
    /// How many cuts are wanted.
    pub cuts: usize,
    /// The marks that promise what nothing made durable; none where there was no memory to find them.
    pub promises: Option<Promises>,
}

/// How many cuts of a log are wanted.
fn count_cuts(alloc: Global, log: &Log, options: &Options) -> Result<usize, AllocError>
    ensures { IfOk result (λ count. count ≡ length (cuts_of options.now.cuts log.now.entries)) }
{
    let plan = Plan::new(alloc, log, options.cuts(), options.by())?;
    Ok(plan.cuts().len())
}

/// What notes say of the log of a recording, as the options ask for it. None where they ask for none that it is, or for want of memory.
pub fn log_facts(alloc: Global, recording: &Recording<'_>, options: &Options) -> Option<LogFacts>
    ensures { IfSome result (AreLogFacts recording.now options.now) }
{
    let Ok(log) = recording.read(alloc, options) else {
        return None;
    };
    let Ok(cuts) = count_cuts(alloc, &log, options) else {
        return None;
    };
    Some(LogFacts {
        large: count_large(log.entries(), options.bound()),
        forced: count_forced(log.entries()),
        flushes: count_flushes(log.entries()),
        cuts,
        promises: promises_of(alloc, &log).ok(),
    })
}
