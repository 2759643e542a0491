//! A recording: the bytes of a log, and of what the device held before entry 0.

ghost use Rattle.std.specs.Prelude.{◌≡◌, IfOk, IfErr};
ghost use Rattle.request.specs.Source.{IsLogOf, IsRecorded, RefusesLog};

use crate::{Options, read_log, read_recorded};
use base::refusal::Refusal;
use logfmt::Log;
use std::alloc::Global;
use std::marker::Model;

/// The bytes of a log, and of what the device held before entry 0 the first ones, after which there are zeros. Contracts see
/// it as the record of both.
#[derive(Drop)]
pub struct Recording<'x> {
    log: &'x [u8],
    initial: &'x [u8],
}

impl<'x> Model for Recording<'x> {
    ghost use Rattle.request.specs.Source.{RecordingValue};

    ghost Value = { RecordingValue };

    ghost view = { λ r. record { text = r.log.now; initial = r.initial.now } };
}

impl<'x> Recording<'x> {
    /// The recording of these bytes.
    pub fn of(log: &'x [u8], initial: &'x [u8]) -> Recording<'x>
        ensures { result ≡ record { text = log.now; initial = initial.now } }
    {
        Recording { log, initial }
    }

    /// The bytes of the log.
    pub fn log(&self) -> &'x [u8]
        ensures { result.now ≡ self.now.text }
    {
        self.log
    }

    /// The log that is asked for of it, as `read_log` answers it.
    ///
    /// # Errors
    ///
    /// Those of `read_log`.
    pub fn read(&self, alloc: Global, options: &Options) -> Result<Log<'x>, Refusal>
        ensures log { IfOk result (IsLogOf self.now options.now) }
        ensures refused { IfErr result (RefusesLog self.now options.now) }
    {
        read_log(alloc, self.log, self.initial, options)
    }

    /// The log that it is, without flushes that are added, as `read_recorded` answers it.
    ///
    /// # Errors
    ///
    /// Those of `read_recorded`.
    pub fn recorded(&self, alloc: Global, options: &Options) -> Result<Log<'x>, Refusal>
        ensures log { IfOk result (IsRecorded self.now options.now) }
        ensures refused { IfErr result (RefusesLog self.now options.now) }
    {
        read_recorded(alloc, self.log, self.initial, options)
    }
}
