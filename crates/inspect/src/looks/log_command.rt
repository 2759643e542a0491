//! Logs as tables.

ghost use Rattle.std.specs.Prelude.{IfOk, IfErr};
ghost use Rattle.inspect.specs.Table.{IsTable, RefusesTable};

use base::refusal::Refusal;
use crash_text::log_table;
use request::Options;
use request::facts::Recording;
use std::alloc::Global;

/// The entries of a log, one a line, by the numbers that the report names (docs/OUTPUT.md, The text of
/// `log`).
///
/// # Errors
///
/// The first fault of the log; or want of memory.
pub fn shown_log(
    alloc: Global,
    recording: &Recording<'_>,
    options: &Options,
) -> Result<Vec<u8>, Refusal>
    ensures shown { IfOk result (λ text. IsTable recording.now options.now text.items) }
    ensures refused { IfErr result (RefusesTable recording.now options.now) }
{
    let log = recording.read(alloc, options)?;
    match log_table(alloc, &log) {
        Ok(text) => Ok(text.into_bytes()),
        Err(_error) => Err(Refusal::of_memory()),
    }
}
