//! Logs of raw logs.

ghost use Rattle.std.specs.Prelude.{IfOk, IfErr};
ghost use Rattle.raw_log.specs.Imported.{IsImported};
ghost use Rattle.base.specs.Sizes.{sector_limit};
ghost use Rattle.inspect.specs.Import.{RefusesImport};

use base::limits::Limits;
use base::refusal::Refusal;
use request::log_refusal_of;
use std::alloc::Global;

/// The log that is imported of a raw log for the largest device within these limits (docs/LOG-FORMAT.md, Importing a raw log).
///
/// # Errors
///
/// The first fault of the raw log, at its entry; or want of memory.
pub fn import(alloc: Global, raw: &[u8], limits: Limits) -> Result<Vec<u8>, Refusal>
    ensures imported { IfOk result (λ text. IsImported raw.now (sector_limit limits) limits text.items) }
    ensures refused { IfErr result (RefusesImport limits raw.now) }
{
    match raw_log::import(alloc, raw, limits.sectors(), limits) {
        Ok(text) => Ok(text),
        Err(fault) => Err(log_refusal_of(fault)),
    }
}
