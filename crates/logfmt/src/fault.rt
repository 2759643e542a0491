//! Why bytes are no log.

ghost use Rattle.std.specs.Prelude.{◌≡◌};

use base::causes::LogCause;
use std::alloc::{AllocError, AllocFailed};

/// The first fault of a text: its cause, and the entry where it is, 0 for the super block.
#[derive(Clone, Copy, Debug, PartialEq, Eq)]
pub struct LogFault {
    /// The first check that fails.
    pub code: LogCause,
    /// The number of the entry where it fails, from 0; 0 for the super block and for want of memory.
    pub at: u32,
}

impl From<AllocError> for LogFault {
    ghost use Rattle.base.specs.declared.causes.LogCause.TheVariants.{Memory};

    ghost from_gives = { λ _ f. f ≡ record { code = Memory; at = 0 } };

    fn from(_error: AllocError) -> LogFault {
        LogFault {
            code: LogCause::Memory,
            at: 0,
        }
    }
}

impl<T: Drop> From<AllocFailed<T>> for LogFault {
    ghost use Rattle.base.specs.declared.causes.LogCause.TheVariants.{Memory};

    ghost from_gives = { λ _ f. f ≡ record { code = Memory; at = 0 } };

    fn from(_error: AllocFailed<T>) -> LogFault {
        LogFault {
            code: LogCause::Memory,
            at: 0,
        }
    }
}
