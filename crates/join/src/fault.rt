//! Why texts are not joined.

use base::causes::JoinCause;

/// Why texts are not joined, and the number of the file that is at fault.
#[derive(Clone, Copy, Debug, PartialEq, Eq)]
pub struct JoinFault {
    pub cause: JoinCause,
    pub file: u32,
}

/// The refusal for want of memory.
pub(crate) const MEMORY_FAULT: JoinFault = JoinFault {
    cause: JoinCause::Memory,
    file: 0,
};
