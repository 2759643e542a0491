//! Why texts of cases are not joined.

use crate::fault::JoinFault;

/// Why texts of cases are not joined.
#[derive(Clone, Copy, Debug)]
pub enum CasesFault {
    /// A fault that texts of parts may have too: of a file, or want of memory.
    Part(JoinFault),
    /// With the cases of this file there are more than a run may have, 16,777,216.
    TooMany(u32),
}
