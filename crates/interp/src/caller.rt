//! What a local call saves.

/// The slot after a local call, and registers 6 to 10 as they were.
#[derive(Clone, Copy)]
pub(crate) struct CheckedCaller {
    pub(crate) slot: u32,
    pub(crate) r6: Option<u64>,
    pub(crate) r7: Option<u64>,
    pub(crate) r8: Option<u64>,
    pub(crate) r9: Option<u64>,
    pub(crate) r10: Option<u64>,
}
