//! How many cases a run left out.

/// How many cases a run left out, of which none that it judged fails.
#[derive(Clone, Copy)]
pub struct LeftOut {
    /// How many have more torn parts than is asked.
    pub torn: u64,
    /// How many others have more lost ones.
    pub lost: u64,
}
