//! Departures by name.

use crate::fate::Fate;

/// A departure as the report names it: the part by its entry and its place there, and its fate. The device's sector isn't
/// part of it, since the log has that.
#[derive(Clone, Copy)]
pub struct Name {
    /// The number of the part's entry in the log.
    pub entry: u32,
    /// Which sector of its entry the part is, from 0.
    pub place: u32,
    /// What becomes of it.
    pub fate: Fate,
}

impl Default for Name {
    /// A name that stands for none.
    fn default() -> Name {
        Name {
            entry: 0,
            place: 0,
            fate: Fate::Drop,
        }
    }
}
