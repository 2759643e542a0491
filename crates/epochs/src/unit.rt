//! The units of a log.

/// A unit of a log: one sector of a write or a discard (docs/CRASH-MODEL.md, Terms).
#[derive(Clone, Copy)]
pub struct Unit {
    /// The number of its entry in the log.
    pub entry: u32,
    /// Which sector of its entry it is, from 0.
    pub place: u32,
    /// The sector of the device that it covers.
    pub sector: u32,
}
