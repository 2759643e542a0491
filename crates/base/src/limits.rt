//! How large logs and devices may be (docs/LOG-FORMAT.md, Limits): usually, and with `--large`.
//!
//! `Limits` says which of the two is asked for. `Limits::bytes` is how many bytes a log has at most, `Limits::units` how many
//! sectors it writes and discards in all, `Limits::raw_bytes` how many bytes of a raw log its entries may need, and
//! `Limits::sectors` how many sectors of 512 bytes a device has. These numbers stand here for the code, in `specs/Sizes.antt` for
//! contracts, and nowhere else.
//!
//! # Its place
//!
//! Who takes a log or a size of a device takes a `Limits` with it, and hands it down to
//! `logfmt::read`. After that a contract speaks of the larger limits alone: a log has at most `most_log_bytes` bytes and
//! `most_units` units, and its device at most `most_sectors` sectors, whatever was asked for. So a law holds to these, and nothing after the reading of a
//! log asks for limits.
#![tactic(auto)]

ghost use Rattle.std.specs.Prelude.{◌≡◌, ◌≤◌};
ghost use Rattle.base.specs.Sizes.{byte_limit, most_log_bytes, most_sectors, most_units, raw_limit, sector_limit, unit_limit};

/// How large a log and its device may be (docs/LOG-FORMAT.md, Limits).
#[derive(Clone, Copy)]
pub enum Limits {
    /// A log to 64 MiB and 262,144 units, a device to 16,384 sectors.
    Usual,
    /// A log to 1 GiB and 2,097,152 units, a device to 33,554,432 sectors.
    Large,
}

impl Limits {
    /// How many bytes a log has at most.
    pub fn bytes(self) -> usize
        ensures value { result ≡ byte_limit self }
        ensures most { result ≤ most_log_bytes }
    {
        match self {
            Limits::Usual => 67_108_864,
            Limits::Large => 1_073_741_824,
        }
    }

    /// How many units a log has at most: one for each sector that a write or a discard covers.
    pub fn units(self) -> u64
        ensures value { result ≡ unit_limit self }
        ensures most { result ≤ most_units }
    {
        match self {
            Limits::Usual => 262_144,
            Limits::Large => 2_097_152,
        }
    }

    /// How many bytes of a raw log its entries may need (docs/LOG-FORMAT.md, Importing a raw log).
    pub fn raw_bytes(self) -> usize
        ensures value { result ≡ raw_limit self }
        ensures most { result ≤ most_log_bytes }
    {
        match self {
            Limits::Usual => 201_326_592,
            Limits::Large => self.bytes(),
        }
    }

    /// How many sectors a device has at most.
    pub fn sectors(self) -> u32
        ensures value { result ≡ sector_limit self }
        ensures some { 1 ≤ result }
        ensures most { result ≤ most_sectors }
    {
        match self {
            Limits::Usual => 16_384,
            Limits::Large => 33_554_432,
        }
    }
}
