//! The flushes that are added to a log.

ghost use Rattle.std.specs.Prelude.{◌≤◌};

/// The entries before which a flush is added to a log, in the order in which they were given, at most 64
/// (docs/CRASH-MODEL.md, Added flushes).
#[derive(Clone, Copy)]
pub struct Flushes {
    /// The entries. Those after the first `count` mean nothing.
    pub entries: [u32; 64],
    /// How many there are.
    pub count: u8,
    pub ghost few: { count ≤ 64 },
}

impl Flushes {
    /// No flush is added.
    pub const NONE: Flushes = Flushes {
        entries: [0; 64],
        count: 0,
    };
}
