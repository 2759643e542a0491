//! Why a text of records is refused.

ghost use Rattle.std.specs.Prelude.{◌≡◌};
ghost use Rattle.known_text.specs.declared.fault.KnownCause.TheVariants as causes;

/// Why a text of records is refused.
#[derive(Clone, Copy, Debug, PartialEq, Eq)]
pub enum KnownCause {
    /// A line doesn't go on as a text of records does, isn't there whole, or is no record of the log (17).
    Line,
    /// The number of the inputs is another one, or a later head (18).
    Other,
    /// Memory was refused.
    Memory,
}

/// A refusal of a text of records.
#[derive(Clone, Copy, Debug)]
pub struct KnownFault {
    pub cause: KnownCause,
    /// The number of the line, from 1; 0 for want of memory.
    pub line: u32,
}

/// Want of memory.
pub(crate) const MEMORY: KnownFault = KnownFault {
    cause: KnownCause::Memory,
    line: 0,
};

/// A line is none of a text of records.
pub(crate) fn unread(line: u32) -> KnownFault
    ensures { result ≡ record { cause = causes.Line; line = line } }
{
    KnownFault {
        cause: KnownCause::Line,
        line,
    }
}

/// A line of a head is another one.
pub(crate) fn other(line: u32) -> KnownFault
    ensures { result ≡ record { cause = causes.Other; line = line } }
{
    KnownFault {
        cause: KnownCause::Other,
        line,
    }
}
