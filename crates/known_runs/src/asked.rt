//! What is asked of records of a program of the user's, and what is answered.

use base::refusal::Refusal;
use known::Stops;
use request::facts::{LeftOut, Recording};
use request::{AnyLosses, Options};

/// What is asked of records of a program of the user's.
#[derive(Clone, Copy)]
pub struct KnownQuestion<'a> {
    /// The log, over what the device held before entry 0.
    pub recording: &'a Recording<'a>,
    /// The bytes of the text of records.
    pub records: &'a [u8],
    /// What is asked of losses.
    pub losses: AnyLosses,
    /// Where the search of a cut is to end.
    pub stops: Stops,
    /// The options.
    pub options: &'a Options,
}

/// What is answered.
#[derive(Drop)]
pub struct KnownTold {
    /// The text.
    pub bytes: Vec<u8>,
    /// 1 where something fails, else 0 where nothing is open, left out or pending, and else 3.
    pub status: u8,
    /// How many cases are open.
    pub untold: u64,
    /// At how many cuts the search was stopped.
    pub stopped: u64,
    /// How many cases were left out, where none that is told fails.
    pub left_out: Option<LeftOut>,
    /// Whether there are records, and in none of them the program looked at a sector that the log writes.
    pub blind: bool,
}

/// Why nothing is told.
#[derive(Clone, Copy)]
pub enum KnownRunFault {
    /// The log, the number of its images or that of its cases is refused, or memory was.
    Refused(Refusal),
    /// This line of the text is none of records of the log; 0 where the text has more than 1 GiB.
    Line(u64),
    /// This line of a head is another one than it has to be.
    Other(u64),
    /// The records at these two lines contradict each other.
    Contradiction { earlier: u64, later: u64 },
}
