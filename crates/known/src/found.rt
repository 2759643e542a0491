//! What records tell of the cases of a cut.

ghost use Rattle.std.specs.Prelude.{◌≡◌, ◌&&◌, ◌||◌, nat_le, nat_lt, false};
ghost use Rattle.std.specs.Option.{option_map_or};
ghost use Rattle.known.specs.Leaves.{is_complete};

use crate::run::RunEnd;

/// Where the search of a cut is to end before it has gone through all cases.
#[derive(Clone, Copy)]
pub struct Stops {
    /// Whether it is to end right after the first told leaf that fails.
    pub at_failing: bool,
    /// How many told leaves and open cases it is to end after.
    pub cases: Option<u32>,
}

/// A told leaf on whose images the program fails.
#[derive(Drop)]
pub struct KnownFailing {
    /// Its number among the told leaves of its cut, from 0.
    pub number: usize,
    /// How the program ends on each of its images.
    pub end: RunEnd,
    /// What may become of each part at risk.
    pub sets: Vec<u16>,
}

/// A case whose representative no record tells.
#[derive(Drop)]
pub struct OpenCase {
    /// What may become of each part at risk.
    pub sets: Vec<u16>,
}

/// What was found at a cut.
#[derive(Drop)]
pub struct KnownAt {
    pub cut: u32,
    /// How many told leaves there are.
    pub told: usize,
    /// The told leaves that fail, in the order of the tree.
    pub failing: Vec<KnownFailing>,
    /// The open cases, in the order of the tree.
    pub open_cases: Vec<OpenCase>,
    /// How many cases were left out, since more parts are torn than is asked.
    pub torn_beyond: u64,
    /// How many other cases were left out, since more parts are lost than is asked.
    pub lost_beyond: u64,
    /// Whether the search ended with cases to which it hadn't come.
    pub stopped: bool,
}

/// Whether the search of a cut is to end, by how many leaves it came to, and how many of them are told and fail.
pub(crate) fn stops_after(stops: Stops, count: usize, failures: usize) -> bool
    ensures { result ≡ ((stops.at_failing && nat_lt 0 failures) || option_map_or (λ n. nat_le n count) stops.cases false) }
{
    if stops.at_failing && failures > 0 {
        return true;
    }
    match stops.cases {
        Some(most) => most as usize <= count,
        None => false,
    }
}

/// Whether nothing is open, left out or pending at a cut.
pub fn is_complete(found: &KnownAt) -> bool
    ensures { result ≡ is_complete found.now }
{
    if found.open_cases.len() > 0 || found.stopped {
        return false;
    }
    found.torn_beyond == 0 && found.lost_beyond == 0
}
