//! The failing cases of a run of any number of losses, as they are found (docs/CRASH-MODEL.md, Any number of losses).

use interp::Outcome;

/// How many cases are met at most, of all cuts and checkers together.
pub const MOST_CASES: u32 = 16_777_216;

/// What is asked: whether parts may be torn, how many at most, and, if that is bounded, how many may not be whole.
#[derive(Clone, Copy)]
pub struct Losses {
    pub tears: bool,
    pub torn: u32,
    pub lost: Option<u32>,
}

/// A leaf on whose images a checker fails.
#[derive(Drop)]
pub struct FailingCase {
    /// Its number among the leaves of its cut, from 0.
    pub number: usize,
    /// What the checker ends in on each of its images.
    pub outcome: Outcome,
    /// What may become of each part at risk.
    pub sets: Vec<u16>,
}

/// What was found at a cut with a checker.
#[derive(Drop)]
pub struct CaseFindings {
    /// How many leaves there are.
    pub cases: usize,
    /// How many cases were left out, since more parts are torn than is asked.
    pub torn_beyond: u64,
    /// How many others were, since more are lost.
    pub lost_beyond: u64,
    /// The leaves that fail, in the order of the tree.
    pub failing: Vec<FailingCase>,
}

/// What was found at a cut, with each checker in order.
#[derive(Drop)]
pub struct CutFound {
    pub cut: u32,
    pub programs: Vec<CaseFindings>,
}

/// The first case on which a checker fails: by cut, by checker, and in the order of the tree.
#[derive(Drop)]
pub struct FirstCase {
    pub cut: u32,
    /// The number of the checker.
    pub program: usize,
    /// The case, with its number among the leaves of its cut.
    pub case: FailingCase,
}
