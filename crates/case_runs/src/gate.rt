//! A gate, which learns how far a search for cases is.

ghost use Rattle.std.specs.Prelude.{◌≡◌, map, length};
ghost use Rattle.losses.specs.FoundCases.{failing_value};
ghost use Rattle.case_runs.specs.Leaves.{failing_from};

use crate::judge::CaseJudge;
use cases::{Cut, Judge, KnownRows, Parted, Search};
use losses::found::CaseFindings;
use std::alloc::AllocError;
use std::marker::Model;

/// What workers call as they go, at each run of a checker and at each case. It changes nothing of what is found.
pub trait CaseGate {
    /// Is called when a checker is run on the image of a case.
    fn run(&self);

    /// Is called when a case is found.
    fn case(&self);
}

/// A checker as a judge, with a gate that is called at its runs and leaves.
#[derive(Drop)]
pub(crate) struct Watched<'c, 'p, 'g, G> {
    judge: CaseJudge<'c, 'p>,
    gate: &'g G,
}

impl<'c, 'p, 'g, G> Model for Watched<'c, 'p, 'g, G> {
    ghost use Rattle.case_runs.specs.Leaves.{JudgeValue};

    ghost Value = { JudgeValue };

    ghost view = { λ w. w.judge };
}

impl<'c, 'p, 'g, G: CaseGate> Watched<'c, 'p, 'g, G> {
    /// A judge with its gate.
    pub(crate) fn new(judge: CaseJudge<'c, 'p>, gate: &'g G) -> Watched<'c, 'p, 'g, G>
        ensures { result ≡ judge.entry }
    {
        Watched { judge, gate }
    }

    /// The judge.
    pub(crate) fn judge(&self) -> &CaseJudge<'c, 'p>
        ensures { result.now ≡ self.now }
    {
        &self.judge
    }

    /// Returns what a search found by this judge.
    pub(crate) fn into_findings(self, search: &Search<'_>) -> CaseFindings
        ensures cases { result.cases ≡ length self.entry.leaves }
        ensures torn { result.torn_beyond ≡ search.now.torn_beyond }
        ensures lost { result.lost_beyond ≡ search.now.lost_beyond }
        ensures failing { map failing_value result.failing.items ≡ failing_from 0 self.entry.leaves }
    {
        let cases = self.judge.cases();
        CaseFindings {
            cases,
            torn_beyond: search.torn_beyond(),
            lost_beyond: search.lost_beyond(),
            failing: self.judge.into_failing(),
        }
    }
}

impl<'c, 'p, 'g, G: CaseGate> Judge for Watched<'c, 'p, 'g, G> {
    ghost use Rattle.case_runs.specs.Judges.{program_of};

    ghost program = { λ w. program_of w.checker w.context };

    ghost ending = { λ w. w.ending };

    ghost looked = { λ w. w.looked };

    ghost leaves = { λ w. w.leaves };

    fn look(&mut self, rows: &KnownRows<'_>, tears: bool, sets: &[u16]) -> Result<(), AllocError> {
        self.gate.run();
        self.judge.look(rows, tears, sets)
    }

    fn split(&self, rows: &mut KnownRows<'_>, sets: &[u16]) -> Result<Option<Parted>, AllocError> {
        self.judge.split(rows, sets)
    }

    fn tell(&mut self, cut: &Cut<'_>, sets: &[u16]) -> Result<(), AllocError> {
        self.gate.case();
        self.judge.tell(cut, sets)
    }
}
