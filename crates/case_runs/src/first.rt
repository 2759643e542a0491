//! The first failing case of some cuts, with some checkers.

ghost use Rattle.std.specs.Prelude.{◌≡◌, ◌≤◌, length, All, IfOk, IfErr};
ghost use Rattle.checker.specs.Checker.{AreFor};
ghost use Rattle.case_runs.specs.First.{IsSought, EndsIn};

use crate::found::SearchFault;
use crate::gate::CaseGate;
use crate::walk::walk;
use crate::work::CaseWork;
use checker::Checker;
use epochs::{By, Plan};
use logfmt::Log;
use losses::found::{CutFound, FirstCase, Losses};
use std::alloc::Global;

/// What is found where the first failing case is looked for.
#[derive(Drop)]
pub enum Sought {
    /// No case fails: what was found at each cut.
    Passing(Vec<CutFound>),
    /// The first one.
    Failing(FirstCase),
}

/// The first failing case of some cuts of a log, with each of some checkers, by cut and then by checker: no case after it is looked for.
/// Where none fails, what `find_failing` answers. The gate is called at each run and at each case.
///
/// # Errors
///
/// Memory was refused, or the first `MOST_CASES` cases pass, and there are more.
pub fn find_first<G: CaseGate>(
    alloc: Global,
    gate: &G,
    plan: &Plan<'_>,
    log: &Log,
    way: By,
    cuts: &[u32],
    checkers: &[Checker<'_>],
    asked: Losses,
) -> Result<Sought, SearchFault>
    requires plan { plan.now.log ≡ log.now }
    requires cuts { All (λ cut. cut ≤ length log.now.entries) cuts.now }
    requires device { AreFor log.now.sectors checkers.now }
    ensures found { IfOk result (IsSought asked log.now way cuts.now checkers.now) }
    ensures refused { IfErr result (EndsIn asked log.now way cuts.now checkers.now) }
{
    let work = CaseWork {
        plan,
        log,
        way,
        checkers,
        asked,
        first: true,
    };
    let mut found = Vec::new(alloc);
    match walk(alloc, gate, &work, cuts, Vec::new(alloc), &mut found)? {
        None => Ok(Sought::Passing(found)),
        Some(first) => Ok(Sought::Failing(first)),
    }
}
