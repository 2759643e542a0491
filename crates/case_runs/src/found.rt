//! The failing cases of some cuts, with some checkers.

ghost use Rattle.std.specs.Prelude.{◌≡◌, ◌≤◌, length, All, IfOk, IfErr};
ghost use Rattle.checker.specs.Checker.{AreFor};
ghost use Rattle.losses.specs.FoundCases.{cases_in, most_cases};
ghost use Rattle.case_runs.specs.Found.{AreFoundIn, StopsIn};

use crate::gate::CaseGate;
use crate::rounds::explored;
use crate::walk::walk;
use crate::work::CaseWork;
use checker::Checker;
use epochs::{By, Plan};
use logfmt::Log;
use losses::found::{CutFound, Losses};
use std::alloc::{AllocError, AllocFailed, Global};
use std::thread::Threads;

/// Why the cases weren't found.
#[derive(Clone, Copy, Debug)]
pub enum SearchFault {
    /// Memory was refused.
    Memory,
    /// With the cases of this cut there were more than `MOST_CASES`.
    TooMany(u32),
}

impl From<AllocError> for SearchFault {
    ghost use Rattle.case_runs.specs.declared.found.SearchFault.TheVariants.{Memory};

    ghost from_gives = { λ _ e. e ≡ Memory };

    fn from(_error: AllocError) -> SearchFault {
        SearchFault::Memory
    }
}

impl<T: Drop> From<AllocFailed<T>> for SearchFault {
    ghost use Rattle.case_runs.specs.declared.found.SearchFault.TheVariants.{Memory};

    ghost from_gives = { λ _ e. e ≡ Memory };

    fn from(_error: AllocFailed<T>) -> SearchFault {
        SearchFault::Memory
    }
}

/// The failing cases of some cuts of a log, with each of some checkers, by cut and then by checker, found by as many workers as are asked
/// for. The caller is one of them, and each other one has a thread of its own, where one can be made. How many there are changes nothing of
/// what is found. The gate is called at each run and at each case.
///
/// # Errors
///
/// Memory was refused, or there were more than `MOST_CASES` cases.
pub fn find_failing<G: CaseGate + Sync, R: Threads + Sync>(
    rt: &R,
    alloc: Global,
    gate: &G,
    plan: &Plan<'_>,
    log: &Log,
    way: By,
    cuts: &[u32],
    checkers: &[Checker<'_>],
    asked: Losses,
    workers: u32,
) -> Result<Vec<CutFound>, SearchFault>
    requires plan { plan.now.log ≡ log.now }
    requires cuts { All (λ cut. cut ≤ length log.now.entries) cuts.now }
    requires device { AreFor log.now.sectors checkers.now }
    ensures found { IfOk result (λ found. AreFoundIn asked log.now way cuts.now checkers.now found.items) }
    ensures few { IfOk result (λ found. cases_in found.items ≤ most_cases) }
    ensures refused { IfErr result (StopsIn asked log.now way cuts.now checkers.now) }
{
    let work = CaseWork {
        plan,
        log,
        way,
        checkers,
        asked,
        first: false,
    };
    let begun = explored(rt, alloc, gate, &work, cuts, workers as usize)?;
    let mut found = Vec::new(alloc);
    walk(alloc, gate, &work, cuts, begun, &mut found)?;
    Ok(found)
}
