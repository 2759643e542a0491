//! The walk over cuts, with each checker: to the end, or to the first failing case.

ghost use Rattle.std.specs.Prelude.{◌≡◌, ◌≤◌, [], length, slice_get, Some, All, IfOk, IfErr, OnOk, IsTrue, IsFalse, MatchOption};
ghost use Rattle.checker.specs.Checker.{AreFor};
ghost use Rattle.losses.specs.FoundCases.{cases_in, most_cases};
ghost use Rattle.case_runs.specs.Judges.{program_of};
ghost use Rattle.case_runs.specs.Found.{AreFoundIn, StopsAtOne, StopsAt, StopsIn};
ghost use Rattle.case_runs.specs.First.{AllPass, IsFirstFailing, EndsIn};
ghost use Rattle.case_runs.specs.Shares.{cut_in, IsBegun};
ghost use Rattle.case_runs.specs.Walk.{SeeksTo, MeetsOne, MeetsAt, TakesAt, EndsAtOne, EndsAt};

use crate::found::SearchFault;
use crate::gate::{CaseGate, Watched};
use crate::joining::{joined_at, pieces_at, reversed};
use crate::judge::CaseJudge;
use crate::pieces::Begun;
use crate::work::CaseWork;
use cases::{Cut, Judge, Search};
use checker::Checker;
use losses::found::{CaseFindings, CutFound, FailingCase, FirstCase, MOST_CASES};
use std::alloc::{AllocError, Global};

/// What is met at a cut with a checker.
#[derive(Drop)]
pub(crate) enum Met {
    /// All its leaves.
    All(CaseFindings),
    /// The first one that fails, where that alone is looked for.
    First(FailingCase),
}

/// What is met at a cut with each checker.
#[derive(Drop)]
pub(crate) enum MetAt {
    /// All its leaves.
    All(CutFound),
    /// The first one that fails, where that alone is looked for.
    First(FirstCase),
}

/// Goes on with a search to the first leaf on which the checker fails, or to as many leaves as are wanted, and tells the judge of each.
fn run_to_failing<G: CaseGate>(
    search: &mut Search<'_>,
    judge: &mut Watched<'_, '_, '_, G>,
    most: u32,
) -> Result<(), AllocError>
    requires { judge.old.leaves ≡ [] }
    ensures { OnOk result (SeeksTo (program_of judge.old.checker judge.old.context) search.old search.new judge.new.leaves most) }
{
    for count in 0..most {
        if !search.next(judge)? {
            return Ok(());
        }
        judge.tell(search.cut(), search.sets())?;
        let failures = judge.judge().failures();
        if failures > 0 {
            return Ok(());
        }
    }
    Ok(())
}

/// The first leaf of a cut on which a checker fails, or all its leaves, if these are some of the first `left`.
fn first_with<G: CaseGate>(
    alloc: Global,
    gate: &G,
    work: &CaseWork<'_>,
    number: u32,
    program: usize,
    checker: &Checker<'_>,
    left: u32,
) -> Result<Met, SearchFault>
    requires device { AreFor work.now.log.now.sectors work.now.checkers.now }
    requires cut { number ≤ length work.now.log.now.entries }
    requires checker { slice_get work.now.checkers.now program ≡ Some checker.now }
    requires few { left ≤ most_cases }
    requires first { IsTrue work.now.first }
    ensures met { IfOk result (MeetsOne work.now.first work.now.asked (cut_in work.now number) checker.now left) }
    ensures passing { IfErr result (EndsAtOne work.now.asked (cut_in work.now number) checker.now left) }
{
    let cut = Cut::new(alloc, work.log, work.way, number)?;
    let context = work.context(number);
    let asked = work.asked;
    let mut search = Search::new(alloc, &cut, asked.tears, asked.torn, asked.lost)?;
    let mut judge = Watched::new(CaseJudge::new(alloc, checker, context)?, gate);
    run_to_failing(&mut search, &mut judge, left + 1)?;
    let mut found = judge.into_findings(&search);
    if found.cases > left as usize {
        return Err(SearchFault::TooMany(number));
    }
    match found.failing.pop() {
        Some(case) => Ok(Met::First(case)),
        None => Ok(Met::All(found)),
    }
}

/// What is met at a cut with a checker, of those cases that may still be met. What was begun there is gone on with.
fn met_with<G: CaseGate>(
    alloc: Global,
    gate: &G,
    work: &CaseWork<'_>,
    number: u32,
    program: usize,
    checker: &Checker<'_>,
    begun: &mut Vec<Begun>,
    left: u32,
) -> Result<Met, SearchFault>
    requires device { AreFor work.now.log.now.sectors work.now.checkers.now }
    requires cut { number ≤ length work.now.log.now.entries }
    requires checker { slice_get work.now.checkers.now program ≡ Some checker.now }
    requires begun { All (IsBegun work.now) begun.old.items }
    requires few { left ≤ most_cases }
    ensures begun { All (IsBegun work.now) begun.new.items }
    ensures met { IfOk result (MeetsOne work.now.first work.now.asked (cut_in work.now number) checker.now left) }
    ensures many { IfErr result (StopsAtOne work.now.asked (cut_in work.now number) checker.now left) }
    ensures passing { IsTrue work.now.first → IfErr result (EndsAtOne work.now.asked (cut_in work.now number) checker.now left) }
{
    if work.first {
        return first_with(alloc, gate, work, number, program, checker, left);
    }
    let pieces = pieces_at(alloc, work, begun, number, program)?;
    let found = joined_at(alloc, gate, work, number, program, checker, pieces, left)?;
    Ok(Met::All(found))
}

/// What is met at a cut with each checker.
fn met_at<G: CaseGate>(
    alloc: Global,
    gate: &G,
    work: &CaseWork<'_>,
    checkers: &[Checker<'_>],
    number: u32,
    begun: &mut Vec<Begun>,
    left: &mut u32,
) -> Result<MetAt, SearchFault>
    requires checkers { work.now.checkers.now ≡ checkers.now }
    requires device { AreFor work.now.log.now.sectors work.now.checkers.now }
    requires cut { number ≤ length work.now.log.now.entries }
    requires begun { All (IsBegun work.now) begun.old.items }
    requires few { left.old ≤ most_cases }
    ensures begun { All (IsBegun work.now) begun.new.items }
    ensures met { IfOk result (MeetsAt work.now.first work.now.asked (cut_in work.now number) checkers.now left.old) }
    ensures taken { IfOk result (TakesAt left.old left.new) }
    ensures many { IfErr result (StopsAt work.now.asked (cut_in work.now number) checkers.now left.old) }
    ensures passing { IsTrue work.now.first → IfErr result (EndsAt work.now.asked (cut_in work.now number) checkers.now left.old) }
{
    let mut programs = Vec::new(alloc);
    for (program, checker) in checkers.iter().enumerate() {
        match met_with(alloc, gate, work, number, program, checker, begun, *left)? {
            Met::All(found) => {
                *left -= found.cases as u32;
                programs.push(found)?;
            }
            Met::First(case) => {
                return Ok(MetAt::First(FirstCase {
                    cut: number,
                    program,
                    case,
                }));
            }
        }
    }
    Ok(MetAt::All(CutFound {
        cut: number,
        programs,
    }))
}

/// Goes over cuts, with each checker. Appends what is found at each. Where the first failing case alone is looked for, it ends there, and
/// answers that case. What was begun is gone on with.
pub(crate) fn walk<G: CaseGate>(
    alloc: Global,
    gate: &G,
    work: &CaseWork<'_>,
    cuts: &[u32],
    begun: Vec<Begun>,
    out: &mut Vec<CutFound>,
) -> Result<Option<FirstCase>, SearchFault>
    requires device { AreFor work.now.log.now.sectors work.now.checkers.now }
    requires cuts { All (λ cut. cut ≤ length work.now.log.now.entries) cuts.now }
    requires begun { All (IsBegun work.now) begun.items }
    requires out { out.old.items ≡ [] }
    ensures found { IsFalse work.now.first → OnOk result (AreFoundIn work.now.asked work.now.log.now work.now.way cuts.now work.now.checkers.now out.new.items) }
    ensures few { IsFalse work.now.first → OnOk result (cases_in out.new.items ≤ most_cases) }
    ensures first { IsTrue work.now.first → IfOk result (λ met. MatchOption met
        (AllPass work.now.asked work.now.log.now work.now.way cuts.now work.now.checkers.now out.new.items)
        (IsFirstFailing work.now.asked work.now.log.now work.now.way cuts.now work.now.checkers.now)) }
    ensures refused { IfErr result (StopsIn work.now.asked work.now.log.now work.now.way cuts.now work.now.checkers.now) }
    ensures passing { IsTrue work.now.first → IfErr result (EndsIn work.now.asked work.now.log.now work.now.way cuts.now work.now.checkers.now) }
{
    let mut begun = reversed(alloc, work, begun)?;
    let mut left = MOST_CASES;
    for number in cuts {
        match met_at(
            alloc,
            gate,
            work,
            work.checkers,
            *number,
            &mut begun,
            &mut left,
        )? {
            MetAt::All(found) => out.push(found)?,
            MetAt::First(first) => return Ok(Some(first)),
        }
    }
    Ok(None)
}
