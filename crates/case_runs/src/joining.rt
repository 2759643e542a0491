//! Pieces, put together to what was found at cuts with checkers.

ghost use Rattle.std.specs.Prelude.{◌≡◌, ◌≤◌, ◌<◌, ◌+◌, ◌^◌, ◌++◌, ◌∷◌, [], length, map, slice_get, Some, All, IfOk, IfErr, OnOk};
ghost use Rattle.checker.specs.Checker.{AreFor};
ghost use Rattle.losses.specs.FoundCases.{failing_value, most_cases};
ghost use Rattle.case_runs.specs.Found.{IsFoundAt, StopsAtOne};
ghost use Rattle.case_runs.specs.Pieces.{subject_in, start_case, IsStart, StartsSo, IsStep, RanFrom, later, JoinsSo};
ghost use Rattle.case_runs.specs.Shares.{cut_in, AreAllOf, IsBegun};

use crate::found::SearchFault;
use crate::gate::CaseGate;
use crate::pieces::{Begun, Ran, Start, Subtree, run_start};
use crate::rounds::whole_piece;
use crate::work::CaseWork;
use cases::{Cut, Search};
use checker::Checker;
use losses::found::{CaseFindings, FailingCase};
use std::alloc::{AllocError, Global};

/// Appends failing cases that come after `leaves` others.
fn put_after(
    out: &mut Vec<FailingCase>,
    leaves: usize,
    failing: Vec<FailingCase>,
) -> Result<(), AllocError>
    requires { All (λ f. leaves + f.number < 2 ^ 64) failing.items }
    ensures { OnOk result (map failing_value out.new.items ≡ map failing_value out.old.items ++ map (later leaves) (map failing_value failing.items)) }
{
    for case in failing {
        let FailingCase {
            number,
            outcome,
            sets,
        } = case;
        out.push(FailingCase {
            number: leaves + number,
            outcome,
            sets,
        })?;
    }
    Ok(())
}

/// Puts together what was found and what was found after it, if these have no more than `left` leaves.
fn put_found(found: &mut CaseFindings, more: CaseFindings, left: u32) -> Result<bool, AllocError>
    requires { All (λ f. f.number < more.cases) more.failing.items }
    ensures { IfOk result (JoinsSo found.old more left found.new) }
{
    let cases = found.cases.saturating_add(more.cases);
    if cases > left as usize {
        return Ok(false);
    }
    put_after(&mut found.failing, found.cases, more.failing)?;
    found.torn_beyond = found.torn_beyond.saturating_add(more.torn_beyond);
    found.lost_beyond = found.lost_beyond.saturating_add(more.lost_beyond);
    found.cases = cases;
    Ok(true)
}

/// What a run finds below a start, up to a limit of leaves.
fn ran_below<G: CaseGate>(
    alloc: Global,
    gate: &G,
    work: &CaseWork<'_>,
    number: u32,
    program: usize,
    checker: &Checker<'_>,
    start: &Start,
    most: u32,
) -> Result<Ran, AllocError>
    requires device { AreFor work.now.log.now.sectors work.now.checkers.now }
    requires cut { number ≤ length work.now.log.now.entries }
    requires checker { slice_get work.now.checkers.now program ≡ Some checker.now }
    requires start { IsStart (cut_in work.now number) start.now }
    ensures { IfOk result (RanFrom work.now.asked (cut_in work.now number) checker.now most (start_case work.now.asked.tears (cut_in work.now number) start.now ∷ [])) }
{
    let cut = Cut::new(alloc, work.log, work.way, number)?;
    let context = work.context(number);
    let asked = work.asked;
    let mut search = Search::new(alloc, &cut, asked.tears, asked.torn, asked.lost)?;
    run_start(
        alloc,
        gate,
        &mut search,
        &cut,
        context,
        checker,
        asked,
        start,
        most,
    )
}

/// What was found of a piece, or is found now, up to a limit of leaves.
fn found_of<G: CaseGate>(
    alloc: Global,
    gate: &G,
    work: &CaseWork<'_>,
    number: u32,
    program: usize,
    checker: &Checker<'_>,
    piece: Subtree,
    most: u32,
) -> Result<CaseFindings, AllocError>
    requires device { AreFor work.now.log.now.sectors work.now.checkers.now }
    requires cut { number ≤ length work.now.log.now.entries }
    requires checker { slice_get work.now.checkers.now program ≡ Some checker.now }
    requires start { StartsSo (cut_in work.now number) piece }
    ensures { IfOk result (λ found. IsStep (subject_in work.now.asked (cut_in work.now number) checker.now) work.now.asked.tears (cut_in work.now number) piece found most) }
{
    match piece {
        Subtree::Told(found) => Ok(found),
        Subtree::Open(start) => {
            let ran = ran_below(alloc, gate, work, number, program, checker, &start, most)?;
            Ok(ran.found)
        }
    }
}

/// What pieces of a cut and a checker come to, if they have no more leaves than a limit.
pub(crate) fn joined_at<G: CaseGate>(
    alloc: Global,
    gate: &G,
    work: &CaseWork<'_>,
    number: u32,
    program: usize,
    checker: &Checker<'_>,
    pieces: Vec<Subtree>,
    left: u32,
) -> Result<CaseFindings, SearchFault>
    requires device { AreFor work.now.log.now.sectors work.now.checkers.now }
    requires cut { number ≤ length work.now.log.now.entries }
    requires checker { slice_get work.now.checkers.now program ≡ Some checker.now }
    requires pieces { AreAllOf work.now number program pieces.items }
    requires few { left ≤ most_cases }
    ensures found { IfOk result (IsFoundAt work.now.asked (cut_in work.now number) checker.now) }
    ensures few { IfOk result (λ found. found.cases ≤ left) }
    ensures many { IfErr result (StopsAtOne work.now.asked (cut_in work.now number) checker.now left) }
{
    let mut found = CaseFindings {
        cases: 0,
        torn_beyond: 0,
        lost_beyond: 0,
        failing: Vec::new(alloc),
    };
    for piece in pieces {
        let most = left + 1 - found.cases as u32;
        let more = found_of(alloc, gate, work, number, program, checker, piece, most)?;
        if !put_found(&mut found, more, left)? {
            return Err(SearchFault::TooMany(number));
        }
    }
    Ok(found)
}

/// The pieces of a cut and a checker: what was begun, if it is the last of these, or all choices.
pub(crate) fn pieces_at(
    alloc: Global,
    work: &CaseWork<'_>,
    begun: &mut Vec<Begun>,
    number: u32,
    program: usize,
) -> Result<Vec<Subtree>, AllocError>
    requires { All (IsBegun work.now) begun.old.items }
    ensures begun { All (IsBegun work.now) begun.new.items }
    ensures pieces { IfOk result (λ pieces. AreAllOf work.now number program pieces.items) }
{
    if let Some(one) = begun.pop() {
        if one.cut == number && one.program == program {
            return Ok(one.pieces);
        }
    }
    whole_piece(alloc, work, number, program)
}

/// What was begun, the last one first.
pub(crate) fn reversed(
    alloc: Global,
    work: &CaseWork<'_>,
    begun: Vec<Begun>,
) -> Result<Vec<Begun>, AllocError>
    requires { All (IsBegun work.now) begun.items }
    ensures { IfOk result (λ turned. All (IsBegun work.now) turned.items) }
{
    let _way = work.way;
    let mut begun = begun;
    let mut out = Vec::new(alloc);
    'turning: while let Some(one) = begun.pop() {
        out.push(one)?;
    }
    Ok(out)
}
