//! Texts of cases in the order of their cuts.

ghost use Rattle.std.specs.Prelude.{ℕ, ◌≡◌, ◌≢◌, ◌+◌, ◌<◌, ◌≤◌, ◌^◌, ◌↔◌, ◌++◌, ◌∷◌, [], All, IfOk, IsTrue, MatchOption, OnOk, length, map, string_bytes};
ghost use Rattle.std.specs.List.Sorted.{IsPermutation, IsNonDecreasingBy, IsStableByKey};
ghost use Rattle.std.specs.Ordering.{nat_cmp};
ghost use Rattle.join.specs.CaseTexts.{first_of, last_of};
ghost use Rattle.join.specs.CaseJoining.{IsOfCaseRun, all_cases, run_text};
ghost use Rattle.join.specs.CaseRows.{IsApartAt, IsCasesRow, IsForeignAt, IsManyAt, IsSmallPart, NoneIsApart, NoneIsForeign, RowHasAllCuts, RowLacksCuts, WhyNoCasesRow};
ghost use Rattle.losses.specs.FoundCases.{most_cases};

use crate::case_parts::fault::CasesFault;
use crate::case_parts::heading::{head_between, head_text};
use crate::case_parts::judging::MOST_CASES;
use crate::case_parts::part::CasePart;
use crate::case_parts::totals::{first_of, last_of};
use crate::fault::JoinFault;
use crate::row::apart;
use base::causes::JoinCause;
use std::alloc::{AllocError, Global};

/// What a text says of its run: the number of the inputs, and its options and programs but for the range.
fn run_text(alloc: Global, part: &CasePart<'_>) -> Result<String, AllocError>
    ensures { IfOk result (λ out. string_bytes out ≡ run_text part.now) }
{
    let head = head_between(alloc, &part.head, None, None)?;
    head_text(alloc, part.inputs, &head, part.asked)
}

/// Whether two texts are of one run.
fn is_alike(alloc: Global, run: &CasePart<'_>, part: &CasePart<'_>) -> Result<bool, AllocError>
    ensures { IfOk result (λ is. IsTrue is ↔ IsOfCaseRun run.now part.now) }
{
    let said = run_text(alloc, run)?;
    let other = run_text(alloc, part)?;
    Ok(other.as_str() == said.as_str())
}

/// The place of the first text that is of another run than the first.
#[tactic(auto, using(crate::proofs::CaseRowed::none_alike, crate::proofs::CaseRowed::alike_more, crate::proofs::CaseRowed::all_alike, crate::proofs::CaseRowed::foreign_found, crate::proofs::CaseRowed::there))]
pub(crate) fn first_foreign(
    alloc: Global,
    parts: &[CasePart<'_>],
) -> Result<Option<usize>, AllocError>
    requires { 0 < length parts.now }
    ensures { IfOk result (λ found. MatchOption found (NoneIsForeign parts.now) (λ place. IsForeignAt parts.now place)) }
{
    for place in 0..parts.len() {
        if !is_alike(alloc, &parts[0], &parts[place])? {
            return Ok(Some(place));
        }
    }
    Ok(None)
}

/// Puts texts into the order of their first cuts. Those that begin alike keep their order.
pub(crate) fn put_in_order(parts: &mut Vec<CasePart<'_>>) -> Result<(), AllocError>
    ensures order { IsPermutation parts.old.items parts.new.items }
    ensures rising { OnOk result (IsNonDecreasingBy (λ r. first_of r.head) parts.new.items) }
    ensures stable { OnOk result (IsStableByKey (λ r. first_of r.head) nat_cmp parts.old.items parts.new.items) }
{
    parts.sort_by_key(|part| first_of(&part.head))?;
    Ok(())
}

/// Where the text after one has to begin.
fn end_of(part: &CasePart<'_>) -> u64
    requires { IsSmallPart part.now }
    ensures { result ≡ last_of part.now.head + 1 }
{
    last_of(&part.head) + 1
}

/// The first text in a row that doesn't begin right after the one before it ends, as its refusal.
#[tactic(auto, using(crate::proofs::CaseRowed::none_joined, crate::proofs::CaseRowed::joined_more, crate::proofs::CaseRowed::all_joined, crate::proofs::CaseRowed::apart_found, crate::proofs::CaseRowed::there))]
pub(crate) fn first_apart(parts: &[CasePart<'_>]) -> Option<JoinFault>
    requires { All IsSmallPart parts.now }
    ensures { MatchOption result (NoneIsApart parts.now) (λ fault. IsApartAt parts.now fault) }
{
    for place in 1..parts.len() {
        let left = &parts[place - 1];
        let right = &parts[place];
        let end = end_of(left);
        let start = first_of(&right.head);
        if end != start {
            return Some(apart(end, start, right.file));
        }
    }
    None
}

/// How many cases a text has.
fn cases_of(part: &CasePart<'_>) -> u64
    requires { IsSmallPart part.now }
    ensures value { result ≡ part.now.totals.cases }
    ensures few { result ≤ most_cases }
{
    part.totals.cases
}

/// The file of the first text with which there are more cases than a run may have.
#[tactic(auto, using(crate::proofs::CaseRowed::many_found, crate::proofs::CaseRowed::cases_more, crate::proofs::CaseRowed::none_many))]
pub(crate) fn first_many(parts: &[CasePart<'_>]) -> Option<u32>
    requires { All IsSmallPart parts.now }
    ensures { MatchOption result (all_cases parts.now ≤ most_cases) (λ file. IsManyAt parts.now file) }
{
    let mut cases: u64 = 0;
    for part in parts {
        cases += cases_of(part);
        if cases > MOST_CASES {
            return Some(part.file);
        }
    }
    None
}

/// The file at which cuts of the log are missing: that of the first text of a row where it doesn't begin at cut 0, and else a file after
/// all these where the last one ends before the last cut.
#[tactic(auto, using(crate::proofs::CaseRowed::there, crate::proofs::CaseJoins::first_lacks, crate::proofs::CaseJoins::last_lacks, crate::proofs::CaseJoins::none_lacks))]
fn missing_end(parts: &[CasePart<'_>]) -> Option<u32>
    requires some { 0 < length parts.now }
    requires few { length parts.now ≤ 4096 }
    ensures { MatchOption result (RowHasAllCuts parts.now) (λ file. RowLacksCuts parts.now file) }
{
    let first = &parts[0];
    let last = &parts[parts.len() - 1];
    if first_of(&first.head) > 0 {
        return Some(first.file);
    }
    if last_of(&last.head) != u64::from(last.head.entries) {
        return Some(parts.len() as u32);
    }
    None
}

/// The refusal of a row that is to have all cuts of its log, and hasn't.
#[tactic(auto, using(crate::proofs::CaseJoins::row_joined, crate::proofs::CaseJoins::part_joined, crate::proofs::CaseJoins::row_lacks))]
fn end_fault(part: bool, parts: &[CasePart<'_>]) -> Option<CasesFault>
    requires some { 0 < length parts.now }
    requires few { length parts.now ≤ 4096 }
    requires joined { NoneIsApart parts.now }
    requires cases { all_cases parts.now ≤ most_cases }
    ensures { MatchOption result (IsCasesRow part parts.now) (λ fault. WhyNoCasesRow part parts.now fault) }
{
    if part {
        return None;
    }
    match missing_end(parts) {
        Some(file) => Some(CasesFault::Part(JoinFault {
            cause: JoinCause::Gap,
            file,
        })),
        None => None,
    }
}

/// Why texts in the order of their cuts aren't joined; `part` says whether they may have a part of the cuts alone.
#[tactic(auto, using(crate::proofs::CaseJoins::row_breaks, crate::proofs::CaseJoins::row_many))]
pub(crate) fn row_fault(part: bool, parts: &[CasePart<'_>]) -> Option<CasesFault>
    requires some { 0 < length parts.now }
    requires few { length parts.now ≤ 4096 }
    requires small { All IsSmallPart parts.now }
    ensures { MatchOption result (IsCasesRow part parts.now) (λ fault. WhyNoCasesRow part parts.now fault) }
{
    if let Some(fault) = first_apart(parts) {
        return Some(CasesFault::Part(fault));
    }
    match first_many(parts) {
        Some(file) => Some(CasesFault::TooMany(file)),
        None => end_fault(part, parts),
    }
}
