//! The join of texts of cases.

ghost use Rattle.std.specs.Prelude.{ℕ, ◌≡◌, ◌<◌, ◌≤◌, ◌+◌, ◌^◌, ◌⊎◌, ◌↔◌, ◌++◌, ◌∷◌, [], All, IfErr, IfOk, IsTrue, MatchOption, OnOk, length, map, string_bytes};
ghost use Rattle.std.specs.List.{flat_map};
ghost use Rattle.base.specs.declared.causes.JoinCause.TheVariants as cause;
ghost use Rattle.join.specs.declared.case_parts.fault.CasesFault.TheVariants as refused;
ghost use Rattle.join.specs.Joining.{IsFirstLong, size_of};
ghost use Rattle.join.specs.CaseTexts.{NoCasesText, totals_line};
ghost use Rattle.join.specs.CaseReading.{IsCasesPart};
ghost use Rattle.join.specs.CaseJoining.{AreCasesParts, AreJoinedCases, HasFailing, IsFirstNone, IsTooLong, RefusesCases, all_totals, both_totals, have_all_cuts, joined_head, told_from, told_number, told_to};
ghost use Rattle.join.specs.CaseRows.{IsCasesRowText, IsCasesWritten, IsSmallPart, IsSortedCases, IsSortedFault, NoneIsForeign, WhyNoCases, WhyNoCasesRow};
ghost use Rattle.case_text.specs.Text.{are_all_cuts, cases_head};

use crate::case_parts::fault::CasesFault;
use crate::case_parts::heading::{head_between, head_text};
use crate::case_parts::part::{CasePart, read_text};
use crate::case_parts::row::{first_foreign, put_in_order, row_fault};
use crate::case_parts::totals::{CaseTotals, first_of, last_of, put_totals};
use crate::fault::{JoinFault, MEMORY_FAULT};
use crate::joining::{JoinedText, first_long};
use base::causes::JoinCause;
use case_text::are_all_cuts;
use std::alloc::{AllocError, Global};
use std::str;

/// What is read of a file.
#[tactic(auto, using(crate::proofs::CaseWholes::no_text_no_cases))]
fn part_of<'t>(alloc: Global, file: u32, bytes: &'t [u8]) -> Result<CasePart<'t>, JoinFault>
    requires { length bytes.now ≤ 2 ^ 30 }
    ensures part { IfOk result (λ part. IsCasesPart bytes.now part × (part.file ≡ file)) }
    ensures refused { IfErr result (λ f. (f ≡ record { cause = cause.Memory; file = 0 }) ⊎ ((f ≡ record { cause = cause.NotPart; file = file }) × NoCasesText bytes.now)) }
{
    let other = JoinFault {
        cause: JoinCause::NotPart,
        file,
    };
    let Ok(text) = str::from_utf8(bytes) else {
        return Err(other);
    };
    match read_text(alloc, file, text) {
        Ok(Some(part)) => Ok(part),
        Ok(None) => Err(other),
        Err(_error) => Err(MEMORY_FAULT),
    }
}

/// What is read of all files, in their order.
fn parts_of<'t>(alloc: Global, files: &'t [Vec<u8>]) -> Result<Vec<CasePart<'t>>, JoinFault>
    requires few { length files.now ≤ 4096 }
    requires small { All (λ f. length f.items ≤ 2 ^ 30) files.now }
    ensures parts { IfOk result (λ parts. AreCasesParts 0 (map (λ f. f.items) files.now) parts.items) }
    ensures refused { IfErr result (λ f. (f ≡ record { cause = cause.Memory; file = 0 }) ⊎ ((f.cause ≡ cause.NotPart) × IsFirstNone (map (λ f. f.items) files.now) f.file)) }
{
    let mut parts = Vec::new(alloc);
    for (number, file) in files.iter().enumerate() {
        let part = part_of(alloc, number as u32, file.as_slice())?;
        match parts.push(part) {
            Ok(()) => (),
            Err(_failed) => return Err(MEMORY_FAULT),
        }
    }
    Ok(parts)
}

/// What two texts come to together.
fn sum_of(totals: CaseTotals, other: CaseTotals) -> CaseTotals
    requires cuts { totals.cuts + other.cuts < 2 ^ 64 }
    requires cases { totals.cases + other.cases < 2 ^ 64 }
    requires failing { totals.failing + other.failing < 2 ^ 64 }
    ensures { result ≡ both_totals totals other }
{
    CaseTotals {
        cuts: totals.cuts + other.cuts,
        cases: totals.cases + other.cases,
        failing: totals.failing + other.failing,
        torn: totals.torn.saturating_add(other.torn),
        lost: totals.lost.saturating_add(other.lost),
    }
}

/// What all of them come to.
fn total_of(parts: &[CasePart<'_>]) -> CaseTotals
    requires few { length parts.now ≤ 4096 }
    requires small { All IsSmallPart parts.now }
    ensures { result ≡ all_totals parts.now }
{
    let mut totals = CaseTotals {
        cuts: 0,
        cases: 0,
        failing: 0,
        torn: 0,
        lost: 0,
    };
    for part in parts {
        totals = sum_of(totals, part.totals);
    }
    totals
}

/// Appends the lines of all.
fn put_all(out: &mut Vec<u8>, parts: &[CasePart<'_>]) -> Result<(), AllocError>
    ensures { OnOk result (out.new.items ≡ out.old.items ++ flat_map (λ r. r.lines) parts.now) }
{
    for part in parts {
        out.extend_from_slice(part.lines)?;
    }
    Ok(())
}

/// Whether a row has all cuts of the log, by its first and its last text.
fn have_all_cuts(first: &CasePart<'_>, last: &CasePart<'_>) -> bool
    ensures { result ≡ have_all_cuts first.now last.now }
{
    first_of(&first.head) == 0 && last_of(&last.head) == u64::from(last.head.entries)
}

/// The first and the last cut that the text of a row tells, and the number of its inputs: none where it has all cuts of the log.
fn told_range(first: &CasePart<'_>, last: &CasePart<'_>) -> (Option<u64>, Option<u64>, Option<u64>)
    ensures { result ≡ (told_from first.now last.now, told_to first.now last.now, told_number first.now last.now) }
{
    if have_all_cuts(first, last) {
        (None, None, None)
    } else {
        (first.head.cuts.from, last.head.cuts.to, first.inputs)
    }
}

/// What stands before the lines of texts in a row, and whether that is said of each cut of their log.
fn opening(
    alloc: Global,
    first: &CasePart<'_>,
    last: &CasePart<'_>,
) -> Result<(String, bool), AllocError>
    ensures text { IfOk result (λ out. string_bytes out.0 ≡ cases_head (told_number first.now last.now) (joined_head first.now last.now) first.now.asked) }
    ensures all { IfOk result (λ out. out.1 ≡ are_all_cuts (joined_head first.now last.now).cuts) }
{
    let (from, to, inputs) = told_range(first, last);
    let head = head_between(alloc, &first.head, from, to)?;
    let text = head_text(alloc, inputs, &head, first.asked)?;
    Ok((text, are_all_cuts(&head.cuts)))
}

/// The text of a row.
#[tactic(auto, using(crate::proofs::CaseJoins::written_found, crate::proofs::CaseRowed::there))]
fn row_text(alloc: Global, parts: &[CasePart<'_>]) -> Result<Vec<u8>, AllocError>
    requires some { 0 < length parts.now }
    requires few { length parts.now ≤ 4096 }
    requires small { All IsSmallPart parts.now }
    ensures { IfOk result (λ bytes. IsCasesWritten parts.now bytes.items) }
{
    let (front, all) = opening(alloc, &parts[0], &parts[parts.len() - 1])?;
    let mut end = String::new(alloc);
    put_totals(&mut end, all, total_of(parts))?;
    let mut out = front.into_bytes();
    put_all(&mut out, parts)?;
    out.extend_from_slice(end.as_bytes())?;
    Ok(out)
}

/// The text of texts in the order of their cuts, if they follow one another, have no more cases than a run, and have all cuts of the log or
/// may have a part of them.
fn join_row(alloc: Global, part: bool, parts: &[CasePart<'_>]) -> Result<JoinedText, CasesFault>
    requires some { 0 < length parts.now }
    requires few { length parts.now ≤ 4096 }
    requires small { All IsSmallPart parts.now }
    ensures joined { IfOk result (λ j. IsCasesRowText part parts.now j.bytes.items j.failing) }
    ensures refused { IfErr result (λ f. (f ≡ refused.Part (record { cause = cause.Memory; file = 0 })) ⊎ WhyNoCasesRow part parts.now f) }
{
    if let Some(fault) = row_fault(part, parts) {
        return Err(fault);
    }
    let totals = total_of(parts);
    match row_text(alloc, parts) {
        Ok(bytes) => Ok(JoinedText {
            bytes,
            failing: totals.failing > 0,
        }),
        Err(_error) => Err(CasesFault::Part(MEMORY_FAULT)),
    }
}

/// The text of texts of one run, if they are joined once they are in the order of their cuts.
fn join_run(
    alloc: Global,
    part: bool,
    parts: &mut Vec<CasePart<'_>>,
) -> Result<JoinedText, CasesFault>
    requires some { 0 < length parts.old.items }
    requires few { length parts.old.items ≤ 4096 }
    requires small { All IsSmallPart parts.old.items }
    ensures joined { IfOk result (λ j. IsSortedCases part parts.old.items j.bytes.items j.failing) }
    ensures refused { IfErr result (λ f. (f ≡ refused.Part (record { cause = cause.Memory; file = 0 })) ⊎ IsSortedFault part parts.old.items f) }
{
    match put_in_order(parts) {
        Ok(()) => join_row(alloc, part, parts.as_slice()),
        Err(_error) => Err(CasesFault::Part(MEMORY_FAULT)),
    }
}

/// The text of texts that were read, if they are of one run and are joined.
#[tactic(auto, using(crate::proofs::CaseJoins::memory_refused))]
fn join_parts(
    alloc: Global,
    part: bool,
    parts: &mut Vec<CasePart<'_>>,
) -> Result<JoinedText, CasesFault>
    requires some { 0 < length parts.old.items }
    requires few { length parts.old.items ≤ 4096 }
    requires small { All IsSmallPart parts.old.items }
    ensures joined { IfOk result (λ j. NoneIsForeign parts.old.items × IsSortedCases part parts.old.items j.bytes.items j.failing) }
    ensures refused { IfErr result (WhyNoCases part parts.old.items) }
{
    match first_foreign(alloc, parts.as_slice()) {
        Ok(Some(place)) => Err(CasesFault::Part(JoinFault {
            cause: JoinCause::OtherRun,
            file: place as u32,
        })),
        Ok(None) => join_run(alloc, part, parts),
        Err(_error) => Err(CasesFault::Part(MEMORY_FAULT)),
    }
}

/// The text of the cases of files that aren't too long.
fn join_short(alloc: Global, part: bool, files: &[Vec<u8>]) -> Result<JoinedText, CasesFault>
    requires some { 0 < length files.now }
    requires few { length files.now ≤ 4096 }
    requires short { size_of (map (λ f. f.items) files.now) ≤ 2 ^ 30 }
    ensures joined { IfOk result (λ j. AreJoinedCases part (map (λ f. f.items) files.now) j.bytes.items) }
    ensures failing { IfOk result (λ j. IsTrue j.failing ↔ HasFailing (map (λ f. f.items) files.now)) }
    ensures refused { IfErr result (RefusesCases part (map (λ f. f.items) files.now)) }
{
    match parts_of(alloc, files) {
        Ok(mut parts) => join_parts(alloc, part, &mut parts),
        Err(fault) => Err(CasesFault::Part(fault)),
    }
}

/// The text of the run of all cuts with any number of losses, of the texts of runs of ranges of cuts that follow one another. Where `part`
/// says so they may have some of the cuts: then it is the text of the run of these. A text of all cuts of the log tells no range and no
/// number of the inputs, as that of a run that was asked for no range. The files come in any order; there are 1 to 4,096 of them.
///
/// # Errors
///
/// In this order: the file with which they have more than 1 GiB; the first that isn't the text of cases, to the byte; the first that is of
/// another run than the first file; of the texts by their first cuts, and those that begin alike by their files, the first that begins
/// later than right after the end of the one before it, or before that; the first with which they have more than 16,777,216 cases; without
/// `part`, the first of them where it doesn't begin at cut 0, and else a file after all others, where the last one ends before the last
/// cut. Or want of memory.
pub fn join_cases(alloc: Global, part: bool, files: &[Vec<u8>]) -> Result<JoinedText, CasesFault>
    requires some { 0 < length files.now }
    requires few { length files.now ≤ 4096 }
    ensures joined { IfOk result (λ j. AreJoinedCases part (map (λ f. f.items) files.now) j.bytes.items) }
    ensures failing { IfOk result (λ j. IsTrue j.failing ↔ HasFailing (map (λ f. f.items) files.now)) }
    ensures refused { IfErr result (RefusesCases part (map (λ f. f.items) files.now)) }
    ensures short { IfOk result (λ _joined. size_of (map (λ f. f.items) files.now) ≤ 2 ^ 30) }
    ensures first { IfErr result (λ f. IsTooLong f ⊎ (size_of (map (λ f. f.items) files.now) ≤ 2 ^ 30)) }
{
    match first_long(files) {
        Some(file) => Err(CasesFault::Part(JoinFault {
            cause: JoinCause::TooLong,
            file: file as u32,
        })),
        None => join_short(alloc, part, files),
    }
}
