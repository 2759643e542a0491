//! How many cases of a cut fail.

ghost use Rattle.std.specs.Prelude.{◌≡◌, length, map, IfOk};
ghost use Rattle.case_page.specs.Counts.{all_in, failing_in, failing_of, cases_of, case_count, has_all_at, has_all};

use losses::found::{CutFound, FailingCase};
use page_parts::{CutCount, JudgedKind};
use std::alloc::{AllocError, Global};

/// How much there is at some cuts, up to 2^64 - 1.
#[tactic(auto, using(crate::proofs::Summed::sum_more, crate::proofs::Summed::sum_end))]
pub(crate) fn all_in(cuts: &[CutCount]) -> u64
    ensures { result ≡ all_in cuts.now }
{
    let mut sum: u64 = 0;
    for cut in cuts {
        sum = sum.saturating_add(cut.all);
    }
    sum
}

/// How much of it fails.
#[tactic(auto, using(crate::proofs::Summed::failing_more, crate::proofs::Summed::failing_end))]
pub(crate) fn failing_in(cuts: &[CutCount]) -> u64
    ensures { result ≡ failing_in cuts.now }
{
    let mut sum: u64 = 0;
    for cut in cuts {
        sum = sum.saturating_add(cut.failing);
    }
    sum
}

/// The cases that fail at a cut with the program of that number.
pub(crate) fn failing_of(program: usize, cut: &CutFound) -> &[FailingCase]
    ensures { result.now ≡ failing_of program cut.now }
{
    match cut.programs.get(program) {
        Some(found) => found.failing.as_slice(),
        None => &[],
    }
}

/// How many cases fail.
pub(crate) fn failing_count(program: usize, cut: &CutFound) -> usize
    ensures { result ≡ length (failing_of program cut.now) }
{
    failing_of(program, cut).len()
}

/// How many cases there are.
fn cases_of(program: usize, cut: &CutFound) -> usize
    ensures { result ≡ cases_of program cut.now }
{
    match cut.programs.get(program) {
        Some(found) => found.cases,
        None => 0,
    }
}

/// Whether no case at a cut was left out for the program of that number.
fn has_all_at(program: usize, cut: &CutFound) -> bool
    ensures { result ≡ has_all_at program cut.now }
{
    match cut.programs.get(program) {
        Some(found) => found.torn_beyond == 0 && found.lost_beyond == 0,
        None => true,
    }
}

/// Whether no case at some cuts was left out for it.
pub(crate) fn has_all(program: usize, found: &[CutFound]) -> bool
    ensures { result ≡ has_all program found.now }
{
    found.iter().all(|cut| has_all_at(program, cut))
}

/// How many cases of a cut fail.
pub(crate) fn case_count(program: usize, cut: &CutFound) -> CutCount
    ensures { result ≡ case_count program cut.now }
{
    CutCount {
        cut: cut.cut,
        of: JudgedKind::Cases,
        all: cases_of(program, cut) as u64,
        failing: failing_count(program, cut) as u64,
    }
}

/// How many cases fail at each of some cuts.
pub(crate) fn case_counts(
    alloc: Global,
    program: usize,
    found: &[CutFound],
) -> Result<Vec<CutCount>, AllocError>
    ensures { IfOk result (λ counts. counts.items ≡ map (case_count program) found.now) }
{
    let mut counts = Vec::new(alloc);
    for cut in found {
        counts.push(case_count(program, cut))?;
    }
    Ok(counts)
}
