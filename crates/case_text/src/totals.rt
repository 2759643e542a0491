//! The totals of the cases of a run, and their text.

ghost use Rattle.std.specs.Prelude.{◌≡◌, ◌++◌, OnOk, string_bytes};
ghost use Rattle.case_text.specs.Text.{count_cases, count_failing, count_torn_beyond, count_lost_beyond, fails_at, is_any_failing, is_each_cut, are_all_cuts, extent_words, complete_word, counts_text, beyond_text, found_text, totals_text};
ghost use Rattle.case_text.specs.Counts.{with_found, with_all};

use crate::head::has_range;
use epochs::{CutKind, Cuts};
use losses::found::{CaseFindings, CutFound};
use std::alloc::AllocError;

/// How many cases there are, how many of them fail, and how many were left out; each at most 2^64 - 1.
#[derive(Clone, Copy)]
struct Totals {
    cases: u64,
    failing: u64,
    torn_beyond: u64,
    lost_beyond: u64,
}

/// Returns the totals with what was found with one more program.
fn with_found(totals: Totals, found: &CaseFindings) -> Totals
    ensures { result ≡ with_found totals found.now }
{
    Totals {
        cases: totals.cases.saturating_add(found.cases as u64),
        failing: totals.failing.saturating_add(found.failing.len() as u64),
        torn_beyond: totals.torn_beyond.saturating_add(found.torn_beyond),
        lost_beyond: totals.lost_beyond.saturating_add(found.lost_beyond),
    }
}

/// Returns the totals with what was found at one more cut.
fn with_all(totals: Totals, found: &[CaseFindings]) -> Totals
    ensures { result ≡ with_all totals found.now }
{
    let mut all = totals;
    for one in found {
        all = with_found(all, one);
    }
    all
}

/// Returns the totals of all cuts.
fn totals_of(found: &[CutFound]) -> Totals
    ensures cases { result.cases ≡ count_cases found.now }
    ensures failing { result.failing ≡ count_failing found.now }
    ensures torn { result.torn_beyond ≡ count_torn_beyond found.now }
    ensures lost { result.lost_beyond ≡ count_lost_beyond found.now }
{
    let mut all = Totals {
        cases: 0,
        failing: 0,
        torn_beyond: 0,
        lost_beyond: 0,
    };
    for cut in found {
        all = with_all(all, cut.programs.as_slice());
    }
    all
}

/// Whether a run was asked for each cut of its log.
pub fn are_all_cuts(cuts: &Cuts) -> bool
    ensures { result ≡ are_all_cuts cuts.now }
{
    match cuts.kind {
        CutKind::All => !has_range(cuts),
        CutKind::BeforeFlush | CutKind::AfterMark => false,
    }
}

/// Appends where no case was left out: of any cut of the log, or of those that were asked for.
fn put_extent(out: &mut String, all: bool) -> Result<(), AllocError>
    ensures { OnOk result (string_bytes out.new ≡ string_bytes out.old ++ extent_words all) }
{
    if all {
        write!(out, " complete")
    } else {
        write!(out, " of these cuts")
    }
}

/// Appends whether the text is of all cuts of the log, where no case was left out.
///
/// # Errors
///
/// Memory was refused.
pub fn put_complete(out: &mut String, all: bool, torn: u64, lost: u64) -> Result<(), AllocError>
    ensures { OnOk result (string_bytes out.new ≡ string_bytes out.old ++ complete_word all torn lost) }
{
    if torn == 0 && lost == 0 {
        put_extent(out, all)?;
    }
    Ok(())
}

/// Appends how many cuts and cases there are, and how many cases fail.
///
/// # Errors
///
/// Memory was refused.
#[tactic(auto, unfolding(crate::specs::Text::counts_text))]
pub fn put_counts(out: &mut String, cuts: u64, cases: u64, failing: u64) -> Result<(), AllocError>
    ensures { OnOk result (string_bytes out.new ≡ string_bytes out.old ++ counts_text cuts cases failing) }
{
    write!(out, "cuts {cuts} cases {cases} failing {failing}")
}

/// Appends how many cases were left out.
///
/// # Errors
///
/// Memory was refused.
#[tactic(auto, unfolding(crate::specs::Text::beyond_text))]
pub fn put_beyond(out: &mut String, torn: u64, lost: u64) -> Result<(), AllocError>
    ensures { OnOk result (string_bytes out.new ≡ string_bytes out.old ++ beyond_text torn lost) }
{
    write!(out, " torn beyond {torn} lost beyond {lost}")
}

/// Appends how many cuts and cases there are, how many cases fail, and how many were left out.
pub(crate) fn put_found(out: &mut String, found: &[CutFound]) -> Result<(), AllocError>
    ensures { OnOk result (string_bytes out.new ≡ string_bytes out.old ++ found_text found.now) }
{
    let all = totals_of(found);
    put_counts(out, found.len() as u64, all.cases, all.failing)?;
    put_beyond(out, all.torn_beyond, all.lost_beyond)
}

/// Appends the last line of a run that was asked for each cut of its log, or for some.
pub(crate) fn put_totals(
    out: &mut String,
    all_cuts: bool,
    found: &[CutFound],
) -> Result<(), AllocError>
    ensures { OnOk result (string_bytes out.new ≡ string_bytes out.old ++ totals_text all_cuts found.now) }
{
    put_found(out, found)?;
    let (torn, lost) = left_out(found);
    put_complete(out, all_cuts, torn, lost)?;
    write!(out, "\n")?;
    Ok(())
}

/// How many cases were left out at some cuts: since more parts are torn in them than is asked, and others since more are lost.
pub fn left_out(found: &[CutFound]) -> (u64, u64)
    ensures torn { result.0 ≡ count_torn_beyond found.now }
    ensures lost { result.1 ≡ count_lost_beyond found.now }
{
    let all = totals_of(found);
    (all.torn_beyond, all.lost_beyond)
}

/// Whether some case of a cut fails.
fn fails_at(found: &[CaseFindings]) -> bool
    ensures { result ≡ fails_at found.now }
{
    found.iter().any(|one| one.failing.len() != 0)
}

/// Whether a program fails on some case.
pub fn is_any_failing(found: &[CutFound]) -> bool
    ensures { result ≡ is_any_failing found.now }
{
    found.iter().any(|cut| fails_at(cut.programs.as_slice()))
}
