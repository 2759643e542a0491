//! What the cases that records tell come to.

ghost use Rattle.std.specs.Prelude.{◌≡◌, ◌++◌, OnOk, string_bytes};
ghost use Rattle.known_runs.specs.Totals.{totals_of, with_one, count_stopped, is_told, is_whole, left_out_of, untold_text, whole_word, totals_text, status_of};

use case_text::{put_beyond, put_complete, put_counts};
use known::KnownAt;
use request::facts::LeftOut;
use std::alloc::AllocError;

/// How many told leaves there are and fail, how many cases were left out, how many are open, and at how many cuts the search was stopped;
/// each at most 2^64 - 1.
#[derive(Clone, Copy)]
pub(crate) struct KnownTotals {
    told: u64,
    failing: u64,
    torn: u64,
    lost: u64,
    pub(crate) untold: u64,
    pub(crate) stopped: u64,
}

/// 1 for a cut at which the search was stopped, and else 0.
fn count_stopped(found: &KnownAt) -> u64
    ensures { result ≡ count_stopped found.now }
{
    if found.stopped { 1 } else { 0 }
}

/// Totals with what was found at one more cut.
fn with_one(totals: KnownTotals, found: &KnownAt) -> KnownTotals
    ensures { result ≡ with_one totals found.now }
{
    KnownTotals {
        told: totals.told.saturating_add(found.told as u64),
        failing: totals.failing.saturating_add(found.failing.len() as u64),
        torn: totals.torn.saturating_add(found.torn_beyond),
        lost: totals.lost.saturating_add(found.lost_beyond),
        untold: totals.untold.saturating_add(found.open_cases.len() as u64),
        stopped: totals.stopped.saturating_add(count_stopped(found)),
    }
}

/// The totals of some cuts.
pub(crate) fn totals_of(found: &[KnownAt]) -> KnownTotals
    ensures { result ≡ totals_of found.now }
{
    let mut all = KnownTotals {
        told: 0,
        failing: 0,
        torn: 0,
        lost: 0,
        untold: 0,
        stopped: 0,
    };
    for one in found {
        all = with_one(all, one);
    }
    all
}

/// Whether no case is open or pending.
fn is_told(totals: KnownTotals) -> bool
    ensures { result ≡ is_told totals }
{
    totals.untold == 0 && totals.stopped == 0
}

/// Whether none is, and none was left out.
fn is_whole(totals: KnownTotals) -> bool
    ensures { result ≡ is_whole totals }
{
    let told = is_told(totals);
    told && (totals.torn == 0 && totals.lost == 0)
}

/// The status: 1 where something fails, else 0 where nothing is open, left out or pending, and else 3.
pub(crate) fn status_of(totals: KnownTotals) -> u8
    ensures { result ≡ status_of totals }
{
    if totals.failing != 0 {
        return 1;
    }
    if is_whole(totals) { 0 } else { 3 }
}

/// How many cases were left out, where none that is told fails.
pub(crate) fn left_out_of(totals: KnownTotals) -> Option<LeftOut>
    ensures { result ≡ left_out_of totals }
{
    if totals.failing != 0 {
        return None;
    }
    Some(LeftOut {
        torn: totals.torn,
        lost: totals.lost,
    })
}

/// Appends how many cases are open, and at how many cuts the search was stopped.
#[tactic(auto, unfolding(crate::specs::Totals::untold_text))]
fn put_untold(out: &mut String, totals: KnownTotals) -> Result<(), AllocError>
    ensures { OnOk result (string_bytes out.new ≡ string_bytes out.old ++ untold_text totals) }
{
    write!(out, " open {} stopped {}", totals.untold, totals.stopped)
}

/// Appends whether all cuts of the log are told of, where nothing is open, left out or pending.
fn put_whole(out: &mut String, all: bool, totals: KnownTotals) -> Result<(), AllocError>
    ensures { OnOk result (string_bytes out.new ≡ string_bytes out.old ++ whole_word all totals) }
{
    if is_told(totals) {
        put_complete(out, all, totals.torn, totals.lost)?;
    }
    Ok(())
}

/// Appends the last line, of that many cuts.
#[tactic(auto, unfolding(crate::specs::Totals::totals_text))]
pub(crate) fn put_totals(
    out: &mut String,
    all: bool,
    cuts: u64,
    totals: KnownTotals,
) -> Result<(), AllocError>
    ensures { OnOk result (string_bytes out.new ≡ string_bytes out.old ++ totals_text all cuts totals) }
{
    put_counts(out, cuts, totals.told, totals.failing)?;
    put_beyond(out, totals.torn, totals.lost)?;
    put_untold(out, totals)?;
    put_whole(out, all, totals)?;
    write!(out, "\n")
}
