//! The cuts that are explored.

ghost use Rattle.std.specs.Prelude.{◌≡◌, ◌≤◌, ◌++◌, ◌∷◌, [], length, filter, All, IfOk, OnOk};
ghost use Rattle.cases.specs.Risk.{ends_here, is_after_forced, is_last_cut};
ghost use Rattle.case_runs.specs.Cuts.{is_explored, explored_cuts, is_all, first_wanted, last_wanted, case_cuts};

use epochs::{CutKind, Cuts, Plan};
use logfmt::{Entry, Log};
use std::alloc::{AllocError, Global};

/// Whether the entry at a cut is a flush entry or a mark.
fn ends_here(entries: &[Entry], cut: u32) -> bool
    ensures { result ≡ ends_here entries.now cut }
{
    match entries.get(cut as usize) {
        Some(entry) => entry.flags.flush || entry.flags.mark,
        None => false,
    }
}

/// Whether the entry before a cut is forced to the device with its data.
#[tactic(auto, using(crate::proofs::Cutting::after_none, crate::proofs::Cutting::after_one))]
fn is_after_forced(entries: &[Entry], cut: u32) -> bool
    ensures { result ≡ is_after_forced entries.now cut }
{
    if cut == 0 {
        return false;
    }
    match entries.get(cut as usize - 1) {
        Some(entry) => entry.flags.fua,
        None => false,
    }
}

/// Whether a cut is a last one.
fn is_last_cut(entries: &[Entry], cut: u32) -> bool
    ensures { result ≡ is_last_cut entries.now cut }
{
    let ends = ends_here(entries, cut);
    let beyond = is_after_forced(entries, cut);
    cut as usize == entries.len() || (ends || beyond)
}

/// Appends a cut, if it is explored.
fn put_cut(out: &mut Vec<u32>, entries: &[Entry], to: u32, cut: u32) -> Result<(), AllocError>
    ensures { OnOk result (out.new.items ≡ out.old.items ++ filter (is_explored entries.now to) (cut ∷ [])) }
{
    let last = is_last_cut(entries, cut);
    if last || cut == to {
        out.push(cut)?;
    }
    Ok(())
}

/// The cuts that are explored of a range: the last cuts, and the end of the range. Without a range it goes from 0 to the end of the log.
fn explored_cuts(alloc: Global, log: &Log, from: u32, to: u32) -> Result<Vec<u32>, AllocError>
    requires { to ≤ length log.now.entries }
    ensures value { IfOk result (λ cuts. cuts.items ≡ explored_cuts log.now.entries from to) }
    ensures within { IfOk result (λ cuts. All (λ cut. cut ≤ length log.now.entries) cuts.items) }
{
    let entries = log.entries();
    let mut out = Vec::new(alloc);
    for place in 0..(to + 1).saturating_sub(from) {
        put_cut(&mut out, entries, to, from + place)?;
    }
    Ok(out)
}

/// Whether all cuts are of that kind.
fn is_all(kind: CutKind) -> bool
    ensures { result ≡ is_all kind }
{
    match kind {
        CutKind::All => true,
        CutKind::BeforeFlush | CutKind::AfterMark => false,
    }
}

/// The first cut that is wanted of a log with that many entries.
pub fn first_wanted(cuts: &Cuts, count: u32) -> u32
    ensures { result ≡ first_wanted cuts.now count }
{
    match cuts.from {
        Some(from) => from.min(u64::from(count)) as u32,
        None => 0,
    }
}

/// The last cut that is wanted of a log with that many entries.
pub fn last_wanted(cuts: &Cuts, count: u32) -> u32
    ensures { result ≡ last_wanted cuts.now count }
{
    match cuts.to {
        Some(to) => to.min(u64::from(count)) as u32,
        None => count,
    }
}

/// A copy of some cuts.
fn copy_cuts(alloc: Global, cuts: &[u32]) -> Result<Vec<u32>, AllocError>
    ensures { IfOk result (λ copy. copy.items ≡ cuts.now) }
{
    let mut copy = Vec::new(alloc);
    copy.extend_from_slice(cuts)?;
    Ok(copy)
}

/// The cuts at which cases are looked for, where no more than `at_most` parts may be lost or torn, or any number.
///
/// # Errors
///
/// Memory was refused.
#[tactic(auto, unfolding(crate::specs::Cuts::case_cuts))]
pub fn case_cuts(
    alloc: Global,
    plan: &Plan<'_>,
    log: &Log,
    cuts: &Cuts,
    at_most: Option<u32>,
) -> Result<Vec<u32>, AllocError>
    requires log { plan.now.log ≡ log.now }
    requires kind { plan.now.kind ≡ cuts.now }
    ensures value { IfOk result (λ found. found.items ≡ case_cuts at_most cuts.now log.now.entries) }
    ensures within { IfOk result (λ found. All (λ cut. cut ≤ length log.now.entries) found.items) }
{
    let all = is_all(cuts.kind);
    if all && at_most.is_none() {
        let count = log.entries().len() as u32;
        return explored_cuts(
            alloc,
            log,
            first_wanted(cuts, count),
            last_wanted(cuts, count),
        );
    }
    copy_cuts(alloc, plan.cuts())
}
