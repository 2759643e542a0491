//! The leaves of which a judge was told.

ghost use Rattle.std.specs.Prelude.{◌≡◌, ◌-◌, ◌++◌, ◌∷◌, List, [], map, slice_get, option_map, IfOk, OnOk};
ghost use Rattle.known.specs.declared.run.KnownRun.{KnownRun as Run};
ghost use Rattle.case_runs.specs.Leaves.{failing_if, failing_from};
ghost use Rattle.known.specs.Ends.{ending_of};
ghost use Rattle.known.specs.Leaves.{told_of, open_of, sets_of_leaf, leaf_by, leaf_of, failing_value, open_sets, AreMet};

use crate::found::{KnownFailing, OpenCase};
use crate::records::KnownRecords;
use crate::run::{KnownRun, RunEnd, is_failing};
use std::alloc::{AllocError, Global};
use std::snapshot::Snapshot;

/// A leaf of which a judge was told, for contracts alone: it takes no room.
#[derive(Drop)]
pub(crate) struct MetLeaf {
    pub(crate) sets: Snapshot<Vec<u16>>,
    /// Where the record stands that tells it.
    pub(crate) place: Snapshot<usize>,
}

/// What is kept of the leaves: how many there are, those that fail, and those that are open.
#[derive(Drop)]
pub(crate) struct MetLeaves {
    pub(crate) all: Vec<MetLeaf>,
    pub(crate) failing: Vec<KnownFailing>,
    pub(crate) open_cases: Vec<OpenCase>,
    /// A place for the sets of a leaf.
    pub(crate) room: Vec<u16>,
}

/// A copy of the sets of a case.
fn copy_sets(alloc: Global, sets: &[u16]) -> Result<Vec<u16>, AllocError>
    ensures { IfOk result (λ copy. copy.items ≡ sets.now) }
{
    let mut copy = Vec::new(alloc);
    copy.extend_from_slice(sets)?;
    Ok(copy)
}

/// Appends a told leaf, if the program fails there.
fn put_failing(
    failing: &mut Vec<KnownFailing>,
    number: usize,
    end: RunEnd,
    sets: &[u16],
) -> Result<(), AllocError>
    ensures { OnOk result (map failing_value failing.new.items ≡ map failing_value failing.old.items ++ failing_if number (record { sets = sets.now; ending = ending_of end })) }
{
    if is_failing(end) {
        let sets = copy_sets(*failing.allocator(), sets)?;
        failing.push(KnownFailing { number, end, sets })?;
    }
    Ok(())
}

/// Appends an open case.
fn put_open(cases: &mut Vec<OpenCase>, sets: &[u16]) -> Result<(), AllocError>
    ensures { OnOk result (map open_sets cases.new.items ≡ map open_sets cases.old.items ++ sets.now ∷ []) }
{
    let sets = copy_sets(*cases.allocator(), sets)?;
    cases.push(OpenCase { sets })?;
    Ok(())
}

/// How many of some leaves are told: all but the open ones.
pub(crate) fn told_count(all: usize, open_cases: usize) -> usize
    ensures { result ≡ all - open_cases }
{
    all.saturating_sub(open_cases)
}

/// Appends a leaf to those that fail or to those that are open, if it is one of them.
fn put_one(
    failing: &mut Vec<KnownFailing>,
    cases: &mut Vec<OpenCase>,
    number: usize,
    run: Option<&KnownRun>,
    sets: &[u16],
) -> Result<(), AllocError>
    ensures failing { OnOk result (map failing_value failing.new.items ≡ map failing_value failing.old.items ++ failing_from number (told_of (leaf_by sets.now (option_map (λ r. r.now) run.entry) ∷ []))) }
    ensures those { OnOk result (map open_sets cases.new.items ≡ map open_sets cases.old.items ++ map sets_of_leaf (open_of (leaf_by sets.now (option_map (λ r. r.now) run.entry) ∷ []))) }
{
    match run {
        Some(own) => {
            put_failing(failing, number, own.end, sets)?;
            Ok(())
        }
        None => {
            put_open(cases, sets)?;
            Ok(())
        }
    }
}

/// Appends a leaf to all of them.
fn put_met(
    all: &mut Vec<MetLeaf>,
    room: &mut Vec<u16>,
    place: usize,
    sets: &[u16],
) -> Result<(), AllocError>
    ensures { (runs : List Run) → OnOk result (map (leaf_of runs) all.new.items ≡ map (leaf_of runs) all.old.items ++ leaf_by sets.now (slice_get runs place) ∷ []) }
{
    room.clear();
    room.extend_from_slice(sets)?;
    all.push(MetLeaf {
        sets: Snapshot::of(room),
        place: Snapshot::of(&place),
    })?;
    Ok(())
}

/// Appends a leaf, which the record at a place tells, if one stands there.
pub(crate) fn put_leaf(
    met: &mut MetLeaves,
    records: &KnownRecords<'_>,
    place: usize,
    sets: &[u16],
) -> Result<(), AllocError>
    requires { AreMet (map (leaf_of records.now.runs) met.old.all.items) met.old.failing.items met.old.open_cases.items }
    ensures met { OnOk result (AreMet (map (leaf_of records.now.runs) met.new.all.items) met.new.failing.items met.new.open_cases.items) }
    ensures put { OnOk result (map (leaf_of records.now.runs) met.new.all.items ≡ map (leaf_of records.now.runs) met.old.all.items ++ leaf_by sets.now (slice_get records.now.runs place) ∷ []) }
{
    let number = told_count(met.all.len(), met.open_cases.len());
    let run = records.run(place);
    put_one(&mut met.failing, &mut met.open_cases, number, run, sets)?;
    put_met(&mut met.all, &mut met.room, place, sets)?;
    Ok(())
}
