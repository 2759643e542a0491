//! The leaves of which a judge was told.

ghost use Rattle.std.specs.Prelude.{◌≡◌, ◌++◌, ◌∷◌, [], map, length, IfOk, OnOk};
ghost use Rattle.interp.specs.Ending.{ending_of};
ghost use Rattle.machine.specs.Outcome.{fails};
ghost use Rattle.losses.specs.FoundCases.{failing_value};
ghost use Rattle.case_runs.specs.Leaves.{leaf_of, failing_if};

use interp::Outcome;
use losses::found::FailingCase;
use std::alloc::{AllocError, Global};
use std::snapshot::Snapshot;

/// A leaf of which a judge was told, for contracts alone: it takes no room.
#[derive(Drop)]
pub(crate) struct ToldLeaf {
    pub(crate) sets: Snapshot<Vec<u16>>,
    pub(crate) outcome: Snapshot<Outcome>,
}

/// A copy of the sets of a case.
pub(crate) fn copy_sets(alloc: Global, sets: &[u16]) -> Result<Vec<u16>, AllocError>
    ensures { IfOk result (λ copy. copy.items ≡ sets.now) }
{
    let mut copy = Vec::new(alloc);
    copy.extend_from_slice(sets)?;
    Ok(copy)
}

/// Appends a leaf, if the checker fails there.
fn put_failing(
    failing: &mut Vec<FailingCase>,
    number: usize,
    outcome: &Outcome,
    sets: &[u16],
) -> Result<(), AllocError>
    ensures { OnOk result (map failing_value failing.new.items ≡ map failing_value failing.old.items ++ failing_if number (record { sets = sets.now; ending = ending_of outcome.now })) }
{
    if outcome.fails() {
        let sets = copy_sets(*failing.allocator(), sets)?;
        failing.push(FailingCase {
            number,
            outcome: outcome.copy(),
            sets,
        })?;
    }
    Ok(())
}

/// Appends a leaf to both lists. The vector is a place for its sets.
pub(crate) fn put_leaf(
    told: &mut Vec<ToldLeaf>,
    place: &mut Vec<u16>,
    failing: &mut Vec<FailingCase>,
    outcome: &Outcome,
    sets: &[u16],
) -> Result<(), AllocError>
    ensures told { OnOk result (map leaf_of told.new.items ≡ map leaf_of told.old.items ++ record { sets = sets.now; ending = ending_of outcome.now } ∷ []) }
    ensures failing { OnOk result (map failing_value failing.new.items ≡ map failing_value failing.old.items ++ failing_if (length told.old.items) (record { sets = sets.now; ending = ending_of outcome.now })) }
{
    put_failing(failing, told.len(), outcome, sets)?;
    place.clear();
    place.extend_from_slice(sets)?;
    told.push(ToldLeaf {
        sets: Snapshot::of(place),
        outcome: Snapshot::of(outcome),
    })?;
    Ok(())
}
