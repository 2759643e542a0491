//! Laws of the failing lines. The functions do nothing; each contract is a theorem.

ghost use Rattle.workers.specs.Laws.{LinesAreSet, CollectionIsFailing, CollectionBeginsWithFirst};
ghost use Rattle.workers.specs.Safe.{AcceptedCheckersRunSafely};

use soundness::{accepted_runs_safely, guarded_runs_safely};

/// The failing lines of a run are those that docs/OUTPUT.md says, no other, each once, by image and
/// then by program.
pub fn lines_are_set()
    ensures { LinesAreSet }
{}

/// What is collected of the pieces of a run, one of each block and none passed over, are its failing
/// lines.
pub fn collection_is_failing()
    ensures { CollectionIsFailing }
{}

/// Where some were passed over, it is the lines of the first failing image, and then some of the
/// others.
pub fn collection_begins_with_first()
    ensures { CollectionBeginsWithFirst }
{}

/// A checker that the verifier accepts for the device of the log ends in a verdict on each image, within
/// its budget and without a fault. So each of its failing lines is that of a verdict. With guards it may also stray, at
/// a guarded slot.
pub fn accepted_checkers_run_safely()
    ensures { AcceptedCheckersRunSafely }
{
    accepted_runs_safely();
    guarded_runs_safely();
}
