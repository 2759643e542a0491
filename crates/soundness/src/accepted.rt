//! What is promised of accepted programs.

ghost use Rattle.soundness.specs.Accepted.{AcceptedRunsSafely};
ghost use Rattle.soundness.specs.Guards.{GuardedRunsSafely};

use crate::ending::{faults_are_of_steps, run_ends_within_budget};
use bpf_shape::laws::again_has_form;

/// A program that the verifier accepts for a number of sectors runs safely on each image of a device of
/// that size: no step of the machine is a fault, and it ends in a verdict within the budget.
pub fn accepted_runs_safely()
    ensures { AcceptedRunsSafely }
{
    run_ends_within_budget();
    faults_are_of_steps();
}

/// A program that the verifier accepts with guards runs safely with guards on each image of a device of that size: no step is
/// a fault, it strays only at a guarded slot, and within the budget it ends in a verdict, or strays at such a slot.
pub fn guarded_runs_safely()
    ensures { GuardedRunsSafely }
{
    again_has_form();
}
