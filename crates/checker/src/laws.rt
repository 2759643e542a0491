//! What a checker can't tell apart: laws, by functions that do nothing.

ghost use Rattle.checker.specs.Footprints.{AgreeingAreJudgedAlike, KeptIsFootprint};
ghost use Rattle.checker.specs.Guards.{GuardsChangeNoJudgement};

use machine::{footprint_tells, guarded_footprint_tells};
use plain::guards_change_nothing;
use soundness::{accepted_runs_safely, guarded_runs_safely};
use verifier::laws::{accepted_has_no_guards, good_needs_no_guards};

/// A checker ends in the same on two devices of one size that agree at the sectors of the footprint that
/// `judge_noted` keeps of its run on one of them.
pub fn agreeing_devices_are_judged_alike()
    ensures { AgreeingAreJudgedAlike }
{
    footprint_tells();
    guarded_footprint_tells();
}

/// The footprint that `judge_noted` keeps, where it keeps one, is the list of the sectors at which the run looks, each
/// once.
pub fn kept_is_the_footprint()
    ensures { KeptIsFootprint }
{}

/// A program that the verifier accepts without guards is accepted with them. On each image of its size it then ends in the
/// same, and looks at the same sectors.
pub fn guards_change_no_judgement()
    ensures { GuardsChangeNoJudgement }
{
    accepted_runs_safely();
    guarded_runs_safely();
    accepted_has_no_guards();
    good_needs_no_guards();
    guards_change_nothing();
}
