//! Laws of cases that checkers judge. The functions do nothing; each contract is a theorem.

ghost use Rattle.case_runs.specs.First.{FirstIsOne};
ghost use Rattle.case_runs.specs.Found.{FindingIsOne, TheirImagesFail};
ghost use Rattle.case_runs.specs.AnyLoss.{FoundCutsAreWanted, LossesAreFound};
ghost use Rattle.case_runs.specs.Laws.{CheckersTell};

use cases::{each_is_in_one, last_cuts_have_all, leaves_end_alike, tree_is_one};
use checker::agreeing_devices_are_judged_alike;

/// The footprint of a checker, as a judge takes it, tells what the checker ends in.
pub fn checkers_tell()
    ensures { CheckersTell }
{
    agreeing_devices_are_judged_alike();
}

/// Each image that is asked for, whatever is lost there, and on which a checker fails is one of a failing case that was found.
pub fn losses_are_found()
    ensures { LossesAreFound }
{
    checkers_tell();
    each_is_in_one();
    leaves_end_alike();
    last_cuts_have_all();
}

/// Each cut at which cases were looked for is one that is wanted.
pub fn found_cuts_are_wanted()
    ensures { FoundCutsAreWanted }
{}

/// At a cut with a checker one thing is found. Where a search stops on its way, there are as many cases as it told the judge.
pub fn finding_is_one()
    ensures { FindingIsOne }
{
    tree_is_one();
}

/// At a cut with a checker one case fails first: it is the first of those that fail there, and none of some leaves that pass.
pub fn first_is_one()
    ensures { FirstIsOne }
{
    tree_is_one();
}

/// On each image of a failing case that was found a checker ends as the case says, and so it fails there.
pub fn their_images_fail()
    ensures { TheirImagesFail }
{
    checkers_tell();
    leaves_end_alike();
}
