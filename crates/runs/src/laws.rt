//! What is noticed of programs, and what cases tell: laws, by functions that do nothing.

ghost use Rattle.runs.specs.AnyLoss.{AnyLossIsTold, CasesAreFaultless, ToldCasesFail};
ghost use Rattle.runs.specs.Blind.{BlindProgramsPass};
ghost use Rattle.runs.specs.Flushing.{FlushesBringNothing};

use case_runs::{found_cuts_are_wanted, losses_are_found, their_images_fail};
use checker::agreeing_devices_are_judged_alike;
use images::{covering_tells, images_are_devices};
use losses::flushes::{flush_takes_away, flushes_write_nothing};
use soundness::accepted_runs_safely;
use workers::lines_are_set;

/// A program that passes at each wanted cut, on the image in which nothing is lost or torn, and looks there at no sector that an
/// entry writes or discards, comes to the same on each other image of the cut. So it fails on no image, whatever is lost or torn.
pub fn blind_programs_pass()
    ensures { BlindProgramsPass }
{
    agreeing_devices_are_judged_alike();
    covering_tells();
    images_are_devices();
    lines_are_set();
}

/// Each image of each wanted cut on which a program fails, with as few torn parts and as few lost ones as is asked, is one of a failing case
/// that the text of cases tells of. So where the text has no line of a program, that program fails on no such image.
pub fn any_loss_is_told()
    ensures { AnyLossIsTold }
{
    losses_are_found();
}

/// A failing case that the text tells is one of a wanted cut, and on each of its images its program fails, and ends as the case says.
pub fn told_cases_fail()
    ensures { ToldCasesFail }
{
    their_images_fail();
    found_cuts_are_wanted();
}

/// Each image of a log with added flushes is one of the log without them, by the same cut and by what is lost and torn, and none of the flushes
/// stands in its window. So with a flush in the window of each failing image that has one, only images without a window are left to fail, of a
/// program that doesn't look at the epoch, in which the flushes count. With any number of losses each is one of the log without them too, by
/// the same cut and choice.
pub fn flushes_bring_nothing()
    ensures { FlushesBringNothing }
{
    flush_takes_away();
    flushes_write_nothing();
}

/// Without `--checked` and `--guards` a program has no fault on any image of any cut, whatever is lost there, and ends in a verdict within its
/// budget. So does each failing case that is told.
pub fn cases_are_faultless()
    ensures { CasesAreFaultless }
{
    accepted_runs_safely();
}
