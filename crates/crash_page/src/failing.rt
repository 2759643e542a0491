//! What a page takes of a program, by the images on which it fails.

ghost use Rattle.std.specs.Prelude.{◌≡◌, ◌++◌, ◌∷◌, [], map, length, IfOk, OnOk};
ghost use Rattle.losses.specs.Places.{AreWindows};
ghost use Rattle.losses.specs.Counted.{AreMissing};
ghost use Rattle.losses.specs.Failures.{AreImages};
ghost use Rattle.losses.specs.FailureWindows.{windows_in};
ghost use Rattle.page_parts.specs.Judges.{judge_text};
ghost use Rattle.crash_page.specs.Failing.{own_failures, IsFailing};
ghost use Rattle.crash_page.specs.Page.{AreOfRun};

use crate::laws::failures_are_of_run;
use crate::program::ProgramFailures;
use crate::run::PageRun;
use logfmt::Log;
use losses::cure::{Failure, missing_of};
use losses::flushes::MissingFlush;
use losses::why::failures;
use page_parts::{PageJudge, uncured_of};
use std::alloc::{AllocError, Global};

/// Appends a failure, if it is of that program.
fn push_own(own: &mut Vec<Failure>, program: usize, failure: Failure) -> Result<(), AllocError>
    ensures { OnOk result (own.new.items ≡ own.old.items ++ own_failures program (failure ∷ [])) }
{
    if usize::from(failure.program) == program {
        own.push(failure)?;
    }
    Ok(())
}

/// The failures of a program, of those of a run.
#[tactic(auto, using(crate::proofs::Owned::own_more))]
fn failures_of(
    alloc: Global,
    failures: &[Failure],
    program: usize,
) -> Result<Vec<Failure>, AllocError>
    ensures { IfOk result (λ own. own.items ≡ own_failures program failures.now) }
{
    let mut own = Vec::new(alloc);
    for failure in failures {
        push_own(&mut own, program, *failure)?;
    }
    Ok(own)
}

/// The flushes that are missing for the failures of a program, of those of a run of a log.
fn missing_for(
    alloc: Global,
    log: &Log,
    failures: &[Failure],
    program: usize,
) -> Result<Vec<MissingFlush>, AllocError>
    requires { AreWindows (length log.now.entries) (windows_in failures.now) }
    ensures { IfOk result (λ ms. AreMissing (windows_in (own_failures program failures.now)) ms.items) }
{
    let own = failures_of(alloc, failures, program)?;
    missing_of(alloc, log, own.as_slice())
}

/// What a page takes of the program of that number, which fails on these images of a run and ends so on each, of all failures of the run.
///
/// # Errors
///
/// Memory was refused.
pub fn program_failures<'a>(
    alloc: Global,
    run: &PageRun<'_>,
    failures_of_run: &[Failure],
    program: usize,
    judge: PageJudge<'a>,
    images: &[u64],
    outcomes: Vec<&'a str>,
) -> Result<ProgramFailures<'a>, AllocError>
    requires inside { AreWindows (length run.now.numbering.log.now.entries) (windows_in failures_of_run.now) }
    requires images { AreImages run.now.starts.now images.now }
    requires outcomes { length outcomes.items ≡ length images.now }
    ensures failing { IfOk result (λ f. IsFailing run.now.starts.now images.now (map (λ o. o.now) outcomes.entry.items) program failures_of_run.now f) }
    ensures judge { IfOk result (λ f. judge_text f.judge ≡ judge_text judge.entry) }
    ensures taken { IfOk result (AreOfRun run.now.starts.now) }
{
    // A law of pages, which does nothing: what fails of the images of a run is what a page takes.
    failures_are_of_run();
    let cuts = failures(alloc, run.starts, images, outcomes.as_slice())?;
    let missing = missing_for(alloc, run.numbering.log, failures_of_run, program)?;
    Ok(ProgramFailures {
        judge,
        failing: images.len(),
        outcomes,
        cuts,
        missing,
        uncured: uncured_of(failures_of_run, program),
    })
}
