//! The failures of a run.

ghost use Rattle.std.specs.Prelude.{◌≡◌, ◌<◌, ◌++◌, ℕ, length, slice_get, Some, IfOk, OnOk};
ghost use Rattle.report.specs.declared.lines.marks.LineMark.{LineMark as MarkValue};
ghost use Rattle.choices.specs.Choices.{ranked_choices};
ghost use Rattle.losses.specs.Places.{AreWindows};
ghost use Rattle.losses.specs.Counted.{AreMissing};
ghost use Rattle.losses.specs.FailureWindows.{IsFailureAt, AreFailuresAt, windows_in, own_window, HoldNoFlush};

use crate::cure::failure::Failure;
use crate::flushes::{MissingFlush, Window, missing_flushes, window_of};
use choices::{Starts, ranked_is_model};
use epochs::By;
use logfmt::Log;
use report::lines::LineMark;
use std::alloc::{AllocError, Global};

/// The failure of a failing line.
fn failure_at(by: By, starts: &Starts<'_>, log: &Log, mark: LineMark) -> Failure
    requires by { by ≡ starts.now.plan.by }
    requires log { starts.now.plan.log ≡ log.now }
    requires image { mark.image < length (ranked_choices starts.now.plan starts.now.bound starts.now.tears) }
    ensures { IsFailureAt starts.now mark result }
{
    // A law of the choices of a plan, which does nothing: what departs stands before the cut.
    ranked_is_model();
    let choice = starts.nth(mark.image);
    Failure {
        program: mark.program,
        window: window_of(by, log, choice.cut(), choice.departures()),
    }
}

/// The failures of a run, by the marks of its failing lines. The log and what departs as one are those of the plan.
///
/// It takes the search of the choice of each failing image, and 16 bytes for each.
///
/// # Errors
///
/// Memory was refused.
pub fn failures_of(
    alloc: Global,
    by: By,
    starts: &Starts<'_>,
    log: &Log,
    marks: &[LineMark],
) -> Result<Vec<Failure>, AllocError>
    requires by { by ≡ starts.now.plan.by }
    requires log { starts.now.plan.log ≡ log.now }
    requires images { (i : ℕ) (m : MarkValue) → slice_get marks.now i ≡ Some m → m.image < length (ranked_choices starts.now.plan starts.now.bound starts.now.tears) }
    ensures { IfOk result (λ failures. AreFailuresAt starts.now marks.now failures.items) }
{
    let mut failures = Vec::with_capacity(alloc, marks.len())?;
    for mark in marks {
        failures.push(failure_at(by, starts, log, *mark))?;
    }
    Ok(failures)
}

/// Appends the window of a failure, where it has one.
fn push_window(windows: &mut Vec<Window>, failure: Failure) -> Result<(), AllocError>
    ensures { OnOk result (windows.new.items ≡ windows.old.items ++ own_window failure) }
{
    if let Some(window) = failure.window {
        windows.push(window)?;
    }
    Ok(())
}

/// The windows of failures, in their order.
///
/// # Errors
///
/// Memory was refused.
pub fn windows_of(alloc: Global, failures: &[Failure]) -> Result<Vec<Window>, AllocError>
    ensures { IfOk result (λ windows. windows.items ≡ windows_in failures.now) }
{
    let mut windows = Vec::new(alloc);
    for failure in failures {
        push_window(&mut windows, *failure)?;
    }
    Ok(windows)
}

/// The fewest flushes that take away all failures of a log that have a window, rising.
///
/// # Errors
///
/// Memory was refused.
pub fn missing_of(
    alloc: Global,
    log: &Log,
    failures: &[Failure],
) -> Result<Vec<MissingFlush>, AllocError>
    requires { AreWindows (length log.now.entries) (windows_in failures.now) }
    ensures { IfOk result (λ flushes. AreMissing (windows_in failures.now) flushes.items) }
{
    let windows = windows_of(alloc, failures)?;
    missing_flushes(alloc, windows.as_slice(), log.entries().len())
}
