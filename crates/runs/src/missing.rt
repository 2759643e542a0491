//! The flushes that are missing for the failing lines of a run: those of the first round of a cure (docs/CRASH-MODEL.md, Where a
//! flush helps).

ghost use Rattle.std.specs.Prelude.{◌≡◌, length, IfOk};
ghost use Rattle.losses.specs.Places.{AreWindows};
ghost use Rattle.losses.specs.FailureWindows.{AreFailures, windows_in};
ghost use Rattle.runs.specs.Why.{IsMissing};
ghost use Rattle.runs.specs.Tasks.{lines_of};

use crate::task::Findings;
use losses::cure::{Failure, failures_of, missing_of};
use losses::flushes::MissingFlush;
use std::alloc::{AllocError, Global};
use workers::lines_are_set;

/// The failures of a run, and the flushes that are missing for them.
#[derive(Drop)]
pub(crate) struct MissingInRun {
    pub(crate) failures: Vec<Failure>,
    pub(crate) flushes: Vec<MissingFlush>,
}

/// The failures of what was found, by the marks of its failing lines.
pub(crate) fn failures_found(
    alloc: Global,
    findings: &Findings<'_>,
) -> Result<Vec<Failure>, AllocError>
    requires lines { findings.now.lines.now ≡ lines_of findings.now.task.now }
    ensures failures { IfOk result (λ fs. AreFailures findings.now.starts.now.plan.by findings.now.starts.now.plan.log.entries findings.now.lines.now fs.items) }
    ensures inside { IfOk result (λ fs. AreWindows (length findings.now.task.now.log.now.entries) (windows_in fs.items)) }
{
    // A law of the failing lines, which does nothing: each is of an image of the run.
    lines_are_set();
    let task = findings.task;
    failures_of(
        alloc,
        task.options.by(),
        findings.starts,
        task.log,
        findings.marks,
    )
}

/// The failures of what was found, by the marks of its failing lines, and the flushes that are missing for them.
pub(crate) fn missing_in(alloc: Global, findings: &Findings<'_>) -> Result<MissingInRun, AllocError>
    requires lines { findings.now.lines.now ≡ lines_of findings.now.task.now }
    ensures { IfOk result (λ m. IsMissing findings.now.starts.now findings.now.lines.now m.failures.items m.flushes.items) }
{
    let failures = failures_found(alloc, findings)?;
    let flushes = missing_of(alloc, findings.task.log, failures.as_slice())?;
    Ok(MissingInRun { failures, flushes })
}
