//! The flushes that are missing for the lines of a report.

ghost use Rattle.std.specs.Prelude.{map, IfOk};
ghost use Rattle.losses.specs.FailureWindows.{AreFailuresAt};
ghost use Rattle.join.specs.Given.{line_told, marks_told};
ghost use Rattle.retold.specs.Told.{AreMissingFor, AreOfRun};

use crate::lines::marks_of;
use crate::subject::Subject;
use losses::cure::{Failure, failures_of, missing_of};
use losses::flushes::MissingFlush;
use std::alloc::{AllocError, Global};

/// The failures of a report, and the flushes that are missing for them.
#[derive(Drop)]
pub(crate) struct MissingInReport {
    pub(crate) failures: Vec<Failure>,
    pub(crate) flushes: Vec<MissingFlush>,
}

/// The failures of a report.
pub(crate) fn failures_in(alloc: Global, subject: &Subject<'_>) -> Result<Vec<Failure>, AllocError>
    requires { AreOfRun subject.now.starts.now (map line_told subject.now.lines.now) }
    ensures { IfOk result (λ fs. AreFailuresAt subject.now.starts.now (marks_told (map line_told subject.now.lines.now)) fs.items) }
{
    let marks = marks_of(alloc, subject.lines)?;
    failures_of(
        alloc,
        subject.by,
        subject.starts,
        subject.log,
        marks.as_slice(),
    )
}

/// The failures of a report, and the flushes that are missing for them.
pub(crate) fn missing_in(
    alloc: Global,
    subject: &Subject<'_>,
) -> Result<MissingInReport, AllocError>
    requires { AreOfRun subject.now.starts.now (map line_told subject.now.lines.now) }
    ensures { IfOk result (λ m. AreMissingFor subject.now.starts.now (map line_told subject.now.lines.now) m.failures.items m.flushes.items) }
{
    let failures = failures_in(alloc, subject)?;
    let flushes = missing_of(alloc, subject.log, failures.as_slice())?;
    Ok(MissingInReport { failures, flushes })
}
