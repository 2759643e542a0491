//! Why programs fail, by the lines of a report (docs/OUTPUT.md, The text of `why`).

ghost use Rattle.std.specs.Prelude.{◌≡◌, IfOk, OnOk, map, string_bytes};
ghost use Rattle.join.specs.Given.{line_told};
ghost use Rattle.join.specs.GivenReading.{given_told};
ghost use Rattle.losses.specs.Causes.{TellsProgram, TellsPrograms};
ghost use Rattle.retold.specs.Told.{AreOfRun, TellsWhy, images_told_of, outcomes_told_of, count_of};

use crate::lines::{images_of, outcomes_of};
use crate::missing::missing_in;
use crate::subject::Subject;
use join::Given;
use losses::cure::put_flushes;
use losses::why::put_causes;
use std::alloc::{AllocError, Global};

/// Appends what fails of the program of that number at each cut.
fn put_program(
    alloc: Global,
    out: &mut String,
    subject: &Subject<'_>,
    program: usize,
) -> Result<(), AllocError>
    requires { AreOfRun subject.now.starts.now (map line_told subject.now.lines.now) }
    ensures { OnOk result (TellsProgram subject.now.starts.now (images_told_of program (map line_told subject.now.lines.now)) (outcomes_told_of program (map line_told subject.now.lines.now)) program (string_bytes out.old) (string_bytes out.new)) }
{
    let images = images_of(alloc, subject.lines, program)?;
    let outcomes = outcomes_of(alloc, subject.lines, program)?;
    put_causes(
        alloc,
        out,
        subject.by,
        subject.starts,
        images.as_slice(),
        outcomes.as_slice(),
        program,
    )
}

/// Appends what fails of each program at each cut.
fn put_all(alloc: Global, out: &mut String, subject: &Subject<'_>) -> Result<(), AllocError>
    requires { AreOfRun subject.now.starts.now (map line_told subject.now.lines.now) }
    ensures { OnOk result (TellsPrograms subject.now.starts.now (λ program. images_told_of program (map line_told subject.now.lines.now)) (λ program. outcomes_told_of program (map line_told subject.now.lines.now)) subject.now.programs (string_bytes out.old) (string_bytes out.new)) }
{
    for program in 0..subject.programs {
        put_program(alloc, out, subject, program)?;
    }
    Ok(())
}

/// Why the programs fail, after the options, the programs and the totals.
pub(crate) fn why_text(
    alloc: Global,
    subject: &Subject<'_>,
    given: &Given<'_>,
) -> Result<Vec<u8>, AllocError>
    requires lines { map line_told subject.now.lines.now ≡ (given_told given.now).lines }
    requires of_run { AreOfRun subject.now.starts.now (map line_told subject.now.lines.now) }
    requires programs { subject.now.programs ≡ count_of (given_told given.now) }
    ensures { IfOk result (λ bytes. TellsWhy subject.now.starts.now (given_told given.now) bytes.items) }
{
    let missing = missing_in(alloc, subject)?;
    let (failures, flushes) = (missing.failures.as_slice(), missing.flushes.as_slice());
    let mut out = String::new(alloc);
    out.push_str("crash why 2\n")?;
    out.push_str(given.head)?;
    out.push_str(given.last)?;
    put_flushes(&mut out, subject.programs, failures, flushes)?;
    put_all(alloc, &mut out, subject)?;
    Ok(out.into_bytes())
}
