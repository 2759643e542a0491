//! Why programs fail, as a text (docs/OUTPUT.md, The text of `why`).

ghost use Rattle.std.specs.Prelude.{◌≡◌, ◌++◌, ℕ, map, IfOk, OnOk, string_bytes};
ghost use Rattle.std.specs.List.Sorted.{IsNonDecreasing};
ghost use Rattle.losses.specs.Failures.{AreImages};
ghost use Rattle.losses.specs.ProgramOutcomes.{outcomes_failing};
ghost use Rattle.losses.specs.Causes.{TellsProgram, TellsPrograms};
ghost use Rattle.runs.specs.Why.{images_failing, why_head, TellsCauses};
ghost use Rattle.runs.specs.Marked.{own_image, images_marked};
ghost use Rattle.runs.specs.Tasks.{lines_of};

use crate::missing::missing_in;
use crate::task::Findings;
use losses::cure::put_flushes;
use losses::outcomes::outcomes_of;
use losses::why::put_causes;
use report::lines::{LineMark, Lines};
use report::{Head, put_options, put_totals};
use std::alloc::{AllocError, Global};

/// Appends the image of a mark, if it is of that program.
fn push_image(images: &mut Vec<u64>, program: usize, mark: LineMark) -> Result<(), AllocError>
    ensures { OnOk result (images.new.items ≡ images.old.items ++ own_image program mark) }
{
    if usize::from(mark.program) == program {
        images.push(mark.image)?;
    }
    Ok(())
}

/// The images on which the program of that number fails.
pub(crate) fn images_of_program(
    alloc: Global,
    marks: &[LineMark],
    program: usize,
) -> Result<Vec<u64>, AllocError>
    ensures { IfOk result (λ images. images.items ≡ images_marked marks.now program) }
{
    let mut images = Vec::new(alloc);
    for mark in marks {
        push_image(&mut images, program, *mark)?;
    }
    Ok(images)
}

/// Appends what fails of the program of that number at each cut.
fn put_program(
    alloc: Global,
    out: &mut String,
    findings: &Findings<'_>,
    program: usize,
) -> Result<(), AllocError>
    requires { AreImages findings.now.starts.now (images_marked findings.now.marks.now program) }
    ensures { OnOk result (TellsProgram findings.now.starts.now (images_failing program findings.now.lines.now) (outcomes_failing program findings.now.lines.now) program (string_bytes out.old) (string_bytes out.new)) }
{
    let (by, starts) = (findings.task.options.by(), findings.starts);
    let images = images_of_program(alloc, findings.marks, program)?;
    let outcomes = outcomes_of(alloc, findings.text, findings.marks, program)?;
    put_causes(
        alloc,
        out,
        by,
        starts,
        images.as_slice(),
        outcomes.as_slice(),
        program,
    )
}

/// Appends what fails of each program at each cut.
fn put_all(
    alloc: Global,
    out: &mut String,
    findings: &Findings<'_>,
    programs: usize,
) -> Result<(), AllocError>
    requires images { (program : ℕ) → AreImages findings.now.starts.now (images_marked findings.now.marks.now program) }
    ensures { OnOk result (TellsPrograms findings.now.starts.now (λ program. images_failing program findings.now.lines.now) (λ program. outcomes_failing program findings.now.lines.now) programs (string_bytes out.old) (string_bytes out.new)) }
{
    for program in 0..programs {
        put_program(alloc, out, findings, program)?;
    }
    Ok(())
}

/// Appends the title, the options, the programs and the totals.
#[tactic(auto, unfolding(crate::specs::Why::why_head))]
fn put_head(out: &mut String, head: &Head, lines: &Lines) -> Result<(), AllocError>
    requires { IsNonDecreasing (map (λ l. l.image) lines.now) }
    ensures { OnOk result (string_bytes out.new ≡ string_bytes out.old ++ why_head head.now lines.now) }
{
    write!(out, "crash why 2\n")?;
    put_options(out, head)?;
    put_totals(out, head.images, lines)
}

/// Why programs fail, by all failing lines.
pub(crate) fn causes_text(
    alloc: Global,
    head: &Head,
    findings: &Findings<'_>,
) -> Result<Vec<u8>, AllocError>
    requires order { IsNonDecreasing (map (λ l. l.image) findings.now.lines.now) }
    requires lines { findings.now.lines.now ≡ lines_of findings.now.task.now }
    requires images { (program : ℕ) → AreImages findings.now.starts.now (images_marked findings.now.marks.now program) }
    ensures { IfOk result (λ bytes. TellsCauses head.now findings.now.starts.now findings.now.lines.now bytes.items) }
{
    let programs = head.programs.len();
    let missing = missing_in(alloc, findings)?;
    let (failures, flushes) = (missing.failures.as_slice(), missing.flushes.as_slice());
    let mut out = String::new(alloc);
    put_head(&mut out, head, findings.lines)?;
    put_flushes(&mut out, programs, failures, flushes)?;
    put_all(alloc, &mut out, findings, programs)?;
    Ok(out.into_bytes())
}
