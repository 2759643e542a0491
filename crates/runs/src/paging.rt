//! Where programs fail, as a page for a browser (docs/OUTPUT.md, The page of `page`).

ghost use Rattle.std.specs.Prelude.{◌≡◌, ℕ, All, map, length, IfOk};
ghost use Rattle.std.specs.List.Sorted.{IsNonDecreasing};
ghost use Rattle.losses.specs.Places.{AreWindows};
ghost use Rattle.losses.specs.FailureWindows.{windows_in};
ghost use Rattle.losses.specs.ProgramOutcomes.{outcomes_failing};
ghost use Rattle.page_parts.specs.Judges.{checker_text, judge_text};
ghost use Rattle.crash_page.specs.Failing.{IsFailing, AreFailing};
ghost use Rattle.crash_page.specs.Page.{AreOfRun};
ghost use Rattle.losses.specs.Failures.{AreImages};
ghost use Rattle.runs.specs.Marked.{images_marked};
ghost use Rattle.runs.specs.Paged.{IsSaid, IsPageOf};
ghost use Rattle.runs.specs.Tasks.{lines_of};

use crate::causes::images_of_program;
use crate::missing::failures_found;
use crate::task::{Findings, Task};
use crash_page::{PageRun, ProgramFailures, program_failures, put_page};
use crash_text::Numbering;
use losses::cure::Failure;
use losses::outcomes::outcomes_of;
use page_parts::PageJudge;
use report::{Head, ProgramHead, put_options, put_totals};
use std::alloc::{AllocError, Global};

/// What fails of the checker of that number.
fn checker_failures<'x>(
    alloc: Global,
    run: &PageRun<'_>,
    findings: &Findings<'x>,
    failures: &[Failure],
    head: ProgramHead,
    program: usize,
) -> Result<ProgramFailures<'x>, AllocError>
    requires run { run.now.starts.now ≡ findings.now.starts.now }
    requires inside { AreWindows (length run.now.numbering.log.now.entries) (windows_in failures.now) }
    requires images { AreImages findings.now.starts.now (images_marked findings.now.marks.now program) }
    ensures failing { IfOk result (λ f. IsFailing findings.now.starts.now (images_marked findings.now.marks.now program) (outcomes_failing program findings.now.lines.now) program failures.now f) }
    ensures head { IfOk result (λ f. judge_text f.judge ≡ checker_text head) }
    ensures taken { IfOk result (AreOfRun findings.now.starts.now) }
{
    let images = images_of_program(alloc, findings.marks, program)?;
    let outcomes = outcomes_of(alloc, findings.text, findings.marks, program)?;
    let judge = PageJudge::Checker(head);
    program_failures(
        alloc,
        run,
        failures,
        program,
        judge,
        images.as_slice(),
        outcomes,
    )
}

/// What fails of each program.
fn all_failures<'x>(
    alloc: Global,
    run: &PageRun<'_>,
    findings: &Findings<'x>,
    failures: &[Failure],
    heads: &[ProgramHead],
) -> Result<Vec<ProgramFailures<'x>>, AllocError>
    requires run { run.now.starts.now ≡ findings.now.starts.now }
    requires inside { AreWindows (length run.now.numbering.log.now.entries) (windows_in failures.now) }
    requires images { (program : ℕ) → AreImages findings.now.starts.now (images_marked findings.now.marks.now program) }
    ensures failing { IfOk result (λ found. AreFailing findings.now.starts.now (IsSaid heads.now) (images_marked findings.now.marks.now) (λ program. outcomes_failing program findings.now.lines.now) failures.now (length heads.now) found.items) }
    ensures taken { IfOk result (λ found. All (AreOfRun findings.now.starts.now) found.items) }
{
    let mut found = Vec::new(alloc);
    for (program, head) in heads.iter().enumerate() {
        let failing = checker_failures(alloc, run, findings, failures, *head, program)?;
        found.push(failing)?;
    }
    Ok(found)
}

/// What the images of a task are numbered by.
fn numbering_of<'x>(task: &Task<'x>) -> Numbering<'x>
    ensures plan { result.plan.now ≡ task.now.plan.now }
    ensures log { result.log.now ≡ task.now.log.now }
    ensures by { result.by ≡ task.now.options.now.by }
    ensures bound { result.bound ≡ task.now.options.now.bound }
    ensures tears { result.tears ≡ task.now.options.now.tears }
{
    let options = task.options;
    Numbering {
        plan: task.plan,
        log: task.log,
        cuts: options.cuts(),
        by: options.by(),
        bound: options.bound(),
        tears: options.tears(),
    }
}

/// The page of a run, by all failing lines. At its head it has the options, the programs and the totals.
pub(crate) fn page_bytes(
    alloc: Global,
    head: &Head,
    findings: &Findings<'_>,
) -> Result<Vec<u8>, AllocError>
    requires order { IsNonDecreasing (map (λ l. l.image) findings.now.lines.now) }
    requires lines { findings.now.lines.now ≡ lines_of findings.now.task.now }
    requires images { (program : ℕ) → AreImages findings.now.starts.now (images_marked findings.now.marks.now program) }
    ensures { IfOk result (λ bytes. IsPageOf head.now findings.now.starts.now (images_marked findings.now.marks.now) findings.now.lines.now bytes.items) }
{
    let mut text = String::new(alloc);
    put_options(&mut text, head)?;
    put_totals(&mut text, head.images, findings.lines)?;
    let failures = failures_found(alloc, findings)?;
    let run = PageRun {
        starts: findings.starts,
        history: findings.history,
        numbering: numbering_of(findings.task),
    };
    let programs = all_failures(
        alloc,
        &run,
        findings,
        failures.as_slice(),
        head.programs.as_slice(),
    )?;
    let mut page = String::new(alloc);
    put_page(alloc, &mut page, text.as_str(), &run, programs.as_slice())?;
    Ok(page.into_bytes())
}
