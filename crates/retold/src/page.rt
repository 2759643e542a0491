//! The page of a report (docs/OUTPUT.md, The page of `page`).

ghost use Rattle.std.specs.Prelude.{ℕ, ◌≡◌, ◌≢◌, ◌<◌, ◌++◌, true, List, All, Some, length, map, slice_get, IfOk, MatchOption};
ghost use Rattle.losses.specs.FailureWindows.{windows_in};
ghost use Rattle.losses.specs.Places.{AreWindows};
ghost use Rattle.page_parts.specs.Judges.{judge_text};
ghost use Rattle.crash_page.specs.Failing.{IsFailing, AreFailing};
ghost use Rattle.crash_page.specs.Page.{AreOfRun as AreTaken};
ghost use Rattle.join.specs.Given.{line_told};
ghost use Rattle.join.specs.GivenReading.{given_told};
ghost use Rattle.retold.specs.Told.{AreOfRun, HasHead, IsOwnHead, NoOwnHead, IsSaid, TellsPage, count_of, images_told_of, outcomes_told_of};

use crate::lines::{images_of, outcomes_of};
use crate::missing::failures_in;
use crate::subject::Subject;
use crash_page::{PageRun, ProgramFailures, program_failures, put_page};
use crash_text::Numbering;
use epochs::Cuts;
use images::History;
use join::Given;
use losses::cure::Failure;
use page_parts::PageJudge;
use report::ProgramHead;
use std::alloc::{AllocError, Global};

/// What stands after these words, if a text begins with them.
fn after<'t>(front: &str, text: &'t str) -> Option<&'t str>
    ensures { MatchOption result ((rest : List ℕ) → text.now ≢ front.now ++ rest) (λ rest. text.now ≡ front.now ++ rest.now) }
{
    text.strip_prefix(front)
}

/// What stands before these words, if a text ends with them.
fn before<'t>(text: &'t str, end: &str) -> Option<&'t str>
    ensures { MatchOption result ((front : List ℕ) → text.now ≢ front ++ end.now) (λ front. text.now ≡ front.now ++ end.now) }
{
    text.strip_suffix(end)
}

/// The words of the program that is given images as files, by the head of its report, which begins with that line of options.
#[tactic(auto, using(crate::proofs::Titles::no_options_no_head, crate::proofs::Titles::no_program_no_head, crate::proofs::Titles::no_newline_no_head, crate::proofs::Titles::own_head))]
fn words_of<'t>(options: &str, head: &'t str) -> Option<&'t str>
    ensures { MatchOption result (NoOwnHead options.now head.now) (λ words. IsOwnHead options.now words.now head.now) }
{
    let programs = after(options, head)?;
    let line = after("program 0 outside ", programs)?;
    match before(line, "\n") {
        Some(words) => Some(words),
        None => None,
    }
}

/// What is said of the checker of that number.
fn checker_at(programs: &[ProgramHead], program: usize) -> ProgramHead
    requires { program < length programs.now }
    ensures { slice_get programs.now program ≡ Some result }
{
    programs[program]
}

/// The program that is given images as files.
#[tactic(auto, using(crate::proofs::Titles::own_there, crate::proofs::Titles::said_own))]
fn own_judge<'t>(options: &str, given: &Given<'t>, program: usize) -> PageJudge<'t>
    requires head { HasHead options.now (given_told given.now) }
    requires outside { (given_told given.now).outside ≡ true }
    ensures { IsSaid options.now (given_told given.now) program (judge_text result) }
{
    let _program = program;
    match words_of(options, given.head) {
        Some(words) => PageJudge::Outside(words),
        None => unreachable!(),
    }
}

/// What the program of that number is.
#[tactic(auto, using(crate::proofs::Titles::said_checker, crate::proofs::Titles::checker_there))]
fn judge_of<'t>(options: &str, given: &Given<'t>, program: usize) -> PageJudge<'t>
    requires head { HasHead options.now (given_told given.now) }
    requires there { program < count_of (given_told given.now) }
    ensures { IsSaid options.now (given_told given.now) program (judge_text result) }
{
    if given.outside {
        own_judge(options, given, program)
    } else {
        PageJudge::Checker(checker_at(given.programs.as_slice(), program))
    }
}

/// What a page takes of the program of that number.
fn failures_told<'x>(
    alloc: Global,
    run: &PageRun<'_>,
    subject: &Subject<'x>,
    failures: &[Failure],
    program: usize,
    judge: PageJudge<'x>,
) -> Result<ProgramFailures<'x>, AllocError>
    requires run { run.now.starts.now ≡ subject.now.starts.now }
    requires inside { AreWindows (length run.now.numbering.log.now.entries) (windows_in failures.now) }
    requires of_run { AreOfRun subject.now.starts.now (map line_told subject.now.lines.now) }
    ensures failing { IfOk result (λ f. IsFailing subject.now.starts.now (images_told_of program (map line_told subject.now.lines.now)) (outcomes_told_of program (map line_told subject.now.lines.now)) program failures.now f) }
    ensures judge { IfOk result (λ f. judge_text f.judge ≡ judge_text judge.entry) }
    ensures taken { IfOk result (AreTaken subject.now.starts.now) }
{
    let images = images_of(alloc, subject.lines, program)?;
    let outcomes = outcomes_of(alloc, subject.lines, program)?;
    program_failures(
        alloc,
        run,
        failures,
        program,
        judge,
        images.as_slice(),
        outcomes,
    )
}

/// What a page takes of each program of a report.
fn all_told<'x>(
    alloc: Global,
    run: &PageRun<'_>,
    subject: &Subject<'x>,
    failures: &[Failure],
    options: &str,
    given: &Given<'x>,
) -> Result<Vec<ProgramFailures<'x>>, AllocError>
    requires run { run.now.starts.now ≡ subject.now.starts.now }
    requires inside { AreWindows (length run.now.numbering.log.now.entries) (windows_in failures.now) }
    requires of_run { AreOfRun subject.now.starts.now (map line_told subject.now.lines.now) }
    requires head { HasHead options.now (given_told given.now) }
    requires programs { subject.now.programs ≡ count_of (given_told given.now) }
    ensures failing { IfOk result (λ found. AreFailing subject.now.starts.now (IsSaid options.now (given_told given.now)) (λ program. images_told_of program (map line_told subject.now.lines.now)) (λ program. outcomes_told_of program (map line_told subject.now.lines.now)) failures.now subject.now.programs found.items) }
    ensures taken { IfOk result (λ found. All (AreTaken subject.now.starts.now) found.items) }
{
    let mut found = Vec::new(alloc);
    for program in 0..subject.programs {
        let judge = judge_of(options, given, program);
        let told = failures_told(alloc, run, subject, failures, program, judge)?;
        found.push(told)?;
    }
    Ok(found)
}

/// What the images of a report are numbered by.
fn numbering_of<'x>(subject: &Subject<'x>, cuts: Cuts) -> Numbering<'x>
    requires { subject.now.starts.now.plan.kind ≡ cuts }
    ensures plan { result.plan.now ≡ subject.now.starts.now.plan }
    ensures log { result.log.now ≡ subject.now.log.now }
    ensures by { result.by ≡ subject.now.starts.now.plan.by }
    ensures bound { result.bound ≡ subject.now.starts.now.bound }
    ensures tears { result.tears ≡ subject.now.starts.now.tears }
{
    let starts = subject.starts;
    Numbering {
        plan: starts.plan(),
        log: subject.log,
        cuts,
        by: subject.by,
        bound: starts.bound(),
        tears: starts.tears(),
    }
}

/// The page of a report with that line of options. At its head it has the options, the programs and the totals, as the report has them.
pub(crate) fn page_text(
    alloc: Global,
    subject: &Subject<'_>,
    cuts: Cuts,
    options: &str,
    given: &Given<'_>,
) -> Result<Vec<u8>, AllocError>
    requires cuts { subject.now.starts.now.plan.kind ≡ cuts }
    requires lines { map line_told subject.now.lines.now ≡ (given_told given.now).lines }
    requires of_run { AreOfRun subject.now.starts.now (map line_told subject.now.lines.now) }
    requires head { HasHead options.now (given_told given.now) }
    requires programs { subject.now.programs ≡ count_of (given_told given.now) }
    ensures { IfOk result (λ bytes. TellsPage options.now subject.now.starts.now (given_told given.now) bytes.items) }
{
    let failures = failures_in(alloc, subject)?;
    let history = History::new(alloc, subject.starts.plan(), subject.log)?;
    let run = PageRun {
        starts: subject.starts,
        history: &history,
        numbering: numbering_of(subject, cuts),
    };
    let programs = all_told(alloc, &run, subject, failures.as_slice(), options, given)?;
    let mut text = String::new(alloc);
    text.push_str(given.head)?;
    text.push_str(given.last)?;
    let mut page = String::new(alloc);
    put_page(alloc, &mut page, text.as_str(), &run, programs.as_slice())?;
    Ok(page.into_bytes())
}
