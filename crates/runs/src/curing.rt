//! Where flushes are missing, tried run by run (docs/COMMANDS.md, cure).

ghost use Rattle.std.specs.Prelude.{◌≡◌, ◌≢◌, ◌≤◌, ◌<◌, ◌⊎◌, ◌++◌, [], map, length, All, None, Some, IfOk, IfErr, OnOk, string_bytes};
ghost use Rattle.std.specs.List.{flat_map};
ghost use Rattle.std.specs.List.Sorted.{IsNonDecreasing};
ghost use Rattle.logfmt.specs.Bounds.{IsLog};
ghost use Rattle.logfmt.specs.Flushed.{with_flushes};
ghost use Rattle.checker.specs.Checker.{AreFor};
ghost use Rattle.base.specs.Refusals.{memory_refusal};
ghost use Rattle.losses.specs.Places.{AreWindows};
ghost use Rattle.losses.specs.Counted.{AreMissing};
ghost use Rattle.losses.specs.FailureWindows.{windows_in, places_in, calm_entries, HoldNoFlush};
ghost use Rattle.losses.specs.CureText.{begin_text, uncured_text, flush_line, refused_line};
ghost use Rattle.losses.specs.FoundCases.{cases_in, most_cases};
ghost use Rattle.case_runs.specs.Found.{AreFoundIn};
ghost use Rattle.request.specs.declared.extent.Extent.TheVariants as extent;
ghost use Rattle.request.specs.Extents.{most_images};
ghost use Rattle.request.specs.Source.{images_of, images_refusal, plan_of};
ghost use Rattle.report.specs.Report.{totals_line};
ghost use Rattle.case_runs.specs.Cuts.{case_cuts};
ghost use Rattle.runs.specs.CaseCuts.{losses_of};
ghost use Rattle.runs.specs.CaseRefusals.{RefusesAll};
ghost use Rattle.runs.specs.Tasks.{lines_of};
ghost use Rattle.runs.specs.Why.{starts_of};
ghost use Rattle.runs.specs.Cured.{Cures, RefusesRun};
ghost use Rattle.runs.specs.Trials.{HasFailures, IsFound, HasFound, TellsOn};

use crate::case_command::{cases_at, cuts_of_cases, losses_of};
use crate::explore_command::{Explored, Told, head_of_run};
use crate::task::{Task, input_of};
use arrayvec::ArrayVec;
use base::causes::RequestCause;
use base::refusal::{Cause, Refusal};
use case_text::cure_of_cases;
use checker::Checker;
use choices::Starts;
use epochs::Plan;
use images::History;
use logfmt::Log;
use losses::cure::{
    Added, Failure, add_missing, failures_of, put_begin, put_refused, put_round, uncured_line,
    windows_of,
};
use losses::flushes::Window;
use losses::found::CutFound;
use report::lines::Lines;
use report::{Head, Span, put_totals};
use request::{AnyLosses, Options, plan_of};
use std::alloc::{AllocError, Global};
use std::sync::Wait;
use std::thread::Threads;
use workers::{Gate, Work, explore_all, lines_are_set};

/// What judges a log in each run: its images, or its cases, where any number of losses is asked for.
#[derive(Clone, Copy)]
pub(crate) struct CureJudges<'x> {
    pub(crate) checkers: &'x [Checker<'x>],
    pub(crate) options: &'x Options,
    pub(crate) losses: Option<AnyLosses>,
}

/// What a run finds for a cure: its failures with their windows, the last line of its text, and how many judgements were taken from the
/// cache.
#[derive(Drop)]
pub(crate) struct CureFindings {
    pub(crate) failures: Vec<Failure>,
    pub(crate) last: String,
    pub(crate) hits: u64,
}

/// What a run of a log finds, and how a cure begins with it.
#[derive(Drop)]
pub(crate) struct CureRun {
    pub(crate) begin: Vec<u8>,
    pub(crate) found: CureFindings,
}

/// A log, and what a run of it finds.
#[derive(Drop)]
pub(crate) struct LogRun<'x> {
    pub(crate) log: Log<'x>,
    pub(crate) found: CureFindings,
}

/// The failures of a run, by its failing lines.
fn failures_of_lines(
    alloc: Global,
    task: &Task<'_>,
    starts: &Starts<'_>,
    lines: &Lines,
) -> Result<Vec<Failure>, AllocError>
    requires starts { starts.now ≡ starts_of task.now.options.now task.now.log.now }
    requires lines { lines.now ≡ lines_of task.now }
    ensures { IfOk result (λ fs. HasFailures task.now.options.now task.now.checkers.now task.now.log.now fs.items) }
{
    // A law of the failing lines, which does nothing: each is of an image of the run.
    lines_are_set();
    let marks = lines.marks(alloc)?;
    failures_of(alloc, task.options.by(), starts, task.log, marks.as_slice())
}

/// How a cure begins with a run of images: how it fails, and the first failure without a window.
fn begin_bytes(
    alloc: Global,
    head: &Head,
    lines: &Lines,
    failures: &[Failure],
) -> Result<Vec<u8>, AllocError>
    requires { length failures.now ≡ length lines.now }
    ensures { IfOk result (λ bytes. bytes.items ≡ begin_text head.now failures.now ++ uncured_text lines.now failures.now) }
{
    let mut out = String::new(alloc);
    put_begin(&mut out, head, failures)?;
    let line = uncured_line(alloc, lines, failures)?;
    let mut bytes = out.into_bytes();
    bytes.extend_from_slice(line.as_slice())?;
    Ok(bytes)
}

/// The last line of the report of a run.
fn last_line(alloc: Global, head: &Head, lines: &Lines) -> Result<String, AllocError>
    requires { IsNonDecreasing (map (λ l. l.image) lines.now) }
    ensures { IfOk result (λ last. string_bytes last ≡ totals_line head.now.images lines.now) }
{
    let mut last = String::new(alloc);
    put_totals(&mut last, head.images, lines)?;
    Ok(last)
}

/// What work says of a task.
fn found_by(
    alloc: Global,
    task: &Task<'_>,
    starts: &Starts<'_>,
    work: Work,
) -> Result<CureRun, AllocError>
    requires whole { task.now.options.now.extent ≡ extent.Whole }
    requires starts { starts.now ≡ starts_of task.now.options.now task.now.log.now }
    requires order { IsNonDecreasing (map (λ l. l.image) work.lines) }
    requires lines { work.lines ≡ lines_of task.now }
    ensures { IfOk result (λ run. IsFound None task.now.options.now task.now.checkers.now task.now.log.now run.found.failures.items run.begin.items (string_bytes run.found.last)) }
{
    let head = head_of_run(alloc, task, false)?;
    let failures = failures_of_lines(alloc, task, starts, &work.lines)?;
    let begin = begin_bytes(alloc, &head, &work.lines, failures.as_slice())?;
    let last = last_line(alloc, &head, &work.lines)?;
    Ok(CureRun {
        begin,
        found: CureFindings {
            failures,
            last,
            hits: work.hits,
        },
    })
}

/// What a run of a task finds by its images.
fn images_found<'x, G: Gate + Sync, R: Threads + Wait + Sync>(
    rt: &R,
    alloc: Global,
    gate: &G,
    task: &'x Task<'x>,
) -> Result<CureRun, Refusal>
    requires checkers { length task.now.checkers.now ≤ 8 }
    requires verified { AreFor task.now.options.now.sectors task.now.checkers.now }
    requires whole { task.now.options.now.extent ≡ extent.Whole }
    ensures found { IfOk result (λ run. IsFound None task.now.options.now task.now.checkers.now task.now.log.now run.found.failures.items run.begin.items (string_bytes run.found.last)) }
    ensures refused { IfErr result (λ r. r ≡ memory_refusal) }
{
    let (plan, options) = (task.plan, task.options);
    let history = match History::new(alloc, &*plan, &*task.log) {
        Ok(history) => history,
        Err(_error) => return Err(Refusal::of_memory()),
    };
    let (bound, tears) = (options.bound(), options.tears());
    let starts = match Starts::new(alloc, &*plan, bound, tears) {
        Ok(starts) => starts,
        Err(_error) => return Err(Refusal::of_memory()),
    };
    let input = input_of(&*task, &starts, &history, false);
    let work = explore_all(rt, alloc, gate, &input)?;
    match found_by(alloc, task, &starts, work) {
        Ok(run) => Ok(run),
        Err(_error) => Err(Refusal::of_memory()),
    }
}

/// What these cases of a task say.
fn run_of_cases(
    alloc: Global,
    task: &Task<'_>,
    losses: AnyLosses,
    cuts: &[u32],
    found: &[CutFound],
) -> Result<CureRun, AllocError>
    requires cuts { cuts.now ≡ case_cuts losses.at_most task.now.options.now.cuts task.now.log.now.entries }
    requires within { All (λ cut. cut ≤ length task.now.log.now.entries) cuts.now }
    requires found { AreFoundIn (losses_of losses task.now.options.now) task.now.log.now task.now.options.now.by cuts.now task.now.checkers.now found.now }
    requires small { length task.now.checkers.now ≤ 8 }
    requires few { cases_in found.now ≤ most_cases }
    requires whole { task.now.options.now.extent ≡ extent.Whole }
    ensures { IfOk result (λ run. IsFound (Some losses) task.now.options.now task.now.checkers.now task.now.log.now run.found.failures.items run.begin.items (string_bytes run.found.last)) }
{
    let _cuts = cuts;
    let head = head_of_run(alloc, task, false)?;
    let asked = losses_of(losses, task.options);
    let cure = cure_of_cases(alloc, &head, task.log, task.plan, asked, found)?;
    Ok(CureRun {
        begin: cure.begin,
        found: CureFindings {
            failures: cure.failures,
            last: cure.last,
            hits: 0,
        },
    })
}

/// What a run of a task finds by its cases.
fn cases_found<G: Gate + Sync, R: Threads + Sync>(
    rt: &R,
    alloc: Global,
    gate: &G,
    task: &Task<'_>,
    losses: AnyLosses,
) -> Result<CureRun, Refusal>
    requires checkers { length task.now.checkers.now ≤ 8 }
    requires verified { AreFor task.now.options.now.sectors task.now.checkers.now }
    requires whole { task.now.options.now.extent ≡ extent.Whole }
    ensures found { IfOk result (λ run. IsFound (Some losses) task.now.options.now task.now.checkers.now task.now.log.now run.found.failures.items run.begin.items (string_bytes run.found.last)) }
    ensures refused { IfErr result (RefusesAll losses task.now) }
{
    let cuts = match cuts_of_cases(alloc, task, losses) {
        Ok(cuts) => cuts,
        Err(_error) => return Err(Refusal::of_memory()),
    };
    let found = cases_at(rt, alloc, gate, task, losses, cuts.as_slice())?;
    match run_of_cases(alloc, task, losses, cuts.as_slice(), found.as_slice()) {
        Ok(run) => Ok(run),
        Err(_error) => Err(Refusal::of_memory()),
    }
}

/// What a run of a plan of a log that has that many images finds.
fn run_by<G: Gate + Sync, R: Threads + Wait + Sync>(
    rt: &R,
    alloc: Global,
    gate: &G,
    judges: &CureJudges<'_>,
    log: &Log<'_>,
    plan: &Plan<'_>,
    images: u64,
) -> Result<CureRun, Refusal>
    requires checkers { length judges.now.checkers.now ≤ 8 }
    requires verified { AreFor judges.now.options.now.sectors judges.now.checkers.now }
    requires whole { judges.now.options.now.extent ≡ extent.Whole }
    requires device { log.now.sectors ≡ judges.now.options.now.sectors }
    requires plan { plan.now ≡ plan_of judges.now.options.now log.now }
    requires count { images ≡ length (images_of judges.now.options.now log.now) }
    requires few { images ≤ most_images judges.now.options.now.extent }
    ensures found { IfOk result (λ run. IsFound judges.now.losses judges.now.options.now judges.now.checkers.now log.now run.found.failures.items run.begin.items (string_bytes run.found.last)) }
    ensures refused { IfErr result (RefusesRun judges.now.losses judges.now.options.now judges.now.checkers.now log.now) }
{
    let task = Task {
        log,
        plan,
        checkers: judges.checkers,
        options: judges.options,
        span: Span {
            from: 0,
            to: images,
            images,
            inputs: 0,
        },
    };
    match judges.losses {
        None => images_found(rt, alloc, gate, &task),
        Some(losses) => cases_found(rt, alloc, gate, &task, losses),
    }
}

/// What a run of a log finds.
fn run_of<G: Gate + Sync, R: Threads + Wait + Sync>(
    rt: &R,
    alloc: Global,
    gate: &G,
    judges: &CureJudges<'_>,
    log: &Log,
) -> Result<CureRun, Refusal>
    requires checkers { length judges.now.checkers.now ≤ 8 }
    requires verified { AreFor judges.now.options.now.sectors judges.now.checkers.now }
    requires whole { judges.now.options.now.extent ≡ extent.Whole }
    requires device { log.now.sectors ≡ judges.now.options.now.sectors }
    ensures found { IfOk result (λ run. IsFound judges.now.losses judges.now.options.now judges.now.checkers.now log.now run.found.failures.items run.begin.items (string_bytes run.found.last)) }
    ensures refused { IfErr result (RefusesRun judges.now.losses judges.now.options.now judges.now.checkers.now log.now) }
{
    let (plan, images) = plan_of(alloc, log, judges.options)?;
    run_by(rt, alloc, gate, judges, log, &plan, images)
}

/// Adds the flushes that are missing for these windows to a log, and tells of them.
fn next_log<'x>(
    alloc: Global,
    out: &mut String,
    round: u64,
    log: Log<'x>,
    windows: &[Window],
) -> Result<Added<'x>, AllocError>
    requires some { windows.now ≢ [] }
    requires inside { AreWindows (length log.entries) windows.now }
    requires calm { HoldNoFlush log.entries windows.now }
    ensures missing { IfOk result (λ added. AreMissing windows.now added.flushes.items) }
    ensures log { IfOk result (λ added. added.log ≡ with_flushes (places_in added.flushes.items) log.entry) }
    ensures fewer { IfOk result (λ added. calm_entries added.log.entries < calm_entries log.entry.entries) }
    ensures told { IfOk result (λ added. string_bytes out.new ≡ string_bytes out.old ++ flat_map (flush_line round) added.flushes.items) }
{
    let added = add_missing(alloc, log, windows)?;
    match put_round(out, round, added.flushes.as_slice()) {
        Ok(()) => Ok(added),
        Err(error) => Err(error),
    }
}

/// Tells that a run has too many images or cases, where it was refused for this. Else there was no memory for it.
fn end_refused(out: &mut String, refusal: Refusal) -> Result<(), AllocError>
    requires { (refusal ≡ images_refusal refusal.at) ⊎ (refusal ≡ memory_refusal) }
    ensures cause { OnOk result (refusal ≡ images_refusal refusal.at) }
    ensures told { OnOk result (string_bytes out.new ≡ string_bytes out.old ++ refused_line refusal.at) }
{
    match refusal.code {
        Cause::Request(RequestCause::TooManyImages) => match put_refused(out, refusal.at) {
            Ok(()) => Ok(()),
            Err(error) => Err(error),
        },
        _ => Err(AllocError),
    }
}

/// Makes run after run, until no failure has a window or a run has too many images or cases, and tells of the rounds and of the last run.
/// It answers how many judgements were taken from the cache, with those of the first run.
fn all_rounds<G: Gate + Sync, R: Threads + Wait + Sync>(
    rt: &R,
    alloc: Global,
    gate: &G,
    judges: &CureJudges<'_>,
    out: &mut String,
    first: LogRun<'_>,
) -> Result<u64, AllocError>
    requires checkers { length judges.now.checkers.now ≤ 8 }
    requires verified { AreFor judges.now.options.now.sectors judges.now.checkers.now }
    requires whole { judges.now.options.now.extent ≡ extent.Whole }
    requires log { IsLog first.log }
    requires device { first.log.sectors ≡ judges.now.options.now.sectors }
    requires found { HasFound judges.now.losses judges.now.options.now judges.now.checkers.now first.log first.found.failures.items (string_bytes first.found.last) }
    ensures told { IfOk result (λ hits. TellsOn judges.now.losses judges.now.options.now judges.now.checkers.now first.entry.log (string_bytes out.old) (string_bytes out.new)) }
{
    let LogRun { mut log, mut found } = first;
    let mut hits = found.hits;
    let mut windows = windows_of(alloc, found.failures.as_slice())?;
    let mut round = 1;
    while !windows.is_empty() {
        let added = next_log(alloc, out, round, log, windows.as_slice())?;
        log = added.log;
        let made = match run_of(rt, alloc, gate, judges, &log) {
            Ok(made) => made,
            Err(refusal) => {
                end_refused(out, refusal)?;
                return Ok(hits);
            }
        };
        found = made.found;
        hits = hits.saturating_add(found.hits);
        windows = windows_of(alloc, found.failures.as_slice())?;
        round += 1;
    }
    out.push_str(found.last.as_str())?;
    Ok(hits)
}

/// Returns both texts, one after the other.
fn join_texts(begin: Vec<u8>, rounds: &str) -> Result<Vec<u8>, Refusal>
    ensures bytes { IfOk result (λ bytes. bytes.items ≡ begin.items ++ rounds.now) }
    ensures refused { IfErr result (λ r. r ≡ memory_refusal) }
{
    let mut bytes = begin;
    match bytes.extend_from_slice(rounds.as_bytes()) {
        Ok(()) => Ok(bytes),
        Err(_error) => Err(Refusal::of_memory()),
    }
}

/// The cure of a log, tried: by its images, or by its cases where any number of losses is asked for.
pub(crate) fn cured_log<'x, G: Gate + Sync, R: Threads + Wait + Sync>(
    rt: &R,
    alloc: Global,
    gate: &G,
    checkers: &'x [Checker<'x>],
    options: &'x Options,
    losses: Option<AnyLosses>,
    log: Log<'_>,
) -> Result<Told, Refusal>
    requires checkers { length checkers.now ≤ 8 }
    requires verified { AreFor options.now.sectors checkers.now }
    requires whole { options.now.extent ≡ extent.Whole }
    requires log { IsLog log }
    requires device { log.sectors ≡ options.now.sectors }
    ensures cured { IfOk result (λ t. Cures losses options.now log.entry checkers.now t.explored.bytes.items t.explored.failing) }
    ensures blind { IfOk result (λ t. t.blind.items ≡ []) }
    ensures left { IfOk result (λ t. t.left_out ≡ None) }
    ensures refused { IfErr result (RefusesRun losses options.now checkers.now log.entry) }
{
    let judges = CureJudges {
        checkers,
        options,
        losses,
    };
    let made = run_of(rt, alloc, gate, &judges, &log)?;
    let failing = !made.found.failures.is_empty();
    let mut rounds = String::new(alloc);
    let first = LogRun {
        log,
        found: made.found,
    };
    let hits = match all_rounds(rt, alloc, gate, &judges, &mut rounds, first) {
        Ok(hits) => hits,
        Err(_error) => return Err(Refusal::of_memory()),
    };
    let bytes = join_texts(made.begin, rounds.as_str())?;
    Ok(Told {
        explored: Explored {
            bytes,
            hits,
            failing,
        },
        blind: ArrayVec::new(),
        left_out: None,
    })
}
