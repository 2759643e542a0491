//! From the checkers of a run to the text of its failing cases, whatever is lost.

ghost use Rattle.std.specs.Prelude.{◌≡◌, ◌≤◌, length, map, true, false, All, IfOk, IfErr};
ghost use Rattle.checker.specs.Checker.{AreFor};
ghost use Rattle.losses.specs.FoundCases.{cases_in, most_cases};
ghost use Rattle.case_runs.specs.Found.{AreFoundIn};
ghost use Rattle.case_runs.specs.First.{IsSought, IsFirstFailing};
ghost use Rattle.case_text.specs.Text.{is_any_failing};
ghost use Rattle.case_runs.specs.Cuts.{case_cuts};
ghost use Rattle.runs.specs.Blind.{is_noticed};
ghost use Rattle.runs.specs.CaseCuts.{losses_of, left_out_of};
ghost use Rattle.runs.specs.Cases.{IsTextOf, TellsCases, TellsFirst, TellsLeft, TellsLosses};
ghost use Rattle.runs.specs.CaseRefusals.{StopsFor, RefusesForLog, RefusesFor, RefusesAll};
ghost use Rattle.runs.specs.Judged.{IsJudged};
ghost use Rattle.request.specs.Source.{images_of, plan_of};

use crate::blind::find_blind_of;
use crate::explore_command::{Explored, Told, head_of_run};
use crate::task::Task;
use base::causes::RequestCause;
use base::refusal::{Cause, Refusal};
use case_page::case_page;
use case_runs::{CaseGate, SearchFault, Sought, case_cuts, find_failing, find_first};
use case_text::{is_any_failing, left_out, write_cases, write_first, write_why};
use checker::Checker;
use epochs::Plan;
use logfmt::Log;
use losses::found::{CutFound, FirstCase, Losses};
use report::{Head, Span};
use request::facts::LeftOut;
use request::{AnyLosses, CaseTelling, Options};
use std::alloc::{AllocError, Global};
use std::thread::Threads;
use workers::Gate;

/// What is told of cases, and how many were left out, where none that was judged fails.
#[derive(Drop)]
struct ToldCases {
    explored: Explored,
    left_out: Option<LeftOut>,
}

/// The gate of a run, told of cases one by one: before each run of a program, and after each case, as of a block.
#[derive(Drop)]
struct CasesOf<'g, G> {
    gate: &'g G,
}

impl<'g, G: Gate> CaseGate for CasesOf<'g, G> {
    fn run(&self) {
        self.gate.before(0, 0);
    }

    fn case(&self) {
        self.gate.after(0, 0);
    }
}

/// What is asked of the cases of a run.
pub(crate) fn losses_of(losses: AnyLosses, options: &Options) -> Losses
    ensures { result ≡ losses_of losses options.now }
{
    Losses {
        tears: options.tears(),
        torn: losses.torn,
        lost: losses.at_most,
    }
}

/// The cuts at which cases are looked for.
pub(crate) fn cuts_of_cases(
    alloc: Global,
    task: &Task<'_>,
    losses: AnyLosses,
) -> Result<Vec<u32>, AllocError>
    ensures value { IfOk result (λ cuts. cuts.items ≡ case_cuts losses.at_most task.now.options.now.cuts task.now.log.now.entries) }
    ensures within { IfOk result (λ cuts. All (λ cut. cut ≤ length task.now.log.now.entries) cuts.items) }
{
    let cuts = task.options.cuts();
    case_cuts(alloc, task.plan, task.log, &cuts, losses.at_most)
}

/// The refusal that says why cases weren't found.
fn refusal_of(fault: SearchFault) -> Refusal
    ensures { StopsFor fault result }
{
    match fault {
        SearchFault::Memory => Refusal::of_memory(),
        SearchFault::TooMany(cut) => Refusal {
            code: Cause::Request(RequestCause::TooManyImages),
            at: u64::from(cut),
            program: None,
        },
    }
}

/// The failing cases at some cuts.
pub(crate) fn cases_at<G: Gate + Sync, R: Threads + Sync>(
    rt: &R,
    alloc: Global,
    gate: &G,
    task: &Task<'_>,
    losses: AnyLosses,
    cuts: &[u32],
) -> Result<Vec<CutFound>, Refusal>
    requires cuts { cuts.now ≡ case_cuts losses.at_most task.now.options.now.cuts task.now.log.now.entries }
    requires within { All (λ cut. cut ≤ length task.now.log.now.entries) cuts.now }
    requires verified { AreFor task.now.options.now.sectors task.now.checkers.now }
    ensures found { IfOk result (λ found. AreFoundIn (losses_of losses task.now.options.now) task.now.log.now task.now.options.now.by cuts.now task.now.checkers.now found.items) }
    ensures few { IfOk result (λ found. cases_in found.items ≤ most_cases) }
    ensures refused { IfErr result (RefusesAll losses task.now) }
{
    let asked = losses_of(losses, task.options);
    match find_failing(
        rt,
        alloc,
        &CasesOf { gate },
        task.plan,
        task.log,
        task.options.by(),
        cuts,
        task.checkers,
        asked,
        u32::from(task.options.workers()),
    ) {
        Ok(found) => Ok(found),
        Err(fault) => Err(refusal_of(fault)),
    }
}

/// How many cases were left out, where none that was found fails.
fn left_out_of(found: &[CutFound]) -> Option<LeftOut>
    ensures { result ≡ left_out_of found.now }
{
    if is_any_failing(found) {
        return None;
    }
    let (torn, lost) = left_out(found);
    Some(LeftOut { torn, lost })
}

/// The text of what was found: which cases fail, why they do, or the page of them.
fn bytes_of(
    alloc: Global,
    task: &Task<'_>,
    losses: AnyLosses,
    head: &Head,
    found: &[CutFound],
) -> Result<Vec<u8>, AllocError>
    requires cuts { All (λ cut. cut.cut ≤ length task.now.log.now.entries) found.now }
    requires few { All (λ cut. length cut.programs.items ≤ 256) found.now }
    ensures { IfOk result (λ bytes. IsTextOf losses.telling task.now.span.inputs head.now (losses_of losses task.now.options.now) task.now.log.now found.now bytes.items) }
{
    let asked = losses_of(losses, task.options);
    match losses.telling {
        CaseTelling::Cases => write_cases(
            alloc,
            task.span.inputs,
            head,
            task.log,
            task.plan,
            asked,
            found,
        ),
        CaseTelling::Causes => write_why(alloc, head, task.log, task.plan, asked, found),
        CaseTelling::Page => case_page(alloc, head, task.log, task.plan, asked, found),
    }
}

/// The text of what was found, and how many cases were left out.
#[tactic(auto, using(crate::proofs::Casing::left_told))]
fn text_of(
    alloc: Global,
    task: &Task<'_>,
    losses: AnyLosses,
    cuts: &[u32],
    found: &[CutFound],
) -> Result<ToldCases, AllocError>
    requires cuts { cuts.now ≡ case_cuts losses.at_most task.now.options.now.cuts task.now.log.now.entries }
    requires within { All (λ cut. cut ≤ length task.now.log.now.entries) cuts.now }
    requires found { AreFoundIn (losses_of losses task.now.options.now) task.now.log.now task.now.options.now.by cuts.now task.now.checkers.now found.now }
    requires small { length task.now.checkers.now ≤ 8 }
    requires few { cases_in found.now ≤ most_cases }
    ensures told { IfOk result (λ t. TellsCases task.now.span.inputs losses task.now.options.now task.now.log.now task.now.checkers.now t.explored.bytes.items t.explored.failing) }
    ensures failing { IfOk result (λ t. t.explored.failing ≡ is_any_failing found.now) }
    ensures left { IfOk result (λ t. TellsLeft losses task.now.options.now task.now.log.now task.now.checkers.now t.explored.failing t.left_out) }
{
    let _cuts = cuts;
    let head = head_of_run(alloc, task, false)?;
    let bytes = bytes_of(alloc, task, losses, &head, found)?;
    Ok(ToldCases {
        explored: Explored {
            bytes,
            hits: 0,
            failing: is_any_failing(found),
        },
        left_out: left_out_of(found),
    })
}

/// The text of the first failing case.
fn first_text_of(
    alloc: Global,
    task: &Task<'_>,
    losses: AnyLosses,
    cuts: &[u32],
    first: &FirstCase,
) -> Result<ToldCases, AllocError>
    requires cuts { cuts.now ≡ case_cuts losses.at_most task.now.options.now.cuts task.now.log.now.entries }
    requires within { All (λ cut. cut ≤ length task.now.log.now.entries) cuts.now }
    requires first { IsFirstFailing (losses_of losses task.now.options.now) task.now.log.now task.now.options.now.by cuts.now task.now.checkers.now first.now }
    ensures left { IfOk result (λ t. TellsLeft losses task.now.options.now task.now.log.now task.now.checkers.now t.explored.failing t.left_out) }
    ensures told { IfOk result (λ t. TellsFirst task.now.span.inputs losses task.now.options.now task.now.log.now task.now.checkers.now t.explored.bytes.items t.explored.failing) }
{
    let _cuts = cuts;
    let head = head_of_run(alloc, task, false)?;
    let asked = losses_of(losses, task.options);
    let bytes = write_first(alloc, &head, task.log, task.plan, asked, first)?;
    Ok(ToldCases {
        explored: Explored {
            bytes,
            hits: 0,
            failing: true,
        },
        left_out: None,
    })
}

/// The text of what was found where the first failing case was looked for.
fn sought_text_of(
    alloc: Global,
    task: &Task<'_>,
    losses: AnyLosses,
    cuts: &[u32],
    sought: &Sought,
) -> Result<ToldCases, AllocError>
    requires cuts { cuts.now ≡ case_cuts losses.at_most task.now.options.now.cuts task.now.log.now.entries }
    requires within { All (λ cut. cut ≤ length task.now.log.now.entries) cuts.now }
    requires small { length task.now.checkers.now ≤ 8 }
    requires found { IsSought (losses_of losses task.now.options.now) task.now.log.now task.now.options.now.by cuts.now task.now.checkers.now sought.now }
    ensures left { IfOk result (λ t. TellsLeft losses task.now.options.now task.now.log.now task.now.checkers.now t.explored.failing t.left_out) }
    ensures told { IfOk result (λ t. TellsFirst task.now.span.inputs losses task.now.options.now task.now.log.now task.now.checkers.now t.explored.bytes.items t.explored.failing) }
{
    match sought {
        Sought::Passing(found) => text_of(alloc, task, losses, cuts, found.as_slice()),
        Sought::Failing(first) => first_text_of(alloc, task, losses, cuts, first),
    }
}

/// The first failing case at some cuts, told as a text.
fn first_told<G: Gate>(
    alloc: Global,
    gate: &G,
    task: &Task<'_>,
    losses: AnyLosses,
    cuts: &[u32],
) -> Result<ToldCases, Refusal>
    requires cuts { cuts.now ≡ case_cuts losses.at_most task.now.options.now.cuts task.now.log.now.entries }
    requires within { All (λ cut. cut ≤ length task.now.log.now.entries) cuts.now }
    requires verified { AreFor task.now.options.now.sectors task.now.checkers.now }
    requires small { length task.now.checkers.now ≤ 8 }
    requires first { task.now.options.now.first ≡ true }
    ensures left { IfOk result (λ t. TellsLeft losses task.now.options.now task.now.log.now task.now.checkers.now t.explored.failing t.left_out) }
    ensures told { IfOk result (λ t. TellsFirst task.now.span.inputs losses task.now.options.now task.now.log.now task.now.checkers.now t.explored.bytes.items t.explored.failing) }
    ensures refused { IfErr result (RefusesFor losses task.now) }
{
    let asked = losses_of(losses, task.options);
    let sought = match find_first(
        alloc,
        &CasesOf { gate },
        task.plan,
        task.log,
        task.options.by(),
        cuts,
        task.checkers,
        asked,
    ) {
        Ok(sought) => sought,
        Err(fault) => return Err(refusal_of(fault)),
    };
    match sought_text_of(alloc, task, losses, cuts, &sought) {
        Ok(told) => Ok(told),
        Err(_error) => Err(Refusal::of_memory()),
    }
}

/// The failing cases of a task, told as a text; or the first of them alone, where that is asked for.
fn cases_told<G: Gate + Sync, R: Threads + Sync>(
    rt: &R,
    alloc: Global,
    gate: &G,
    task: &Task<'_>,
    losses: AnyLosses,
) -> Result<ToldCases, Refusal>
    requires verified { AreFor task.now.options.now.sectors task.now.checkers.now }
    requires small { length task.now.checkers.now ≤ 8 }
    ensures left { IfOk result (λ t. TellsLeft losses task.now.options.now task.now.log.now task.now.checkers.now t.explored.failing t.left_out) }
    ensures told { IfOk result (λ t. TellsLosses task.now.options.now.first task.now.span.inputs losses task.now.options.now task.now.log.now task.now.checkers.now t.explored.bytes.items t.explored.failing) }
    ensures refused { IfErr result (RefusesFor losses task.now) }
{
    let cuts = match cuts_of_cases(alloc, task, losses) {
        Ok(cuts) => cuts,
        Err(_error) => return Err(Refusal::of_memory()),
    };
    if task.options.first() {
        return first_told(alloc, gate, task, losses, cuts.as_slice());
    }
    let found = cases_at(rt, alloc, gate, task, losses, cuts.as_slice())?;
    match text_of(alloc, task, losses, cuts.as_slice(), found.as_slice()) {
        Ok(told) => Ok(told),
        Err(_error) => Err(Refusal::of_memory()),
    }
}

/// The failing cases of a log, as its plan has its cuts, told as a text; or the first of them alone, where that is asked for. Where none
/// fails, it is told how many were left out. It is found which programs pass without looking at what the log writes.
pub(crate) fn told_cases<G: Gate + Sync, R: Threads + Sync>(
    rt: &R,
    alloc: Global,
    gate: &G,
    losses: AnyLosses,
    log: &Log<'_>,
    plan: &Plan<'_>,
    checkers: &[Checker<'_>],
    options: &Options,
    span: Span,
) -> Result<Told, Refusal>
    requires plan { plan.now ≡ plan_of options.now log.now }
    requires device { log.now.sectors ≡ options.now.sectors }
    requires judged { IsJudged options.now.extent (length (images_of options.now log.now)) span }
    requires verified { AreFor options.now.sectors checkers.now }
    requires small { length checkers.now ≤ 8 }
    ensures left { IfOk result (λ t. TellsLeft losses options.now log.now checkers.now t.explored.failing t.left_out) }
    ensures told { IfOk result (λ t. TellsLosses options.now.first span.inputs losses options.now log.now checkers.now t.explored.bytes.items t.explored.failing) }
    ensures blind { IfOk result (λ t. t.blind.items ≡ map (is_noticed plan.now) checkers.now) }
    ensures refused { IfErr result (RefusesForLog losses options.now log.now checkers.now) }
{
    let task = Task {
        log,
        plan,
        checkers,
        options,
        span,
    };
    let blind = match find_blind_of(alloc, &task) {
        Ok(blind) => blind,
        Err(_error) => return Err(Refusal::of_memory()),
    };
    match cases_told(rt, alloc, gate, &task, losses) {
        Ok(told) => Ok(Told {
            explored: told.explored,
            blind,
            left_out: told.left_out,
        }),
        Err(refusal) => Err(refusal),
    }
}
