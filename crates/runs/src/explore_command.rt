//! From the bytes of a log and of programs to the bytes of the report, or to why the programs fail.

ghost use Rattle.std.specs.Prelude.{◌≡◌, ◌≢◌, ◌≤◌, ◌<◌, ◌+◌, ◌⊎◌, ◌↔◌, IsTrue, ◌++◌, ◌∷◌, [], length, map, true, false, IfOk, IfErr, OnOk, None, Some};
ghost use Rattle.base.specs.declared.causes.CodeCause.TheVariants as code;
ghost use Rattle.bpf_isa.specs.Program.{IsSpelledBy, HasNoFault};
ghost use Rattle.std.specs.List.Sorted.{IsNonDecreasing};
ghost use Rattle.checker.specs.Checker.{AreFor};
ghost use Rattle.base.specs.Refusals.{memory_refusal};
ghost use Rattle.request.specs.Extents.{is_extent, most_images, has_extent};
ghost use Rattle.request.specs.Source.{RefusesPlan, images_of, plan_of};
ghost use Rattle.workers.specs.Failing.{failing_lines};
ghost use Rattle.runs.specs.Explore.{HasReport, IsReport, IsReportOfRun, IsProgramCount, RefusesWanted, program_head, head_of, subject_of};
ghost use Rattle.request.specs.Inputs.{inputs_number};
ghost use Rattle.runs.specs.Inputs.{number_told};
ghost use Rattle.runs.specs.Cases.{FindsLeft};
ghost use Rattle.runs.specs.Judged.{takes, IsJudged};
ghost use Rattle.runs.specs.declared.explore_command.WantedAnswer.TheVariants as wants;
ghost use Rattle.request.specs.declared.settings.Telling.TheVariants as tells;
ghost use Rattle.runs.specs.Why.{Tells, with_first, first_asked, starts_of};
ghost use Rattle.runs.specs.Blind.{is_noticed, FindsBlind};
ghost use Rattle.runs.specs.Cured.{IsAnswered};
ghost use Rattle.runs.specs.Tasks.{lines_of, telling_in, TellsTask};
ghost use Rattle.runs.specs.Found.{AreFound};
ghost use Rattle.runs.specs.Finds.{IsUnreachedOf, AreUnreached, FindsUnreached};
ghost use Rattle.request.specs.Found.{IsUnreached};
ghost use Rattle.runs.specs.Programs.{IsRunWithin, IsCodeFault, IsUnaccepted, code_refusal, verifier_refusal, AreDecoded, AreFirstMade, RefusesOneOf};

use crate::blind::find_blind;
use crate::case_command::told_cases;
use crate::causes::causes_text;
use crate::curing::cured_log;
use crate::paging::page_bytes;
use crate::task::{Findings, Task, input_of};
use arrayvec::ArrayVec;
use base::refusal::{Cause, Refusal};
use bpf_isa::codec::decode;
use bpf_isa::program::{CodeFault, Program};
use bpf_shape::Fault;
use case_text::has_range;
use checker::Checker;
use choices::Starts;
use epochs::Plan;
use images::{History, initial_number};
use logfmt::Log;
use losses::outcomes::printed_text;
use report::lines::Lines;
use report::{Head, ProgramHead, Span, write_part, write_report};
use request::facts::{LeftOut, Recording, RunFacts};
use request::{
    AnyLosses, CaseTelling, Extent, MOST_PROGRAMS, OptionPlace, Options, Telling, number_of_inputs,
    option_refusal_of, plan_of,
};
use std::alloc::{AllocError, Global};
use std::sync::Wait;
use std::thread::Threads;
use verifier::{Unreached, unreached_of, verify_with};
use workers::{Gate, OpenGate, accepted_checkers_run_safely, explore_all, lines_are_set};

/// What a run answers.
#[derive(Drop)]
pub struct Explored {
    /// The report, of the first failing image alone where that was asked for; or why programs fail.
    pub bytes: Vec<u8>,
    /// How many judgements were taken from the cache, at most 2^64 - 1.
    pub hits: u64,
    /// Whether there is a failing image.
    pub failing: bool,
}

/// What a run answers, with what it knows for the notes.
#[derive(Drop)]
pub struct RunAnswer {
    pub explored: Explored,
    pub facts: RunFacts,
}

/// What is told of a run, and what is known of its programs and cases by then.
#[derive(Drop)]
pub(crate) struct Told {
    pub(crate) explored: Explored,
    /// Whether each program passes without looking at what the log writes; nothing where that isn't looked for.
    pub(crate) blind: ArrayVec<bool, 8>,
    /// How many cases were left out, where none that was judged fails.
    pub(crate) left_out: Option<LeftOut>,
}

/// What a run answers that told this, by what no run reaches of its programs.
fn answer_of(told: Told, unreached: ArrayVec<Option<Unreached>, 8>) -> RunAnswer
    ensures explored { result.explored ≡ told.explored }
    ensures unreached { result.facts.unreached ≡ unreached }
    ensures blind { result.facts.blind ≡ told.blind }
    ensures left_out { result.facts.left_out ≡ told.left_out }
{
    RunAnswer {
        explored: told.explored,
        facts: RunFacts {
            unreached,
            blind: told.blind,
            left_out: told.left_out,
            untold: None,
        },
    }
}

/// Whether a run may have that many programs.
pub(crate) fn is_program_count(count: usize) -> bool
    ensures { IsTrue result ↔ IsProgramCount count }
{
    count >= 1 && count <= usize::from(MOST_PROGRAMS)
}

/// The program that these bytes spell.
fn decode_one(alloc: Global, number: u8, file: &[u8]) -> Result<Program, Refusal>
    ensures spelled { IfOk result (IsSpelledBy file.now) }
    ensures clean { OnOk result (HasNoFault file.now) }
    ensures refused { IfErr result (λ r. (r ≡ code_refusal number code.Memory 0) ⊎ IsCodeFault number file.now r) }
{
    match decode(alloc, file) {
        Ok(program) => Ok(program),
        Err(fault) => Err(Refusal {
            code: Cause::Code(fault.code),
            at: fault.slot,
            program: Some(number),
        }),
    }
}

/// Appends a program.
fn push_program(programs: &mut Vec<Program>, program: Program) -> Result<(), Refusal>
    ensures pushed { OnOk result (programs.new.items ≡ programs.old.items ++ program ∷ []) }
    ensures refused { IfErr result (λ r. r ≡ memory_refusal) }
{
    match programs.push(program) {
        Ok(()) => Ok(()),
        Err(_failed) => Err(Refusal::of_memory()),
    }
}

/// The programs that were decoded, up to the first that can't be, and its refusal.
#[derive(Drop)]
pub(crate) struct Decoded {
    pub(crate) programs: Vec<Program>,
    pub(crate) refusal: Option<Refusal>,
}

/// Decodes the programs in their order, up to the first that can't be decoded.
pub(crate) fn decode_all(alloc: Global, files: &[Vec<u8>]) -> Result<Decoded, Refusal>
    requires { length files.now ≤ 8 }
    ensures decoded { IfOk result (λ d. AreDecoded (map (λ f. f.items) files.now) d.programs.items d.refusal) }
    ensures refused { IfErr result (λ r. r ≡ memory_refusal) }
{
    let mut programs = Vec::new(alloc);
    for (number, file) in files.iter().enumerate() {
        match decode_one(alloc, number as u8, file.as_slice()) {
            Ok(program) => push_program(&mut programs, program)?,
            Err(refusal) => {
                return Ok(Decoded {
                    programs,
                    refusal: Some(refusal),
                });
            }
        }
    }
    Ok(Decoded {
        programs,
        refusal: None,
    })
}

/// The refusal that says why the verifier refuses a program.
fn verifier_refusal_of(number: u8, fault: Fault) -> Refusal
    ensures { result ≡ verifier_refusal number fault.code fault.slot }
{
    Refusal {
        code: Cause::Verifier(fault.code),
        at: fault.slot,
        program: Some(number),
    }
}

/// A program as a checker, and what no run reaches of it; none where it isn't verified.
#[derive(Drop)]
struct MadeChecker<'p> {
    checker: Checker<'p>,
    unreached: Option<Unreached>,
}

/// A program as a checker where no limit of steps is asked for: verified, with guards or without.
#[tactic(auto, using(crate::proofs::Fitting::accepted_within))]
fn verified_checker<'p>(
    alloc: Global,
    number: u8,
    program: &'p Program,
    options: &Options,
) -> Result<MadeChecker<'p>, Refusal>
    requires unlimited { options.now.checked ≡ None }
    ensures program { IfOk result (λ made. made.checker.program ≡ program.now) }
    ensures within { IfOk result (λ made. IsRunWithin options.now.checked options.now.guards options.now.sectors made.checker) }
    ensures unreached { IfOk result (λ made. IsUnreached program.now options.now.sectors made.unreached) }
    ensures refused { IfErr result (IsUnaccepted options.now number program.now) }
{
    match verify_with(alloc, program, options.sectors(), options.guards()) {
        Ok(verified) => match Checker::verified(alloc, &verified) {
            Ok(checker) => Ok(MadeChecker {
                checker,
                unreached: unreached_of(&verified),
            }),
            Err(error) => Err(verifier_refusal_of(number, Fault::from(error))),
        },
        Err(unaccepted) => Err(verifier_refusal_of(number, unaccepted.fault)),
    }
}

/// A program as a checker: with the limit of steps that is asked for, or verified.
fn checker_of<'p>(
    alloc: Global,
    number: u8,
    program: &'p Program,
    options: &Options,
) -> Result<MadeChecker<'p>, Refusal>
    ensures program { IfOk result (λ made. made.checker.program ≡ program.now) }
    ensures within { IfOk result (λ made. IsRunWithin options.now.checked options.now.guards options.now.sectors made.checker) }
    ensures unreached { IfOk result (λ made. IsUnreachedOf options.now.checked options.now.sectors program.now made.unreached) }
    ensures refused { IfErr result (IsUnaccepted options.now number program.now) }
{
    match options.step_limit() {
        Some(limit) => Ok(MadeChecker {
            checker: Checker::limited(program, limit),
            unreached: None,
        }),
        None => verified_checker(alloc, number, program, options),
    }
}

/// Appends a checker.
fn push_checker<'p>(checkers: &mut Vec<Checker<'p>>, checker: Checker<'p>) -> Result<(), Refusal>
    ensures pushed { OnOk result (checkers.new.items ≡ checkers.old.items ++ checker.entry ∷ []) }
    ensures refused { IfErr result (λ r. r ≡ memory_refusal) }
{
    match checkers.push(checker) {
        Ok(()) => Ok(()),
        Err(_failed) => Err(Refusal::of_memory()),
    }
}

/// Programs as checkers, and what no run reaches of each of them.
#[derive(Drop)]
pub(crate) struct MadeCheckers<'p> {
    pub(crate) checkers: Vec<Checker<'p>>,
    pub(crate) unreached: ArrayVec<Option<Unreached>, 8>,
}

/// The programs as checkers.
pub(crate) fn checkers_of<'p>(
    alloc: Global,
    programs: &'p [Program],
    options: &Options,
) -> Result<MadeCheckers<'p>, Refusal>
    requires few { length programs.now ≤ 8 }
    ensures made { IfOk result (λ made. AreFirstMade options.now programs.now made.checkers.items) }
    ensures all { IfOk result (λ made. length made.checkers.items ≡ length programs.now) }
    ensures unreached { IfOk result (λ made. AreUnreached options.now.checked options.now.sectors programs.now made.unreached.items) }
    ensures refused { IfErr result (RefusesOneOf options.now programs.now) }
{
    let mut checkers = Vec::new(alloc);
    let mut unreached = ArrayVec::new();
    for (number, program) in programs.iter().enumerate() {
        let made = checker_of(alloc, number as u8, program, options)?;
        unreached.push(made.unreached);
        push_checker(&mut checkers, made.checker)?;
    }
    Ok(MadeCheckers {
        checkers,
        unreached,
    })
}

/// What the report says of each checker at its head.
fn program_heads(alloc: Global, checkers: &[Checker<'_>]) -> Result<Vec<ProgramHead>, AllocError>
    ensures { IfOk result (λ heads. heads.items ≡ map program_head checkers.now) }
{
    let mut heads = Vec::new(alloc);
    for checker in checkers {
        heads.push(ProgramHead {
            slots: checker.slots(),
            limit: checker.limit(),
            verified: checker.is_verified(),
            guards: checker.guards(),
        })?;
    }
    Ok(heads)
}

/// What stands at the head of a text, of which it is said whether it is of the first failing image alone.
#[tactic(auto, unfolding(crate::specs::Explore::head_of))]
pub(crate) fn head_of_run(alloc: Global, task: &Task<'_>, first: bool) -> Result<Head, AllocError>
    ensures { IfOk result (λ head. head ≡ head_of (with_first first task.now.options.now) task.now.log.now task.now.checkers.now) }
{
    let options = task.options;
    Ok(Head {
        sectors: options.sectors(),
        entries: task.log.entries().len() as u32,
        cuts: options.cuts(),
        bound: options.bound(),
        tears: options.tears(),
        by: options.by(),
        first,
        programs: program_heads(alloc, task.checkers)?,
        images: task.span.images,
        base: initial_number(task.log),
    })
}

/// The report of what was found, or the text of the part that is meant.
fn report_of(alloc: Global, task: &Task<'_>, lines: &Lines) -> Result<Vec<u8>, AllocError>
    requires order { IsNonDecreasing (map (λ l. l.image) lines.now) }
    requires lines { AreFound task.now.options.now.first (lines_of task.now) lines.now }
    ensures { IfOk result (λ bytes. TellsTask tells.Report task.now bytes.items) }
{
    let head = head_of_run(alloc, task, task.options.first())?;
    match task.options.extent() {
        Extent::Part {
            from: _from,
            to: _to,
        } => write_part(alloc, &head, task.span, lines),
        _ => write_report(alloc, &head, lines),
    }
}

/// The form in which it is told why programs fail.
#[derive(Clone, Copy)]
pub(crate) enum CauseForm {
    /// A text.
    Text,
    /// A page for a browser.
    Page,
}

/// Why the programs fail, in that form, by all failing lines.
fn why_of(
    alloc: Global,
    form: CauseForm,
    task: &Task<'_>,
    starts: &Starts<'_>,
    history: &History<'_>,
    lines: &Lines,
) -> Result<Vec<u8>, AllocError>
    requires starts { starts.now ≡ starts_of task.now.options.now task.now.log.now }
    requires history { history.now ≡ task.now.plan.now }
    requires order { IsNonDecreasing (map (λ l. l.image) lines.now) }
    requires lines { lines.now ≡ lines_of task.now }
    ensures { IfOk result (λ bytes. TellsTask (telling_in form) task.now bytes.items) }
{
    let text = printed_text(alloc, lines)?;
    let marks = lines.marks(alloc)?;
    let head = head_of_run(alloc, task, false)?;
    // A law of the failing lines, which does nothing: they are in their order, and so are those of each program.
    lines_are_set();
    let findings = Findings {
        task,
        starts,
        history,
        lines,
        text: text.as_str(),
        marks: marks.as_slice(),
    };
    match form {
        CauseForm::Text => causes_text(alloc, &head, &findings),
        CauseForm::Page => page_bytes(alloc, &head, &findings),
    }
}

/// What is to be told of the failing lines that were found.
fn tell(
    alloc: Global,
    telling: Telling,
    task: &Task<'_>,
    starts: &Starts<'_>,
    history: &History<'_>,
    lines: &Lines,
) -> Result<Vec<u8>, AllocError>
    requires starts { starts.now ≡ starts_of task.now.options.now task.now.log.now }
    requires history { history.now ≡ task.now.plan.now }
    requires order { IsNonDecreasing (map (λ l. l.image) lines.now) }
    requires lines { AreFound (first_asked telling task.now.options.now.first) (lines_of task.now) lines.now }
    ensures { IfOk result (λ bytes. TellsTask telling task.now bytes.items) }
{
    match telling {
        Telling::Report => report_of(alloc, task, lines),
        Telling::Causes => why_of(alloc, CauseForm::Text, task, starts, history, lines),
        Telling::Page => why_of(alloc, CauseForm::Page, task, starts, history, lines),
    }
}

/// The number of the inputs that is told of a run that is asked this: 0 where no part of it is meant, of images or of cases that are
/// listed.
fn number_told(question: &Question<'_>) -> u64
    ensures { result ≡ number_told question.now.wanted question.now.options.now.extent question.now.options.now.cuts (inputs_number question.now.recording.now.text (map (λ f. f.items) question.now.programs.now)) }
{
    let log = question.recording.log();
    match question.wanted {
        WantedAnswer::Told(_telling) => match question.options.extent() {
            Extent::Part {
                from: _from,
                to: _to,
            } => number_of_inputs(log, question.programs),
            Extent::Whole | Extent::Wide => 0,
        },
        WantedAnswer::Cases(losses) => {
            let is_range = has_range(&question.options.cuts());
            match losses.telling {
                CaseTelling::Cases if is_range => number_of_inputs(log, question.programs),
                CaseTelling::Cases => 0,
                CaseTelling::Causes => 0,
                CaseTelling::Page => 0,
            }
        }
        WantedAnswer::Cured => 0,
        WantedAnswer::CuredCases(_losses) => 0,
    }
}

/// The images that are judged of a run that is asked this, of that many, with the number of its inputs.
fn span_of(question: &Question<'_>, images: u64) -> Span
    requires taken { takes question.now.wanted question.now.options.now.extent ≡ true }
    requires few { images ≤ most_images question.now.options.now.extent }
    requires within { has_extent question.now.options.now.extent images ≡ true }
    ensures judged { IsJudged question.now.options.now.extent images result }
    ensures number { result.inputs ≡ number_told question.now.wanted question.now.options.now.extent question.now.options.now.cuts (inputs_number question.now.recording.now.text (map (λ f. f.items) question.now.programs.now)) }
{
    let extent = question.options.extent();
    Span {
        from: extent.first(),
        to: extent.end(images),
        images,
        inputs: number_told(question),
    }
}

/// Whether blocks after the first failing image may be passed over.
fn is_first_asked(telling: Telling, options: &Options) -> bool
    ensures { result ≡ first_asked telling options.now.first }
{
    match telling {
        Telling::Report => options.first(),
        Telling::Causes | Telling::Page => false,
    }
}

/// Judges the crash images of a task, and tells of those that fail, and which programs pass without looking at what the log writes.
fn judge_task<'x, G: Gate + Sync, R: Threads + Wait + Sync>(
    rt: &R,
    alloc: Global,
    gate: &G,
    telling: Telling,
    task: &'x Task<'x>,
) -> Result<Told, Refusal>
    requires checkers { length task.now.checkers.now ≤ 8 }
    requires verified { AreFor task.now.options.now.sectors task.now.checkers.now }
    ensures bytes { IfOk result (λ t. TellsTask telling task.now t.explored.bytes.items) }
    ensures blind { IfOk result (λ t. t.blind.items ≡ map (is_noticed task.now.plan.now) task.now.checkers.now) }
    ensures left { IfOk result (λ t. t.left_out ≡ None) }
    ensures failing { IfOk result (λ t. IsTrue t.explored.failing ↔ (lines_of task.now ≢ [])) }
    ensures refused { IfErr result (RefusesPlan task.now.options.now task.now.log.now) }
{
    let (plan, options) = (task.plan, task.options);
    let history = match History::new(alloc, &*plan, &*task.log) {
        Ok(history) => history,
        Err(_error) => return Err(Refusal::of_memory()),
    };
    let (bound, tears) = (options.bound(), options.tears());
    let starts = match Starts::new(alloc, &*plan, bound, tears) {
        Ok(starts) => starts,
        Err(_error) => return Err(Refusal::of_memory()),
    };
    let first = is_first_asked(telling, options);
    let input = input_of(&*task, &starts, &history, first);
    let work = explore_all(rt, alloc, gate, &input)?;
    let blind = match find_blind(alloc, task, &starts, &history) {
        Ok(blind) => blind,
        Err(_error) => return Err(Refusal::of_memory()),
    };
    match tell(alloc, telling, task, &starts, &history, &work.lines) {
        Ok(bytes) => Ok(Told {
            explored: Explored {
                bytes,
                hits: work.hits,
                failing: !work.lines.is_empty(),
            },
            blind,
            left_out: None,
        }),
        Err(_error) => Err(Refusal::of_memory()),
    }
}

/// Judges the crash images of a log that a span means, as its plan has them, and tells of those that fail, as `judge_task` does.
fn judge_log<G: Gate + Sync, R: Threads + Wait + Sync>(
    rt: &R,
    alloc: Global,
    gate: &G,
    telling: Telling,
    log: &Log<'_>,
    plan: &Plan<'_>,
    checkers: &[Checker<'_>],
    options: &Options,
    span: Span,
) -> Result<Told, Refusal>
    requires plan { plan.now ≡ plan_of options.now log.now }
    requires device { log.now.sectors ≡ options.now.sectors }
    requires judged { IsJudged options.now.extent (length (images_of options.now log.now)) span }
    requires checkers { length checkers.now ≤ 8 }
    requires verified { AreFor options.now.sectors checkers.now }
    ensures bytes { IfOk result (λ t. Tells telling span.inputs options.now log.now checkers.now t.explored.bytes.items) }
    ensures blind { IfOk result (λ t. t.blind.items ≡ map (is_noticed plan.now) checkers.now) }
    ensures left { IfOk result (λ t. t.left_out ≡ None) }
    ensures failing { IfOk result (λ t. IsTrue t.explored.failing ↔ (failing_lines (subject_of options.now log.now checkers.now) ≢ [])) }
    ensures refused { IfErr result (RefusesPlan options.now log.now) }
{
    let task = Task {
        log,
        plan,
        checkers,
        options,
        span,
    };
    judge_task(rt, alloc, gate, telling, &task)
}

/// What a run is asked for.
#[derive(Clone, Copy)]
pub enum WantedAnswer {
    /// Its failing images.
    Told(Telling),
    /// Where flushes are missing, run by run.
    Cured,
    /// Where flushes are missing with any number of losses, by its cases.
    CuredCases(AnyLosses),
    /// Its failing cases, with any number of losses.
    Cases(AnyLosses),
}

/// Whether a run that is asked for this judges the images that are meant: all of a run, or those of a part where the report is asked
/// for.
fn does_take(wanted: WantedAnswer, extent: Extent) -> bool
    ensures { result ≡ takes wanted extent }
{
    match extent {
        Extent::Whole => true,
        Extent::Wide => false,
        Extent::Part {
            from: _from,
            to: _to,
        } => matches!(wanted, WantedAnswer::Told(Telling::Report)),
    }
}

/// What a run is asked: what it is to tell of the images of a log, as one to eight programs judge them.
#[derive(Clone, Copy)]
pub struct Question<'a> {
    /// What is to be told.
    pub wanted: WantedAnswer,
    /// The log, over what the device held before entry 0.
    pub recording: &'a Recording<'a>,
    /// The bytes of each program.
    pub programs: &'a [Vec<u8>],
    /// The options.
    pub options: &'a Options,
}

/// Makes a run that judges the images that are meant: what `run_with` answers.
fn make_run<G: Gate + Sync, R: Threads + Wait + Sync>(
    rt: &R,
    alloc: Global,
    gate: &G,
    question: &Question<'_>,
) -> Result<RunAnswer, Refusal>
    requires { takes question.now.wanted question.now.options.now.extent ≡ true }
    ensures told { IfOk result (λ a. IsAnswered question.now.wanted question.now.recording.now (map (λ f. f.items) question.now.programs.now) question.now.options.now a.explored.bytes.items a.explored.failing) }
    ensures unreached { IfOk result (λ a. FindsUnreached (map (λ f. f.items) question.now.programs.now) question.now.options.now a.facts.unreached.items) }
    ensures blind { IfOk result (λ a. FindsBlind question.now.wanted question.now.recording.now (map (λ f. f.items) question.now.programs.now) question.now.options.now a.facts.blind.items) }
    ensures left { IfOk result (λ a. FindsLeft question.now.wanted question.now.recording.now (map (λ f. f.items) question.now.programs.now) question.now.options.now a.explored.failing a.facts.left_out) }
    ensures refused { IfErr result (RefusesWanted question.now.wanted question.now.recording.now (map (λ f. f.items) question.now.programs.now) question.now.options.now) }
{
    let (programs, options) = (question.programs, question.options);
    if !is_program_count(programs.len()) {
        return Err(option_refusal_of(OptionPlace::Programs));
    }
    let log = question.recording.read(alloc, options)?;
    let (plan, images) = plan_of(alloc, &log, options)?;
    let decoded = decode_all(alloc, programs)?;
    let MadeCheckers {
        checkers,
        unreached,
    } = checkers_of(alloc, decoded.programs.as_slice(), options)?;
    if let Some(refusal) = decoded.refusal {
        return Err(refusal);
    }
    // A law of the machine, which does nothing: an accepted program meets no fault.
    accepted_checkers_run_safely();
    let made = checkers.as_slice();
    match question.wanted {
        WantedAnswer::Told(telling) => {
            let span = span_of(question, images);
            match judge_log(rt, alloc, gate, telling, &log, &plan, made, options, span) {
                Ok(told) => Ok(answer_of(told, unreached)),
                Err(refusal) => Err(refusal),
            }
        }
        WantedAnswer::Cured => {
            // The log is changed from run to run.
            drop(plan);
            match cured_log(rt, alloc, gate, made, options, None, log) {
                Ok(told) => Ok(answer_of(told, unreached)),
                Err(refusal) => Err(refusal),
            }
        }
        WantedAnswer::CuredCases(losses) => {
            drop(plan);
            match cured_log(rt, alloc, gate, made, options, Some(losses), log) {
                Ok(told) => Ok(answer_of(told, unreached)),
                Err(refusal) => Err(refusal),
            }
        }
        WantedAnswer::Cases(losses) => {
            let span = span_of(question, images);
            match told_cases(rt, alloc, gate, losses, &log, &plan, made, options, span) {
                Ok(told) => Ok(answer_of(told, unreached)),
                Err(refusal) => Err(refusal),
            }
        }
    }
}

/// Judges the crash images of a log by one to eight programs, and tells of those that fail what is asked for, with what is known of the
/// programs for the notes.
///
/// - The report is that of `explore_with`.
/// - Why programs fail says how many images fail and where flushes are missing. Of each program it says how many images of each cut fail,
///   and in which groups they stand (docs/OUTPUT.md, The text of `why`). The page shows the same in a browser (The page of `page`).
/// - A cure tries where flushes would take failing images of a log away (docs/COMMANDS.md, cure). It adds the flushes that are missing
///   for the failing ones, judges the images of the log with them, and so on, until no failing image that is left has a window. `gate` is
///   told of each run. A later run that has too many images ends the text.
/// - Cases are those of any number of losses that fail, or why they do; and a cure may go by these.
///
/// All but the report judge each image once, whether or not the first failing image alone is asked for.
///
/// # Errors
///
/// Those of `explore_with`, and 13 at 17 where the options mean a part of a run and not its report is wanted. Where cases or a cure by them
/// are wanted, 12 at the cut with which there are more than 16,777,216.
pub fn run_with<G: Gate + Sync, R: Threads + Wait + Sync>(
    rt: &R,
    alloc: Global,
    gate: &G,
    question: &Question<'_>,
) -> Result<RunAnswer, Refusal>
    ensures taken { IfOk result (λ _. takes question.now.wanted question.now.options.now.extent ≡ true) }
    ensures told { IfOk result (λ a. IsAnswered question.now.wanted question.now.recording.now (map (λ f. f.items) question.now.programs.now) question.now.options.now a.explored.bytes.items a.explored.failing) }
    ensures unreached { IfOk result (λ a. FindsUnreached (map (λ f. f.items) question.now.programs.now) question.now.options.now a.facts.unreached.items) }
    ensures blind { IfOk result (λ a. FindsBlind question.now.wanted question.now.recording.now (map (λ f. f.items) question.now.programs.now) question.now.options.now a.facts.blind.items) }
    ensures left { IfOk result (λ a. FindsLeft question.now.wanted question.now.recording.now (map (λ f. f.items) question.now.programs.now) question.now.options.now a.explored.failing a.facts.left_out) }
    ensures refused { IfErr result (RefusesWanted question.now.wanted question.now.recording.now (map (λ f. f.items) question.now.programs.now) question.now.options.now) }
{
    if !does_take(question.wanted, question.options.extent()) {
        return Err(option_refusal_of(OptionPlace::Images));
    }
    make_run(rt, alloc, gate, question)
}

/// Explores the crash images of a log: judges each by the one to eight programs, and reports those that
/// fail, or the first of them alone (docs/OUTPUT.md). Without a limit of steps each program has to be
/// accepted by the verifier. `gate` is told the number of images, then of each block before and after it
/// is judged. The number of workers and the size of the cache change nothing but `hits`. It waits until
/// all workers are back.
///
/// Where the options mean a part of a run, its images alone are judged, and the bytes are the text of the part.
///
/// # Errors
///
/// The first refusal in the order of docs/REFUSALS.md: the number of programs, the log, the number of its
/// images, then each program; or want of memory. Before them 13 at 17 for options that allow a run more than 16,777,216 images and
/// mean no part of it.
pub fn explore_with<G: Gate + Sync, R: Threads + Wait + Sync>(
    rt: &R,
    alloc: Global,
    gate: &G,
    recording: &Recording<'_>,
    programs: &[Vec<u8>],
    options: &Options,
) -> Result<Explored, Refusal>
    ensures report { IfOk result (λ e. IsReport recording.now (map (λ f. f.items) programs.now) options.now e.bytes.items e.failing) }
    ensures run { IfOk result (λ e. IsReportOfRun recording.now (map (λ f. f.items) programs.now) options.now e.bytes.items e.failing) }
    ensures refused { IfErr result (RefusesWanted (wants.Told tells.Report) recording.now (map (λ f. f.items) programs.now) options.now) }
{
    let question = Question {
        wanted: WantedAnswer::Told(Telling::Report),
        recording,
        programs,
        options,
    };
    match run_with(rt, alloc, gate, &question) {
        Ok(answer) => Ok(answer.explored),
        Err(refusal) => Err(refusal),
    }
}

/// The bytes of `explore_with`, with a gate that does nothing.
pub fn explore<R: Threads + Wait + Sync>(
    rt: &R,
    alloc: Global,
    recording: &Recording<'_>,
    programs: &[Vec<u8>],
    options: &Options,
) -> Result<Vec<u8>, Refusal>
    ensures report { IfOk result (λ bytes. HasReport recording.now (map (λ f. f.items) programs.now) options.now bytes.items) }
    ensures refused { IfErr result (RefusesWanted (wants.Told tells.Report) recording.now (map (λ f. f.items) programs.now) options.now) }
{
    let explored = explore_with(rt, alloc, &OpenGate, recording, programs, options)?;
    Ok(explored.bytes)
}
