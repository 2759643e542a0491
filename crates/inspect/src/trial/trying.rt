//! A run of a program on an image, and what is said of it.

ghost use Rattle.std.specs.Prelude.{◌≡◌, ◌⊎◌, ◌≤◌, ◌*◌, ◌++◌, length, IfOk, IfErr, OnOk, None, string_bytes};
ghost use Rattle.std.specs.Option.{option_map};
ghost use Rattle.base.specs.Sizes.{most_sectors};
ghost use Rattle.interp.specs.Ending.{ending_of};
ghost use Rattle.notes.specs.SourceLines.{values_of, AreLines, NoLines};
ghost use Rattle.base.specs.Refusals.{memory_refusal};
ghost use Rattle.request.specs.Refusals.{file_refusal};
ghost use Rattle.machine.specs.Outcome.{fails};
ghost use Rattle.verifier.specs.Reach.{unreached_slots, count_and_first};
ghost use Rattle.inspect.specs.TrialImage.{sectors_of};
ghost use Rattle.inspect.specs.TrialText.{context_of, ending_of_trial, Allows, Bound, bound_of, bound_text, context_text, guarded_count_text, head_text, program_text, ending_source, end_text, trial_text, IsTried, LeavesUnreached, TellsUnreached, RefusesLimit, RefusesTrial};

use crate::looks::verify_command::unaccepted_refusal_of;
use crate::trial::course::course_of;
use crate::trial::image::{GivenImage, is_image, sectors_of};
use crate::trial::trace::put_last;
use base::refusal::Refusal;
use bpf_isa::codec::decode;
use bpf_isa::program::Program;
use helpers::Context;
use interp::Outcome;
use notes::{SourceLine, put_source, source_lines};
use report::lines::put_outcome;
use request::{Trial, bytes_refusal_of, unreadable};
use std::alloc::{AllocError, Global};
use verifier::{Unreached, Verified, guarded_slots, unreached_of, verify_with};

/// What is said of a run on an image.
#[derive(Drop)]
pub struct TrialReport {
    /// The text.
    pub bytes: Vec<u8>,
    /// Whether the program rejects the image.
    pub failing: bool,
    /// What no run reaches of the program, where the verifier was asked and there is some.
    pub unreached: Option<Unreached>,
}

/// The most steps of a run, and what the verifier tells of its program, where it was asked: with guards how many slots are guarded, and
/// what no run reaches.
#[derive(Clone, Copy)]
struct TrialBounds {
    limit: u64,
    guarded: Option<usize>,
    unreached: Option<Unreached>,
}

/// How an accepted program is bounded.
fn bounds_of(alloc: Global, verified: &Verified<'_>) -> Result<TrialBounds, AllocError>
    ensures bound { IfOk result (λ b. record { limit = b.limit; guarded = b.guarded } ≡ bound_of verified.now) }
    ensures unreached { IfOk result (λ b. option_map (λ u. (u.count, u.first)) b.unreached ≡ count_and_first (unreached_slots verified.now)) }
{
    let limit = verified.budget();
    let unreached = unreached_of(verified);
    if !verified.has_guards() {
        return Ok(TrialBounds {
            limit,
            guarded: None,
            unreached,
        });
    }
    let slots = guarded_slots(alloc, verified)?;
    Ok(TrialBounds {
        limit,
        guarded: Some(slots.len()),
        unreached,
    })
}

/// How a run on an image is bounded.
fn limit_of(
    alloc: Global,
    program: &Program,
    image: &[u8],
    asked: &Trial,
) -> Result<TrialBounds, Refusal>
    requires some { 512 ≤ length image.now }
    requires few { length image.now ≤ 512 * most_sectors }
    ensures allowed { IfOk result (λ b. Allows program.now image.now asked.now (record { limit = b.limit; guarded = b.guarded })) }
    ensures unreached { IfOk result (λ b. LeavesUnreached program.now image.now asked.now b.unreached) }
    ensures refused { IfErr result (RefusesLimit program.now image.now asked.now) }
{
    if let Some(limit) = asked.checked {
        return Ok(TrialBounds {
            limit,
            guarded: None,
            unreached: None,
        });
    }
    match verify_with(alloc, program, sectors_of(image), asked.guards) {
        Ok(verified) => match bounds_of(alloc, &verified) {
            Ok(bounds) => Ok(bounds),
            Err(_error) => Err(Refusal::of_memory()),
        },
        Err(unaccepted) => Err(unaccepted_refusal_of(unaccepted.fault)),
    }
}

/// What a program is told of an image.
fn context_of(image: &[u8], asked: &Trial) -> Context
    requires some { 512 ≤ length image.now }
    requires few { length image.now ≤ 512 * most_sectors }
    ensures { result ≡ context_of image.now asked.now }
{
    Context {
        sectors: sectors_of(image),
        epoch: asked.epoch,
        marks: asked.marks,
    }
}

/// Appends the line of what a program is told.
#[tactic(auto, unfolding(crate::specs::TrialText::context_text))]
fn put_context(out: &mut String, context: &Context) -> Result<(), AllocError>
    ensures { OnOk result (string_bytes out.new ≡ string_bytes out.old ++ context_text context.now) }
{
    write!(out, "sectors {}", context.sectors)?;
    write!(out, " epoch {}", context.epoch)?;
    write!(out, " marks {}\n", context.marks)
}

/// Appends the word before a limit, or else before a budget.
fn put_bound(out: &mut String, checked: Option<u64>) -> Result<(), AllocError>
    ensures { OnOk result (string_bytes out.new ≡ string_bytes out.old ++ bound_text checked) }
{
    match checked {
        Some(_) => write!(out, " limit "),
        None => write!(out, " budget "),
    }
}

/// Appends how many slots are guarded, with guards.
fn put_guarded(out: &mut String, guarded: Option<usize>) -> Result<(), AllocError>
    ensures { OnOk result (string_bytes out.new ≡ string_bytes out.old ++ guarded_count_text guarded) }
{
    match guarded {
        Some(count) => write!(out, " guards {count}"),
        None => Ok(()),
    }
}

/// Appends the line of a program: its number of slots, its limit or budget, and with guards how many slots are guarded.
#[tactic(auto, unfolding(crate::specs::TrialText::program_text))]
fn put_program(
    out: &mut String,
    checked: Option<u64>,
    slots: usize,
    bounds: TrialBounds,
) -> Result<(), AllocError>
    ensures { OnOk result (string_bytes out.new ≡ string_bytes out.old ++ program_text checked slots (record { limit = bounds.limit; guarded = bounds.guarded })) }
{
    write!(out, "program slots {slots}")?;
    put_bound(out, checked)?;
    write!(out, "{}", bounds.limit)?;
    put_guarded(out, bounds.guarded)?;
    write!(out, "\n")
}

/// Appends the lines before the steps.
#[tactic(auto, unfolding(crate::specs::TrialText::head_text))]
fn put_head(
    out: &mut String,
    context: &Context,
    checked: Option<u64>,
    slots: usize,
    bounds: TrialBounds,
) -> Result<(), AllocError>
    ensures { OnOk result (string_bytes out.new ≡ string_bytes out.old ++ head_text context.now checked slots (record { limit = bounds.limit; guarded = bounds.guarded })) }
{
    write!(out, "crash check 1\n")?;
    put_context(out, context)?;
    put_program(out, checked, slots, bounds)
}

/// Appends the place in C of the slot at which a program ended, where what it came to names one.
fn put_ending_source(
    alloc: Global,
    out: &mut String,
    lines: &[SourceLine<'_>],
    outcome: &Outcome,
) -> Result<(), AllocError>
    ensures { OnOk result (string_bytes out.new ≡ string_bytes out.old ++ ending_source (values_of lines.now) (ending_of outcome.now)) }
{
    match outcome {
        Outcome::Verdict(_) => Ok(()),
        Outcome::Fault { slot, .. } => put_source(alloc, out, lines, *slot),
        Outcome::OutOfSteps => Ok(()),
        Outcome::Stray(slot) => put_source(alloc, out, lines, *slot),
    }
}

/// Appends how many steps a run made, and what it came to.
#[tactic(auto, unfolding(crate::specs::TrialText::end_text))]
fn put_end(
    alloc: Global,
    out: &mut String,
    lines: &[SourceLine<'_>],
    steps: u64,
    outcome: &Outcome,
) -> Result<(), AllocError>
    ensures { OnOk result (string_bytes out.new ≡ string_bytes out.old ++ end_text (values_of lines.now) steps (ending_of outcome.now)) }
{
    write!(out, "steps {steps}\n")?;
    put_outcome(out, outcome)?;
    put_ending_source(alloc, out, lines, outcome)?;
    write!(out, "\n")
}

/// What is said of a run of a program on an image, and whether the program rejects it.
#[tactic(auto, unfolding(crate::specs::TrialText::trial_text))]
fn report_of(
    alloc: Global,
    program: &Program,
    image: &[u8],
    lines: &[SourceLine<'_>],
    asked: &Trial,
    bounds: TrialBounds,
) -> Result<TrialReport, AllocError>
    requires some { 512 ≤ length image.now }
    requires few { length image.now ≤ 512 * most_sectors }
    ensures text { IfOk result (λ report. report.bytes.items ≡ trial_text program.now image.now (values_of lines.now) asked.now (record { limit = bounds.limit; guarded = bounds.guarded })) }
    ensures failing { IfOk result (λ report. report.failing ≡ fails (ending_of_trial program.now image.now asked.now bounds.limit)) }
    ensures unreached { IfOk result (λ report. report.unreached ≡ bounds.unreached) }
{
    let device = GivenImage::of(image, sectors_of(image));
    let context = context_of(image, asked);
    let course = course_of(
        alloc,
        program,
        &context,
        &device,
        asked.guards,
        bounds.limit,
    )?;
    let mut out = String::new(alloc);
    put_head(&mut out, &context, asked.checked, program.slots(), bounds)?;
    put_last(
        alloc,
        &mut out,
        lines,
        program,
        &context,
        &device,
        asked,
        course.steps,
    )?;
    put_end(alloc, &mut out, lines, course.steps, &course.outcome)?;
    Ok(TrialReport {
        bytes: out.into_bytes(),
        failing: course.outcome.fails(),
        unreached: bounds.unreached,
    })
}

/// The lines of C that bytes have; no bytes have none.
fn lines_of(alloc: Global, bytes: &[u8]) -> Result<Vec<SourceLine<'_>>, Refusal>
    ensures read { IfOk result (λ lines. AreLines bytes.now (values_of lines.items)) }
    ensures refused { IfErr result (λ r. (NoLines bytes.now × (r ≡ file_refusal 2)) ⊎ (r ≡ memory_refusal)) }
{
    match source_lines(alloc, bytes) {
        Ok(Some(lines)) => Ok(lines),
        Ok(None) => Err(unreadable(2)),
        Err(_error) => Err(Refusal::of_memory()),
    }
}

/// Runs the program that bytes spell on the image that bytes are, and says step by step what it comes to (docs/OUTPUT.md, The
/// text of `check`), with the places in C of the slots of which the lines of a text say them.
///
/// # Errors
///
/// 14 at 1 for the size of the image; 14 at 2 for bytes that aren't lines of C; the first fault of the program's bytes; then, where no
/// limit is given, why the verifier refuses the program with guards or without, each at its slot; or want of memory.
pub fn try_image(
    alloc: Global,
    code: &[u8],
    image: &[u8],
    lines: &[u8],
    asked: &Trial,
) -> Result<TrialReport, Refusal>
    ensures tried { IfOk result (λ report. IsTried code.now image.now lines.now asked.now report.bytes.items report.failing) }
    ensures unreached { IfOk result (λ report. TellsUnreached code.now image.now asked.now report.unreached) }
    ensures refused { IfErr result (RefusesTrial code.now image.now lines.now asked.now) }
{
    if !is_image(image, asked.limits) {
        return Err(unreadable(1));
    }
    let table = match lines_of(alloc, lines) {
        Ok(table) => table,
        Err(refusal) => return Err(refusal),
    };
    let program = match decode(alloc, code) {
        Ok(program) => program,
        Err(fault) => return Err(bytes_refusal_of(fault)),
    };
    let bounds = match limit_of(alloc, &program, image, asked) {
        Ok(bounds) => bounds,
        Err(refusal) => return Err(refusal),
    };
    match report_of(alloc, &program, image, table.as_slice(), asked, bounds) {
        Ok(report) => Ok(report),
        Err(_error) => Err(Refusal::of_memory()),
    }
}
