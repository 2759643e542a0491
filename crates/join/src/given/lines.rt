//! The lines of a report, read one after the other.

ghost use Rattle.std.specs.Prelude.{◌≡◌, ◌<◌, ◌≤◌, ◌^◌, ◌↔◌, ◌++◌, ◌∷◌, [], IfOk, IfSome, IsTrue, MatchOption, OnOk, map, length, string_bytes};
ghost use Rattle.report.specs.ChoiceText.{departures_text};
ghost use Rattle.choices.specs.Choices.{ranked_choices};
ghost use Rattle.join.specs.Given.{line_told};
ghost use Rattle.join.specs.GivenReading.{IsChoiceOf, IsToldBody, NoToldBody, IsToldLine, NoToldLine, AreToldRead};

use crate::ending::at_choice;
use crate::given::outcome::is_outcome;
use crate::given::run::ReportRun;
use crate::given::told::GivenLine;
use crate::line::{words_said, words_text};
use crate::tally::Tally;
use crate::words::{beyond, parts};
use choices::{Choice, Starts};
use epochs::By;
use report::Span;
use report::choice_text::put_departures;
use report::lines::LineMark;
use std::alloc::{AllocError, Global};

/// Whether a text is that of a choice.
fn is_text_of(alloc: Global, by: By, choice: &Choice, text: &str) -> Result<bool, AllocError>
    ensures { IfOk result (λ is. IsTrue is ↔ (text.now ≡ departures_text by choice.now.departures)) }
{
    let mut printed = String::new(alloc);
    put_departures(&mut printed, by, choice.departures())?;
    Ok(printed.as_str() == text)
}

/// Whether an image is of that cut, and a text is that of its choice.
#[tactic(auto, using(crate::proofs::ToldLines::other_cut))]
fn is_choice_of(
    alloc: Global,
    by: By,
    starts: &Starts<'_>,
    image: u64,
    at: u64,
    text: &str,
) -> Result<bool, AllocError>
    requires by { by ≡ starts.now.plan.by }
    requires image { image < length (ranked_choices starts.now.plan starts.now.bound starts.now.tears) }
    ensures { IfOk result (λ is. IsTrue is ↔ IsChoiceOf starts.now image at text.now) }
{
    let choice = starts.nth(image);
    if u64::from(choice.cut()) != at {
        return Ok(false);
    }
    is_text_of(alloc, by, &choice, text)
}

/// What a line without its newline says, if it is one of the run, of that many programs.
#[tactic(auto, using(crate::proofs::ToldLines::image_past, crate::proofs::ToldLines::program_past, crate::proofs::ToldLines::words_differ, crate::proofs::ToldLines::choice_lacking, crate::proofs::ToldLines::body_found))]
fn body_said<'t>(
    alloc: Global,
    run: &ReportRun<'_>,
    outside: bool,
    programs: u64,
    line: &'t str,
) -> Result<Option<GivenLine<'t>>, AllocError>
    requires { programs ≤ 8 }
    ensures { IfOk result (λ found. MatchOption found (NoToldBody outside programs run.now.starts.now line.now) (λ t. IsToldBody outside programs run.now.starts.now line.now (line_told t))) }
{
    let words = words_said(line);
    if words.image >= run.images {
        return Ok(None);
    }
    if words.program >= programs {
        return Ok(None);
    }
    let printed = words_text(alloc, words)?;
    let Some(end) = beyond(printed.as_str(), line) else {
        return Ok(None);
    };
    let Some((outcome, choice)) = at_choice(end) else {
        return Ok(None);
    };
    if !is_outcome(outside, outcome) {
        return Ok(None);
    }
    if !is_choice_of(alloc, run.by, run.starts, words.image, words.cut, choice)? {
        return Ok(None);
    }
    Ok(Some(GivenLine {
        mark: LineMark {
            image: words.image,
            program: words.program as u8,
        },
        outcome,
    }))
}

/// What the line says with which a text begins, and what stands after it, if it begins with one of the run.
#[tactic(auto, using(crate::proofs::ToldLines::no_newline_no_told, crate::proofs::ToldLines::no_body_no_told, crate::proofs::ToldLines::body_is_told, crate::proofs::Bodies::line_shorter))]
fn line_said<'t>(
    alloc: Global,
    run: &ReportRun<'_>,
    outside: bool,
    programs: u64,
    text: &'t str,
) -> Result<Option<(GivenLine<'t>, &'t str)>, AllocError>
    requires { programs ≤ 8 }
    ensures line { IfOk result (λ found. MatchOption found (NoToldLine outside programs run.now.starts.now text.now) (λ x. IsToldLine outside programs run.now.starts.now text.now (line_told x.0) x.1.now)) }
    ensures shorter { IfOk result (λ found. IfSome found (λ x. length x.1.now < length text.now)) }
{
    let Some((line, more)) = parts(text, '\n') else {
        return Ok(None);
    };
    match body_said(alloc, run, outside, programs, line)? {
        Some(told) => Ok(Some((told, more))),
        None => Ok(None),
    }
}

/// Appends what a line says.
fn push_told<'t>(lines: &mut Vec<GivenLine<'t>>, told: GivenLine<'t>) -> Result<(), AllocError>
    ensures { OnOk result (map line_told lines.new.items ≡ map line_told lines.old.items ++ line_told told.entry ∷ []) }
{
    lines.push(told)?;
    Ok(())
}

/// How many lines are in order, by how many were before the last one.
fn ordered_of(before: u64, tally: Tally) -> u64 {
    if tally.ordered { tally.lines } else { before }
}

/// What is read of the lines of a report.
#[derive(Drop)]
pub(crate) struct LinesSaid<'t> {
    pub(crate) lines: Vec<GivenLine<'t>>,
    /// What is counted of these.
    pub(crate) tally: Tally,
    /// What stands after them.
    pub(crate) rest: &'t str,
    /// How many of them are in order.
    pub(crate) ordered: u64,
}

/// What the lines of the run say with which a text begins, of that many programs.
pub(crate) fn lines_said<'t>(
    alloc: Global,
    run: &ReportRun<'_>,
    span: Span,
    outside: bool,
    programs: u64,
    text: &'t str,
) -> Result<LinesSaid<'t>, AllocError>
    requires programs { programs ≤ 8 }
    requires short { length text.now ≤ 2 ^ 30 }
    ensures read { IfOk result (λ x. AreToldRead outside programs run.now.starts.now span text.now (map line_told x.lines.items) x.tally x.rest.now) }
    ensures end { IfOk result (λ x. NoToldLine outside programs run.now.starts.now x.rest.now) }
{
    let mut lines = Vec::new(alloc);
    let mut tally = Tally::none();
    let mut ordered = 0;
    let mut rest = text;
    while let Some((told, more)) = line_said(alloc, run, outside, programs, rest)? {
        tally = tally.more(span, told.mark);
        ordered = ordered_of(ordered, tally);
        push_told(&mut lines, told)?;
        rest = more;
    }
    Ok(LinesSaid {
        lines,
        tally,
        rest,
        ordered,
    })
}
