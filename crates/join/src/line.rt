//! One failing line of a text.

ghost use Rattle.std.specs.Prelude.{◌≡◌, ◌<◌, ◌^◌, ◌↔◌, ◌++◌, ◌&&◌, IfOk, IfSome, IsTrue, MatchOption, OnOk, string_bytes, length};
ghost use Rattle.epochs.specs.Cuts.{is_before_last, is_after_first};
ghost use Rattle.join.specs.Printable.{IsLineOfRun, has_program_and_cut};
ghost use Rattle.join.specs.Reading.{words_text, ReadsWords, Fit, IsBody, NoBody, IsLine, NoLine, IsCut, NoCut};

use crate::ending::is_end;
use crate::words::{beyond, parts};
use report::Head;
use report::lines::LineMark;
use report::printed::{field, number};
use std::alloc::{AllocError, Global};

/// What a line says before its outcome.
#[derive(Clone, Copy, Drop)]
pub struct LineWords {
    pub(crate) image: u64,
    pub(crate) cut: u64,
    pub(crate) program: u64,
}

/// What a line says before its outcome, and something where it is no line.
pub(crate) fn words_said(line: &str) -> LineWords
    ensures { ReadsWords line.now result }
{
    let (image, after_image) = field(line);
    let (at, after_cut) = field(after_image);
    let (program, _after_program) = field(after_cut);
    LineWords {
        image: number(image),
        cut: number(at),
        program: number(program),
    }
}

/// Whether the numbers of a cut and a program are within their ranges.
fn is_fit(words: LineWords) -> bool
    ensures { IsTrue result ↔ Fit words }
{
    words.cut < 4_294_967_296 && words.program < 256
}

/// The words of a line before its outcome.
#[tactic(auto, unfolding(crate::specs::Reading::words_text))]
pub(crate) fn words_text(alloc: Global, words: LineWords) -> Result<String, AllocError>
    ensures { IfOk result (λ out. string_bytes out ≡ words_text words) }
{
    let mut out = String::new(alloc);
    write!(
        out,
        "image {} cut {} program {} ",
        words.image, words.cut, words.program
    )?;
    Ok(out)
}

/// Whether a cut isn't before the first one that is asked for.
fn is_after_first(first: Option<u64>, cut: u64) -> bool
    ensures { result ≡ is_after_first first cut }
{
    match first {
        Some(first) => first <= cut,
        None => true,
    }
}

/// Whether a cut isn't after the last one that is asked for.
pub(crate) fn is_before_last(last: Option<u64>, cut: u64) -> bool
    ensures { result ≡ is_before_last last cut }
{
    match last {
        Some(last) => cut <= last,
        None => true,
    }
}

/// Whether a run with that head has that program and may have that cut.
pub(crate) fn has_place(head: &Head, cut: u64, program: u64) -> bool
    ensures { result ≡ has_program_and_cut head.now cut program }
{
    program < head.programs.len() as u64
        && cut <= u64::from(head.entries)
        && is_after_first(head.cuts.from, cut)
        && is_before_last(head.cuts.to, cut)
}

/// The mark of a line without its newline, if it is one of a run with that head, to the byte.
fn mark_of(alloc: Global, head: &Head, line: &str) -> Result<Option<LineMark>, AllocError>
    ensures { IfOk result (λ found. MatchOption found (NoBody head.now line.now) (λ mark. IsBody head.now line.now mark)) }
{
    let words = words_said(line);
    if !is_fit(words) {
        return Ok(None);
    }
    if !has_place(head, words.cut, words.program) {
        return Ok(None);
    }
    let printed = words_text(alloc, words)?;
    let Some(end) = beyond(printed.as_str(), line) else {
        return Ok(None);
    };
    if !is_end(alloc, head, words.cut, end)? {
        return Ok(None);
    }
    Ok(Some(LineMark {
        image: words.image,
        program: words.program as u8,
    }))
}

/// The mark of the line with which a text begins, and what stands after it, if it begins with one of a run with that head, to the byte.
#[tactic(auto, using(crate::proofs::Bodies::no_newline_no_line, crate::proofs::Bodies::no_body_no_line, crate::proofs::Bodies::body_is_line, crate::proofs::Bodies::line_shorter))]
pub(crate) fn read_line<'t>(
    alloc: Global,
    head: &Head,
    text: &'t str,
) -> Result<Option<(LineMark, &'t str)>, AllocError>
    ensures line { IfOk result (λ found. MatchOption found (NoLine (IsLineOfRun head.now) text.now) (λ x. IsLine head.now text.now x.0 x.1.now)) }
    ensures shorter { IfOk result (λ found. IfSome found (λ x. length x.1.now < length text.now)) }
{
    let Some((line, more)) = parts(text, '\n') else {
        return Ok(None);
    };
    match mark_of(alloc, head, line)? {
        Some(mark) => Ok(Some((mark, more))),
        None => Ok(None),
    }
}
