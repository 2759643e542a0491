//! A part of a run, read from its text.

ghost use Rattle.std.specs.Prelude.{ℕ, ◌≡◌, ◌≢◌, ◌≤◌, ◌↔◌, ◌++◌, ◌^◌, Bool, true, false, IfOk, IfSome, IsTrue, MatchOption, OnOk, string_bytes, length};
ghost use Rattle.report.specs.Report.{image_text};
ghost use Rattle.join.specs.Reading.{last_text, IsWhole, IsPartText, NoPartText, BeginsImage};
ghost use Rattle.join.specs.Text.{IsSpan};

use crate::heading::{after_head, read_head};
use crate::reading::read_lines;
use crate::span::read_span;
use crate::tally::Tally;
use crate::words::before;
use report::{Span, put_image};
use std::alloc::{AllocError, Global};
use std::marker::Model;

/// A part of a run, as its text tells it.
#[derive(Drop)]
pub struct RunPart<'t> {
    /// The images of the run that it is of.
    pub(crate) span: Span,
    /// The lines of its options and its programs.
    pub(crate) head: &'t [u8],
    /// Whether it is of the first failing image alone.
    pub(crate) first: bool,
    /// Its failing lines.
    pub(crate) lines: &'t [u8],
    /// What is counted of these.
    pub(crate) tally: Tally,
    /// The number of its file.
    pub(crate) file: u32,
}

impl<'t> Model for RunPart<'t> {
    ghost use Rattle.join.specs.Reading.{PartRead};

    ghost Value = { PartRead };

    ghost view = { λ p. record { span = p.span; head = p.head.now; first = p.first; lines = p.lines.now; tally = p.tally; file = p.file } };
}

/// Appends the last line of a part: of one with the first failing image alone, or of one with all lines.
#[tactic(auto, unfolding(crate::specs::Reading::last_text))]
pub(crate) fn put_last(
    out: &mut String,
    first: bool,
    images: u64,
    tally: Tally,
) -> Result<(), AllocError>
    ensures { OnOk result (string_bytes out.new ≡ string_bytes out.old ++ last_text first images tally) }
{
    if first {
        write!(out, "images {images} first ")?;
        put_image(out, tally.first)?;
        write!(out, "\n")
    } else {
        write!(
            out,
            "images {images} failing {} lines {}\n",
            tally.images, tally.lines
        )
    }
}

/// Whether a text is the last line of a part.
pub(crate) fn is_last(
    alloc: Global,
    first: bool,
    images: u64,
    tally: Tally,
    text: &str,
) -> Result<bool, AllocError>
    ensures { IfOk result (λ is. IsTrue is ↔ (text.now ≡ last_text first images tally)) }
{
    let mut printed = String::new(alloc);
    put_last(&mut printed, first, images, tally)?;
    Ok(printed.as_str() == text)
}

/// Whether these can be images of a run.
fn is_span(span: Span) -> bool
    ensures { IsTrue result ↔ IsSpan span }
{
    span.from <= span.to
        && span.to <= span.images
        && (span.from < span.to || span.images == 0)
        && span.images < 9_223_372_036_854_775_808
}

/// Whether these can be the lines of a part of these images.
fn is_whole(span: Span, first: bool, tally: Tally) -> bool
    ensures { IsTrue result ↔ IsWhole span first tally }
{
    let one = !first || tally.images <= 1;
    is_span(span) && tally.ordered && one
}

/// The part of which a text is that, to the byte; none where it is that of no part.
///
/// # Errors
///
/// Want of memory.
#[tactic(auto, using(crate::proofs::Parts::lines_after_head, crate::proofs::Parts::head_in_front, crate::proofs::Parts::lines_in_front))]
pub(crate) fn read_text<'t>(
    alloc: Global,
    file: u32,
    text: &'t str,
) -> Result<Option<RunPart<'t>>, AllocError>
    requires { length text.now ≤ 2 ^ 30 }
    ensures { IfOk result (λ found. MatchOption found (NoPartText text.now) (λ part. IsPartText text.now part × (part.file ≡ file))) }
{
    let Some((span, body)) = read_span(alloc, text)? else {
        return Ok(None);
    };
    let Some(found) = after_head(body) else {
        return Ok(None);
    };
    let front = before(body, found);
    let Some(head) = read_head(alloc, body, front)? else {
        return Ok(None);
    };
    let (tally, last) = read_lines(alloc, span, &head, found)?;
    let images = span.to.saturating_sub(span.from);
    if !is_last(alloc, head.first, images, tally, last)? {
        return Ok(None);
    }
    if !is_whole(span, head.first, tally) {
        return Ok(None);
    }
    Ok(Some(RunPart {
        span,
        head: front,
        first: head.first,
        lines: before(found, last),
        tally,
        file,
    }))
}
