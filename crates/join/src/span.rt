//! The images of a run that a text is of, read from its first two lines.

ghost use Rattle.std.specs.Prelude.{◌≡◌, ◌++◌, IfOk, MatchOption, string_bytes};
ghost use Rattle.report.specs.Part.{span_text};
ghost use Rattle.join.specs.Reading.{ReadsSpan, IsSpanOf, NoSpan};

use crate::words::beyond;
use report::printed::{cut, number};
use report::{Span, put_span};
use std::alloc::{AllocError, Global};

/// The span that a text begins with, and what stands after it; and some span where it begins with none.
fn span_said(text: &str) -> (Span, &str)
    ensures { ReadsSpan text.now result.0 result.1.now }
{
    let (_title, line) = cut(text, '\n');
    let (_part, range) = cut(line, ' ');
    let (from, after_from) = cut(range, '.');
    let (_point, after_points) = cut(after_from, '.');
    let (to, after_to) = cut(after_points, ' ');
    let (_of, all) = cut(after_to, ' ');
    let (images, after_images) = cut(all, ' ');
    let (_inputs, last) = cut(after_images, ' ');
    let (inputs, rest) = cut(last, '\n');
    let span = Span {
        from: number(from),
        to: number(to),
        images: number(images),
        inputs: number(inputs),
    };
    (span, rest)
}

/// The span that a text begins with, and what stands after it, if it begins with one to the byte.
#[tactic(auto, using(crate::proofs::Spans::found_span, crate::proofs::Spans::no_span))]
pub(crate) fn read_span<'t>(
    alloc: Global,
    text: &'t str,
) -> Result<Option<(Span, &'t str)>, AllocError>
    ensures { IfOk result (λ found. MatchOption found (NoSpan text.now) (λ x. IsSpanOf text.now x.0 x.1.now)) }
{
    let (span, _rest) = span_said(text);
    let mut printed = String::new(alloc);
    put_span(&mut printed, span)?;
    match beyond(printed.as_str(), text) {
        Some(rest) => Ok(Some((span, rest))),
        None => Ok(None),
    }
}
