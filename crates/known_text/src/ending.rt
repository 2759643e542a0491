//! How a program ended, read from its words.

ghost use Rattle.std.specs.Prelude.{◌≡◌, ◌++◌, ◌↔◌, OnOk, IsTrue, string_bytes};
ghost use Rattle.known_text.specs.Records.{IsEnd, end_text};
ghost use Rattle.known_text.specs.Reading.{ReadsEnd, ReadsNumbered};

use known::RunEnd;
use report::printed::{byte_number, cut};
use std::alloc::AllocError;

/// An end of which the number is a word, with an answer or by a signal; and what stands after it.
#[tactic(auto, using(crate::proofs::Endings::answer_read, crate::proofs::Endings::signal_read))]
fn numbered<'t>(kind: &str, text: &'t str) -> (RunEnd, &'t str)
    ensures { ReadsNumbered kind.now text.now result.0 result.1.now }
{
    let (word, rest) = cut(text, ' ');
    let number = byte_number(word);
    if kind == "answer" {
        (RunEnd::Answer(number), rest)
    } else {
        (RunEnd::Signal(number), rest)
    }
}

/// How a program ended by the words with which a text begins, and what stands after them and a blank; and something where it begins with none.
#[tactic(auto, using(crate::proofs::Endings::late_read, crate::proofs::Endings::number_read))]
pub(crate) fn end_said(text: &str) -> (RunEnd, &str)
    ensures { ReadsEnd text.now result.0 result.1.now }
{
    let (kind, rest) = cut(text, ' ');
    if kind == "out" {
        let (_of, rest) = cut(rest, ' ');
        let (_time, rest) = cut(rest, ' ');
        (RunEnd::OutOfTime, rest)
    } else {
        numbered(kind, rest)
    }
}

/// Whether a program may end so.
pub(crate) fn is_end(end: RunEnd) -> bool
    ensures { IsTrue result ↔ IsEnd end }
{
    match end {
        RunEnd::Answer(_answer) => true,
        RunEnd::Signal(signal) => 1 <= signal && signal < 128,
        RunEnd::OutOfTime => true,
    }
}

/// Appends how a program ended.
pub(crate) fn put_end(out: &mut String, end: RunEnd) -> Result<(), AllocError>
    ensures { OnOk result (string_bytes out.new ≡ string_bytes out.old ++ end_text end) }
{
    match end {
        RunEnd::Answer(answer) => write!(out, "answer {answer}"),
        RunEnd::Signal(signal) => write!(out, "signal {signal}"),
        RunEnd::OutOfTime => write!(out, "out of time"),
    }
}
