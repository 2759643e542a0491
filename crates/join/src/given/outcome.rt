//! What a program of a report may end in.

ghost use Rattle.std.specs.Prelude.{◌≡◌, ◌&&◌, ◌↔◌, nat_le, nat_lt, IsTrue};
ghost use Rattle.join.specs.Given.{IsBelow, IsStatus, IsOutside, IsOutcome};

use crate::ending::{is_ending, number_exactly, without};
use crate::words::beyond;

/// Whether a number is 1 or more, and below a bound.
fn is_within(number: u64, bound: u64) -> bool
    ensures { result ≡ (nat_le 1 number && nat_lt number bound) }
{
    number >= 1 && number < bound
}

/// Whether a word is that of a number from 1 to below a bound.
#[tactic(auto, using(crate::proofs::Outsides::below_said, crate::proofs::Outsides::no_number_below))]
fn is_below(bound: u64, word: &str) -> bool
    ensures { IsTrue result ↔ IsBelow bound word.now }
{
    match number_exactly(word) {
        Some(number) => is_within(number, bound),
        None => false,
    }
}

/// Whether a text says an exit status, and that there are no codes.
#[tactic(auto, using(crate::proofs::Outsides::no_end_no_status, crate::proofs::Outsides::status_by_word))]
fn is_status(text: &str) -> bool
    ensures { IsTrue result ↔ IsStatus text.now }
{
    match without(text, " codes -") {
        Some(word) => is_below(256, word),
        None => false,
    }
}

/// Whether a text says what a program ended in that is given images as files.
#[tactic(auto, using(crate::proofs::Outsides::outside_by_status, crate::proofs::Outsides::outside_by_signal, crate::proofs::Outsides::no_outside))]
fn is_outside(text: &str) -> bool
    ensures { IsTrue result ↔ IsOutside text.now }
{
    if text == "out of time" {
        return true;
    }
    if let Some(status) = beyond("answer ", text) {
        return is_status(status);
    }
    match beyond("signal ", text) {
        Some(signal) => is_below(128, signal),
        None => false,
    }
}

/// Whether a text says what such a program may end in, or a checker.
pub(crate) fn is_outcome(outside: bool, text: &str) -> bool
    ensures { IsTrue result ↔ IsOutcome outside text.now }
{
    if outside {
        is_outside(text)
    } else {
        is_ending(text)
    }
}
