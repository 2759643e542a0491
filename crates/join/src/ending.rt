//! What a line has after its program: what the program ended in, and the choice of the image.

ghost use Rattle.std.specs.Prelude.{ℕ, ◌≡◌, ◌≢◌, ◌<◌, ◌≤◌, ◌^◌, ◌↔◌, ◌++◌, List, true, IfOk, IsTrue, MatchOption};
ghost use Rattle.std.specs.Fmt.{decimal};
ghost use Rattle.choices.specs.CrashModel.{IsFate};
ghost use Rattle.report.specs.ChoiceText.{IsName};
ghost use Rattle.join.specs.Printable.{IsEnd, all_rise, are_names_of_run, comes_before, each_of_run, is_drop, is_name_of_run, names_rise};
ghost use Rattle.join.specs.Endings.{IsPlain, IsNumber, IsFaultNumber, AreNumbers, AreCodes, IsEnding, IsAtChoice, NoChoice, AreNamesAt, AreNamesOf, IsAnswer, IsChoice, IsFault, IsVerdict};

use crate::words::{beyond, parts};
use choices::{Fate, Name};
use epochs::By;
use report::Head;
use report::choice_text::read_names;
use std::alloc::{AllocError, Global};

/// Whether a word can be that of a number: it has a byte, no sign, and no zero in front of others.
fn is_plain(word: &[u8]) -> bool
    ensures { IsTrue result ↔ IsPlain word.now }
{
    if word.is_empty() {
        return false;
    }
    let first = word[0];
    first != b'+' && (first != b'0' || word.len() == 1)
}

/// The number that a word says, if it says one to the byte.
#[tactic(auto, using(crate::proofs::Endings::not_plain))]
pub(crate) fn number_exactly(word: &str) -> Option<u64>
    ensures { MatchOption result ((n : ℕ) → n < 2 ^ 64 → word.now ≢ decimal n) (λ n. (n < 2 ^ 64) × (word.now ≡ decimal n)) }
{
    if !is_plain(word.as_bytes()) {
        return None;
    }
    match word.parse() {
        Ok(number) => Some(number),
        Err(_) => None,
    }
}

/// Whether a word says a number.
fn is_number(word: &str) -> bool
    ensures { IsTrue result ↔ IsNumber word.now }
{
    number_exactly(word).is_some()
}

/// Whether a word says an answer that isn't 0.
#[tactic(auto, using(crate::proofs::Endings::no_answer))]
fn is_answer(word: &str) -> bool
    ensures { IsTrue result ↔ IsAnswer word.now }
{
    let Some(number) = number_exactly(word) else {
        return false;
    };
    number > 0
}

/// Whether a word says the number of a fault of the machine.
#[tactic(auto, using(crate::proofs::Endings::no_fault))]
fn is_fault_number(word: &str) -> bool
    ensures { IsTrue result ↔ IsFaultNumber word.now }
{
    match number_exactly(word) {
        Some(number) => number >= 80 && number <= 88,
        None => false,
    }
}

/// Whether a text says numbers with commas between, at least one and at most `left`.
fn are_numbers(text: &str, left: u8) -> bool
    ensures { IsTrue result ↔ AreNumbers left text.now }
{
    if left == 0 {
        return false;
    }
    match parts(text, ',') {
        Some((word, more)) => is_number(word) && are_numbers(more, left - 1),
        None => is_number(text),
    }
}

/// Whether a text says the codes of a verdict.
#[tactic(auto, using(crate::proofs::Endings::hyphen_codes, crate::proofs::Endings::some_codes, crate::proofs::Endings::codes_said))]
fn are_codes(text: &str) -> bool
    ensures { IsTrue result ↔ AreCodes text.now }
{
    text == "-" || are_numbers(text, 16)
}

/// Whether a text says an answer and codes.
#[tactic(auto, using(crate::proofs::Endings::no_verdict))]
fn is_verdict(text: &str) -> bool
    ensures { IsTrue result ↔ IsVerdict text.now }
{
    let Some((answer, more)) = parts(text, ' ') else {
        return false;
    };
    match beyond("codes ", more) {
        Some(codes) => is_answer(answer) && are_codes(codes),
        None => false,
    }
}

/// Whether a text says a fault and its slot.
#[tactic(auto, using(crate::proofs::Endings::no_fault_text))]
fn is_fault(text: &str) -> bool
    ensures { IsTrue result ↔ IsFault text.now }
{
    let Some((fault, more)) = parts(text, ' ') else {
        return false;
    };
    match beyond("slot ", more) {
        Some(slot) => is_fault_number(fault) && is_number(slot),
        None => false,
    }
}

/// Whether a text says what a program ended in.
pub(crate) fn is_ending(text: &str) -> bool
    ensures { IsTrue result ↔ IsEnding text.now }
{
    if text == "out of steps" {
        return true;
    }
    if let Some(verdict) = beyond("answer ", text) {
        return is_verdict(verdict);
    }
    if let Some(fault) = beyond("fault ", text) {
        return is_fault(fault);
    }
    match beyond("stray at slot ", text) {
        Some(slot) => is_number(slot),
        None => false,
    }
}

/// Whether a fate has 1 to 7 eighths, where it has some.
fn is_fate(fate: Fate) -> bool
    ensures { IsTrue result ↔ IsFate true fate }
{
    match fate {
        Fate::Drop => true,
        Fate::Head(eighths) => eighths.count() >= 1 && eighths.count() < 8,
        Fate::Tail(eighths) => eighths.count() >= 1 && eighths.count() < 8,
    }
}

/// Whether the numbers of a name are within their ranges: by write a part is the whole entry, and its place is 0.
fn is_name(by: By, name: Name) -> bool
    ensures { IsTrue result ↔ IsName by name }
{
    match by {
        By::Sector => is_fate(name.fate),
        By::Write => name.place == 0 && is_fate(name.fate),
    }
}

/// Whether the numbers of all names are within their ranges.
fn are_names(by: By, names: &[Name]) -> bool
    ensures { IsTrue result ↔ AreNamesOf by names.now }
{
    match names {
        [] => true,
        [first, rest @ ..] => is_name(by, *first) && are_names(by, rest),
    }
}

/// Whether a part comes before another: by entry, and then by its place there.
fn comes_before(name: Name, other: Name) -> bool
    ensures { result ≡ comes_before name other }
{
    name.entry < other.entry || (name.entry == other.entry && name.place < other.place)
}

/// Whether of parts each comes after the one before it, the first after `last`.
fn names_rise(last: Name, names: &[Name]) -> bool
    ensures { result ≡ names_rise last names.now }
{
    match names {
        [] => true,
        [first, rest @ ..] => comes_before(last, *first) && names_rise(*first, rest),
    }
}

/// Whether the names of all parts rise.
fn all_rise(names: &[Name]) -> bool
    ensures { result ≡ all_rise names.now }
{
    match names {
        [] => true,
        [first, rest @ ..] => names_rise(*first, rest),
    }
}

/// Whether nothing of a part arrives.
fn is_drop(fate: Fate) -> bool
    ensures { result ≡ is_drop fate }
{
    match fate {
        Fate::Drop => true,
        _ => false,
    }
}

/// Whether a part is of an entry before a cut, and torn only where there are tears.
fn is_name_of_run(tears: bool, cut: u64, name: Name) -> bool
    ensures { result ≡ is_name_of_run tears cut name }
{
    u64::from(name.entry) < cut && (tears || is_drop(name.fate))
}

/// Whether each part's name is one that a run can have at a cut.
fn each_of_run(tears: bool, cut: u64, names: &[Name]) -> bool
    ensures { result ≡ each_of_run tears cut names.now }
{
    match names {
        [] => true,
        [first, rest @ ..] => is_name_of_run(tears, cut, *first) && each_of_run(tears, cut, rest),
    }
}

/// Whether parts are no more than the bound allows, rising, each as a run with that head may have it at a cut.
fn are_names_of_run(head: &Head, cut: u64, names: &[Name]) -> bool
    ensures { result ≡ are_names_of_run head.now cut names.now }
{
    names.len() <= usize::from(head.bound) && each_of_run(head.tears, cut, names) && all_rise(names)
}

/// Whether names are within their ranges, and as a run with that head may have them at a cut.
fn are_names_at(head: &Head, cut: u64, names: &[Name]) -> bool
    ensures { IsTrue result ↔ AreNamesAt head.now cut names.now }
{
    are_names(head.by, names) && are_names_of_run(head, cut, names)
}

/// Whether a text is that of a choice at a cut of a run with that head, where so much departs as one.
#[tactic(auto, using(crate::proofs::Choosing::choice_found, crate::proofs::Choosing::names_within, crate::proofs::Choosing::no_choice))]
fn is_choice(alloc: Global, by: By, head: &Head, cut: u64, text: &str) -> Result<bool, AllocError>
    requires { by ≡ head.now.by }
    ensures { IfOk result (λ is. IsTrue is ↔ IsChoice head.now cut text.now) }
{
    match read_names(alloc, by, text)? {
        Some(names) => Ok(are_names_at(head, cut, names.as_slice())),
        None => Ok(false),
    }
}

/// A text without these words at its end, if it ends with them.
pub(crate) fn without<'t>(text: &'t str, end: &str) -> Option<&'t str>
    ensures { MatchOption result ((front : List ℕ) → text.now ≢ front ++ end.now) (λ front. text.now ≡ front.now ++ end.now) }
{
    text.strip_suffix(end)
}

/// What stands before and after ` choice `, where no `h` stands before it.
#[tactic(auto, using(crate::proofs::Choosing::no_h_no_choice, crate::proofs::Choosing::no_front_no_choice, crate::proofs::Choosing::no_back_no_choice))]
pub(crate) fn at_choice(text: &str) -> Option<(&str, &str)>
    ensures { MatchOption result (NoChoice text.now) (λ x. IsAtChoice text.now x.0.now x.1.now) }
{
    let (begun, rest) = parts(text, 'h')?;
    let ending = without(begun, " c")?;
    let choice = beyond("oice ", rest)?;
    Some((ending, choice))
}

/// Whether a text is what a line of a cut of a run with that head has after its program, to the byte.
#[tactic(auto, using(crate::proofs::Choosing::end_found, crate::proofs::Choosing::end_has_ending, crate::proofs::Choosing::end_has_choice, crate::proofs::Choosing::no_choice_no_end))]
pub(crate) fn is_end(alloc: Global, head: &Head, cut: u64, text: &str) -> Result<bool, AllocError>
    ensures { IfOk result (λ is. IsTrue is ↔ IsEnd head.now cut text.now) }
{
    let Some((ending, choice)) = at_choice(text) else {
        return Ok(false);
    };
    if !is_ending(ending) {
        return Ok(false);
    }
    is_choice(alloc, head.by, head, cut, choice)
}
