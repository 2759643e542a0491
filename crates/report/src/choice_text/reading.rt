//! Names, read back from their text.

ghost use Rattle.std.specs.Prelude.{ℕ, ◌≡◌, ◌+◌, ◌<◌, ◌≤◌, ◌^◌, ◌↔◌, Some, true, IfOk, IsTrue, MatchOption, length, option_map};
ghost use Rattle.std.specs.Fmt.{decimal};
ghost use Rattle.choices.specs.declared.fate.Fate.{Fate as FateValue};
ghost use Rattle.choices.specs.declared.name.Name.{Name as NameValue};
ghost use Rattle.choices.specs.CrashModel.{IsFate};
ghost use Rattle.report.specs.ChoiceText.{fate_text, name_text, names_text, IsName, IsTextOf, NoNames};
ghost use Rattle.report.specs.Reading.{IsCutAt, NoCutAt, ReadsPart, ReadsName, ReadsOne, ReadsUpTo, ReadsAs};

use crate::choice_text::printing::put_names;
use arrayvec::ArrayVec;
use choices::{Eighths, Fate, Name};
use epochs::By;
use std::alloc::{AllocError, Global};

/// What stands before and after the first mark of a text.
fn cut(text: &str, mark: char) -> Option<(&str, &str)>
    requires { mark < 128 }
    ensures { MatchOption result (NoCutAt mark text.now) (λ parts. IsCutAt mark text.now parts.0.now parts.1.now) }
{
    text.split_once(mark)
}

/// The number that a word says.
fn number(word: &str) -> Option<u32>
    ensures { (n : ℕ) → n < 2 ^ 32 → word.now ≡ decimal n → result ≡ Some n }
{
    match word.parse() {
        Ok(number) => Some(number),
        Err(_) => None,
    }
}

/// The eighths that a digit says.
fn eighths(digit: u8) -> Option<Eighths>
    ensures { (n : ℕ) → 1 ≤ n → n < 8 → digit ≡ 48 + n → result ≡ Some n }
{
    match digit {
        b'1'..=b'7' => Some(Eighths::new(digit - b'0')),
        _ => None,
    }
}

/// The fate that the bytes of a word say, and perhaps one where they say none.
#[tactic(auto, using(crate::proofs::Words::drop_read, crate::proofs::Words::no_length, crate::proofs::Words::no_eighths, crate::proofs::Words::head_read, crate::proofs::Words::tail_read))]
pub fn read_fate(word: &[u8]) -> Option<Fate>
    ensures { (f : FateValue) → IsFate true f → word.now ≡ fate_text f → result ≡ Some f }
{
    if word == "drop".as_bytes() {
        return Some(Fate::Drop);
    }
    if word.len() != 5 {
        return None;
    }
    let eighths = eighths(word[4])?;
    if word[0] == b'h' {
        Some(Fate::Head(eighths))
    } else {
        Some(Fate::Tail(eighths))
    }
}

/// The entry that a word says, and the place in it.
#[tactic(auto, using(crate::proofs::Words::no_place, crate::proofs::Words::no_entry, crate::proofs::Words::no_number, crate::proofs::Words::place_read, crate::proofs::Words::no_write, crate::proofs::Words::write_read))]
fn part(by: By, word: &str) -> Option<(u32, u32)>
    ensures { ReadsPart by word.now result }
{
    match by {
        By::Sector => {
            let (entry, place) = cut(word, '.')?;
            Some((number(entry)?, number(place)?))
        }
        By::Write => Some((number(word)?, 0)),
    }
}

/// The name that a word says.
#[tactic(auto, using(crate::proofs::Words::no_colon, crate::proofs::Words::no_part, crate::proofs::Words::no_fate, crate::proofs::Words::name_read))]
fn name(by: By, word: &str) -> Option<Name>
    ensures { ReadsName by word.now result }
{
    let (front, beyond) = cut(word, ':')?;
    let (entry, place) = part(by, front)?;
    Some(Name {
        entry,
        place,
        fate: read_fate(beyond.as_bytes())?,
    })
}

/// These names, and after them the one that a text says.
#[tactic(auto, using(crate::proofs::Names::unread, crate::proofs::Names::read_one))]
fn read_last(mut names: ArrayVec<Name, 3>, by: By, text: &str) -> Option<ArrayVec<Name, 3>>
    requires { length names.items < 3 }
    ensures { ReadsOne by text.now names.items (option_map (λ v. v.items) result) }
{
    let last = name(by, text)?;
    names.push(last);
    Some(names)
}

/// These names, and after them those that a text says, at most `left`.
#[tactic(auto, using(crate::proofs::Names::none_left, crate::proofs::Names::last_read, crate::proofs::Names::first_unread, crate::proofs::Names::first_read))]
fn read_on(mut names: ArrayVec<Name, 3>, by: By, left: u8, text: &str) -> Option<ArrayVec<Name, 3>>
    requires { length names.items + left ≤ 3 }
    ensures { ReadsUpTo by left text.now names.items (option_map (λ v. v.items) result) }
{
    if left == 0 {
        return None;
    }
    let Some((first, beyond)) = cut(text, ',') else {
        return read_last(names, by, text);
    };
    let first = name(by, first)?;
    names.push(first);
    read_on(names, by, left - 1, beyond)
}

/// The names that a text says, if it is the text of any; and perhaps some where it isn't.
#[tactic(auto, using(crate::proofs::Names::hyphen_read, crate::proofs::Names::some_read, crate::proofs::Names::none_read))]
fn names_said(by: By, text: &str) -> Option<ArrayVec<Name, 3>>
    ensures { MatchOption result (NoNames by text.now) (λ names. ReadsAs by text.now names.items) }
{
    if text == "-" {
        return Some(ArrayVec::new());
    }
    read_on(ArrayVec::new(), by, 3, text)
}

/// Whether names are printed to this text, to the byte.
///
/// # Errors
///
/// Memory was refused.
pub fn is_text_of(alloc: Global, by: By, names: &[Name], text: &str) -> Result<bool, AllocError>
    ensures { IfOk result (λ same. IsTrue same ↔ (text.now ≡ names_text by names.now)) }
{
    let mut printed = String::new(alloc);
    put_names(&mut printed, by, names)?;
    Ok(printed.as_str() == text)
}

/// The names of departures of which a text is what the report prints; none where it prints no departures
/// so.
///
/// # Errors
///
/// Want of memory.
#[tactic(auto, using(crate::proofs::Names::none_printed))]
pub fn read_names(
    alloc: Global,
    by: By,
    text: &str,
) -> Result<Option<ArrayVec<Name, 3>>, AllocError>
    ensures found { IfOk result (λ found. MatchOption found (NoNames by text.now) (λ names. text.now ≡ names_text by names.items)) }
    ensures back { IfOk result (λ found. MatchOption found (NoNames by text.now) (λ names. ReadsAs by text.now names.items)) }
{
    let Some(names) = names_said(by, text) else {
        return Ok(None);
    };
    if !is_text_of(alloc, by, names.as_slice(), text)? {
        return Ok(None);
    }
    Ok(Some(names))
}
