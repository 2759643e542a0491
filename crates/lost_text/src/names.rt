//! The names of a choice of any number of parts, read from its text.

ghost use Rattle.std.specs.Prelude.{ℕ, ◌≡◌, ◌<◌, ◌↔◌, ◌∷◌, ◌++◌, [], Some, IfOk, IfSome, IsTrue, OnOk, MatchOption, length, option_map};
ghost use Rattle.choices.specs.declared.name.Name.{Name as NameValue};
ghost use Rattle.report.specs.ChoiceText.{names_text};
ghost use Rattle.report.specs.Reading.{IsCutAt, NoCutAt, ReadsName};
ghost use Rattle.lost_text.specs.AnyNames.{PushesName, ReadsSome, ReadsAny};

use choices::{Fate, Name};
use epochs::By;
use report::choice_text::{is_text_of, read_names};
use std::alloc::{AllocError, Global};

/// What stands before and after the first comma of a text.
fn cut(text: &str) -> Option<(&str, &str)>
    ensures value { MatchOption result (NoCutAt 44 text.now) (λ parts. IsCutAt 44 text.now parts.0.now parts.1.now) }
    ensures shorter { IfSome result (λ parts. length parts.1.now < length text.now) }
{
    text.split_once(',')
}

/// The only one of some names.
fn only_of(names: &[Name]) -> Option<Name>
    ensures { (n : NameValue) → names.now ≡ n ∷ [] → result ≡ Some n }
{
    match names {
        [name] => Some(*name),
        _ => None,
    }
}

/// The name that a word says, if it says one.
#[tactic(auto, using(crate::proofs::AnyNames::word_unread, crate::proofs::AnyNames::word_read))]
fn name_said(alloc: Global, by: By, word: &str) -> Result<Option<Name>, AllocError>
    ensures { IfOk result (ReadsName by word.now) }
{
    match read_names(alloc, by, word)? {
        Some(names) => Ok(only_of(names.as_slice())),
        None => Ok(None),
    }
}

/// Appends a name by its parts.
fn push_name(names: &mut Vec<Name>, entry: u32, place: u32, fate: Fate) -> Result<(), AllocError>
    ensures { OnOk result (names.new.items ≡ names.old.items ++ record { entry = entry; place = place; fate = fate } ∷ []) }
{
    names.push(Name { entry, place, fate })?;
    Ok(())
}

/// Appends the name that a word says, and answers whether it says one.
#[tactic(auto, using(crate::proofs::AnyNames::pushed, crate::proofs::AnyNames::not_pushed))]
fn push_said(alloc: Global, by: By, names: &mut Vec<Name>, word: &str) -> Result<bool, AllocError>
    ensures { IfOk result (PushesName by word.now names.old.items names.new.items) }
{
    match name_said(alloc, by, word)? {
        Some(name) => {
            push_name(names, name.entry, name.place, name.fate)?;
            Ok(true)
        }
        None => Ok(false),
    }
}

/// The names that a text says, if it is that of some; and perhaps some where it isn't.
#[tactic(auto, using(crate::proofs::AnyNames::going_start, crate::proofs::AnyNames::going_on, crate::proofs::AnyNames::stopped, crate::proofs::AnyNames::ended, crate::proofs::AnyNames::unended))]
fn some_said(alloc: Global, by: By, text: &str) -> Result<Option<Vec<Name>>, AllocError>
    ensures { IfOk result (λ found. ReadsSome by text.now (option_map (λ v. v.items) found)) }
{
    let mut names = Vec::new(alloc);
    let mut rest = text;
    while let Some((word, beyond)) = cut(rest) {
        if !push_said(alloc, by, &mut names, word)? {
            return Ok(None);
        }
        rest = beyond;
    }
    if push_said(alloc, by, &mut names, rest)? {
        Ok(Some(names))
    } else {
        Ok(None)
    }
}

/// The names of departures, however many, of which a text is what the report prints; none where it prints no departures so.
///
/// # Errors
///
/// Want of memory.
#[tactic(auto, using(crate::proofs::AnyNames::hyphen_printed, crate::proofs::AnyNames::hyphen_said, crate::proofs::AnyNames::any_said, crate::proofs::AnyNames::others_said))]
pub(crate) fn names_said(alloc: Global, by: By, text: &str) -> Result<Option<Vec<Name>>, AllocError>
    ensures found { IfOk result (λ found. IfSome found (λ names. text.now ≡ names_text by names.items)) }
    ensures back { IfOk result (λ found. ReadsAny by text.now (option_map (λ v. v.items) found)) }
{
    if text == "-" {
        return Ok(Some(Vec::new(alloc)));
    }
    let Some(names) = some_said(alloc, by, text)? else {
        return Ok(None);
    };
    if is_text_of(alloc, by, names.as_slice(), text)? {
        Ok(Some(names))
    } else {
        Ok(None)
    }
}
