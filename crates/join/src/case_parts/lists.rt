//! Lists of parts and of fates, read from words.

ghost use Rattle.std.specs.Prelude.{◌≡◌, ◌++◌, ◌∷◌, [], IfOk, OnOk, map};
ghost use Rattle.join.specs.CaseReading.{ReadsFates, ReadsMixed, ReadsMixedPart, ReadsNames, ReadsParts, mixed_value};

use crate::case_parts::names::{Mixed, PartName, name_said, part_said, possible_said};
use crate::words::parts;
use choices::{Fate, Name};
use epochs::By;
use report::printed::cut;
use std::alloc::{AllocError, Global};

/// Appends a name.
fn push_name(names: &mut Vec<Name>, name: Name) -> Result<(), AllocError>
    ensures { OnOk result (names.new.items ≡ names.old.items ++ name ∷ []) }
{
    names.extend_from_slice(&[name])
}

/// The lost and torn parts that a word says.
#[tactic(auto, using(crate::proofs::CaseLists::no_names, crate::proofs::CaseLists::names_begun, crate::proofs::CaseLists::names_on, crate::proofs::CaseLists::names_read))]
pub(crate) fn names_said(alloc: Global, by: By, text: &str) -> Result<Vec<Name>, AllocError>
    ensures { IfOk result (λ names. ReadsNames by text.now names.items) }
{
    let mut names = Vec::new(alloc);
    if text == "-" {
        return Ok(names);
    }
    let mut rest = text;
    while let Some((word, more)) = parts(rest, ',') {
        push_name(&mut names, name_said(by, word))?;
        rest = more;
    }
    push_name(&mut names, name_said(by, rest))?;
    Ok(names)
}

/// The parts that a word says.
#[tactic(auto, using(crate::proofs::CaseLists::no_parts, crate::proofs::CaseLists::parts_begun, crate::proofs::CaseLists::parts_on, crate::proofs::CaseLists::parts_read))]
pub(crate) fn parts_said(alloc: Global, by: By, text: &str) -> Result<Vec<PartName>, AllocError>
    ensures { IfOk result (λ found. ReadsParts by text.now found.items) }
{
    let mut found = Vec::new(alloc);
    if text == "-" {
        return Ok(found);
    }
    let mut rest = text;
    while let Some((word, more)) = parts(rest, ',') {
        found.push(part_said(by, word))?;
        rest = more;
    }
    found.push(part_said(by, rest))?;
    Ok(found)
}

/// The fates that a word says.
#[tactic(auto, using(crate::proofs::CaseLists::fates_begun, crate::proofs::CaseLists::fates_on, crate::proofs::CaseLists::fates_read))]
fn fates_said(alloc: Global, text: &str) -> Result<Vec<Option<Fate>>, AllocError>
    ensures { IfOk result (λ fates. ReadsFates text.now fates.items) }
{
    let mut fates = Vec::new(alloc);
    let mut rest = text;
    while let Some((word, more)) = parts(rest, '+') {
        fates.push(possible_said(word))?;
        rest = more;
    }
    fates.push(possible_said(rest))?;
    Ok(fates)
}

/// The part that a word says, with its fates.
#[tactic(auto, using(crate::proofs::CaseLists::mixed_part_read))]
fn mixed_part_said(alloc: Global, by: By, word: &str) -> Result<Mixed, AllocError>
    ensures { IfOk result (λ m. ReadsMixedPart by word.now (mixed_value m)) }
{
    let (part, fates) = cut(word, ':');
    let fates = fates_said(alloc, fates)?;
    Ok(Mixed {
        part: part_said(by, part),
        fates,
    })
}

/// The parts with their fates that a word says; none where there is none.
pub(crate) fn mixed_said(alloc: Global, by: By, text: &str) -> Result<Vec<Mixed>, AllocError>
    ensures { IfOk result (λ found. ReadsMixed by text.now (map mixed_value found.items)) }
{
    let mut found = Vec::new(alloc);
    if text == "" {
        return Ok(found);
    }
    let mut rest = text;
    while let Some((word, more)) = parts(rest, ',') {
        found.push(mixed_part_said(alloc, by, word)?)?;
        rest = more;
    }
    found.push(mixed_part_said(alloc, by, rest)?)?;
    Ok(found)
}
