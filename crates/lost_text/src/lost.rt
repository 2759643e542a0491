//! What becomes of each part at risk, by the text of a choice of any number of them.

ghost use Rattle.std.specs.Prelude.{◌≡◌, ◌≢◌, ◌≤◌, ◌<◌, ◌+◌, ◌^◌, ◌++◌, [], All, Some, None, IfOk, IfSome, IsTrue, IsFalse, OnOk, MatchOption};
ghost use Rattle.choices.specs.declared.fate.Fate.TheVariants as fates;
ghost use Rattle.choices.specs.declared.name.Name.{Name as NameValue};
ghost use Rattle.choices.specs.CrashModel.{IsFate};
ghost use Rattle.choices.specs.Seeking.{is_named};
ghost use Rattle.cases.specs.Choices.{departs};
ghost use Rattle.cases.specs.Sets.{fates_in};
ghost use Rattle.lost_text.specs.Said.{IsLostSo, NoneIsSaid};
ghost use Rattle.lost_text.specs.Lost.{fate_said, fates_said, is_possible, left_after, lost_of, names_left, only, set_of, AreSetsOf, IsImpossible, IsSetOf, PutsSet};

use crate::names::names_said;
use cases::Cut;
use choices::{Departure, Fate, Name};
use epochs::{By, Part};
use std::alloc::{AllocError, Global};

/// What becomes of some parts: of each a set that has that one fate; and what is lost and torn of them.
#[derive(Drop)]
pub struct Lost {
    pub sets: Vec<u16>,
    pub departures: Vec<Departure>,
}

/// Whether a part is the one that a name says.
fn is_named(part: Part, name: &Name) -> bool
    ensures { result ≡ is_named part name.now }
{
    part.entry == name.entry && part.place == name.place
}

/// What becomes of a part, by the names of it and of later ones.
fn fate_said(part: Part, names: &[Name]) -> Option<Fate>
    ensures { result ≡ fate_said part names.now }
{
    match names {
        [] => None,
        [first, ..] => {
            if is_named(part, first) {
                Some(first.fate)
            } else {
                None
            }
        }
    }
}

/// The names of later parts.
fn left_after(part: Part, names: &[Name]) -> &[Name]
    ensures { result.now ≡ left_after part names.now }
{
    match names {
        [] => names,
        [first, rest @ ..] => { if is_named(part, first) { rest } else { names } }
    }
}

/// The set of a head alone, by its eighths.
#[tactic(auto, unfolding(cases::specs::Sets::fates_in, cases::specs::Sets::numbers_in, crate::specs::Lost::set_of))]
fn head_set(eighths: u8) -> u16
    requires low { 1 ≤ eighths }
    requires high { eighths < 8 }
    ensures fates { fates_in result ≡ only (Some (fates.Head eighths)) }
    ensures value { result ≡ 2 ^ (eighths + 1) }
{
    match eighths {
        1 => 4,
        2 => 8,
        3 => 16,
        4 => 32,
        5 => 64,
        6 => 128,
        _ => 256,
    }
}

/// The set of a tail alone, by its eighths.
#[tactic(auto, unfolding(cases::specs::Sets::fates_in, cases::specs::Sets::numbers_in, crate::specs::Lost::set_of))]
fn tail_set(eighths: u8) -> u16
    requires low { 1 ≤ eighths }
    requires high { eighths < 8 }
    ensures fates { fates_in result ≡ only (Some (fates.Tail eighths)) }
    ensures value { result ≡ 2 ^ (eighths + 8) }
{
    match eighths {
        1 => 512,
        2 => 1_024,
        3 => 2_048,
        4 => 4_096,
        5 => 8_192,
        6 => 16_384,
        _ => 32_768,
    }
}

/// The set of what became of a part that isn't whole.
#[tactic(auto, unfolding(cases::specs::Sets::fates_in, cases::specs::Sets::numbers_in, crate::specs::Lost::set_of))]
fn set_of_lost(fate: Fate) -> u16
    ensures fates { fates_in result ≡ only (Some fate) }
    ensures value { result ≡ set_of (Some fate) }
{
    match fate {
        Fate::Drop => 2,
        Fate::Head(eighths) => head_set(eighths.count()),
        Fate::Tail(eighths) => tail_set(eighths.count()),
    }
}

/// The set of a fate alone.
#[tactic(auto, unfolding(cases::specs::Sets::fates_in, cases::specs::Sets::numbers_in, crate::specs::Lost::set_of))]
fn set_of(fate: Option<Fate>) -> u16
    ensures { IsSetOf result fate }
{
    match fate {
        Some(fate) => set_of_lost(fate),
        None => 1,
    }
}

/// Appends what a part lost, if it isn't whole.
fn push_departure(
    departures: &mut Vec<Departure>,
    part: Part,
    fate: Option<Fate>,
) -> Result<(), AllocError>
    ensures { OnOk result (departures.new.items ≡ departures.old.items ++ departs part fate) }
{
    if let Some(fate) = fate {
        departures.push(Departure { part, fate })?;
    }
    Ok(())
}

/// Appends a set of one fate.
#[tactic(auto, using(crate::proofs::Matching::set_put))]
fn push_set(sets: &mut Vec<u16>, fate: Option<Fate>) -> Result<(), AllocError>
    ensures { OnOk result (PutsSet sets.old.items sets.new.items fate) }
{
    let set = set_of(fate);
    sets.push(set)?;
    Ok(())
}

/// Appends what becomes of a part, by the names of it and of later ones.
fn put_part(
    sets: &mut Vec<u16>,
    departures: &mut Vec<Departure>,
    part: Part,
    names: &[Name],
) -> Result<(), AllocError>
    ensures set { OnOk result (PutsSet sets.old.items sets.new.items (fate_said part names.now)) }
    ensures departs { OnOk result (departures.new.items ≡ departures.old.items ++ departs part (fate_said part names.now)) }
{
    push_set(sets, fate_said(part, names))?;
    push_departure(departures, part, fate_said(part, names))
}

/// What becomes of some parts, by the names of what is lost and torn, in their order; none where a name is left.
#[tactic(auto, using(crate::proofs::Matching::matched_start, crate::proofs::Matching::matched_all))]
fn lost_of(alloc: Global, parts: &[Part], names: &[Name]) -> Result<Option<Lost>, AllocError>
    ensures left { IfOk result (λ found. MatchOption found (names_left parts.now names.now ≢ []) (λ lost. names_left parts.now names.now ≡ [])) }
    ensures sets { IfOk result (λ found. IfSome found (λ lost. AreSetsOf lost.sets.items (fates_said parts.now names.now))) }
    ensures departures { IfOk result (λ found. IfSome found (λ lost. lost.departures.items ≡ lost_of parts.now (fates_said parts.now names.now))) }
{
    let mut sets = Vec::new(alloc);
    let mut departures = Vec::new(alloc);
    let mut left = names;
    for part in parts {
        put_part(&mut sets, &mut departures, *part, left)?;
        left = left_after(*part, left);
    }
    if left.is_empty() {
        Ok(Some(Lost { sets, departures }))
    } else {
        Ok(None)
    }
}

/// Whether a part may have that fate, with tears or without.
fn is_possible(tears: bool, fate: Fate) -> bool
    ensures value { result ≡ is_possible tears fate }
    ensures fate { IsTrue result → IsFate tears fate }
{
    match fate {
        Fate::Drop => true,
        Fate::Head(eighths) => {
            let _count = eighths.count();
            tears
        }
        Fate::Tail(eighths) => {
            let _count = eighths.count();
            tears
        }
    }
}

/// Whether parts may have the fates of these names.
fn are_possible(tears: bool, names: &[Name]) -> bool
    ensures possible { IsTrue result → All (λ (n : NameValue). IsFate tears n.fate) names.now }
    ensures impossible { IsFalse result → IsImpossible tears names.now }
{
    for name in names {
        if !is_possible(tears, name.fate) {
            return false;
        }
    }
    true
}

/// What becomes of each part at risk at a cut, by the text of a choice: a part that it doesn't name is whole. None where no choice there
/// is printed so.
pub fn lost_said(
    alloc: Global,
    at: &Cut<'_>,
    by: By,
    tears: bool,
    said: &str,
) -> Result<Option<Lost>, AllocError>
    requires { at.now.way ≡ by }
    ensures { IfOk result (λ found. MatchOption found (NoneIsSaid at.now tears said.now) (λ lost. IsLostSo at.now tears said.now lost.sets.items lost.departures.items)) }
{
    let _sectors = at.sectors();
    let Some(names) = names_said(alloc, by, said)? else {
        return Ok(None);
    };
    if !are_possible(tears, names.as_slice()) {
        return Ok(None);
    }
    lost_of(alloc, at.parts(), names.as_slice())
}
