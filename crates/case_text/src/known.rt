//! What a case says of the parts at risk.

ghost use Rattle.std.specs.Prelude.{◌≡◌, ◌++◌, ◌+◌, ◌∷◌, ◌<◌, ◌^◌, [], None, Some, if◌then◌else◌, length, map, slice_get, slice_index_or, OnOk};
ghost use Rattle.std.specs.Option.{option_or};
ghost use Rattle.cases.specs.Choices.{departs};
ghost use Rattle.cases.specs.Sets.{fates_in};
ghost use Rattle.cases.specs.AtCut.{Apart, case_of};
ghost use Rattle.case_text.specs.Known.{is_kept, is_mixed, is_free, is_never_whole, is_never_gone, known_of};
ghost use Rattle.case_text.specs.Collected.{mixed_value, with_more};

use crate::fates::{fates_of, is_free, is_kept, is_mixed, is_never_gone, is_never_whole, set_at};
use cases::first_of;
use choices::{Departure, Fate};
use epochs::Part;
use std::alloc::{AllocError, Global};
use std::marker::Model;

/// A part of which more than one fate is possible, and not all, with the set of its fates.
#[derive(Clone, Copy, Drop)]
pub(crate) struct MixedFates {
    pub(crate) part: Part,
    pub(crate) set: u16,
}

/// What a case says of the parts at risk. Its room is kept from case to case.
#[derive(Drop)]
pub struct KnownParts {
    /// What the representative loses and tears.
    pub(crate) lost: Vec<Departure>,
    /// The parts that are whole.
    pub(crate) kept: Vec<Part>,
    /// The parts of which more than one fate is possible, and not all.
    pub(crate) mixed: Vec<MixedFates>,
    /// How many parts may have any fate.
    pub(crate) free: usize,
    /// The first entry of which a part isn't whole, whatever becomes of it.
    pub(crate) first_lost: Option<u32>,
    /// The last entry of which something of a part arrives, whatever becomes of it.
    pub(crate) last_arrived: Option<u32>,
}

impl Model for KnownParts {
    ghost use Rattle.std.specs.Prelude.{map};
    ghost use Rattle.case_text.specs.Known.{KnownValue};
    ghost use Rattle.case_text.specs.Collected.{mixed_value};

    ghost Value = { KnownValue };

    ghost view = { λ k. record { lost = k.lost.items; kept = k.kept.items; mixed = map mixed_value k.mixed.items; free = k.free; first_lost = k.first_lost; last_arrived = k.last_arrived } };
}

/// Appends what a part lost, with the fate of the representative.
fn push_lost(lost: &mut Vec<Departure>, part: Part, fate: Option<Fate>) -> Result<(), AllocError>
    ensures { OnOk result (lost.new.items ≡ lost.old.items ++ departs part fate) }
{
    if let Some(fate) = fate {
        lost.push(Departure { part, fate })?;
    }
    Ok(())
}

/// Appends a part, if it is whole.
fn push_kept(kept: &mut Vec<Part>, part: Part, is_kept: bool) -> Result<(), AllocError>
    ensures { OnOk result (kept.new.items ≡ kept.old.items ++ (if is_kept then part ∷ [] else [])) }
{
    if is_kept {
        kept.push(part)?;
    }
    Ok(())
}

/// Appends a part with the set of its fates, if these are more than one and not all.
fn push_mixed(
    mixed: &mut Vec<MixedFates>,
    part: Part,
    set: u16,
    is_mixed: bool,
) -> Result<(), AllocError>
    ensures { OnOk result (map mixed_value mixed.new.items ≡ map mixed_value mixed.old.items ++ (if is_mixed then record { part = part; fates = fates_in set } ∷ [] else [])) }
{
    if is_mixed {
        mixed.push(MixedFates { part, set })?;
    }
    Ok(())
}

/// The first entry of which a part isn't whole, with one more part.
fn first_with(first: Option<u32>, entry: u32, is: bool) -> Option<u32>
    ensures { result ≡ option_or first (if is then Some entry else None) }
{
    match first {
        Some(_) => first,
        None => if is { Some(entry) } else { None },
    }
}

/// The last entry of which something arrives, with one more part.
fn last_with(last: Option<u32>, entry: u32, is: bool) -> Option<u32>
    ensures { result ≡ (if is then Some entry else last) }
{
    if is { Some(entry) } else { last }
}

impl KnownParts {
    /// Returns what is known of no parts: nothing.
    pub fn new(alloc: Global) -> KnownParts {
        KnownParts {
            lost: Vec::new(alloc),
            kept: Vec::new(alloc),
            mixed: Vec::new(alloc),
            free: 0,
            first_lost: None,
            last_arrived: None,
        }
    }

    /// Forgets all, and keeps the room.
    fn clear(&mut self)
        ensures { self.new ≡ record { lost = []; kept = []; mixed = []; free = 0; first_lost = None; last_arrived = None } }
    {
        self.lost.clear();
        self.kept.clear();
        self.mixed.clear();
        self.free = 0;
        self.first_lost = None;
        self.last_arrived = None;
    }

    /// Takes one more part with the set of its fates.
    fn add(&mut self, tears: bool, part: Part, set: u16) -> Result<(), AllocError>
        requires { self.old.free + 1 < 2 ^ 64 }
        ensures { OnOk result (self.new ≡ with_more tears self.old part (fates_in set)) }
    {
        let fates = fates_of(set);
        push_lost(&mut self.lost, part, first_of(set))?;
        push_kept(&mut self.kept, part, is_kept(fates.as_slice()))?;
        let mixed = is_mixed(tears, fates.as_slice());
        push_mixed(&mut self.mixed, part, set, mixed)?;
        self.free += usize::from(is_free(tears, fates.as_slice()));
        let lost = is_never_whole(fates.as_slice());
        self.first_lost = first_with(self.first_lost, part.entry, lost);
        let arrived = is_never_gone(fates.as_slice());
        self.last_arrived = last_with(self.last_arrived, part.entry, arrived);
        Ok(())
    }

    /// Takes what a case says of the parts at risk, and forgets what was there.
    ///
    /// # Errors
    ///
    /// Memory was refused.
    pub fn read(&mut self, tears: bool, parts: &[Part], sets: &[u16]) -> Result<(), AllocError>
        requires { Apart parts.now }
        ensures { OnOk result (self.new ≡ known_of tears (case_of tears parts.now sets.now) parts.now) }
    {
        self.clear();
        for (number, part) in parts.iter().enumerate() {
            self.add(tears, *part, set_at(sets, tears, number))?;
        }
        Ok(())
    }

    /// What the representative of the case loses and tears.
    pub fn into_lost(self) -> Vec<Departure>
        ensures { result.items ≡ self.lost }
    {
        self.lost
    }
}
