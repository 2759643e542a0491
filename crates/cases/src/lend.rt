//! Sectors of the image of a case's representative that stand in the log as they are.

ghost use Rattle.std.specs.Prelude.{◌≡◌, ◌<◌, ◌≤◌, ℕ, Bool, length, slice_get, slice_index_or, Some, MatchOption};
ghost use Rattle.logfmt.specs.Bounds.{IsLog};
ghost use Rattle.epochs.specs.Plan.{IsUnit};
ghost use Rattle.cases.specs.Sets.{fate_at};
ghost use Rattle.cases.specs.Trees.{is_torn};
ghost use Rattle.cases.specs.AtCut.{parts_of, case_of, image_of};
ghost use Rattle.cases.specs.Lent.{reach_with, is_torn_first, IsTornOver, ReachesSo};

use crate::cut::Cut;
use crate::fates::first_number;
use crate::row::content_of;
use epochs::Unit;

/// What of a unit reaches the device.
#[derive(Clone, Copy)]
pub(crate) enum UnitReach {
    /// All of it.
    Whole,
    /// Nothing.
    Gone,
    /// Its part is torn.
    Torn,
}

/// What reaches the device of a part with a fate, by the number of that.
#[tactic(auto, using(crate::proofs::Lending::reach_whole, crate::proofs::Lending::reach_gone, crate::proofs::Lending::reach_torn))]
pub(crate) fn reach_at(fate: u8) -> UnitReach
    ensures { result ≡ reach_with (fate_at fate) }
{
    if fate == 0 {
        UnitReach::Whole
    } else if fate == 1 {
        UnitReach::Gone
    } else {
        UnitReach::Torn
    }
}

/// Whether a fate is a torn one, by its number.
#[tactic(auto, using(crate::proofs::Lending::is_torn_number))]
fn is_torn_at(fate: u8) -> bool
    ensures { result ≡ is_torn (fate_at fate) }
{
    fate > 1
}

/// Whether the first fate of a set is a torn one, which is that of the representative.
pub fn is_torn_first(set: u16) -> bool
    ensures { result ≡ is_torn_first set }
{
    is_torn_at(first_number(set))
}

impl<'a> Cut<'a> {
    /// How many sectors the device has.
    pub fn sectors(&self) -> u32
        ensures value { result ≡ self.now.log.sectors }
        ensures bounds { IsLog self.now.log }
        ensures within { self.now.cut ≤ length self.now.log.entries }
    {
        self.log().sectors()
    }

    /// What of a unit reaches the device with the representative of a case.
    fn reach_of(&self, sets: &[u16], unit: Unit) -> UnitReach
        requires each { length sets.now ≡ length (parts_of self.now) }
        requires unit { IsUnit self.now.log unit }
        requires before { unit.entry < self.now.cut }
        ensures { ReachesSo self.now sets.now unit result }
    {
        if !self.risks(unit.entry) {
            return UnitReach::Whole;
        }
        let number = self.number_of(unit);
        reach_at(first_number(sets[number]))
    }

    /// A sector of the image of a case's representative, where it is that of a unit, or what the device held before entry 0; else
    /// `None`: a torn part covers it. It takes no memory, and a walk over the entries from the cut down.
    pub fn lent(&self, sets: &[u16], number: u32) -> Option<&'a [u8; 512]>
        requires each { length sets.now ≡ length (parts_of self.now) }
        requires device { number < self.now.log.sectors }
        ensures { MatchOption result ((part : ℕ) × IsTornOver self.now sets.now number part)
            (λ sector. (tears : Bool) → slice_get (image_of self.now (case_of tears (parts_of self.now) sets.now)) number ≡ Some sector.now) }
    {
        let mut cut = self.number();
        'row: while let Some(unit) = self.next_wanted(255, cut, number) {
            match self.reach_of(sets, unit) {
                UnitReach::Whole => return Some(content_of(self.log(), unit)),
                UnitReach::Torn => return None,
                UnitReach::Gone => cut = unit.entry,
            }
        }
        Some(self.log().initial().sector(number))
    }
}
