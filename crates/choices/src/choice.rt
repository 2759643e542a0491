//! A choice.

ghost use Rattle.std.specs.Prelude.{◌≡◌, ◌<◌, ◌≤◌, length, map};
ghost use Rattle.epochs.specs.Parts.{volatile_parts};
ghost use Rattle.choices.specs.Picks.{ArePicks, most_fates};
ghost use Rattle.choices.specs.Choices.{choice_of, departure_of};

use crate::fate::Fate;
use crate::pick::Pick;
use arrayvec::ArrayVec;
use epochs::{Part, Plan};
use std::marker::Model;

/// A part that is not whole, and what becomes of it.
#[derive(Clone, Copy, Debug, PartialEq, Eq)]
pub struct Departure {
    /// The part.
    pub part: Part,
    /// What becomes of it.
    pub fate: Fate,
}

impl Default for Departure {
    /// A departure that stands for none.
    fn default() -> Departure {
        Departure {
            part: Part {
                entry: 0,
                place: 0,
                count: 0,
                sector: 0,
            },
            fate: Fate::Drop,
        }
    }
}

/// A choice at a cut: at most three of the volatile parts, each with a fate other than whole
/// (docs/CRASH-MODEL.md, Fates and choices).
///
/// Contracts see the cut, its place among the wanted cuts, and the departures, also by their numbers.
#[derive(Drop)]
pub struct Choice {
    pub(crate) place: usize,
    pub(crate) cut: u32,
    pub(crate) picks: ArrayVec<Pick, 3>,
    pub(crate) departures: ArrayVec<Departure, 3>,
}

impl Model for Choice {
    ghost use Rattle.choices.specs.Choices.{ChoiceValue};

    ghost Value = { ChoiceValue };

    ghost view = { λ c. record { place = c.place; cut = c.cut; picks = c.picks.items; departures = c.departures.items } };
}

impl Choice {
    /// The cut.
    pub fn cut(&self) -> u32
        ensures { result ≡ self.now.cut }
    {
        self.cut
    }

    /// The place of its cut among the wanted cuts.
    pub fn place(&self) -> usize
        ensures { result ≡ self.now.place }
    {
        self.place
    }

    /// The departures, rising by part. Every other part is whole.
    pub fn departures(&self) -> &[Departure]
        ensures value { result.now ≡ self.now.departures }
        ensures few { length result.now ≤ 3 }
    {
        self.departures.as_slice()
    }

    /// The departures as a list of their own, which borrows nothing of the choice.
    pub fn departures_owned(&self) -> ArrayVec<Departure, 3>
        ensures { result.items ≡ self.now.departures }
    {
        let departures = self.departures();
        let mut copy = ArrayVec::new();
        for departure in departures {
            copy.push(*departure);
        }
        copy
    }

    /// The choice of those departures at a cut of a plan, which has that place among the wanted cuts.
    #[tactic(auto, unfolding(crate::specs::Choices::choice_of))]
    pub(crate) fn of(plan: &Plan, place: usize, cut: u32, picks: ArrayVec<Pick, 3>) -> Choice
        requires cut { cut ≤ length plan.now.log.entries }
        requires picks { ArePicks most_fates (length (volatile_parts plan.now.by plan.now.log.entries cut)) picks.items }
        ensures { result ≡ choice_of plan.now.by plan.now.log.entries place cut picks.items }
    {
        let departures = departures_of(plan, cut, picks.as_slice());
        Choice {
            place,
            cut,
            picks,
            departures,
        }
    }
}

/// The departures of those numbers at a cut of a plan.
#[inline(always)]
pub(crate) fn departures_of(plan: &Plan, cut: u32, picks: &[Pick]) -> ArrayVec<Departure, 3>
    requires cut { cut ≤ length plan.now.log.entries }
    requires few { length picks.now ≤ 3 }
    requires picks { ArePicks most_fates (length (volatile_parts plan.now.by plan.now.log.entries cut)) picks.now }
    ensures { result.items ≡ map (departure_of (volatile_parts plan.now.by plan.now.log.entries cut)) picks.now }
{
    let mut departures = ArrayVec::new();
    for pick in picks {
        departures.push(Departure {
            part: plan.part(cut, pick.part),
            fate: Fate::of(pick.fate),
        });
    }
    departures
}
