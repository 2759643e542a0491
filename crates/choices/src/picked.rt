//! A choice by the numbers of its departures.

ghost use Rattle.std.specs.Prelude.{◌≡◌, ◌+◌, ◌*◌, ◌<◌, ◌≤◌, ◌∷◌, ◌++◌, [], if◌then◌else◌, ℕ, Bool, List, length, slice_get, Some, IsTrue, IsFalse};
ghost use Rattle.arrayvec.specs.ArrayVec.{array_vec_len};
ghost use Rattle.base.specs.Sizes.{most_units};
ghost use Rattle.epochs.specs.Parts.{volatile_parts};
ghost use Rattle.epochs.specs.Plan.{PlanValue};
ghost use Rattle.choices.specs.Choices.{ranked_choices};
ghost use Rattle.choices.specs.Picked.{CanPass, IsRanked, choice_of_picked, marked_picks, pick_after, picked_of, with_last};
ghost use Rattle.choices.specs.Picks.{fates_of};

use crate::choice::Choice;
use crate::fate::fates_of;
use crate::pick::Pick;
use crate::step::step;
use arrayvec::ArrayVec;
use epochs::Plan;
use std::marker::Model;

/// A choice by the numbers of its departures. It takes no search in the plan to go on from one to the next.
#[derive(Drop)]
pub struct Picked {
    place: usize,
    cut: u32,
    picks: ArrayVec<Pick, 3>,
}

impl Model for Picked {
    ghost use Rattle.choices.specs.Picked.{PickedValue};

    ghost Value = { PickedValue };

    ghost view = { λ p. record { place = p.place; cut = p.cut; picks = p.picks.items } };
}

/// A copy of the picks.
#[inline(always)]
fn copied(picks: &[Pick]) -> ArrayVec<Pick, 3>
    requires { length picks.now ≤ 3 }
    ensures { result.items ≡ picks.now }
{
    let mut copy = ArrayVec::new();
    for pick in picks {
        copy.push(*pick);
    }
    copy
}

/// Appends a departure, if it is marked.
#[inline(always)]
fn put_marked(those: &mut ArrayVec<Pick, 3>, pick: Pick, mark: bool)
    requires { array_vec_len those.old < 3 }
    ensures { those.new.items ≡ those.old.items ++ (if mark then pick ∷ [] else []) }
{
    if mark {
        those.push(pick);
    }
}

/// Those that are marked.
#[inline(always)]
fn marked(picks: &[Pick], marks: &[bool; 3]) -> ArrayVec<Pick, 3>
    requires { length picks.now ≤ 3 }
    ensures { result.items ≡ marked_picks marks.now picks.now }
{
    let mut those = ArrayVec::new();
    for (place, pick) in picks.iter().enumerate() {
        put_marked(&mut those, *pick, marks[place]);
    }
    those
}

impl Picked {
    /// The numbers of a choice.
    pub fn of(choice: &Choice) -> Picked
        ensures value { result ≡ picked_of choice.now }
        ensures ranked { (plan : PlanValue) (bound : ℕ) (tears : Bool) (n : ℕ) → slice_get (ranked_choices plan bound tears) n ≡ Some choice.now → IsRanked plan bound tears n result }
    {
        Picked {
            place: choice.place,
            cut: choice.cut,
            picks: copied(choice.picks.as_slice()),
        }
    }

    /// The place of its cut among the wanted cuts.
    pub fn place(&self) -> usize
        ensures { result ≡ self.now.place }
    {
        self.place
    }

    /// The cut.
    pub fn cut(&self) -> u32
        ensures { result ≡ self.now.cut }
    {
        self.cut
    }

    /// The departures by their numbers, rising.
    pub fn picks(&self) -> &[Pick]
        ensures value { result.now ≡ self.now.picks }
        ensures few { length result.now ≤ 3 }
    {
        self.picks.as_slice()
    }

    /// The choice.
    pub fn choice(&self, plan: &Plan) -> Choice
        requires { (bound : ℕ) × (tears : Bool) × (n : ℕ) × IsRanked plan.now bound tears n self.now }
        ensures { result ≡ choice_of_picked plan.now self.now }
    {
        Choice::of(plan, self.place, self.cut, copied(self.picks.as_slice()))
    }

    /// The choice of those of its departures that are marked. It is one of the plan too.
    pub fn only(&self, plan: &Plan, marks: &[bool; 3]) -> Choice
        requires { (bound : ℕ) × (tears : Bool) × (n : ℕ) × IsRanked plan.now bound tears n self.now }
        ensures value { result ≡ choice_of_picked plan.now (record self.now { picks = marked_picks marks.now self.now.picks }) }
        ensures ranked { (bound : ℕ) (tears : Bool) (n : ℕ) → IsRanked plan.now bound tears n self.now
            → (m : ℕ) × (slice_get (ranked_choices plan.now bound tears) m ≡ Some result) }
    {
        let picks = marked(self.picks.as_slice(), marks);
        Choice::of(plan, self.place, self.cut, picks)
    }

    /// Goes on to the following choice. At the last one the answer is `false`, and it stays as it is.
    pub fn next(&mut self, plan: &Plan, bound: u8, tears: bool) -> bool
        requires bound { bound ≤ 3 }
        requires member { (n : ℕ) × IsRanked plan.now bound tears n self.old }
        ensures moved { IsTrue result → (n : ℕ) → IsRanked plan.now bound tears n self.old → IsRanked plan.now bound tears (n + 1) self.new }
        ensures last { IsFalse result → (n : ℕ) → IsRanked plan.now bound tears n self.old → n + 1 ≡ length (ranked_choices plan.now bound tears) }
        ensures same { IsFalse result → self.new ≡ self.old }
    {
        if step(
            fates_of(tears),
            bound,
            plan.volatile(self.cut),
            &mut self.picks,
        ) {
            return true;
        }
        match plan.cuts().get(self.place + 1) {
            Some(cut) => {
                *self = Picked {
                    place: self.place + 1,
                    cut: *cut,
                    picks: ArrayVec::new(),
                };
                true
            }
            None => false,
        }
    }

    /// Goes on over that many choices, in which the last departure alone changes. It has one.
    pub fn pass(&mut self, tears: bool, count: u64)
        requires { (front : List Pick) × (last : Pick) × CanPass (fates_of tears) most_units count front last self.old.picks }
        ensures value { (front : List Pick) (last : Pick) → self.old.picks ≡ front ++ last ∷ []
            → self.new ≡ with_last self.old front (pick_after (fates_of tears) count last) }
        ensures ranked { (plan : PlanValue) (bound n : ℕ) (front : List Pick) (last : Pick) → IsRanked plan bound tears n self.old
            → CanPass (fates_of tears) (length (volatile_parts plan.by plan.log.entries self.old.cut)) count front last self.old.picks
            → IsRanked plan bound tears (n + count) self.new }
    {
        let picks = self.picks.as_slice();
        let front = picks.len() - 1;
        let next = beyond(picks[front], fates_of(tears), count);
        self.picks.truncate(front);
        self.picks.push(next);
    }
}

/// The single departure that is that many after another.
#[inline(always)]
fn beyond(pick: Pick, fates: u8, count: u64) -> Pick
    requires some { 1 ≤ fates }
    requires parts { pick.part * fates + pick.fate + count < most_units * fates }
    ensures { result ≡ pick_after fates count pick }
{
    let fates = u64::from(fates);
    let number = u64::from(pick.part) * fates + u64::from(pick.fate) + count;
    Pick {
        part: (number / fates) as u32,
        fate: (number % fates) as u8,
    }
}

/// How many fates a part may have beside whole, with torn writes or without.
pub fn fates(tears: bool) -> u8
    ensures { result ≡ fates_of tears }
{
    fates_of(tears)
}
