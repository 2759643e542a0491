//! The choices of a plan, found by a table.

ghost use Rattle.std.specs.Prelude.{◌≡◌, ◌+◌, ◌-◌, ℕ, ◌<◌, ◌≤◌, ◌^◌, length, IfOk};
ghost use Rattle.std.specs.List.{slice_index_or};
ghost use Rattle.epochs.specs.Cuts.{cuts_of};
ghost use Rattle.choices.specs.Choices.{ranked_choices, ranked_at, ranked_before};
ghost use Rattle.choices.specs.Sums.{AreSums, FallsAt};

use crate::choice::Choice;
use crate::ranked::{choice_at, ways_at};
use epochs::Plan;
use std::alloc::{AllocError, Global};
use std::marker::Model;

/// A table of how many choices stand before each wanted cut of a plan. With it the choice of a number
/// is found by a search by halves among the cuts, and not by a walk over them.
///
/// Contracts see the plan, how many departures a choice may have, and whether writes may be torn.
#[derive(Drop)]
pub struct Starts<'a> {
    plan: &'a Plan<'a>,
    bound: u8,
    tears: bool,
    /// Element i is how many choices the first i wanted cuts have.
    sums: Vec<u64>,
}

impl<'a> Model for Starts<'a> {
    ghost use Rattle.std.specs.Prelude.{◌≤◌};
    ghost use Rattle.choices.specs.Sums.{StartsValue, AreSums};

    ghost Value = { StartsValue };

    ghost view = { λ s. record { plan = s.plan.now; bound = s.bound; tears = s.tears } };

    ghost invariant = { λ s. (s.bound ≤ 3) × AreSums s.plan.now s.bound s.tears s.sums.items };
}

impl<'a> Starts<'a> {
    ghost use Rattle.std.specs.Prelude.{slice_get, Some};
    ghost use Rattle.choices.specs.Choices.{InCut};

    /// The table of a plan with fewer than 2^63 choices, as `count` and `count_up_to` tell. It takes
    /// time and memory for each wanted cut.
    ///
    /// # Errors
    ///
    /// Memory was refused.
    pub fn new(
        alloc: Global,
        plan: &'a Plan<'a>,
        bound: u8,
        tears: bool,
    ) -> Result<Starts<'a>, AllocError>
        requires bound { bound ≤ 3 }
        requires counted { length (ranked_choices plan.now bound tears) < 2 ^ 63 }
        ensures { IfOk result (λ starts. starts ≡ record { plan = plan.now; bound = bound; tears = tears }) }
    {
        let sums = sums_of(alloc, plan, bound, tears)?;
        Ok(Starts {
            plan,
            bound,
            tears,
            sums,
        })
    }

    /// The choice of that number, as `nth` answers it.
    ///
    /// It takes a search by halves among the wanted cuts, and one among the volatile parts for each
    /// departure. It takes no memory.
    pub fn nth(&self, number: u64) -> Choice
        requires { number < length (ranked_choices self.now.plan self.now.bound self.now.tears) }
        ensures { slice_get (ranked_choices self.now.plan self.now.bound self.now.tears) number ≡ Some result }
    {
        let (place, rest) = self.place_of(number);
        choice_at(self.plan, self.bound, self.tears, place, rest)
    }

    /// Its plan.
    pub fn plan(&self) -> &'a Plan<'a>
        ensures { result.now ≡ self.now.plan }
    {
        self.plan
    }

    /// How many departures a choice may have.
    pub fn bound(&self) -> u8
        ensures value { result ≡ self.now.bound }
        ensures few { result ≤ 3 }
    {
        self.bound
    }

    /// Whether writes may be torn.
    pub fn tears(&self) -> bool
        ensures { result ≡ self.now.tears }
    {
        self.tears
    }

    /// The numbers of the choices at the wanted cut of that place: the first, and the one after the last.
    pub fn range_of(&self, place: usize) -> (u64, u64)
        requires { place < length (cuts_of self.now.plan.kind self.now.plan.log.entries) }
        ensures first { result.0 ≡ length (ranked_before self.now.plan self.now.bound self.now.tears place) }
        ensures end { result.1 ≡ length (ranked_before self.now.plan self.now.bound self.now.tears (place + 1)) }
        ensures own { (cut : ℕ) → slice_get (cuts_of self.now.plan.kind self.now.plan.log.entries) place ≡ Some cut
            → result.1 ≡ result.0 + length (ranked_at self.now.plan self.now.bound self.now.tears cut) }
    {
        let sums = self.sums.as_slice();
        (sums[place], sums[place + 1])
    }

    /// The place of a choice's cut among the wanted cuts, and its number among the choices at that cut.
    fn place_of(&self, number: u64) -> (usize, u64)
        requires { number < length (ranked_choices self.now.plan self.now.bound self.now.tears) }
        ensures { InCut self.now.plan self.now.bound self.now.tears number result.0 result.1 }
    {
        let sums = self.sums.as_slice();
        let place = last_up_to(sums, number);
        (place, number - sums[place])
    }
}

/// How many choices the first wanted cuts have: none, one, and so on up to all of them.
fn sums_of(alloc: Global, plan: &Plan, bound: u8, tears: bool) -> Result<Vec<u64>, AllocError>
    requires bound { bound ≤ 3 }
    requires counted { length (ranked_choices plan.now bound tears) < 2 ^ 63 }
    ensures { IfOk result (λ sums. AreSums plan.now bound tears sums.items) }
{
    let cuts = plan.cuts();
    let mut sums = Vec::with_capacity(alloc, cuts.len() + 1)?;
    let mut sum: u64 = 0;
    sums.push(0)?;
    for cut in cuts {
        let own = ways_at(plan, bound, tears, *cut);
        sum += own as u64;
        sums.push(sum)?;
    }
    Ok(sums)
}

/// The place of a number that is not above `number`, while the one after it is, by a search by halves.
fn last_up_to(sums: &[u64], number: u64) -> usize
    requires some { 1 < length sums.now }
    requires low { slice_index_or sums.now 0 0 ≤ number }
    requires high { number < slice_index_or sums.now (length sums.now - 1) 0 }
    ensures { FallsAt sums.now number result }
{
    let mut low = 0;
    let mut high = sums.len() - 1;
    while low + 1 < high {
        let middle = low + (high - low) / 2;
        if sums[middle] <= number {
            low = middle;
        } else {
            high = middle;
        }
    }
    low
}
