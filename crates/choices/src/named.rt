//! A choice by the names of its departures.

ghost use Rattle.std.specs.Prelude.{◌≡◌, ◌==◌, ◌<◌, ◌≤◌, ℕ, length, slice_get, Some, IfSome, MatchOption, position};
ghost use Rattle.base.specs.Sizes.{most_units};
ghost use Rattle.epochs.specs.Parts.{volatile_parts};
ghost use Rattle.choices.specs.Choices.{fate_of};
ghost use Rattle.choices.specs.Named.{IsNamed, NoneIsNamed};
ghost use Rattle.choices.specs.Picks.{most_fates};
ghost use Rattle.choices.specs.Seeking.{number_of, is_named, NoneNamed, IsFirstNamed, NoPickOf, IsFirstPick, NoPicksOf, ArePicksOf, LacksCut};

use crate::choice::Choice;
use crate::fate::{Fate, TEARS_OF_PART, fates_of};
use crate::name::Name;
use crate::pick::Pick;
use arrayvec::ArrayVec;
use epochs::{Part, Plan};

/// The number of a fate in their order.
fn number_of(fate: Fate) -> u8
    ensures value { result ≡ number_of fate }
    ensures bound { result < most_fates }
    ensures back { fate_of result ≡ fate }
{
    match fate {
        Fate::Drop => 0,
        Fate::Head(eighths) => eighths.count(),
        Fate::Tail(eighths) => TEARS_OF_PART + eighths.count(),
    }
}

/// Whether a part is the one that a name says.
fn is_named(part: Part, name: &Name) -> bool
    ensures { result ≡ is_named part name.now }
{
    part.entry == name.entry && part.place == name.place
}

/// The number of the first volatile part of a cut, from `begin` on, that a name says.
#[tactic(auto, using(crate::proofs::Naming::none_yet, crate::proofs::Naming::none_more, crate::proofs::Naming::none_at_all, crate::proofs::Naming::first_named))]
fn part_named(plan: &Plan, cut: u32, begin: u32, name: &Name) -> Option<u32>
    requires { cut ≤ length plan.now.log.entries }
    ensures found { MatchOption result (NoneNamed (volatile_parts plan.now.by plan.now.log.entries cut) name.now begin (length (volatile_parts plan.now.by plan.now.log.entries cut)))
        (IsFirstNamed (volatile_parts plan.now.by plan.now.log.entries cut) name.now begin) }
    ensures small { IfSome result (λ number. number < most_units) }
{
    for number in begin..plan.volatile(cut) {
        if is_named(plan.part(cut, number), name) {
            return Some(number);
        }
    }
    None
}

/// The departure that a name says, by its numbers, if its part is volatile at a cut and stands at `begin` or after, and
/// its fate is one of the first `fates`.
#[tactic(auto, using(crate::proofs::Naming::no_fate, crate::proofs::Naming::no_part, crate::proofs::Naming::first_pick))]
fn pick_named(plan: &Plan, fates: u8, cut: u32, begin: u32, name: &Name) -> Option<Pick>
    requires { cut ≤ length plan.now.log.entries }
    ensures found { MatchOption result (NoPickOf (volatile_parts plan.now.by plan.now.log.entries cut) fates name.now begin)
        (IsFirstPick (volatile_parts plan.now.by plan.now.log.entries cut) fates name.now begin) }
    ensures small { IfSome result (λ pick. pick.part < most_units) }
{
    let fate = number_of(name.fate);
    if fate >= fates {
        return None;
    }
    let part = part_named(plan, cut, begin, name)?;
    Some(Pick { part, fate })
}

/// The departures that names say, by their numbers, if they are some of a choice at a cut, in their order.
#[tactic(auto, using(crate::proofs::Naming::picking, crate::proofs::Naming::picked, crate::proofs::Naming::none_picked, crate::proofs::Naming::all_picked))]
fn picks_named(plan: &Plan, fates: u8, cut: u32, names: &[Name]) -> Option<ArrayVec<Pick, 3>>
    requires cut { cut ≤ length plan.now.log.entries }
    requires few { length names.now ≤ 3 }
    ensures { MatchOption result (NoPicksOf (volatile_parts plan.now.by plan.now.log.entries cut) fates names.now)
        (λ picks. ArePicksOf (volatile_parts plan.now.by plan.now.log.entries cut) fates names.now picks.items) }
{
    let mut picks = ArrayVec::new();
    let mut begin = 0;
    for name in names {
        let pick = pick_named(plan, fates, cut, begin, name)?;
        begin = pick.part + 1;
        picks.push(pick);
    }
    Some(picks)
}

/// The place of a number in a list.
fn first_place(cuts: &[u32], cut: u64) -> Option<usize>
    ensures { result ≡ position (λ (wanted : ℕ). wanted == cut) cuts.now }
{
    cuts.iter().position(|wanted| u64::from(*wanted) == cut)
}

/// The place of a cut among the wanted ones.
#[tactic(auto, using(crate::proofs::Naming::cut_found))]
fn place_of_cut(cuts: &[u32], cut: u64) -> Option<usize>
    ensures { MatchOption result (LacksCut cuts.now cut) (λ place. slice_get cuts.now place ≡ Some cut) }
{
    first_place(cuts, cut)
}

/// The choice at a cut of which the departures have these names, if the cut is a wanted one and the choice is one there:
/// of at most `bound` volatile parts, rising, each with one of the fates.
///
/// It goes over the volatile parts of the cut once. It takes no memory.
#[tactic(auto, using(crate::proofs::Naming::too_many, crate::proofs::Naming::no_cut, crate::proofs::Naming::no_picks, crate::proofs::Naming::found_named, crate::proofs::Naming::picks_fit, crate::proofs::Naming::cut_is))]
pub fn choice_named(plan: &Plan, bound: u8, tears: bool, cut: u64, names: &[Name]) -> Option<Choice>
    requires { bound ≤ 3 }
    ensures { MatchOption result (NoneIsNamed plan.now bound tears cut names.now) (IsNamed plan.now bound tears cut names.now) }
{
    if names.len() > usize::from(bound) {
        return None;
    }
    let place = place_of_cut(plan.cuts(), cut)?;
    let cut = plan.cuts()[place];
    let picks = picks_named(plan, fates_of(tears), cut, names)?;
    Some(Choice::of(plan, place, cut, picks))
}
