//! The departures of a choice as numbers.

ghost use Rattle.std.specs.Prelude.{◌≡◌, ◌<◌, ◌≤◌, length, Some};
ghost use Rattle.base.specs.Sizes.{most_units};
ghost use Rattle.choices.specs.Picks.{ArePicks, most_fates};
ghost use Rattle.choices.specs.Choices.{ranked_at};
ghost use Rattle.choices.specs.Numbers.{number_of, numbers_of, numbers_at};

use crate::fate::fates_of;
use crate::pick::Pick;
use crate::rank::nth_within;
use arrayvec::ArrayVec;
use epochs::Plan;

/// The number of a departure: first by its part, then by its fate.
fn number_of(pick: Pick) -> u32
    requires part { pick.part < most_units }
    requires fate { pick.fate < most_fates }
    ensures { result ≡ number_of pick }
{
    15 * pick.part + u32::from(pick.fate)
}

/// The numbers of some departures.
fn numbers_of(parts: u32, picks: &[Pick]) -> ArrayVec<u32, 3>
    requires parts { parts ≤ most_units }
    requires few { length picks.now ≤ 3 }
    requires picks { ArePicks most_fates parts picks.now }
    ensures { result.items ≡ numbers_of picks.now }
{
    let mut numbers = ArrayVec::new();
    for pick in picks {
        numbers.push(number_of(*pick));
    }
    numbers
}

/// The departures of a choice at a cut as numbers, by its number among those there. A number is 15 times the place of the
/// part among the volatile ones of the cut, and then the place of the fate in their order.
#[tactic(auto, unfolding(crate::specs::Numbers::numbers_at))]
pub fn numbers_at(plan: &Plan, bound: u8, tears: bool, cut: u32, rest: u64) -> ArrayVec<u32, 3>
    requires bound { bound ≤ 3 }
    requires cut { cut ≤ length plan.now.log.entries }
    requires rest { rest < length (ranked_at plan.now bound tears cut) }
    ensures { numbers_at plan.now bound tears cut rest ≡ Some result.items }
{
    let parts = plan.volatile(cut);
    let picks = nth_within(fates_of(tears), bound, parts, rest);
    numbers_of(parts, picks.as_slice())
}
