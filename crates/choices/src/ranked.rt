//! The ranked choices of a plan.

ghost use Rattle.std.specs.Prelude.{◌≡◌, ◌+◌, ◌<◌, ◌≤◌, ℕ, length, slice_get, Some, IfOk, IfErr, IsTrue, IsFalse};
ghost use Rattle.choices.specs.Choices.{ranked_choices, ranked_at, limit, IsFirstPast, IsFirstPastOf, InCut};

use crate::choice::{Choice, departures_of};
use crate::fate::fates_of;
use crate::rank::nth_within;
use crate::step::step;
use crate::ways::ways_within;
use arrayvec::ArrayVec;
use epochs::Plan;

/// The greatest number of choices, and so of crash images, of a run (docs/CRASH-MODEL.md, Limits).
const MOST_CHOICES: u64 = 16_777_216;

/// There are more choices than a run may have.
#[derive(Clone, Copy, Debug, PartialEq, Eq)]
pub struct TooMany {
    /// The cut with which their number passes the limit.
    pub at: u32,
}

/// How many choices there are at a cut.
pub(crate) fn ways_at(plan: &Plan, bound: u8, tears: bool, cut: u32) -> u128
    requires bound { bound ≤ 3 }
    requires cut { cut ≤ length plan.now.log.entries }
    ensures value { result ≡ length (ranked_at plan.now bound tears cut) }
    ensures small { result ≤ 5188140833369672908800 }
{
    ways_within(fates_of(tears), bound, plan.volatile(cut))
}

/// How many choices a plan has, with at most `bound` departures each, torn writes or none. It is
/// refused at the wanted cut with which the number first passes `most`. Each cut's number, of 128 bits, is compared with
/// what is left, so nothing wraps.
pub fn count_up_to(plan: &Plan, bound: u8, tears: bool, most: u64) -> Result<u64, TooMany>
    requires { bound ≤ 3 }
    ensures value { IfOk result (λ number. number ≡ length (ranked_choices plan.now bound tears)) }
    ensures most { IfOk result (λ number. number ≤ most) }
    ensures past { IfErr result (λ fault. IsFirstPastOf most plan.now bound tears fault.at) }
{
    let mut sum = 0;
    for cut in plan.cuts() {
        let own = ways_at(plan, bound, tears, *cut);
        let left = u128::from(most - sum);
        if own > left {
            return Err(TooMany { at: *cut });
        }
        sum += own as u64;
    }
    Ok(sum)
}

/// How many choices a plan has, as `count_up_to` tells it, where a run may have no more than 16,777,216 of them.
pub fn count(plan: &Plan, bound: u8, tears: bool) -> Result<u64, TooMany>
    requires { bound ≤ 3 }
    ensures value { IfOk result (λ number. number ≡ length (ranked_choices plan.now bound tears)) }
    ensures limit { IfOk result (λ number. number ≤ limit) }
    ensures past { IfErr result (λ fault. IsFirstPast plan.now bound tears fault.at) }
{
    count_up_to(plan, bound, tears, MOST_CHOICES)
}

/// How many choices one cut of a plan has. It is refused at that cut if the number passes `most`.
pub fn count_at_up_to(
    plan: &Plan,
    bound: u8,
    tears: bool,
    cut: u32,
    most: u64,
) -> Result<u64, TooMany>
    requires bound { bound ≤ 3 }
    requires cut { cut ≤ length plan.now.log.entries }
    ensures value { IfOk result (λ number. number ≡ length (ranked_at plan.now bound tears cut)) }
    ensures most { IfOk result (λ number. number ≤ most) }
    ensures past { IfErr result (λ fault. most < length (ranked_at plan.now bound tears cut)) }
    ensures at { IfErr result (λ fault. fault.at ≡ cut) }
{
    let number = ways_at(plan, bound, tears, cut);
    let allowed = u128::from(most);
    if number > allowed {
        Err(TooMany { at: cut })
    } else {
        Ok(number as u64)
    }
}

/// How many choices one cut of a plan has. It is refused at that cut if the number passes 16,777,216.
pub fn count_at(plan: &Plan, bound: u8, tears: bool, cut: u32) -> Result<u64, TooMany>
    requires bound { bound ≤ 3 }
    requires cut { cut ≤ length plan.now.log.entries }
    ensures value { IfOk result (λ number. number ≡ length (ranked_at plan.now bound tears cut)) }
    ensures limit { IfOk result (λ number. number ≤ limit) }
    ensures past { IfErr result (λ fault. limit < length (ranked_at plan.now bound tears cut)) }
    ensures at { IfErr result (λ fault. fault.at ≡ cut) }
{
    count_at_up_to(plan, bound, tears, cut, MOST_CHOICES)
}

/// The place of a choice's cut among the wanted cuts, and its number among the choices at that cut.
fn place_of(plan: &Plan, bound: u8, tears: bool, number: u64) -> (usize, u64)
    requires bound { bound ≤ 3 }
    requires number { number < length (ranked_choices plan.now bound tears) }
    ensures { InCut plan.now bound tears number result.0 result.1 }
{
    let cuts = plan.cuts();
    let mut place = 0;
    let mut rest = u128::from(number);
    let mut own = ways_at(plan, bound, tears, cuts[place]);
    while rest >= own {
        rest -= own;
        place += 1;
        own = ways_at(plan, bound, tears, cuts[place]);
    }
    (place, rest as u64)
}

/// The choice of a number among those at the wanted cut of a place.
pub(crate) fn choice_at(plan: &Plan, bound: u8, tears: bool, place: usize, rest: u64) -> Choice
    requires bound { bound ≤ 3 }
    requires inside { (number : ℕ) × InCut plan.now bound tears number place rest }
    ensures { (number : ℕ) → InCut plan.now bound tears number place rest
        → slice_get (ranked_choices plan.now bound tears) number ≡ Some result }
{
    let cut = plan.cuts()[place];
    let picks = nth_within(fates_of(tears), bound, plan.volatile(cut), rest);
    Choice::of(plan, place, cut, picks)
}

/// The choice of that number.
///
/// It walks the wanted cuts up to the choice's own, with a few products at each, and then takes a
/// search by halves among the volatile parts for each departure. It takes no memory. Who asks for many
/// numbers makes a `Starts`.
pub fn nth(plan: &Plan, bound: u8, tears: bool, number: u64) -> Choice
    requires bound { bound ≤ 3 }
    requires number { number < length (ranked_choices plan.now bound tears) }
    ensures { slice_get (ranked_choices plan.now bound tears) number ≡ Some result }
{
    let (place, rest) = place_of(plan, bound, tears, number);
    choice_at(plan, bound, tears, place, rest)
}

/// Goes on to the following choice. At the last choice the answer is `false`, and the choice stays as
/// it is.
///
/// It takes a constant number of steps, and for each departure the search of its part in the plan. It
/// takes no memory.
pub fn next(plan: &Plan, bound: u8, tears: bool, choice: &mut Choice) -> bool
    requires bound { bound ≤ 3 }
    requires member { (n : ℕ) × (slice_get (ranked_choices plan.now bound tears) n ≡ Some choice.old) }
    ensures moved { IsTrue result → (n : ℕ) → slice_get (ranked_choices plan.now bound tears) n ≡ Some choice.old
        → slice_get (ranked_choices plan.now bound tears) (n + 1) ≡ Some choice.new }
    ensures last { IsFalse result → (n : ℕ) → slice_get (ranked_choices plan.now bound tears) n ≡ Some choice.old
        → n + 1 ≡ length (ranked_choices plan.now bound tears) }
    ensures same { IsFalse result → choice.new ≡ choice.old }
{
    if step(
        fates_of(tears),
        bound,
        plan.volatile(choice.cut),
        &mut choice.picks,
    ) {
        choice.departures = departures_of(plan, choice.cut, choice.picks.as_slice());
        return true;
    }
    match plan.cuts().get(choice.place + 1) {
        Some(cut) => {
            *choice = Choice::of(plan, choice.place + 1, *cut, ArrayVec::new());
            true
        }
        None => false,
    }
}
