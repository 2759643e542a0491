//! From one choice to the following.

ghost use Rattle.std.specs.Prelude.{◌≡◌, ◌+◌, ◌-◌, ◌<◌, ◌≤◌, ◌∷◌, ◌++◌, take, length, IsTrue, IsFalse, IfSome, IfNone, Some, None};
ghost use Rattle.std.specs.Option.{option_map};
ghost use Rattle.arrayvec.specs.ArrayVec.{array_vec_len};
ghost use Rattle.base.specs.Sizes.{most_units};
ghost use Rattle.choices.specs.Picks.{ArePicks};
ghost use Rattle.choices.specs.Steps.{first_picks, next_picks, following, one_more, following_below};

use crate::pick::Pick;
use arrayvec::ArrayVec;

/// Appends that many parts in a row, from `first` on, each dropped.
fn put_row(picks: &mut ArrayVec<Pick, 3>, count: usize, first: u32)
    requires room { array_vec_len picks.old + count ≤ 3 }
    requires small { first ≤ most_units }
    ensures { picks.new.items ≡ picks.old.items ++ first_picks count first }
{
    for index in 0..count {
        picks.push(Pick {
            part: first + index as u32,
            fate: 0,
        });
    }
}

/// The next departure in place of one that `beyond` others follow: its next fate, or else the next
/// part, if the others find room after it.
#[tactic(auto, unfolding(crate::specs::Steps::next_picks))]
fn next_pick(fates: u8, parts: u32, pick: Pick, beyond: usize) -> Option<Pick>
    requires some { 1 ≤ fates }
    requires parts { parts ≤ most_units }
    requires below { pick.part < parts }
    requires beyond { beyond ≤ 3 }
    ensures value { option_map (λ next. next ∷ first_picks beyond (next.part + 1)) result ≡ next_picks fates parts pick beyond }
    ensures below { IfSome result (λ next. next.part < parts) }
{
    if pick.fate < fates - 1 {
        Some(Pick {
            part: pick.part,
            fate: pick.fate + 1,
        })
    } else if pick.part + 1 + (beyond as u32) < parts {
        Some(Pick {
            part: pick.part + 1,
            fate: 0,
        })
    } else {
        None
    }
}

/// The last departure that has a next one, as its place and the next one.
fn last_step(fates: u8, parts: u32, picks: &[Pick]) -> Option<(usize, Pick)>
    requires some { 1 ≤ fates }
    requires parts { parts ≤ most_units }
    requires size { length picks.now ≤ 3 }
    requires below { ArePicks fates parts picks.now }
    ensures place { IfSome result (λ found. found.0 < length picks.now) }
    ensures part { IfSome result (λ found. found.1.part < parts) }
    ensures value { IfSome result (λ found. following fates parts picks.now
        ≡ Some (take found.0 picks.now ++ found.1 ∷ first_picks (length picks.now - found.0 - 1) (found.1.part + 1))) }
    ensures none { IfNone result (following fates parts picks.now ≡ None) }
{
    for beyond in 0..picks.len() {
        let place = picks.len() - 1 - beyond;
        if let Some(next) = next_pick(fates, parts, picks[place], beyond) {
            return Some((place, next));
        }
    }
    None
}

/// Goes on to the following choice with as many departures, if there is one.
fn step_within_size(fates: u8, parts: u32, picks: &mut ArrayVec<Pick, 3>) -> bool
    requires some { 1 ≤ fates }
    requires parts { parts ≤ most_units }
    requires below { ArePicks fates parts picks.old.items }
    ensures moved { IsTrue result → following fates parts picks.old.items ≡ Some picks.new.items }
    ensures last { IsFalse result → following fates parts picks.old.items ≡ None }
    ensures same { IsFalse result → picks.new.items ≡ picks.old.items }
{
    let count = picks.len();
    match last_step(fates, parts, picks.as_slice()) {
        Some((place, next)) => {
            picks.truncate(place);
            picks.push(next);
            put_row(picks, count - place - 1, next.part + 1);
            true
        }
        None => false,
    }
}

/// Goes on to the following choice of at most `bound` departures among that many parts, if there is
/// one.
pub(crate) fn step(fates: u8, bound: u8, parts: u32, picks: &mut ArrayVec<Pick, 3>) -> bool
    requires some { 1 ≤ fates }
    requires bound { bound ≤ 3 }
    requires parts { parts ≤ most_units }
    requires below { ArePicks fates parts picks.old.items }
    ensures moved { IsTrue result → following_below fates (bound + 1) parts picks.old.items ≡ Some picks.new.items }
    ensures last { IsFalse result → following_below fates (bound + 1) parts picks.old.items ≡ None }
    ensures same { IsFalse result → picks.new.items ≡ picks.old.items }
{
    if step_within_size(fates, parts, picks) {
        return true;
    }
    let size = picks.len();
    if size < bound as usize && (size as u32) < parts {
        picks.clear();
        put_row(picks, size + 1, 0);
        true
    } else {
        false
    }
}
