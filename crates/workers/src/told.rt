//! The departures that may be told.

ghost use Rattle.std.specs.Prelude.{◌≡◌, ◌<◌, ◌≤◌, false, length, slice_get, IsTrue, MatchOption, Some};
ghost use Rattle.std.specs.List.{slice_index_or};
ghost use Rattle.workers.specs.Reuse.{IsNextTold, NoneTold, Rises, tells, told_or};
ghost use Rattle.choices.specs.Picked.{marked_picks};

use choices::Pick;

/// How many places the index has.
pub(crate) const PLACES: usize = 4096;

/// The place in the index of those departures that are marked.
pub(crate) fn place_of(picks: &[Pick], marks: &[bool; 3]) -> usize
    requires { length picks.now ≤ 3 }
    ensures { result < 4096 }
{
    let mut hash = 0u32;
    for (place, pick) in picks.iter().enumerate() {
        if marks[place] {
            let number = pick
                .part
                .wrapping_mul(16)
                .wrapping_add(u32::from(pick.fate));
            hash = hash
                .wrapping_mul(0x9E37_79B1)
                .wrapping_add(number)
                .wrapping_add(1);
        }
    }
    (hash.wrapping_mul(0x9E37_79B1) >> 20) as usize
}

/// Whether that one stands at that place.
#[inline(always)]
fn stands(picks: &[Pick], place: usize, pick: &Pick) -> bool
    ensures { IsTrue result → slice_get picks.now place ≡ Some pick.now }
{
    match picks.get(place) {
        Some(own) => own.part == pick.part && own.fate == pick.fate,
        None => false,
    }
}

/// Whether these are the marked ones of those.
pub(crate) fn are_marked(own: &[Pick], picks: &[Pick], marks: &[bool; 3]) -> bool
    requires { length picks.now ≤ 3 }
    ensures { IsTrue result → marked_picks marks.now picks.now ≡ own.now }
{
    let mut seen = 0;
    for (place, pick) in picks.iter().enumerate() {
        if marks[place] {
            if !stands(own, seen, pick) {
                return false;
            }
            seen += 1;
        }
    }
    seen == own.len()
}

/// Whether a rising list has a number.
#[inline(always)]
pub(crate) fn has(numbers: &[u32], number: u32) -> bool
    requires { Rises numbers.now }
    ensures { result ≡ tells (Some numbers.now) number }
{
    for own in numbers {
        if *own >= number {
            return *own == number;
        }
    }
    false
}

/// The first number of a rising list that is above one.
#[inline(always)]
pub(crate) fn above(numbers: &[u32], number: u32) -> Option<u32>
    requires { Rises numbers.now }
    ensures { IsNextTold (Some numbers.now) number result }
{
    for own in numbers {
        if *own > number {
            return Some(*own);
        }
    }
    None
}

/// Whether a part may be told: with `all` each may.
#[inline(always)]
fn may_tell(all: bool, told: &[u32], part: u32) -> bool
    requires { Rises told.now }
    ensures { result ≡ tells (told_or all told.now) part }
{
    all || has(told, part)
}

/// The first departure that isn't marked and whose part may be told.
pub(crate) fn first_told(
    all: bool,
    told: &[u32],
    picks: &[Pick],
    marks: &[bool; 3],
) -> Option<usize>
    requires picks { length picks.now ≤ 3 }
    requires told { Rises told.now }
    ensures { MatchOption result (NoneTold (told_or all told.now) marks.now picks.now) (λ place. (place < length picks.now) × (slice_index_or marks.now place false ≡ false)) }
{
    for (place, pick) in picks.iter().enumerate() {
        if !marks[place] && may_tell(all, told, pick.part) {
            return Some(place);
        }
    }
    None
}
