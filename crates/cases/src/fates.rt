//! What may become of a part, by number, and what that shows of a sector.

ghost use Rattle.std.specs.Prelude.{◌≡◌, ◌<◌, ◌&&◌, ℕ, nat_lt, not, false, if◌then◌else◌, length, map, filter, slice_index_or, None, IsTrue, MatchOption};
ghost use Rattle.epochs.specs.declared.part.Part.{Part as LogPart};
ghost use Rattle.epochs.specs.declared.unit.Unit.{Unit as LogUnit};
ghost use Rattle.cases.specs.Sets.{has, fate_at, fates_in, pieces_in};
ghost use Rattle.cases.specs.Rows.{shows};
ghost use Rattle.cases.specs.Cases.{show_alike, firsts, kinds};

use crate::bits::{has, least, with_if, without};
use arrayvec::ArrayVec;
use choices::{Eighths, Fate};
use epochs::{Part, Unit};

/// What may become of a part, by its number: whole, the drop, seven heads and seven tails, both rising.
pub fn fate_at(number: u8) -> Option<Fate>
    requires { number < 16 }
    ensures { result ≡ fate_at number }
{
    if number == 0 {
        None
    } else if number == 1 {
        Some(Fate::Drop)
    } else if number < 9 {
        Some(Fate::Head(Eighths::new(number - 1)))
    } else {
        Some(Fate::Tail(Eighths::new(number - 8)))
    }
}

/// The first number of a set, and 0 for an empty one.
pub(crate) fn first_number(set: u16) -> u8
    ensures bound { result < 16 }
    ensures fate { fate_at result ≡ slice_index_or (fates_in set) 0 None }
{
    if set == 0 { 0 } else { least(set) }
}

/// The first fate of a set, `None` for whole. So it answers for an empty set too.
pub fn first_of(set: u16) -> Option<Fate>
    ensures { result ≡ slice_index_or (fates_in set) 0 None }
{
    fate_at(first_number(set))
}

/// Whether a part with a fate, by its number, shows a piece of a unit of it.
#[tactic(auto, using(crate::proofs::Numbered::head_shows, crate::proofs::Numbered::tail_shows, crate::proofs::Numbered::whole_shows, crate::proofs::Numbered::drop_shows))]
pub(crate) fn shows(fate: u8, part: Part, unit: Unit, piece: u8) -> bool
    requires fate { fate < 16 }
    requires piece { piece < 8 }
    ensures { result ≡ shows (fate_at fate) part unit piece }
{
    let before = u64::from(unit.place).saturating_sub(u64::from(part.place));
    let byte = 512 * before + 64 * u64::from(piece);
    let count = u64::from(part.count);
    if fate == 0 {
        true
    } else if fate == 1 {
        false
    } else if fate < 9 {
        byte < 64 * (u64::from(fate - 1) * count)
    } else {
        (512 * count).saturating_sub(64 * (u64::from(fate - 8) * count)) <= byte
    }
}

/// Whether a wanted piece tells two fates apart of which one shows it or not, and the other.
fn is_apart(wanted: bool, one: bool, other: bool) -> bool
    ensures { result ≡ (wanted && not (if one then other else not other)) }
{
    if !wanted {
        false
    } else if one {
        !other
    } else {
        other
    }
}

/// Whether two fates, by their numbers, show the same of some pieces of a unit of their part.
pub(crate) fn alike(part: Part, unit: Unit, pieces: u16, one: u8, other: u8) -> bool
    requires one { one < 16 }
    requires other { other < 16 }
    ensures { result ≡ show_alike part unit (pieces_in pieces) (fate_at one) (fate_at other) }
{
    for piece in 0..8 {
        let first = shows(one, part, unit, piece);
        let second = shows(other, part, unit, piece);
        if is_apart(has(pieces, piece), first, second) {
            return false;
        }
    }
    true
}

/// The fates of a set that show of some pieces what one of them does.
pub(crate) fn group_of(part: Part, unit: Unit, pieces: u16, set: u16, one: u8) -> u16
    requires { one < 16 }
    ensures { (i : ℕ) → i < 16 → has result i ≡ (has set i && show_alike part unit (pieces_in pieces) (fate_at one) (fate_at i)) }
{
    let mut group = 0;
    for number in 0..16 {
        let is = has(set, number) && alike(part, unit, pieces, one, number);
        group = with_if(group, number, is);
    }
    group
}

/// The fates of a set in groups by what they show of some pieces, by the first fate of each.
pub(crate) fn groups_of(part: Part, unit: Unit, pieces: u16, set: u16) -> ArrayVec<u16, 16>
    ensures { map fates_in result.items ≡ kinds (show_alike part unit (pieces_in pieces)) (fates_in set) }
{
    let mut groups = ArrayVec::new();
    let mut rest = set;
    'left: while rest != 0 {
        let group = group_of(part, unit, pieces, set, least(rest));
        groups.push(group);
        rest = without(rest, group);
    }
    groups
}

/// Whether a set has one fate alone, or no piece is to tell any apart. It may answer `false` where that is so.
#[inline(always)]
fn is_told(pieces: u16, set: u16) -> bool
    ensures { (part : LogPart) (unit : LogUnit) → IsTrue result → nat_lt 1 (length (firsts (show_alike part unit (pieces_in pieces)) (fates_in set))) ≡ false }
{
    pieces == 0 || (set == 1 || set == 2)
}

/// The groups of a set, if they are more than one.
#[inline(always)]
pub(crate) fn groups_if(part: Part, unit: Unit, pieces: u16, set: u16) -> Option<ArrayVec<u16, 16>>
    ensures { MatchOption result (nat_lt 1 (length (firsts (show_alike part unit (pieces_in pieces)) (fates_in set))) ≡ false)
        (λ groups. (map fates_in groups.items ≡ kinds (show_alike part unit (pieces_in pieces)) (fates_in set)) × (1 < length groups.items)) }
{
    if is_told(pieces, set) {
        return None;
    }
    let groups = groups_of(part, unit, pieces, set);
    if groups.len() > 1 { Some(groups) } else { None }
}

/// Those of some pieces that a part doesn't show with the first fate of a set, which may be whole or the drop.
#[inline(always)]
pub(crate) fn left_of(part: Part, unit: Unit, pieces: u16, set: u16) -> u16
    ensures { pieces_in result ≡ filter (λ i. not (shows (slice_index_or (fates_in set) 0 None) part unit i)) (pieces_in pieces) }
{
    if set == 1 {
        return 0;
    }
    if set == 2 {
        return pieces;
    }
    hidden(part, unit, pieces, set)
}

/// Those of some pieces that a part doesn't show with the first fate of a set.
pub(crate) fn hidden(part: Part, unit: Unit, pieces: u16, set: u16) -> u16
    ensures pieces { pieces_in result ≡ filter (λ i. not (shows (slice_index_or (fates_in set) 0 None) part unit i)) (pieces_in pieces) }
    ensures each { (i : ℕ) → i < 8 → has result i ≡ (has pieces i && not (shows (slice_index_or (fates_in set) 0 None) part unit i)) }
{
    let first = first_number(set);
    let mut hidden = 0;
    for piece in 0..8 {
        let is = has(pieces, piece) && !shows(first, part, unit, piece);
        hidden = with_if(hidden, piece, is);
    }
    hidden
}
