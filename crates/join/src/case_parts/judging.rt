//! Whether what a line says is by the rules of docs/OUTPUT.md. The parts that it tells rise, so two lists of them are walked through together.

ghost use Rattle.std.specs.Prelude.{◌≡◌, ◌&&◌, IfOk, None, Some, map, not, true};
ghost use Rattle.std.specs.List.{list_all};
ghost use Rattle.join.specs.CaseTexts.{all_of_run, all_rise, are_fates_of_run, begins_as, fate_number, fates_rise, go_together, is_above, is_apart, is_before, comes_after, is_case_of_run, is_fate_of_run, is_front_of_run, is_lost_of_run, is_mixed_of_run, is_named_alike, is_part_of_run, is_place_of_run, is_possible, is_window_of_run, mixed_parts, part_of, parts_of, parts_rise, stands_in};
ghost use Rattle.join.specs.CaseReading.{mixed_value};
ghost use Rattle.join.specs.CaseWalks.{begins_with, first_fate, from_part, is_first_of};
ghost use Rattle.join.specs.Printable.{has_program_and_cut};

use crate::case_parts::front::CaseFront;
use crate::case_parts::names::{Mixed, PartName};
use crate::case_parts::said::CaseSaid;
use crate::line::has_place;
use choices::{Fate, Name};
use epochs::By;
use losses::flushes::Window;
use report::Head;
use std::alloc::{AllocError, Global};

/// How many cases a run may have.
pub(crate) const MOST_CASES: u64 = 16_777_216;

/// Whether a place in an entry is one: by write a part is the whole entry.
fn is_place_of_run(by: By, place: u32) -> bool
    ensures { result ≡ is_place_of_run by place }
{
    match by {
        By::Sector => u64::from(place) < 4_294_967_296,
        By::Write => place == 0,
    }
}

/// Whether a part is of an entry before a cut.
fn is_part_of_run(by: By, cut: u64, part: PartName) -> bool
    ensures { result ≡ is_part_of_run by cut part }
{
    u64::from(part.entry) < cut && is_place_of_run(by, part.place)
}

/// Whether a part of a run may become that.
fn is_fate_of_run(tears: bool, fate: Fate) -> bool
    ensures { result ≡ is_fate_of_run tears fate }
{
    match fate {
        Fate::Drop => true,
        Fate::Head(eighths) => tears && (eighths.count() >= 1 && eighths.count() < 8),
        Fate::Tail(eighths) => tears && (eighths.count() >= 1 && eighths.count() < 8),
    }
}

/// The part of a name.
fn part_of(name: Name) -> PartName
    ensures { result ≡ part_of name }
{
    PartName {
        entry: name.entry,
        place: name.place,
    }
}

/// Whether a part may be lost or torn so.
fn is_lost_of_run(by: By, tears: bool, cut: u64, name: Name) -> bool
    ensures { result ≡ is_lost_of_run by tears cut name }
{
    let fate = name.fate;
    is_part_of_run(by, cut, part_of(name)) && is_fate_of_run(tears, fate)
}

/// Whether a part comes before another.
fn is_before(part: PartName, other: PartName) -> bool
    ensures { result ≡ is_before part other }
{
    part.entry < other.entry || (part.entry == other.entry && part.place < other.place)
}

/// Whether a part comes after the last one, if there is one.
fn comes_after(last: Option<PartName>, part: PartName) -> bool
    ensures { result ≡ comes_after last part }
{
    match last {
        Some(last) => is_before(last, part),
        None => true,
    }
}

/// Whether each part comes after the one before it.
#[tactic(auto, using(crate::proofs::CaseJudged::rise_begun, crate::proofs::CaseJudged::rise_on, crate::proofs::CaseJudged::rise_failed, crate::proofs::CaseJudged::rise_ended))]
fn parts_rise(parts: &[PartName]) -> bool
    ensures { result ≡ parts_rise None parts.now }
{
    let mut last = None;
    for part in parts {
        if !comes_after(last, *part) {
            return false;
        }
        last = Some(*part);
    }
    true
}

/// The place of what became of a lost or torn part: the drop, the heads, and the tails.
fn lost_number(fate: Fate) -> u64
    ensures { result ≡ fate_number (Some fate) }
{
    match fate {
        Fate::Drop => 1,
        Fate::Head(eighths) => 1 + u64::from(eighths.count()),
        Fate::Tail(eighths) => 8 + u64::from(eighths.count()),
    }
}

/// A fate's place in the order of all: whole, the drop, the heads, and the tails.
fn fate_number(fate: Option<Fate>) -> u64
    ensures { result ≡ fate_number fate }
{
    match fate {
        Some(fate) => lost_number(fate),
        None => 0,
    }
}

/// Whether a number is above the last one, if there is one.
fn is_above(last: Option<u64>, number: u64) -> bool
    ensures { result ≡ is_above last number }
{
    match last {
        Some(last) => last < number,
        None => true,
    }
}

/// Whether fates stand in their order, each once.
#[tactic(auto, using(crate::proofs::CaseJudged::fates_begun, crate::proofs::CaseJudged::fates_on, crate::proofs::CaseJudged::fates_failed, crate::proofs::CaseJudged::fates_ended))]
fn fates_rise(fates: &[Option<Fate>]) -> bool
    ensures { result ≡ fates_rise None fates.now }
{
    let mut last = None;
    for fate in fates {
        let number = fate_number(*fate);
        if !is_above(last, number) {
            return false;
        }
        last = Some(number);
    }
    true
}

/// Whether that may become of a part where there are tears.
fn is_possible(fate: Option<Fate>) -> bool
    ensures { result ≡ is_possible fate }
{
    match fate {
        Some(fate) => is_fate_of_run(true, fate),
        None => true,
    }
}

/// Whether all of some fates are possible.
fn are_possible(fates: &[Option<Fate>]) -> bool
    ensures { result ≡ list_all is_possible fates.now }
{
    fates.iter().all(|fate| is_possible(*fate))
}

/// Whether fates are two or more of those of a part, and not all, in their order.
fn are_fates_of_run(tears: bool, fates: &[Option<Fate>]) -> bool
    ensures { result ≡ are_fates_of_run tears fates.now }
{
    tears && (1 < fates.len() && fates.len() < 16) && (are_possible(fates) && fates_rise(fates))
}

/// Whether a part may have such fates.
fn is_mixed_of_run(by: By, tears: bool, cut: u64, mixed: &Mixed) -> bool
    ensures { result ≡ is_mixed_of_run by tears cut (mixed_value mixed.now) }
{
    is_part_of_run(by, cut, mixed.part) && are_fates_of_run(tears, mixed.fates.as_slice())
}

/// Whether two parts have one name.
fn is_named_alike(part: PartName, other: PartName) -> bool
    ensures { result ≡ is_named_alike part other }
{
    part.entry == other.entry && part.place == other.place
}

/// What is left of parts from one on.
fn from_part<'t>(parts: &'t [PartName], part: PartName) -> &'t [PartName]
    ensures { result.now ≡ from_part (λ p. p) part parts.now }
{
    let mut left = parts;
    while let Some((first, rest)) = left.split_first() {
        if !is_before(*first, part) {
            return left;
        }
        left = rest;
    }
    left
}

/// Whether the first of some parts is this one.
fn begins_with(parts: &[PartName], part: PartName) -> bool
    ensures { result ≡ begins_with parts.now part }
{
    match parts {
        [] => false,
        [first, _rest @ ..] => is_named_alike(part, *first),
    }
}

/// Whether none of some parts is one of others. Both rise, so they are walked through together.
#[tactic(auto, using(crate::proofs::CaseWalked::none_begun, crate::proofs::CaseWalked::none_on, crate::proofs::CaseWalked::one_met, crate::proofs::CaseWalked::none_met))]
fn none_stands(parts: &[PartName], kept: &[PartName]) -> bool
    requires parts { parts_rise None parts.now ≡ true }
    requires kept { parts_rise None kept.now ≡ true }
    ensures { result ≡ list_all (λ p. not (stands_in parts.now p)) kept.now }
{
    let mut left = parts;
    for part in kept {
        left = from_part(left, *part);
        if begins_with(left, *part) {
            return false;
        }
    }
    true
}

/// What is left of lost parts from one on.
fn from_lost<'t>(lost: &'t [Name], part: PartName) -> &'t [Name]
    ensures { result.now ≡ from_part part_of part lost.now }
{
    let mut left = lost;
    while let Some((first, rest)) = left.split_first() {
        if !is_before(part_of(*first), part) {
            return left;
        }
        left = rest;
    }
    left
}

/// What becomes of a part, where the first of some lost parts is this one; none where it is whole.
fn first_fate(lost: &[Name], part: PartName) -> Option<Fate>
    ensures { result ≡ first_fate lost.now part }
{
    match lost {
        [] => None,
        [first, _rest @ ..] => {
            if is_named_alike(part, part_of(*first)) {
                Some(first.fate)
            } else {
                None
            }
        }
    }
}

/// Whether that is the first fate of a part.
fn is_first_of(fate: Option<Fate>, mixed: &Mixed) -> bool
    ensures { result ≡ is_first_of fate (mixed_value mixed.now) }
{
    match mixed.fates.as_slice() {
        [] => false,
        [first, _rest @ ..] => fate_number(*first) == fate_number(fate),
    }
}

/// The parts of names.
fn parts_of(alloc: Global, lost: &[Name]) -> Result<Vec<PartName>, AllocError>
    ensures { IfOk result (λ parts. parts.items ≡ parts_of lost.now) }
{
    let mut parts = Vec::new(alloc);
    for name in lost {
        parts.push(part_of(*name))?;
    }
    Ok(parts)
}

/// The parts of which two fates or more are possible.
fn mixed_parts(alloc: Global, mixed: &[Mixed]) -> Result<Vec<PartName>, AllocError>
    ensures { IfOk result (λ parts. parts.items ≡ mixed_parts (map mixed_value mixed.now)) }
{
    let mut parts = Vec::new(alloc);
    for one in mixed {
        parts.push(one.part)?;
    }
    Ok(parts)
}

/// Whether all of the lost parts are as a run may have them at a cut.
fn are_lost_of_run(by: By, tears: bool, cut: u64, lost: &[Name]) -> bool
    ensures { result ≡ list_all (is_lost_of_run by tears cut) lost.now }
{
    lost.iter()
        .all(|name| is_lost_of_run(by, tears, cut, *name))
}

/// Whether all of the whole parts are.
fn are_kept_of_run(by: By, cut: u64, kept: &[PartName]) -> bool
    ensures { result ≡ list_all (is_part_of_run by cut) kept.now }
{
    kept.iter().all(|part| is_part_of_run(by, cut, *part))
}

/// Whether all of the mixed parts are.
fn are_mixed_of_run(by: By, tears: bool, cut: u64, mixed: &[Mixed]) -> bool
    ensures { result ≡ list_all (is_mixed_of_run by tears cut) (map mixed_value mixed.now) }
{
    for one in mixed {
        if !is_mixed_of_run(by, tears, cut, one) {
            return false;
        }
    }
    true
}

/// Whether all parts are as a run may have them at a cut.
fn all_of_run(by: By, tears: bool, cut: u64, said: &CaseSaid<'_>) -> bool
    ensures { result ≡ all_of_run by tears cut said.now }
{
    are_lost_of_run(by, tears, cut, said.lost.as_slice())
        && are_kept_of_run(by, cut, said.kept.as_slice())
        && are_mixed_of_run(by, tears, cut, said.mixed.as_slice())
}

/// Whether the representative has the first of the fates of each mixed part. Both rise, so they are walked through together.
fn all_begin(lost: &[Name], mixed: &[Mixed]) -> bool
    requires lost { parts_rise None (parts_of lost.now) ≡ true }
    requires mixed { parts_rise None (mixed_parts (map mixed_value mixed.now)) ≡ true }
    ensures { result ≡ list_all (begins_as lost.now) (map mixed_value mixed.now) }
{
    let mut left = lost;
    for one in mixed {
        left = from_lost(left, one.part);
        if !is_first_of(first_fate(left, one.part), one) {
            return false;
        }
    }
    true
}

/// Whether no part that is whole is one of these or of those.
#[tactic(auto, using(crate::proofs::CaseWalked::both_lack))]
fn all_apart(lost: &[PartName], mixed: &[PartName], kept: &[PartName]) -> bool
    requires lost { parts_rise None lost.now ≡ true }
    requires mixed { parts_rise None mixed.now ≡ true }
    requires kept { parts_rise None kept.now ≡ true }
    ensures { result ≡ list_all (is_apart lost.now mixed.now) kept.now }
{
    none_stands(lost, kept) && none_stands(mixed, kept)
}

/// Whether the parts that are told rise, and go together.
fn are_in_order(alloc: Global, said: &CaseSaid<'_>) -> Result<bool, AllocError>
    ensures { IfOk result (λ is. is ≡ (all_rise said.now && go_together said.now)) }
{
    let lost = parts_of(alloc, said.lost.as_slice())?;
    let mixed = mixed_parts(alloc, said.mixed.as_slice())?;
    let (lost, kept, mixed) = (lost.as_slice(), said.kept.as_slice(), mixed.as_slice());
    if !(parts_rise(lost) && parts_rise(kept) && parts_rise(mixed)) {
        return Ok(false);
    }
    let apart = all_apart(lost, mixed, kept);
    Ok(apart && all_begin(said.lost.as_slice(), said.mixed.as_slice()))
}

/// Whether a run with that head has that program and may have that cut, with no more epochs and marks before it than entries.
pub(crate) fn is_front_of_run(head: &Head, front: CaseFront) -> bool
    ensures { result ≡ is_front_of_run head.now front }
{
    has_place(head, front.cut, front.program)
        && (front.epoch <= front.cut && front.marks <= front.cut && front.number < MOST_CASES)
}

/// Whether a window ends before the cut.
fn is_window_of_run(cut: u64, window: Option<Window>) -> bool
    ensures { result ≡ is_window_of_run cut window }
{
    match window {
        Some(window) => window.start <= window.end && u64::from(window.end) < cut,
        None => true,
    }
}

/// Whether a line is one of a run with that head, by the rules of docs/OUTPUT.md.
pub(crate) fn is_case_of_run(
    alloc: Global,
    head: &Head,
    said: &CaseSaid<'_>,
) -> Result<bool, AllocError>
    ensures { IfOk result (λ is. is ≡ is_case_of_run head.now said.now) }
{
    let cut = said.front.cut;
    let place = is_front_of_run(head, said.front) && is_window_of_run(cut, said.window);
    let all = all_of_run(head.by, head.tears, cut, said);
    let ordered = are_in_order(alloc, said)?;
    Ok(place && (all && ordered))
}
