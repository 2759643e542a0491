//! The sectors of a record, read from ranges.

ghost use Rattle.std.specs.Prelude.{ℕ, ◌≡◌, ◌+◌, ◌-◌, ◌<◌, ◌≤◌, ◌↔◌, ◌++◌, eqb, IfOk, IsTrue, IsFalse, MatchOption, OnOk, string_bytes};
ghost use Rattle.std.specs.List.{flat_map, list_all, sum_by, IsDistinct};
ghost use Rattle.std.specs.List.Sorted.{IsNonDecreasing, IsPermutation, IsStrictlyIncreasing};
ghost use Rattle.known_text.specs.Ranges.{IsLookedOnly, NoLooked, count_in, is_range, next_range, range_text, ranges_text, sectors_in};
ghost use Rattle.known_text.specs.Reading.{AreSectors, NoSectors, ReadsRange, ReadsRanges};

use crate::words::parts;
use report::printed::small_number;
use std::alloc::{AllocError, Global};

/// Sectors one after the other, from a first one to a last one.
#[derive(Clone, Copy, Drop)]
pub struct SectorRange {
    pub(crate) first: u32,
    pub(crate) last: u32,
}

/// The range that a word says, and some range where it says none.
#[tactic(auto, using(crate::proofs::RangesRead::one_read, crate::proofs::RangesRead::two_read))]
fn range_said(word: &str) -> SectorRange
    ensures { ReadsRange word.now result }
{
    match parts(word, '-') {
        Some((first, last)) => SectorRange {
            first: small_number(first),
            last: small_number(last),
        },
        None => {
            let sector = small_number(word);
            SectorRange {
                first: sector,
                last: sector,
            }
        }
    }
}

/// The ranges that a text says, and some ranges where it says none.
#[tactic(auto, using(crate::proofs::RangesRead::none_read, crate::proofs::RangesRead::begun, crate::proofs::RangesRead::one_more, crate::proofs::RangesRead::all_read))]
fn ranges_said(alloc: Global, text: &str) -> Result<Vec<SectorRange>, AllocError>
    ensures { IfOk result (λ found. ReadsRanges text.now found.items) }
{
    let mut found = Vec::new(alloc);
    if text == "-" {
        return Ok(found);
    }
    let mut rest = text;
    while let Some((word, more)) = parts(rest, ',') {
        found.push(range_said(word))?;
        rest = more;
    }
    found.push(range_said(rest))?;
    Ok(found)
}

/// Appends a range.
#[tactic(auto, unfolding(crate::specs::Ranges::range_text))]
fn put_range(out: &mut String, range: SectorRange) -> Result<(), AllocError>
    ensures { OnOk result (string_bytes out.new ≡ string_bytes out.old ++ range_text range) }
{
    if range.first == range.last {
        write!(out, "{}", range.first)
    } else {
        write!(out, "{}-{}", range.first, range.last)
    }
}

/// Appends a range that follows another.
fn put_next_range(out: &mut String, range: SectorRange) -> Result<(), AllocError>
    ensures { OnOk result (string_bytes out.new ≡ string_bytes out.old ++ next_range range) }
{
    write!(out, ",")?;
    put_range(out, range)
}

/// Appends ranges that follow another.
fn put_rest(out: &mut String, ranges: &[SectorRange]) -> Result<(), AllocError>
    ensures { OnOk result (string_bytes out.new ≡ string_bytes out.old ++ flat_map next_range ranges.now) }
{
    for range in ranges {
        put_next_range(out, *range)?;
    }
    Ok(())
}

/// Appends ranges, joined by commas; a hyphen where there is none.
#[tactic(auto, unfolding(crate::specs::Ranges::ranges_text))]
fn put_ranges(out: &mut String, ranges: &[SectorRange]) -> Result<(), AllocError>
    ensures { OnOk result (string_bytes out.new ≡ string_bytes out.old ++ ranges_text ranges.now) }
{
    match ranges {
        [] => write!(out, "-"),
        [first, rest @ ..] => {
            put_range(out, *first)?;
            put_rest(out, rest)
        }
    }
}

/// Whether a text is that of these ranges, to the byte.
fn is_text_of(alloc: Global, ranges: &[SectorRange], text: &str) -> Result<bool, AllocError>
    ensures { IfOk result (λ is. IsTrue is ↔ (text.now ≡ ranges_text ranges.now)) }
{
    let mut printed = String::new(alloc);
    put_ranges(&mut printed, ranges)?;
    Ok(printed.as_str() == text)
}

/// Whether the last sector of a range isn't below its first, and is one of a device.
fn is_range(sectors: u32, range: SectorRange) -> bool
    ensures { result ≡ is_range sectors range }
{
    range.first <= range.last && range.last < sectors
}

/// Whether that is so of all.
fn are_ranges(sectors: u32, ranges: &[SectorRange]) -> bool
    ensures { result ≡ list_all (is_range sectors) ranges.now }
{
    for range in ranges {
        if !is_range(sectors, *range) {
            return false;
        }
    }
    true
}

/// How many sectors a range has.
fn count_in(range: SectorRange) -> u64
    ensures { result ≡ range.last + 1 - range.first }
{
    (u64::from(range.last) + 1).saturating_sub(u64::from(range.first))
}

/// Whether ranges have no more sectors together than a device, a sector of two ranges counted twice.
#[tactic(auto, using(crate::proofs::Sectors::count_more, crate::proofs::Sectors::count_over))]
fn are_few(sectors: u32, ranges: &[SectorRange]) -> bool
    ensures few { IsFalse result → sectors < sum_by count_in ranges.now }
{
    let mut left = u64::from(sectors);
    for range in ranges {
        let count = count_in(*range);
        if count > left {
            return false;
        }
        left -= count;
    }
    true
}

/// Appends the sectors of a range, rising.
#[tactic(auto, using(crate::proofs::Sectors::row_more))]
fn put_sectors(out: &mut Vec<u32>, range: SectorRange) -> Result<(), AllocError>
    ensures { OnOk result (out.new.items ≡ out.old.items ++ sectors_in range) }
{
    for place in 0..count_in(range) {
        out.push((u64::from(range.first) + place) as u32)?;
    }
    Ok(())
}

/// The sectors of ranges, one range after the other.
fn sectors_of(alloc: Global, ranges: &[SectorRange]) -> Result<Vec<u32>, AllocError>
    ensures { IfOk result (λ out. out.items ≡ flat_map sectors_in ranges.now) }
{
    let mut out = Vec::new(alloc);
    for range in ranges {
        put_sectors(&mut out, *range)?;
    }
    Ok(out)
}

/// Whether each sector is below the next one.
fn is_rising(sectors: &[u32]) -> bool
    ensures rises { IsTrue result → IsStrictlyIncreasing sectors.now }
    ensures falls { IsFalse result → IsStrictlyIncreasing sectors.now → ⊥ }
{
    for place in 1..sectors.len() {
        if sectors[place - 1] >= sectors[place] {
            return false;
        }
    }
    true
}

/// Returns these sectors in the order of their numbers.
#[tactic(auto, using(crate::proofs::Sectors::sorted_same, crate::proofs::Sectors::sorted_order))]
fn sorted_of(alloc: Global, sectors: &[u32]) -> Result<Vec<u32>, AllocError>
    ensures same { IfOk result (λ sorted. IsPermutation sectors.now sorted.items) }
    ensures order { IfOk result (λ sorted. IsNonDecreasing sorted.items) }
{
    let mut sorted = Vec::new(alloc);
    sorted.extend_from_slice(sectors)?;
    sorted.sort()?;
    Ok(sorted)
}

/// Whether no sector stands twice.
#[tactic(auto, using(crate::proofs::Sectors::rises_once, crate::proofs::Sectors::falls_twice))]
fn is_once(alloc: Global, sectors: &[u32]) -> Result<bool, AllocError>
    ensures once { IfOk result (λ is. IsTrue is → IsDistinct eqb sectors.now) }
    ensures twice { IfOk result (λ is. IsFalse is → IsDistinct eqb sectors.now → ⊥) }
{
    let sorted = sorted_of(alloc, sectors)?;
    Ok(is_rising(sorted.as_slice()))
}

/// The sectors of ranges, if each is of a device and none stands twice.
#[tactic(auto, using(crate::proofs::Sectors::not_ranges, crate::proofs::Sectors::not_few, crate::proofs::Sectors::not_once, crate::proofs::Sectors::are_sectors))]
fn sectors_said(
    alloc: Global,
    sectors: u32,
    ranges: &[SectorRange],
) -> Result<Option<Vec<u32>>, AllocError>
    ensures { IfOk result (λ found. MatchOption found (NoSectors sectors ranges.now) (λ looked. AreSectors sectors ranges.now looked.items)) }
{
    if !are_ranges(sectors, ranges) {
        return Ok(None);
    }
    if !are_few(sectors, ranges) {
        return Ok(None);
    }
    let looked = sectors_of(alloc, ranges)?;
    if is_once(alloc, looked.as_slice())? {
        Ok(Some(looked))
    } else {
        Ok(None)
    }
}

/// The sectors that a text of ranges says, if each is of a device and none stands twice.
///
/// # Errors
///
/// Memory was refused.
#[tactic(auto, using(crate::proofs::Sectors::not_text, crate::proofs::Sectors::no_sectors, crate::proofs::Sectors::are_looked))]
pub(crate) fn looked_said(
    alloc: Global,
    sectors: u32,
    text: &str,
) -> Result<Option<Vec<u32>>, AllocError>
    ensures { IfOk result (λ found. MatchOption found (NoLooked sectors text.now) (λ looked. IsLookedOnly sectors text.now looked.items)) }
{
    let ranges = ranges_said(alloc, text)?;
    if !is_text_of(alloc, ranges.as_slice(), text)? {
        return Ok(None);
    }
    sectors_said(alloc, sectors, ranges.as_slice())
}
