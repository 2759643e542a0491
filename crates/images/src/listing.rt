//! Lists of changed sectors, rising by number.

ghost use Rattle.std.specs.Prelude.{◌≡◌, ◌<◌, ◌≤◌, ◌+◌, ◌++◌, ◌==◌, ℕ, List, length, slice_get, slice_index_or, false, take, drop, IfOk, OnOk};
ghost use Rattle.std.specs.Option.{option_map_or};
ghost use Rattle.std.specs.List.Sorted.{IsNonDecreasingBy};
ghost use Rattle.images.specs.Keys.{ChangedValue};
ghost use Rattle.images.specs.Changes.{change_at, changes, with_sector};

use crate::changed::ChangedSector;
use crate::image::Sector;
use std::alloc::{AllocError, Global};

/// A sector whose bytes lie in the log, if it differs from the base.
pub(crate) fn change_of<'a>(
    number: u32,
    base: &Sector,
    sector: &'a Sector,
) -> Option<ChangedSector<'a>>
    ensures { (durable image : ℕ → List ℕ) → durable number ≡ base.now → image number ≡ sector.now → result ≡ change_at durable image number }
{
    if lanes::same(base, sector) {
        None
    } else {
        Some(ChangedSector::borrow_sector(number, sector))
    }
}

/// A sector in which a torn unit shows, if it differs from the base.
pub(crate) fn torn_change<'a>(
    alloc: Global,
    number: u32,
    base: &Sector,
    sector: &Sector,
) -> Result<Option<ChangedSector<'a>>, AllocError>
    ensures { IfOk result (λ change. (durable image : ℕ → List ℕ) → durable number ≡ base.now → image number ≡ sector.now → change ≡ change_at durable image number) }
{
    if lanes::same(base, sector) {
        return Ok(None);
    }
    Ok(Some(ChangedSector::torn_sector(alloc, number, sector)?))
}

/// How many sectors of a list stand before a number.
fn place_of(sectors: &[ChangedSector<'_>], number: u32) -> usize
    requires { IsNonDecreasingBy (λ (s : ChangedValue). s.number) sectors.now }
    ensures bound { result ≤ length sectors.now }
    ensures before { (k : ℕ) (d : ChangedValue) → k < result → (slice_index_or sectors.now k d).number < number }
    ensures beyond { (k : ℕ) (d : ChangedValue) → result ≤ k → k < length sectors.now → number ≤ (slice_index_or sectors.now k d).number }
{
    sectors.partition_point(|sector| sector.number() < number)
}

/// Whether the sector of a number stands at that place of a list.
fn is_at(sectors: &[ChangedSector<'_>], place: usize, number: u32) -> bool
    ensures { result ≡ option_map_or (λ (s : ChangedValue). s.number == number) (slice_get sectors.now place) false }
{
    match sectors.get(place) {
        Some(sector) => sector.number() == number,
        None => false,
    }
}

/// Lists a sector of an image anew: as it differs from the base, or not at all.
pub(crate) fn put<'a>(
    sectors: &mut Vec<ChangedSector<'a>>,
    number: u32,
    change: Option<ChangedSector<'a>>,
) -> Result<(), AllocError>
    requires { IsNonDecreasingBy (λ (s : ChangedValue). s.number) sectors.old.items }
    ensures { (base image : ℕ → List ℕ) (count : ℕ) (sector : List ℕ) → number < count → sectors.old.items ≡ changes base image 0 count
        → change.entry ≡ change_at base (with_sector image number sector) number
        → OnOk result (sectors.new.items ≡ changes base (with_sector image number sector) 0 count) }
{
    let place = place_of(sectors.as_slice(), number);
    let there = is_at(sectors.as_slice(), place, number);
    match change {
        Some(change) if there => sectors[place] = change,
        Some(change) => sectors.insert(place, change)?,
        None if there => {
            sectors.remove(place);
        }
        None => {}
    }
    Ok(())
}

/// A copy of the sectors, with room for that many more.
pub(crate) fn copy_sectors<'a>(
    alloc: Global,
    sectors: &[ChangedSector<'a>],
    more: usize,
) -> Result<Vec<ChangedSector<'a>>, AllocError>
    requires { more ≤ 3 }
    ensures { IfOk result (λ copy. copy.items ≡ sectors.now) }
{
    let mut copy = Vec::with_capacity(alloc, sectors.len() + more)?;
    for sector in sectors {
        copy.push(sector.copy(alloc)?)?;
    }
    Ok(copy)
}
