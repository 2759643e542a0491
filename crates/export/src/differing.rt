//! The sectors in which two images of a log differ.

ghost use Rattle.std.specs.Prelude.{◌≡◌, ◌+◌, ◌<◌, ◌≤◌, ◌==◌, ◌||◌, ℕ, Bool, false, length, filter, slice_get, slice_index_or, OnOk};
ghost use Rattle.std.specs.List.{range_with_len};
ghost use Rattle.std.specs.List.Sorted.{IsNonDecreasingBy};
ghost use Rattle.std.specs.Option.{option_map_or};
ghost use Rattle.choices.specs.declared.choice.Departure.{Departure as LogDeparture};
ghost use Rattle.images.specs.Keys.{differs};
ghost use Rattle.images.specs.Table.{AreParts};
ghost use Rattle.images.specs.Views.{sectors_of};
ghost use Rattle.export.specs.Kept.{Spans, IsDeparting, IsWrittenBy, IsWritten, listed, Lists, OfOneLog};

use crate::image::ExportedImage;
use choices::Departure;
use std::alloc::AllocError;

/// How many numbers of a rising list are below a number.
fn place_of(numbers: &[u32], number: u32) -> usize
    ensures bound { result ≤ length numbers.now }
    ensures before { IsNonDecreasingBy (λ (n : ℕ). n) numbers.now → (k d : ℕ) → k < result → slice_index_or numbers.now k d < number }
    ensures beyond { IsNonDecreasingBy (λ (n : ℕ). n) numbers.now → (k d : ℕ) → result ≤ k → k < length numbers.now → number ≤ slice_index_or numbers.now k d }
{
    numbers.partition_point(|other| *other < number)
}

/// Whether a number stands at that place of a list.
fn is_at(numbers: &[u32], place: usize, number: u32) -> bool
    ensures { result ≡ option_map_or (λ (n : ℕ). n == number) (slice_get numbers.now place) false }
{
    match numbers.get(place) {
        Some(other) => *other == number,
        None => false,
    }
}

/// Puts a number into a rising list, where it isn't there.
fn put_number(numbers: &mut Vec<u32>, number: u32) -> Result<(), AllocError>
    ensures { (p : ℕ → Bool) (count : ℕ) → number < count → numbers.old.items ≡ filter p (range_with_len 0 count)
        → OnOk result (numbers.new.items ≡ filter (λ n. p n || (n == number)) (range_with_len 0 count)) }
{
    let place = place_of(numbers.as_slice(), number);
    let there = is_at(numbers.as_slice(), place, number);
    if there {
        return Ok(());
    }
    numbers.insert(place, number)?;
    Ok(())
}

/// Whether two images differ in a sector.
fn is_different(one: &ExportedImage<'_>, other: &ExportedImage<'_>, number: u32) -> bool
    requires log { OfOneLog one.now other.now }
    requires number { number < one.now.log.sectors }
    ensures { result ≡ differs (sectors_of one.now) (sectors_of other.now) number }
{
    let same = lanes::same(one.sector(number), other.sector(number));
    !same
}

/// Puts a sector into the list where the images differ in it.
fn put_sector(
    numbers: &mut Vec<u32>,
    one: &ExportedImage<'_>,
    other: &ExportedImage<'_>,
    number: u32,
) -> Result<(), AllocError>
    requires log { OfOneLog one.now other.now }
    requires number { number < one.now.log.sectors }
    ensures { (p : ℕ → Bool) → numbers.old.items ≡ listed one.now other.now p → OnOk result (Lists one.now other.now numbers.new.items p (λ n. n ≡ number)) }
{
    let different = is_different(one, other, number);
    if different {
        put_number(numbers, number)?;
    }
    Ok(())
}

/// Puts those of `count` sectors from `first` on into the list in which the images differ.
fn put_sectors(
    numbers: &mut Vec<u32>,
    one: &ExportedImage<'_>,
    other: &ExportedImage<'_>,
    first: u32,
    count: u32,
) -> Result<(), AllocError>
    requires log { OfOneLog one.now other.now }
    requires device { first + count ≤ one.now.log.sectors }
    ensures { (p : ℕ → Bool) → numbers.old.items ≡ listed one.now other.now p → OnOk result (Lists one.now other.now numbers.new.items p (λ n. Spans first count n)) }
{
    let _sectors = one.log().sectors();
    for place in 0..count {
        put_sector(numbers, one, other, first + place)?;
    }
    Ok(())
}

/// Puts the sectors of departures into the list.
fn put_departing(
    numbers: &mut Vec<u32>,
    one: &ExportedImage<'_>,
    other: &ExportedImage<'_>,
    departures: &[Departure],
) -> Result<(), AllocError>
    requires log { OfOneLog one.now other.now }
    requires parts { AreParts one.now.log departures.now }
    ensures { (p : ℕ → Bool) → numbers.old.items ≡ listed one.now other.now p → OnOk result (Lists one.now other.now numbers.new.items p (λ n. IsDeparting departures.now n)) }
{
    for departure in departures {
        let part = departure.part;
        put_sectors(numbers, one, other, part.sector, part.count)?;
    }
    Ok(())
}

/// Puts what an entry writes or discards into the list.
fn put_entry(
    numbers: &mut Vec<u32>,
    one: &ExportedImage<'_>,
    other: &ExportedImage<'_>,
    entry: u32,
) -> Result<(), AllocError>
    requires log { OfOneLog one.now other.now }
    requires entry { entry < length one.now.log.entries }
    ensures { (p : ℕ → Bool) → numbers.old.items ≡ listed one.now other.now p → OnOk result (Lists one.now other.now numbers.new.items p (λ n. IsWrittenBy one.now.log.entries entry n)) }
{
    let entry = &one.log().entries()[entry as usize];
    if entry.count == 0 {
        return Ok(());
    }
    put_sectors(numbers, one, other, entry.sector as u32, entry.count as u32)?;
    Ok(())
}

/// Puts what the entries between two cuts write or discard into the list.
fn put_written(
    numbers: &mut Vec<u32>,
    one: &ExportedImage<'_>,
    other: &ExportedImage<'_>,
    first: u32,
    last: u32,
) -> Result<(), AllocError>
    requires log { OfOneLog one.now other.now }
    requires rising { first ≤ last }
    requires last { last ≤ length one.now.log.entries }
    ensures { (p : ℕ → Bool) → numbers.old.items ≡ listed one.now other.now p → OnOk result (Lists one.now other.now numbers.new.items p (λ n. IsWritten one.now.log.entries first last n)) }
{
    for entry in first..last {
        put_entry(numbers, one, other, entry)?;
    }
    Ok(())
}

/// The sectors in which two images of a log differ, rising. It looks at those alone that departures of the two cover, or entries
/// between their cuts.
pub(crate) fn put_differing(
    numbers: &mut Vec<u32>,
    one: &ExportedImage<'_>,
    other: &ExportedImage<'_>,
) -> Result<(), AllocError>
    requires log { OfOneLog one.now other.now }
    ensures { OnOk result (numbers.new.items ≡ filter (differs (sectors_of one.now) (sectors_of other.now)) (range_with_len 0 one.now.log.sectors)) }
{
    numbers.clear();
    put_departing(numbers, one, other, one.departures())?;
    put_departing(numbers, one, other, other.departures())?;
    let (here, there) = (one.cut(), other.cut());
    if here <= there {
        put_written(numbers, one, other, here, there)?;
        return Ok(());
    }
    put_written(numbers, one, other, there, here)?;
    Ok(())
}
