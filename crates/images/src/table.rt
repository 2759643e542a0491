//! The version table: all units of a log, in the order of the sectors that they cover, and those of one sector in the order of the
//! log; and where every 64th sector begins in it. What is kept grows with what a log writes, and by a word for each 64 sectors of the
//! device up to the last that is written.

ghost use Rattle.std.specs.Prelude.{◌≡◌, ◌+◌, ◌*◌, ◌<◌, ◌≤◌, ℕ, length, slice_index_or, IfOk, OnOk};
ghost use Rattle.std.specs.List.Sorted.{IsNonDecreasingBy};
ghost use Rattle.base.specs.Sizes.{most_sectors};
ghost use Rattle.epochs.specs.declared.unit.Unit.{Unit as LogUnit};
ghost use Rattle.epochs.specs.Units.{units_before};
ghost use Rattle.images.specs.Table.{covering, AreStarts, AreUnits, Divides, IsTable};

use epochs::Unit;
use logfmt::{Entry, Log};
use std::alloc::{AllocError, Global};

/// How many sectors lie between two of which a table says where they begin.
const PAGE: u32 = 64;

/// How many such sectors a table has at most: those of the largest device, and its end.
const MOST_STARTS: u32 = 524_289;

/// The units of a log by the sectors that they cover.
#[derive(Drop)]
pub(crate) struct UnitTable {
    units: Vec<Unit>,
    /// How many units cover a sector before that of each place, which is 64 times the place.
    starts: Vec<usize>,
}

/// How many units of a table cover a sector before that one.
fn count_below(units: &[Unit], number: u32) -> usize
    requires { IsNonDecreasingBy (λ (u : LogUnit). u.sector) units.now }
    ensures bound { result ≤ length units.now }
    ensures before { (k : ℕ) (d : LogUnit) → k < result → (slice_index_or units.now k d).sector < number }
    ensures beyond { (k : ℕ) (d : LogUnit) → result ≤ k → k < length units.now → number ≤ (slice_index_or units.now k d).sector }
{
    units.partition_point(|unit| unit.sector < number)
}

/// The same, where it is known to lie from `low` to `high`.
fn place_in(units: &[Unit], low: usize, high: usize, number: u32) -> usize
    requires rising { IsNonDecreasingBy (λ (u : LogUnit). u.sector) units.now }
    requires order { low ≤ high }
    requires bound { high ≤ length units.now }
    requires before { (k : ℕ) (d : LogUnit) → k < low → (slice_index_or units.now k d).sector < number }
    requires beyond { (k : ℕ) (d : LogUnit) → high ≤ k → k < length units.now → number ≤ (slice_index_or units.now k d).sector }
    ensures place { Divides units.now number result }
    ensures low { low ≤ result }
    ensures high { result ≤ high }
{
    let mut first = low;
    let mut last = high;
    while first < last {
        let middle = first + (last - first) / 2;
        if units[middle].sector < number {
            first = middle + 1;
        } else {
            last = middle;
        }
    }
    first
}

impl UnitTable {
    /// A place before which all units cover sectors before those of a page.
    fn low_of(&self, page: usize) -> usize
        requires { AreStarts self.now.units.items self.now.starts.items }
        ensures bound { result ≤ length self.now.units.items }
        ensures before { (k : ℕ) (d : LogUnit) → k < result → (slice_index_or self.now.units.items k d).sector < 64 * page }
    {
        let starts = self.starts.as_slice();
        if page < starts.len() { starts[page] } else { 0 }
    }

    /// A place from which on no unit covers a sector before those of a page.
    fn high_of(&self, page: usize) -> usize
        requires { AreStarts self.now.units.items self.now.starts.items }
        ensures bound { result ≤ length self.now.units.items }
        ensures beyond { (k : ℕ) (d : LogUnit) → result ≤ k → k < length self.now.units.items → 64 * page ≤ (slice_index_or self.now.units.items k d).sector }
    {
        let starts = self.starts.as_slice();
        if page < starts.len() {
            starts[page]
        } else {
            self.units.len()
        }
    }

    /// The units that cover a sector, in order. It takes two searches by halves among those of 64 sectors.
    #[inline]
    pub(crate) fn row(&self, number: u32) -> &[Unit]
        requires rising { IsNonDecreasingBy (λ (u : LogUnit). u.sector) self.now.units.items }
        requires starts { AreStarts self.now.units.items self.now.starts.items }
        requires number { number < most_sectors }
        ensures { result.now ≡ covering number self.now.units.items }
    {
        let page = (number / PAGE) as usize;
        let low = self.low_of(page);
        let high = self.high_of(page + 1);
        let units = self.units.as_slice();
        let first = place_in(units, low, high, number);
        let end = place_in(units, first, high, number + 1);
        &units[first..end]
    }
}

/// Adds the units of an entry to those of the entries before it.
fn put_entry(units: &mut Vec<Unit>, log: &Log, number: u32) -> Result<(), AllocError>
    requires entry { number < length log.now.entries }
    requires before { units.old.items ≡ units_before log.now.entries number }
    ensures { OnOk result (units.new.items ≡ units_before log.now.entries (number + 1)) }
{
    let entry = &log.entries()[number as usize];
    for place in 0..entry.count {
        let unit = Unit {
            entry: number,
            place: place as u32,
            sector: (entry.sector + place) as u32,
        };
        units.push(unit)?;
    }
    Ok(())
}

/// How many units some entries have.
fn count_units(entries: &[Entry]) -> usize {
    let mut count: usize = 0;
    for entry in entries {
        count = count.saturating_add(entry.count as usize);
    }
    count
}

/// The units of a log, sorted. It takes memory for each unit, and while they are sorted for each once more.
fn sorted_units(alloc: Global, log: &Log) -> Result<Vec<Unit>, AllocError>
    ensures { IfOk result (λ units. AreUnits log.now units.items) }
{
    let mut units = Vec::with_capacity(alloc, count_units(log.entries()))?;
    for number in 0..log.entries().len() as u32 {
        put_entry(&mut units, log, number)?;
    }
    units.sort_by_key(|unit| unit.sector)?;
    Ok(units)
}

/// How many starts a table of these units has.
fn count_starts(units: &[Unit]) -> u32
    ensures { result ≤ 524289 }
{
    match units.last() {
        Some(unit) => (unit.sector / PAGE).saturating_add(2).min(MOST_STARTS),
        None => 0,
    }
}

/// Where every 64th sector begins.
fn starts_of(alloc: Global, units: &[Unit]) -> Result<Vec<usize>, AllocError>
    requires { IsNonDecreasingBy (λ (u : LogUnit). u.sector) units.now }
    ensures { IfOk result (λ starts. AreStarts units.now starts.items) }
{
    let count = count_starts(units);
    let mut starts = Vec::with_capacity(alloc, count as usize)?;
    for page in 0..count {
        starts.push(count_below(units, PAGE * page))?;
    }
    Ok(starts)
}

/// The table of a log.
pub(crate) fn table_of(alloc: Global, log: &Log) -> Result<UnitTable, AllocError>
    ensures { IfOk result (λ table. IsTable log.now table.units.items table.starts.items) }
{
    let units = sorted_units(alloc, log)?;
    let starts = starts_of(alloc, units.as_slice())?;
    Ok(UnitTable { units, starts })
}
