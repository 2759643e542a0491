//! The parts of a log: what departs as one.

ghost use Rattle.std.specs.Prelude.{ℕ, ◌≡◌, ◌+◌, ◌^◌, ◌<◌, ◌≤◌, ◌++◌, nat_le, nat_lt, ◌&&◌, List, OnOk};
ghost use Rattle.std.specs.List.{list_any};
ghost use Rattle.base.specs.Sizes.{most_units};
ghost use Rattle.epochs.specs.Parts.{part_size, part_count};
ghost use Rattle.epochs.specs.Touching.{touching_parts};

use logfmt::Entry;
use std::alloc::AllocError;

/// What departs as one (docs/CRASH-MODEL.md, Terms).
#[derive(Clone, Copy)]
pub enum By {
    /// Each sector of a write or a discard.
    Sector,
    /// Each write or discard that has a sector.
    Write,
}

impl By {
    /// How many sectors a part of an entry has.
    pub(crate) fn size(self, entry: &Entry) -> u64
        ensures { result ≡ part_size self entry.now }
    {
        match self {
            By::Sector => 1,
            By::Write => entry.count,
        }
    }

    /// How many parts an entry has.
    pub fn parts(self, entry: &Entry) -> u64
        ensures value { result ≡ part_count self entry.now }
        ensures bound { result ≤ entry.now.count }
    {
        match self {
            By::Sector => entry.count,
            By::Write => { if entry.count == 0 { 0 } else { 1 } }
        }
    }

    /// Appends those of the first parts of an entry that cover one of those sectors, by their numbers, of which the first
    /// part has `first`.
    pub(crate) fn put_touching(
        self,
        numbers: &mut Vec<u32>,
        entry: &Entry,
        sectors: &[u32],
        first: u32,
        count: u32,
    ) -> Result<(), AllocError>
        requires count { count ≤ part_count self entry.now }
        requires small { first + count ≤ most_units }
        requires fits { entry.now.sector + entry.now.count < 2 ^ 64 }
        ensures put { (e : ℕ) → OnOk result (numbers.new.items ≡ numbers.old.items ++ touching_parts self e entry.now sectors.now first count) }
        ensures kept { (more : List ℕ) × (numbers.new.items ≡ numbers.old.items ++ more) }
    {
        if !touches(entry.sector, entry.sector + entry.count, sectors) {
            return Ok(());
        }
        let size = self.size(entry);
        for place in 0..count {
            let sector = entry.sector + u64::from(place) * size;
            if touches(sector, sector + size, sectors) {
                numbers.push(first + place)?;
            }
        }
        Ok(())
    }
}

/// A part of a log: that many sectors of a write or a discard, in a row.
#[derive(Clone, Copy, Debug, PartialEq, Eq)]
pub struct Part {
    /// The number of its entry in the log.
    pub entry: u32,
    /// Which sector of its entry is its first, from 0.
    pub place: u32,
    /// How many sectors it has, at least 1.
    pub count: u32,
    /// The first sector of the device that it covers.
    pub sector: u32,
}

/// Whether one of those sectors is at or after `first`, and before `end`.
#[inline(always)]
fn touches(first: u64, end: u64, sectors: &[u32]) -> bool
    ensures { result ≡ list_any (λ n. nat_le first n && nat_lt n end) sectors.now }
{
    sectors.iter().any(|sector| first <= u64::from(*sector) && u64::from(*sector) < end)
}
