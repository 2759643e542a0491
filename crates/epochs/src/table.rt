//! The table of a plan, a row for each cut.

ghost use Rattle.std.specs.Prelude.{◌≡◌, ◌+◌, ◌<◌, ◌≤◌, length, slice_index_or, IfOk, ℕ};
ghost use Rattle.std.specs.List.Sorted.{IsNonDecreasingBy};
ghost use Rattle.base.specs.Sizes.{most_units};
ghost use Rattle.logfmt.specs.Bounds.{units_of};
ghost use Rattle.epochs.specs.Table.{AreRows, next_row};

use crate::part::By;
use logfmt::Entry;
use std::alloc::{AllocError, Global};

/// What a plan keeps for a cut.
#[derive(Clone, Copy)]
pub(crate) struct CutRow {
    /// How many parts before the cut are not forced (FUA).
    pub start: u32,
    /// How many of these a flush has made durable; the others are volatile.
    pub durable: u32,
    /// How many flush entries stand before the cut.
    pub epoch: u32,
    /// How many marks stand before the cut.
    pub marks: u32,
}

impl CutRow {
    /// The row of the next cut, after that entry.
    fn after(self, by: By, entry: &Entry) -> CutRow
        requires units { self.start + entry.now.count ≤ most_units }
        requires epoch { self.epoch ≤ 65536 }
        requires marks { self.marks ≤ 65536 }
        ensures { result ≡ next_row by self entry.now }
    {
        let own = if entry.flags.fua {
            0
        } else {
            by.parts(entry) as u32
        };
        CutRow {
            start: self.start + own,
            durable: if entry.flags.flush {
                self.start
            } else {
                self.durable
            },
            epoch: self.epoch + u32::from(entry.flags.flush),
            marks: self.marks + u32::from(entry.flags.mark),
        }
    }
}

/// The rows of all cuts.
pub(crate) fn rows_of(alloc: Global, by: By, entries: &[Entry]) -> Result<Vec<CutRow>, AllocError>
    requires count { length entries.now ≤ 65536 }
    requires units { units_of entries.now ≤ most_units }
    ensures { IfOk result (λ rows. AreRows by entries.now rows.items) }
{
    let mut rows = Vec::with_capacity(alloc, entries.len() + 1)?;
    let mut row = CutRow {
        start: 0,
        durable: 0,
        epoch: 0,
        marks: 0,
    };
    rows.push(row)?;
    for entry in entries {
        row = row.after(by, entry);
        rows.push(row)?;
    }
    Ok(rows)
}

/// How many rows have a start of at most `part`.
pub(crate) fn rows_up_to(rows: &[CutRow], part: u32) -> usize
    requires { IsNonDecreasingBy (λ (row : CutRow). row.start) rows.now }
    ensures bound { result ≤ length rows.now }
    ensures before { (k : ℕ) (d : CutRow) → k < result → (slice_index_or rows.now k d).start ≤ part }
    ensures beyond { (k : ℕ) (d : CutRow) → result ≤ k → k < length rows.now → part < (slice_index_or rows.now k d).start }
{
    rows.partition_point(|row| row.start <= part)
}
