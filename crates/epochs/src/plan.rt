//! What each cut of a log leaves open.

ghost use Rattle.std.specs.Prelude.{ℕ, ◌≡◌, ◌+◌, ◌<◌, ◌≤◌, ◌++◌, nat_le, List, length, slice_get, IfOk, OnOk, IsTrue, IsFalse, All, Some};
ghost use Rattle.base.specs.Sizes.{most_units};
ghost use Rattle.epochs.specs.Units.{epoch_at, marks_at};
ghost use Rattle.epochs.specs.Parts.{volatile_parts};
ghost use Rattle.epochs.specs.Cuts.{cuts_of};
ghost use Rattle.epochs.specs.Table.{unforced_parts, IsRow, RowFits, Found};
ghost use Rattle.epochs.specs.Touching.{touching, touching_before};

use crate::cuts::Cuts;
use crate::part::{By, Part};
use crate::table::{CutRow, rows_of, rows_up_to};
use logfmt::Log;
use std::alloc::{AllocError, Global};
use std::marker::Model;

/// A log with the cuts that are wanted of it, and what each of its cuts leaves open
/// (docs/CRASH-MODEL.md).
///
/// Contracts see a plan as a log, a kind of cuts, and what departs as one. A log of n entries has the
/// cuts 0 to n, and a plan answers for each of them, wanted or not.
#[derive(Drop)]
pub struct Plan<'a> {
    log: &'a Log<'a>,
    kind: Cuts,
    by: By,
    rows: Vec<CutRow>,
    cuts: Vec<u32>,
}

impl<'a> Model for Plan<'a> {
    ghost use Rattle.epochs.specs.Plan.{PlanValue, IsPlan};

    ghost Value = { PlanValue };

    ghost view = { λ p. record { log = p.log.now; kind = p.kind; by = p.by } };

    ghost invariant = { λ p. IsPlan (record { log = p.log.now; kind = p.kind; by = p.by }) p.rows.items p.cuts.items };
}

impl<'a> Plan<'a> {
    ghost use Rattle.epochs.specs.Plan.{IsPart};

    /// The plan of a log. The calls below take no memory.
    pub fn new(alloc: Global, log: &'a Log<'a>, cuts: Cuts, by: By) -> Result<Plan<'a>, AllocError>
        ensures log { IfOk result (λ plan. plan.log ≡ log.now) }
        ensures kind { IfOk result (λ plan. plan.kind ≡ cuts) }
        ensures by { IfOk result (λ plan. plan.by ≡ by) }
    {
        let entries = log.entries();
        let rows = rows_of(alloc, by, entries)?;
        let wanted = cuts.of(alloc, entries)?;
        Ok(Plan {
            log,
            kind: cuts,
            by,
            rows,
            cuts: wanted,
        })
    }

    /// The wanted cuts, rising; there may be none.
    pub fn cuts(&self) -> &[u32]
        ensures value { result.now ≡ cuts_of self.now.kind self.now.log.entries }
        ensures within { All (λ cut. cut ≤ length self.now.log.entries) result.now }
    {
        self.cuts.as_slice()
    }

    /// The row of a cut.
    fn row(&self, cut: u32) -> CutRow
        requires { cut ≤ length self.now.log.entries }
        ensures row { IsRow self.now.by self.now.log.entries cut result }
        ensures fits { RowFits result }
    {
        self.rows[cut as usize]
    }

    /// The epoch of a cut: how many flush entries stand before it.
    pub fn epoch(&self, cut: u32) -> u32
        requires { cut ≤ length self.now.log.entries }
        ensures value { result ≡ epoch_at self.now.log.entries cut }
        ensures bound { result ≤ 65536 }
    {
        self.row(cut).epoch
    }

    /// How many marks stand before a cut.
    pub fn marks(&self, cut: u32) -> u32
        requires { cut ≤ length self.now.log.entries }
        ensures value { result ≡ marks_at self.now.log.entries cut }
        ensures bound { result ≤ 65536 }
    {
        self.row(cut).marks
    }

    /// How many volatile parts a cut has.
    pub fn volatile(&self, cut: u32) -> u32
        requires { cut ≤ length self.now.log.entries }
        ensures value { result ≡ length (volatile_parts self.now.by self.now.log.entries cut) }
        ensures bound { result ≤ most_units }
    {
        let row = self.row(cut);
        row.start - row.durable
    }

    /// A volatile part of a cut, by its number in their order, by entry and then by sector of the
    /// entry. It takes a search by halves in the table of cuts.
    pub fn part(&self, cut: u32, number: u32) -> Part
        requires cut { cut ≤ length self.now.log.entries }
        requires number { number < length (volatile_parts self.now.by self.now.log.entries cut) }
        ensures value { slice_get (volatile_parts self.now.by self.now.log.entries cut) number ≡ Some result }
        ensures part { IsPart self.now.log result }
        ensures before { result.entry < cut }
    {
        self.find(self.row(cut).durable + number)
    }

    /// Appends the volatile parts of a cut that cover one of those sectors, by their numbers, rising, and answers `true`.
    /// Where they are more than `most`, it answers `false`, and appends none.
    ///
    /// It looks at each entry from the first volatile part on, until there are too many.
    pub fn put_touching(
        &self,
        parts: &mut Vec<u32>,
        cut: u32,
        sectors: &[u32],
        most: u32,
    ) -> Result<bool, AllocError>
        requires cut { cut ≤ length self.now.log.entries }
        ensures value { IfOk result (λ few. few ≡ nat_le (length (touching self.now.by self.now.log.entries cut sectors.now)) most) }
        ensures told { IfOk result (λ few. IsTrue few → parts.new.items ≡ parts.old.items ++ touching self.now.by self.now.log.entries cut sectors.now) }
        ensures none { IfOk result (λ few. IsFalse few → parts.new.items ≡ parts.old.items) }
        ensures kept { (more : List ℕ) × (parts.new.items ≡ parts.old.items ++ more) }
    {
        let row = self.row(cut);
        if row.start == row.durable {
            return Ok(true);
        }
        let before = parts.len();
        for entry in self.entry_of(row.durable)..cut {
            self.put_touching_of(parts, row.durable, entry, sectors)?;
            if parts.len() - before > most as usize {
                parts.truncate(before);
                return Ok(false);
            }
        }
        Ok(true)
    }

    /// Appends the parts of an entry that cover one of those sectors, by their numbers among the parts from `durable` on.
    fn put_touching_of(
        &self,
        parts: &mut Vec<u32>,
        durable: u32,
        entry: u32,
        sectors: &[u32],
    ) -> Result<(), AllocError>
        requires entry { entry < length self.now.log.entries }
        requires durable { durable ≤ length (unforced_parts self.now.by self.now.log.entries entry) }
        ensures put { (front : List ℕ) → parts.old.items ≡ front ++ touching_before self.now.by self.now.log.entries sectors.now durable entry
            → OnOk result (parts.new.items ≡ front ++ touching_before self.now.by self.now.log.entries sectors.now durable (entry + 1)) }
        ensures kept { (more : List ℕ) × (parts.new.items ≡ parts.old.items ++ more) }
    {
        let own = &self.log.entries()[entry as usize];
        let start = self.row(entry).start;
        let count = self.row(entry + 1).start - start;
        self.by
            .put_touching(parts, own, sectors, start - durable, count)
    }

    /// A part by its number among those that are not forced.
    fn find(&self, number: u32) -> Part
        requires { number < length (unforced_parts self.now.by self.now.log.entries (length self.now.log.entries)) }
        ensures value { slice_get (unforced_parts self.now.by self.now.log.entries (length self.now.log.entries)) number ≡ Some result }
        ensures part { IsPart self.now.log result }
        ensures entry { length (unforced_parts self.now.by self.now.log.entries result.entry) ≤ number }
    {
        let entry = self.entry_of(number);
        let own = &self.log.entries()[entry as usize];
        let count = self.by.size(own) as u32;
        let place = (number - self.row(entry).start) * count;
        let first = own.sector as u32;
        Part {
            entry,
            place,
            count,
            sector: first + place,
        }
    }

    /// The entry of a part, by the part's number among those that are not forced.
    fn entry_of(&self, number: u32) -> u32
        requires { number < length (unforced_parts self.now.by self.now.log.entries (length self.now.log.entries)) }
        ensures { Found self.now.by self.now.log.entries number result }
    {
        (rows_up_to(self.rows.as_slice(), number) - 1) as u32
    }
}
