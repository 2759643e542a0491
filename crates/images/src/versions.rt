//! The units of a log by the sectors that they cover, and what shows in a sector.

ghost use Rattle.std.specs.Prelude.{◌≡◌, ◌<◌, ◌≤◌, ℕ, [], length, slice_index_or};
ghost use Rattle.std.specs.List.Sorted.{IsNonDecreasingBy};
ghost use Rattle.epochs.specs.declared.unit.Unit.{Unit as LogUnit};
ghost use Rattle.epochs.specs.Units.{units_before};
ghost use Rattle.images.specs.Table.{IsTable};

use crate::image::{Sector, content_of, fate_at, form_sector, initial_of, showing};
use crate::table::UnitTable;
use choices::Departure;
use epochs::Unit;
use logfmt::Log;
use std::marker::Model;

/// The units of a log that cover each sector of its device.
///
/// Contracts see them as the log.
#[derive(Drop)]
pub(crate) struct Versions<'a> {
    log: &'a Log<'a>,
    table: &'a UnitTable,
}

impl<'a> Model for Versions<'a> {
    ghost use Rattle.logfmt.specs.Bounds.{LogValue};
    ghost use Rattle.images.specs.Table.{IsTable};

    ghost Value = { LogValue };

    ghost view = { λ v. v.log.now };

    ghost invariant = { λ v. IsTable v.log.now v.table.now.units.items v.table.now.starts.items };
}

impl<'a> Versions<'a> {
    ghost use Rattle.std.specs.Prelude.{IfSome};
    ghost use Rattle.std.specs.Option.{is_none};
    ghost use Rattle.logfmt.specs.Bounds.{IsLog};
    ghost use Rattle.images.specs.Images.{sector_after};
    ghost use Rattle.images.specs.Table.{versions, is_torn, DepartOnce};

    /// The units of a log by this table.
    pub(crate) fn of(log: &'a Log<'a>, table: &'a UnitTable) -> Versions<'a>
        requires { IsTable log.now table.now.units.items table.now.starts.items }
        ensures { result ≡ log.now }
    {
        Versions { log, table }
    }

    /// A copy, which lends the log and the table once more.
    pub(crate) fn same(&self) -> Versions<'a>
        ensures { result ≡ self.now }
    {
        Versions {
            log: self.log,
            table: self.table,
        }
    }

    /// The log.
    pub(crate) fn log(&self) -> &'a Log<'a>
        ensures value { result.now ≡ self.now }
        ensures bounds { IsLog self.now }
    {
        self.log
    }

    /// The units before a cut that cover a sector, in order. It takes three searches by halves.
    fn before(&self, number: u32, cut: u32) -> &'a [Unit]
        requires number { number < self.now.sectors }
        requires cut { cut ≤ length self.now.entries }
        ensures { result.now ≡ versions self.now.entries cut number }
    {
        let row = self.table.row(number);
        &row[..count_before(row, cut)]
    }

    /// A sector of a crash image, where the log, its initial content or a sector of zeros has it; `None`
    /// where a torn unit shows in it.
    pub(crate) fn borrow_sector(
        &self,
        number: u32,
        cut: u32,
        departures: &[Departure],
    ) -> Option<&'a Sector>
        requires number { number < self.now.sectors }
        requires cut { cut ≤ length self.now.entries }
        ensures lent { IfSome result (λ sector. sector.now ≡ sector_after self.now (units_before self.now.entries cut) departures.now number) }
        ensures torn { is_none result ≡ is_torn departures.now (versions self.now.entries cut number) }
    {
        let Some(unit) = showing(self.before(number, cut), departures) else {
            return Some(initial_of(self.log, number));
        };
        match fate_at(departures, unit) {
            None => Some(content_of(self.log, unit)),
            Some(_) => None,
        }
    }

    /// A sector as all units before a cut leave it.
    pub(crate) fn durable(&self, number: u32, cut: u32) -> &'a Sector
        requires number { number < self.now.sectors }
        requires cut { cut ≤ length self.now.entries }
        ensures { result.now ≡ sector_after self.now (units_before self.now.entries cut) [] number }
    {
        match self.borrow_sector(number, cut, &[]) {
            Some(sector) => sector,
            None => unreachable!(),
        }
    }

    /// A sector of a crash image, formed anew.
    pub(crate) fn form_sector(&self, number: u32, cut: u32, departures: &[Departure]) -> Sector
        requires number { number < self.now.sectors }
        requires cut { cut ≤ length self.now.entries }
        requires once { DepartOnce departures.now }
        ensures { result ≡ sector_after self.now (units_before self.now.entries cut) departures.now number }
    {
        form_sector(self.log, number, self.before(number, cut), departures)
    }
}

/// How many units of a row stand before a cut.
fn count_before(row: &[Unit], cut: u32) -> usize
    requires { IsNonDecreasingBy (λ (u : LogUnit). u.entry) row.now }
    ensures bound { result ≤ length row.now }
    ensures before { (k : ℕ) (d : LogUnit) → k < result → (slice_index_or row.now k d).entry < cut }
    ensures beyond { (k : ℕ) (d : LogUnit) → result ≤ k → k < length row.now → cut ≤ (slice_index_or row.now k d).entry }
{
    row.partition_point(|unit| unit.entry < cut)
}
