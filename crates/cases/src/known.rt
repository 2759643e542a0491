//! The rows of a cut that are known: of each sector that a program looked at, the units that cover it.

ghost use Rattle.std.specs.Prelude.{◌≡◌, ◌<◌, ◌≤◌, ℕ, Bool, length, slice_get, Some, IfSome, IfOk, OnOk, MatchOption, All};
ghost use Rattle.std.specs.List.{range_with_len};
ghost use Rattle.logfmt.specs.Bounds.{IsLog};
ghost use Rattle.cases.specs.Rows.{row};
ghost use Rattle.cases.specs.Cases.{split_in_row, first_split};
ghost use Rattle.cases.specs.AtCut.{Apart, parts_of, case_of, image_of, IsFound};
ghost use Rattle.cases.specs.Lent.{IsTornOver, ReachesSo};
ghost use Rattle.cases.specs.Known.{IsOver, IsRow, AreRows};

use crate::bits::both;
use crate::cut::Cut;
use crate::fates::{first_number, groups_if, left_of};
use crate::lend::{UnitReach, reach_at};
use crate::row::content_of;
use crate::split::Parted;
use epochs::{Part, Unit};
use std::alloc::{AllocError, Global};
use std::marker::Model;

/// A unit at risk that covers a sector.
#[derive(Clone, Copy)]
pub(crate) struct Over {
    pub(crate) unit: Unit,
    /// The number of its part among the parts at risk.
    pub(crate) part: usize,
    /// Its pieces that matter.
    pub(crate) pieces: u16,
}

/// The row of a sector: the units at risk that cover it, the last one first, down to the first that isn't at risk, and that one.
#[derive(Drop)]
pub(crate) struct SectorRow {
    pub(crate) sector: u32,
    pub(crate) over: Vec<Over>,
    pub(crate) base: Option<Unit>,
}

/// Where the row of a sector stands among those that are known.
#[derive(Clone, Copy)]
pub(crate) struct RowPlace {
    pub(crate) sector: u32,
    pub(crate) place: usize,
}

impl<'a> Cut<'a> {
    /// The row of a sector. It takes a walk over the entries from the cut down.
    fn row_of(&self, alloc: Global, sector: u32) -> Result<SectorRow, AllocError>
        ensures { IfOk result (IsRow self.now) }
    {
        let mut over = Vec::new(alloc);
        let mut cut = self.number();
        'row: while let Some(unit) = self.next_wanted(255, cut, sector) {
            if !self.risks(unit.entry) {
                return Ok(SectorRow {
                    sector,
                    over,
                    base: Some(unit),
                });
            }
            let part = self.number_of(unit);
            let pieces = self.matter(unit, 255);
            over.push(Over { unit, part, pieces })?;
            cut = unit.entry;
        }
        Ok(SectorRow {
            sector,
            over,
            base: None,
        })
    }

    /// A part at risk, by its number.
    fn part_at(&self, number: usize) -> Part
        requires { number < length (parts_of self.now) }
        ensures { slice_get (parts_of self.now) number ≡ Some result }
    {
        self.parts()[number]
    }

    /// The first part of a row whose fates in a case show something different of its sector.
    fn split_of(&self, sets: &[u16], known: &SectorRow) -> Option<Parted>
        requires each { length sets.now ≡ length (parts_of self.now) }
        requires row { IsRow self.now known.now }
        ensures { (tears : Bool) → IsFound (parts_of self.now) result (split_in_row self.now.log self.now.way self.now.cut known.now.sector (case_of tears (parts_of self.now) sets.now) (row self.now.log.entries self.now.cut known.now.sector) (range_with_len 0 8)) }
    {
        let _parts = self.parts();
        let mut wanted = 255;
        let mut cut = self.number();
        for place in 0..known.over.len() {
            if wanted == 0 {
                return None;
            }
            let over = known.over[place];
            let number = over.part;
            let part = self.part_at(number);
            let set = sets[number];
            let pieces = both(wanted, over.pieces);
            if let Some(groups) = groups_if(part, over.unit, pieces, set) {
                return Some(Parted {
                    part: number,
                    groups,
                });
            }
            wanted = left_of(part, over.unit, pieces, set);
            cut = over.unit.entry;
        }
        None
    }

    /// What of a unit at risk reaches the device with the representative of a case.
    fn reach_over(&self, sets: &[u16], over: Over) -> UnitReach
        requires each { length sets.now ≡ length (parts_of self.now) }
        requires over { (k : ℕ) × (s : ℕ) × IsOver self.now k s over }
        ensures { ReachesSo self.now sets.now over.unit result }
    {
        let _parts = self.parts();
        let number = over.part;
        reach_at(first_number(sets[number]))
    }

    /// The sector of a row in the image of a case's representative, where a unit leaves it, or what the device held before entry 0.
    fn lent_of(&self, sets: &[u16], known: &SectorRow) -> Option<&'a [u8; 512]>
        requires each { length sets.now ≡ length (parts_of self.now) }
        requires row { IsRow self.now known.now }
        requires device { known.now.sector < self.now.log.sectors }
        ensures { MatchOption result ((part : ℕ) × IsTornOver self.now sets.now known.now.sector part)
            (λ sector. (tears : Bool) → slice_get (image_of self.now (case_of tears (parts_of self.now) sets.now)) known.now.sector ≡ Some sector.now) }
    {
        let log = self.log();
        let mut cut = self.number();
        for place in 0..known.over.len() {
            let over = known.over[place];
            match self.reach_over(sets, over) {
                UnitReach::Whole => return Some(content_of(log, over.unit)),
                UnitReach::Torn => return None,
                UnitReach::Gone => cut = over.unit.entry,
            }
        }
        match known.base {
            Some(unit) => Some(content_of(log, unit)),
            None => Some(log.initial().sector(known.sector)),
        }
    }
}

/// Where the row of a sector may stand in the order of sectors. No contract says so, and who asks has to look.
fn guess_in(order: &[RowPlace], sector: u32) -> usize
    ensures { result ≤ length order.now }
{
    order.partition_point(|each| each.sector < sector)
}

/// The row of a sector, if it is known.
fn find_row<'r>(rows: &'r [SectorRow], order: &[RowPlace], sector: u32) -> Option<&'r SectorRow>
    ensures sector { IfSome result (λ row. row.now.sector ≡ sector) }
    ensures among { IfSome result (λ row. (place : ℕ) × (slice_get rows.now place ≡ Some row.now)) }
{
    let place = order.get(guess_in(order, sector))?.place;
    let row = rows.get(place)?;
    if row.sector == sector {
        Some(row)
    } else {
        None
    }
}

/// Makes the row of a sector known.
fn put_row(
    rows: &mut Vec<SectorRow>,
    order: &mut Vec<RowPlace>,
    cut: &Cut<'_>,
    sector: u32,
) -> Result<(), AllocError>
    requires { AreRows cut.now rows.old.items }
    ensures { AreRows cut.now rows.new.items }
{
    let row = cut.row_of(*rows.allocator(), sector)?;
    let place = rows.len();
    order.insert(
        guess_in(order.as_slice(), sector),
        RowPlace { sector, place },
    )?;
    rows.push(row)?;
    Ok(())
}

/// The part of a sector's row that splits a case. It makes the row known.
fn split_at(
    rows: &mut Vec<SectorRow>,
    order: &mut Vec<RowPlace>,
    cut: &Cut<'_>,
    sets: &[u16],
    sector: u32,
) -> Result<Option<Parted>, AllocError>
    requires each { length sets.now ≡ length (parts_of cut.now) }
    requires rows { AreRows cut.now rows.old.items }
    ensures rows { AreRows cut.now rows.new.items }
    ensures found { (tears : Bool) → IfOk result (λ found. IsFound (parts_of cut.now) found (split_in_row cut.now.log cut.now.way cut.now.cut sector (case_of tears (parts_of cut.now) sets.now) (row cut.now.log.entries cut.now.cut sector) (range_with_len 0 8))) }
{
    if let Some(row) = find_row(rows.as_slice(), order.as_slice(), sector) {
        return Ok(cut.split_of(sets, row));
    }
    put_row(rows, order, cut, sector)?;
    Ok(cut.split_in_row(sets, sector))
}

/// The part that splits a case, the first one of some sectors. It makes their rows known.
fn split_among(
    rows: &mut Vec<SectorRow>,
    order: &mut Vec<RowPlace>,
    cut: &Cut<'_>,
    sets: &[u16],
    sectors: &[u32],
) -> Result<Option<Parted>, AllocError>
    requires each { length sets.now ≡ length (parts_of cut.now) }
    requires rows { AreRows cut.now rows.old.items }
    ensures rows { AreRows cut.now rows.new.items }
    ensures found { (tears : Bool) → IfOk result (λ found. IsFound (parts_of cut.now) found (first_split cut.now.log cut.now.way cut.now.cut (case_of tears (parts_of cut.now) sets.now) sectors.now)) }
{
    for sector in sectors {
        if let Some(found) = split_at(rows, order, cut, sets, *sector)? {
            return Ok(Some(found));
        }
    }
    Ok(None)
}

/// The rows of a cut that are known: those of the sectors at which splits were looked for. A row is made once for a cut, and takes memory
/// for each unit at risk that covers its sector.
///
/// Contracts see the cut alone.
#[derive(Drop)]
pub struct KnownRows<'a> {
    cut: &'a Cut<'a>,
    rows: Vec<SectorRow>,
    /// By sector.
    order: Vec<RowPlace>,
}

impl<'a> Model for KnownRows<'a> {
    ghost use Rattle.cases.specs.AtCut.{CutValue};
    ghost use Rattle.cases.specs.Known.{AreRows};

    ghost Value = { CutValue };

    ghost view = { λ k. k.cut.now };

    ghost invariant = { λ k. AreRows k.cut.now k.rows.items };
}

impl<'a> KnownRows<'a> {
    /// No row is known yet.
    pub(crate) fn new(alloc: Global, cut: &'a Cut<'a>) -> KnownRows<'a>
        ensures { result ≡ cut.now }
    {
        KnownRows {
            cut,
            rows: Vec::new(alloc),
            order: Vec::new(alloc),
        }
    }

    /// The cut.
    pub fn cut(&self) -> &'a Cut<'a>
        ensures value { result.now ≡ self.now }
        ensures apart { Apart (parts_of self.now) }
    {
        let _parts = self.cut.parts();
        self.cut
    }

    /// How many sectors the device has.
    pub fn sectors(&self) -> u32
        ensures value { result ≡ self.now.log.sectors }
        ensures bounds { IsLog self.now.log }
    {
        self.cut.sectors()
    }

    /// The part that splits a case: what `Cut::first_split` says, and it makes the rows of the sectors known.
    ///
    /// # Errors
    ///
    /// Memory was refused for a row.
    pub fn first_split(
        &mut self,
        sets: &[u16],
        sectors: &[u32],
    ) -> Result<Option<Parted>, AllocError>
        requires { length sets.now ≡ length (parts_of self.old) }
        ensures same { self.new ≡ self.old }
        ensures found { (tears : Bool) → IfOk result (λ found. IsFound (parts_of self.old) found (first_split self.old.log self.old.way self.old.cut (case_of tears (parts_of self.old) sets.now) sectors.now)) }
    {
        split_among(&mut self.rows, &mut self.order, self.cut, sets, sectors)
    }

    /// A sector of the image of a case's representative: what `Cut::lent` says. Where its row is known it takes no walk over the entries.
    pub fn lent(&self, sets: &[u16], number: u32) -> Option<&'a [u8; 512]>
        requires each { length sets.now ≡ length (parts_of self.now) }
        requires device { number < self.now.log.sectors }
        ensures { MatchOption result ((part : ℕ) × IsTornOver self.now sets.now number part)
            (λ sector. (tears : Bool) → slice_get (image_of self.now (case_of tears (parts_of self.now) sets.now)) number ≡ Some sector.now) }
    {
        match find_row(self.rows.as_slice(), self.order.as_slice(), number) {
            Some(row) => self.cut.lent_of(sets, row),
            None => self.cut.lent(sets, number),
        }
    }
}
