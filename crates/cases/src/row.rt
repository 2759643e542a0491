//! The row of a sector at a cut, from the last unit down, and the part in it that splits a case.

ghost use Rattle.std.specs.Prelude.{◌≡◌, ◌+◌, ◌*◌, ◌<◌, ◌≤◌, ◌&&◌, ◌||◌, ℕ, Bool, true, [], length, slice_get, slice_range, filter, Some, IsTrue, IfSome, MatchOption};
ghost use Rattle.std.specs.List.{range_with_len};
ghost use Rattle.epochs.specs.Units.{unit_content};
ghost use Rattle.epochs.specs.Plan.{IsUnit};
ghost use Rattle.cases.specs.Laws.{IsAmong};
ghost use Rattle.cases.specs.Risk.{is_at_risk};
ghost use Rattle.cases.specs.Rows.{row, part_with};
ghost use Rattle.cases.specs.Cases.{is_same, matters, split_in_row, first_split};
ghost use Rattle.cases.specs.Sets.{has, pieces_in};
ghost use Rattle.cases.specs.AtCut.{parts_of, case_of, Apart, IsFound};
ghost use Rattle.cases.specs.Table.{unit_over, difference, IsNext};

use crate::bits::{has, with_if};
use crate::cut::Cut;
use crate::fates::{groups_of, hidden};
use crate::split::Parted;
use epochs::{By, Part, Unit};
use logfmt::{Entry, Log};

/// The bytes of a sector.
pub(crate) type Sector = [u8; 512];

/// The content of each unit of a discard.
static ZEROS: Sector = [0; 512];

/// The unit of an entry that covers a sector.
#[inline(always)]
fn unit_over(entry: &Entry, number: u32, sector: u32) -> Option<Unit>
    ensures { result ≡ unit_over number entry.now sector }
{
    let wanted = u64::from(sector);
    if wanted < entry.sector || entry.count <= wanted - entry.sector {
        return None;
    }
    Some(Unit {
        entry: number,
        place: (wanted - entry.sector) as u32,
        sector,
    })
}

/// The last unit before a cut, and not before another, that covers a sector. It goes down entry by entry.
pub(crate) fn last_over(log: &Log, floor: u32, cut: u32, sector: u32) -> Option<Unit>
    requires floor { floor ≤ cut }
    requires cut { cut ≤ length log.now.entries }
    ensures next { MatchOption result (row log.now.entries cut sector ≡ row log.now.entries floor sector) (IsNext log.now cut sector) }
    ensures low { IfSome result (λ unit. floor ≤ unit.entry) }
{
    let entries = log.entries();
    let mut number = cut;
    while number > floor {
        number -= 1;
        if let Some(unit) = unit_over(&entries[number as usize], number, sector) {
            return Some(unit);
        }
    }
    None
}

/// Sector `place` of an entry's data.
fn sector_at(content: &[u8], place: usize) -> &Sector
    requires { 512 * place + 512 ≤ length content.now }
    ensures { result.now ≡ slice_range content.now (512 * place) (512 * place + 512) }
{
    match <&Sector>::try_from(&content[512 * place..512 * place + 512]) {
        Ok(sector) => sector,
        Err(_) => unreachable!(),
    }
}

/// The content of a unit: its sector of the data of its entry, zeros for a discard.
pub(crate) fn content_of<'x>(log: &'x Log<'_>, unit: Unit) -> &'x Sector
    requires { IsUnit log.now unit }
    ensures { result.now ≡ unit_content log.now.entries unit }
{
    let entry = &log.entries()[unit.entry as usize];
    if entry.flags.discard {
        &ZEROS
    } else {
        sector_at(entry.content.as_slice(), unit.place as usize)
    }
}

/// Whether two sectors differ in a piece.
fn differs(one: &Sector, other: &Sector, piece: u8) -> bool
    requires { piece < 8 }
    ensures { result ≡ difference one.now other.now piece }
{
    let start = 64 * usize::from(piece);
    let second = &other[start..start + 64];
    let first = &one[start..start + 64];
    second != first
}

/// Adds to a set those of some pieces in which two sectors differ.
fn differing(one: &Sector, other: &Sector, pieces: u16, found: u16) -> u16
    ensures { (i : ℕ) → i < 8 → has result i ≡ (has found i || (has pieces i && difference one.now other.now i)) }
{
    let mut more = found;
    for number in 0..8 {
        let is = has(pieces, number) && differs(one, other, number);
        more = with_if(more, number, is);
    }
    more
}

/// Whether two parts are the same.
fn is_same(part: Part, other: Part) -> bool
    ensures { result ≡ is_same part other }
{
    part.entry == other.entry
        && (part.place == other.place && (part.count == other.count && part.sector == other.sector))
}

/// Whether a part stands at a place of a list.
fn stands_at(parts: &[Part], place: usize, part: Part) -> bool
    ensures { IsTrue result → slice_get parts.now place ≡ Some part }
{
    match parts.get(place) {
        Some(other) => is_same(part, *other),
        None => false,
    }
}

/// Where a part stands among the parts at risk, which rise by entry and then by place. No contract says so, and who asks has to look.
fn guess_of(parts: &[Part], part: Part) -> usize {
    let entry = part.entry;
    parts
        .partition_point(|other| other.entry < entry)
        .saturating_add(part.place as usize)
}

/// The place of a part in a list.
fn place_of(parts: &[Part], part: Part) -> usize
    requires { IsAmong parts.now part }
    ensures { slice_get parts.now result ≡ Some part }
{
    let guess = guess_of(parts, part);
    if stands_at(parts, guess, part) {
        return guess;
    }
    for (place, other) in parts.iter().enumerate() {
        if is_same(part, *other) {
            return place;
        }
    }
    unreachable!()
}

/// The part that a unit is of.
fn part_of(log: &Log, way: By, unit: Unit) -> Part
    requires { IsUnit log.now unit }
    ensures { result ≡ part_with way log.now.entries unit }
{
    match way {
        By::Sector => Part {
            entry: unit.entry,
            place: unit.place,
            count: 1,
            sector: unit.sector,
        },
        By::Write => {
            let entry = &log.entries()[unit.entry as usize];
            Part {
                entry: unit.entry,
                place: 0,
                count: entry.count as u32,
                sector: entry.sector as u32,
            }
        }
    }
}

impl<'a> Cut<'a> {
    /// Those of some pieces of a unit that matter: in which the sector may hold something else below it.
    pub(crate) fn matter(&self, unit: Unit, pieces: u16) -> u16
        requires unit { IsUnit self.now.log unit }
        requires before { unit.entry < self.now.cut }
        ensures { pieces_in result ≡ filter (matters self.now.log self.now.cut unit.sector unit (row self.now.log.entries unit.entry unit.sector)) (pieces_in pieces) }
    {
        let content = content_of(self.log(), unit);
        let mut found = 0;
        let mut cut = unit.entry;
        'below: while let Some(below) = last_over(self.log(), 0, cut, unit.sector) {
            found = differing(content, content_of(self.log(), below), pieces, found);
            if !self.risks(below.entry) {
                return found;
            }
            cut = below.entry;
        }
        let held = self.log().initial().sector(unit.sector);
        differing(content, held, pieces, found)
    }

    /// The part that a unit is of.
    pub(crate) fn own_part(&self, unit: Unit) -> Part
        requires { IsUnit self.now.log unit }
        ensures { result ≡ part_with self.now.way self.now.log.entries unit }
    {
        part_of(self.log(), self.way(), unit)
    }

    /// The number among the parts at risk of the part that a unit is of.
    pub(crate) fn number_of(&self, unit: Unit) -> usize
        requires unit { IsUnit self.now.log unit }
        requires before { unit.entry < self.now.cut }
        requires risk { is_at_risk self.now.log.entries self.now.cut unit.entry ≡ true }
        ensures part { slice_get (parts_of self.now) result ≡ Some (part_with self.now.way self.now.log.entries unit) }
        ensures apart { Apart (parts_of self.now) }
    {
        let part = self.own_part(unit);
        let _log = self.log();
        place_of(self.parts(), part)
    }

    /// The first part of a sector's row whose fates in a case show something different of it.
    pub(crate) fn split_in_row(&self, sets: &[u16], sector: u32) -> Option<Parted>
        requires { length sets.now ≡ length (parts_of self.now) }
        ensures { (tears : Bool) → IsFound (parts_of self.now) result (split_in_row self.now.log self.now.way self.now.cut sector (case_of tears (parts_of self.now) sets.now) (row self.now.log.entries self.now.cut sector) (range_with_len 0 8)) }
    {
        let mut wanted = 255;
        let flush = self.flush();
        let mut cut = self.number();
        'row: while wanted != 0 {
            let Some(unit) = last_over(self.log(), flush, cut, sector) else {
                return None;
            };
            if !self.risks(unit.entry) {
                return None;
            }
            let part = self.own_part(unit);
            let number = self.number_of(unit);
            let set = sets[number];
            let pieces = self.matter(unit, wanted);
            let groups = groups_of(part, unit, pieces, set);
            if groups.len() > 1 {
                return Some(Parted {
                    part: number,
                    groups,
                });
            }
            wanted = hidden(part, unit, pieces, set);
            cut = unit.entry;
        }
        None
    }

    /// The part that splits a case: the first one of some sectors, one after the other, whose fates in the case show something different
    /// there. The sectors are those at which a program looked on the image of the representative, in their order, however many.
    pub fn first_split(&self, sets: &[u16], sectors: &[u32]) -> Option<Parted>
        requires { length sets.now ≡ length (parts_of self.now) }
        ensures { (tears : Bool) → IsFound (parts_of self.now) result (first_split self.now.log self.now.way self.now.cut (case_of tears (parts_of self.now) sets.now) sectors.now) }
    {
        for sector in sectors {
            if let Some(found) = self.split_in_row(sets, *sector) {
                return Some(found);
            }
        }
        None
    }
}
