//! The image of a case's representative, sector by sector.

ghost use Rattle.std.specs.Prelude.{◌≡◌, ◌/◌, ◌<◌, ◌≤◌, ◌&&◌, ◌⊎◌, ℕ, Bool, not, if◌then◌else◌, [], length, slice_get, slice_index, Some, MatchOption};
ghost use Rattle.epochs.specs.Plan.{IsUnit};
ghost use Rattle.cases.specs.Rows.{row};
ghost use Rattle.cases.specs.Sets.{has};
ghost use Rattle.cases.specs.AtCut.{parts_of, case_of, image_of};
ghost use Rattle.cases.specs.Table.{leaves_piece, IsNext};

use crate::bits::{has, without};
use crate::cut::Cut;
use crate::fates::hidden;
use crate::row::{Sector, content_of, last_over};
use epochs::Unit;

/// One of two bytes.
fn pick(is: bool, one: u8, other: u8) -> u8
    ensures { result ≡ (if is then one else other) }
{
    if is { one } else { other }
}

/// Lays some pieces of a sector over another.
fn lay(out: &mut Sector, from: &Sector, pieces: u16)
    ensures { (i : ℕ) → i < 512 → slice_index out.new i ≡ (if has pieces (i / 64) then slice_index from.now i else slice_index out.old i) }
{
    for place in 0..512 {
        let is = has(pieces, (place / 64) as u8);
        let byte = pick(is, from[place], out[place]);
        out[place] = byte;
    }
}

impl<'a> Cut<'a> {
    /// Those of some pieces that a unit doesn't leave on the device.
    fn left_by(&self, sets: &[u16], unit: Unit, pieces: u16) -> u16
        requires each { length sets.now ≡ length (parts_of self.now) }
        requires unit { IsUnit self.now.log unit }
        requires before { unit.entry < self.now.cut }
        ensures { (tears : Bool) (i : ℕ) → i < 8 → has result i ≡ (has pieces i && not (leaves_piece self.now (case_of tears (parts_of self.now) sets.now) unit i)) }
    {
        if !self.risks(unit.entry) {
            return 0;
        }
        let part = self.own_part(unit);
        let number = self.number_of(unit);
        hidden(part, unit, pieces, sets[number])
    }

    /// The next unit of a sector's row, from a cut down, while pieces are wanted.
    pub(crate) fn next_wanted(&self, pieces: u16, cut: u32, sector: u32) -> Option<Unit>
        requires { cut ≤ self.now.cut }
        ensures { MatchOption result ((pieces ≡ 0) ⊎ (row self.now.log.entries cut sector ≡ [])) (IsNext self.now.log cut sector) }
    {
        if pieces == 0 {
            return None;
        }
        last_over(self.log(), 0, cut, sector)
    }

    /// A sector of the image of a case's representative. It takes no memory, and a walk over the entries for each unit that it looks at.
    pub fn sector(&self, sets: &[u16], number: u32) -> [u8; 512]
        requires each { length sets.now ≡ length (parts_of self.now) }
        requires device { number < self.now.log.sectors }
        ensures { (tears : Bool) → slice_get (image_of self.now (case_of tears (parts_of self.now) sets.now)) number ≡ Some result }
    {
        let mut sector = *self.log().initial().sector(number);
        let mut missing = 255;
        let mut cut = self.number();
        'row: while let Some(unit) = self.next_wanted(missing, cut, number) {
            let left = self.left_by(sets, unit, missing);
            lay(
                &mut sector,
                content_of(self.log(), unit),
                without(missing, left),
            );
            missing = left;
            cut = unit.entry;
        }
        sector
    }
}
