//! The image of a case's representative as a device.

ghost use Rattle.std.specs.Prelude.{◌≡◌, ◌<◌, ◌++◌, ℕ, Bool, length, slice_get, slice_index_or, Some, IfOk, OnOk};
ghost use Rattle.std.specs.List.{flat_map, range_with_len};
ghost use Rattle.cases.specs.AtCut.{parts_of};
ghost use Rattle.cases.specs.Lent.{IsTornOver};
ghost use Rattle.case_runs.specs.Images.{sectors_in, formed_if, formed_over, formed_of, formed_in};

use cases::{Cut, KnownRows, is_torn_first};
use epochs::Part;
use helpers::Device;
use std::alloc::AllocError;
use std::marker::Model;

/// A sector of an image that stands nowhere in the log, with its bytes.
#[derive(Drop)]
pub struct Formed {
    pub(crate) number: u32,
    pub(crate) bytes: [u8; 512],
}

/// Appends a sector of the image of a case's representative, if the device has it.
fn put_formed(
    out: &mut Vec<Formed>,
    cut: &Cut<'_>,
    sets: &[u16],
    number: u64,
) -> Result<(), AllocError>
    requires { length sets.now ≡ length (parts_of cut.now) }
    ensures { (tears : Bool) → OnOk result (out.new.items ≡ out.old.items ++ formed_if (record { at = cut.now; tears = tears; sets = sets.now }) number) }
{
    if number < u64::from(cut.sectors()) {
        let number = number as u32;
        let bytes = cut.sector(sets, number);
        out.push(Formed { number, bytes })?;
    }
    Ok(())
}

/// Appends those of a part.
#[tactic(auto, unfolding(crate::specs::Images::formed_over))]
fn put_over(
    out: &mut Vec<Formed>,
    cut: &Cut<'_>,
    sets: &[u16],
    part: Part,
) -> Result<(), AllocError>
    requires { length sets.now ≡ length (parts_of cut.now) }
    ensures { (tears : Bool) → OnOk result (out.new.items ≡ out.old.items ++ formed_over (record { at = cut.now; tears = tears; sets = sets.now }) part) }
{
    for place in 0..part.count {
        put_formed(out, cut, sets, u64::from(part.sector) + u64::from(place))?;
    }
    Ok(())
}

/// Appends those of a part at risk, by its number, if the representative tears it.
fn put_of(
    out: &mut Vec<Formed>,
    cut: &Cut<'_>,
    sets: &[u16],
    number: usize,
) -> Result<(), AllocError>
    requires each { length sets.now ≡ length (parts_of cut.now) }
    requires number { number < length (parts_of cut.now) }
    ensures { (tears : Bool) → OnOk result (out.new.items ≡ out.old.items ++ formed_of (record { at = cut.now; tears = tears; sets = sets.now }) number) }
{
    if is_torn_first(sets[number]) {
        put_over(out, cut, sets, cut.parts()[number])?;
    }
    Ok(())
}

/// The sectors of all torn parts in the place of what was kept.
#[tactic(auto, unfolding(crate::specs::Images::formed_in))]
fn form(out: &mut Vec<Formed>, cut: &Cut<'_>, sets: &[u16]) -> Result<(), AllocError>
    requires { length sets.now ≡ length (parts_of cut.now) }
    ensures { (tears : Bool) → OnOk result (out.new.items ≡ formed_in (record { at = cut.now; tears = tears; sets = sets.now }) (length (parts_of cut.now))) }
{
    out.clear();
    for number in 0..cut.parts().len() {
        put_of(out, cut, sets, number)?;
    }
    Ok(())
}

/// The image of a case's representative, however many parts are lost in it. Its sectors are lent from the log, or from what the device
/// held before entry 0; those of torn parts may be formed, and are kept.
#[derive(Drop)]
pub struct CaseImage<'b, 'a> {
    rows: &'b KnownRows<'a>,
    tears: bool,
    sets: &'b [u16],
    formed: &'b [Formed],
}

impl<'b, 'a> Model for CaseImage<'b, 'a> {
    ghost use Rattle.case_runs.specs.Images.{ImageValue, IsImage};

    ghost Value = { ImageValue };

    ghost view = { λ i. record { at = i.rows.now; tears = i.tears; sets = i.sets.now } };

    ghost invariant = { λ i. IsImage (record { at = i.rows.now; tears = i.tears; sets = i.sets.now }) i.formed.now };
}

impl<'b, 'a> CaseImage<'b, 'a> {
    /// The image of a case. The list is for its formed sectors: it is let go at the next, so after the first images it takes no memory.
    pub fn new(
        formed: &'b mut Vec<Formed>,
        rows: &'b KnownRows<'a>,
        tears: bool,
        sets: &'b [u16],
    ) -> Result<CaseImage<'b, 'a>, AllocError>
        requires { length sets.now ≡ length (parts_of rows.now) }
        ensures { IfOk result (λ image. image ≡ record { at = rows.now; tears = tears; sets = sets.now }) }
    {
        form(formed, rows.cut(), sets)?;
        Ok(CaseImage {
            rows,
            tears,
            sets,
            formed: formed.as_slice(),
        })
    }

    /// A sector of a torn part.
    fn kept(&self, number: u32) -> &[u8; 512]
        requires device { number < self.now.at.log.sectors }
        requires torn { (part : ℕ) × IsTornOver self.now.at self.now.sets number part }
        ensures { slice_get (sectors_in self.now) number ≡ Some result.now }
    {
        for each in self.formed {
            if each.number == number {
                return &each.bytes;
            }
        }
        unreachable!()
    }

    /// A sector of the image.
    fn find(&self, number: u32) -> &[u8; 512]
        requires { number < self.now.at.log.sectors }
        ensures { slice_get (sectors_in self.now) number ≡ Some result.now }
    {
        match self.rows.lent(self.sets, number) {
            Some(sector) => sector,
            None => self.kept(number),
        }
    }
}

impl<'b, 'a> Device for CaseImage<'b, 'a> {
    ghost use Rattle.case_runs.specs.Images.{sectors_in, whole_sectors};

    ghost content = { λ i. sectors_in i };

    fn sectors(&self) -> u32 {
        self.rows.sectors()
    }

    fn sector(&self, n: u32) -> Option<&[u8; 512]> {
        if n < self.rows.sectors() {
            Some(self.find(n))
        } else {
            None
        }
    }

    ghost whole = { λ i n s h. whole_sectors i n s h };
}
