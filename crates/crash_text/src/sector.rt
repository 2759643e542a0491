//! What in a device differs from another one.

ghost use Rattle.std.specs.Prelude.{ℕ, if◌then◌else◌, ◌≡◌, ◌+◌, ◌*◌, ◌<◌, ◌≤◌, ◌++◌, [], ◌∷◌, length, filter, slice_get, IfSome, OnOk, string_bytes};
ghost use Rattle.base.specs.Sizes.{most_sectors};
ghost use Rattle.crash_text.specs.Sectors.{differs, differences, row_difference, rows_from, difference_head, difference_rows, difference_at, sector_difference, sector_at, difference_text};

use crate::row::put_row;
use helpers::Device;
use lanes::same;
use std::alloc::AllocError;

/// Whether a byte differs.
fn differs(left: &[u8; 512], right: &[u8; 512], place: usize) -> bool
    requires { place < 512 }
    ensures { result ≡ differs left.now right.now place }
{
    left[place] != right[place]
}

/// One where a byte differs, else none.
fn count_at(left: &[u8; 512], right: &[u8; 512], place: usize) -> usize
    requires { place < 512 }
    ensures value { result ≡ if differs left.now right.now place then 1 else 0 }
    ensures bound { result ≤ 1 }
{
    if differs(left, right, place) { 1 } else { 0 }
}

/// Returns how many bytes differ, of `count` from `start` on.
fn count_differences(left: &[u8; 512], right: &[u8; 512], start: usize, count: usize) -> usize
    requires { start + count ≤ 512 }
    ensures value { result ≡ length (differences left.now right.now start count) }
    ensures bound { result ≤ count }
{
    let mut found = 0;
    for step in 0..count {
        found += count_at(left, right, start + step);
    }
    found
}

/// The first byte that differs.
fn first_difference(left: &[u8; 512], right: &[u8; 512]) -> Option<usize>
    ensures value { result ≡ slice_get (differences left.now right.now 0 512) 0 }
    ensures bound { IfSome result (λ first. first < 512) }
{
    for place in 0..512 {
        if differs(left, right, place) {
            return Some(place);
        }
    }
    None
}

/// Appends a row of both sectors, where it differs.
#[tactic(auto, unfolding(crate::specs::Sectors::row_difference))]
fn put_row_difference(
    out: &mut String,
    sector: u32,
    left: &[u8; 512],
    right: &[u8; 512],
    row: usize,
) -> Result<(), AllocError>
    requires sector { sector < most_sectors }
    requires row { row < 32 }
    ensures { OnOk result (string_bytes out.new ≡ string_bytes out.old ++ row_difference sector left.now right.now row) }
{
    if count_differences(left, right, 16 * row, 16) == 0 {
        return Ok(());
    }
    out.push_str("< ")?;
    put_row(out, sector, left, row)?;
    out.push_str("> ")?;
    put_row(out, sector, right, row)
}

/// How many rows are looked at, from the first that differs on.
fn rows_from(row: usize) -> usize
    requires { row < 32 }
    ensures value { result ≡ rows_from row }
    ensures inside { row + result ≤ 32 }
{
    if row < 28 { 4 } else { 32 - row }
}

/// Appends the first rows that differ, from the row of byte `first` on.
#[tactic(auto, using(crate::proofs::Steps::text_more), unfolding(crate::specs::Sectors::difference_rows))]
fn put_rows(
    out: &mut String,
    sector: u32,
    left: &[u8; 512],
    right: &[u8; 512],
    first: usize,
) -> Result<(), AllocError>
    requires sector { sector < most_sectors }
    requires first { first < 512 }
    ensures { OnOk result (string_bytes out.new ≡ string_bytes out.old ++ difference_rows sector left.now right.now first) }
{
    let row = first / 16;
    let rows = rows_from(row);
    for step in 0..rows {
        put_row_difference(out, sector, left, right, row + step)?;
    }
    Ok(())
}

/// Appends how many bytes of a sector differ, and the first of them.
#[tactic(auto, unfolding(crate::specs::Sectors::difference_head))]
fn put_head(
    out: &mut String,
    sector: u32,
    left: &[u8; 512],
    right: &[u8; 512],
    first: usize,
) -> Result<(), AllocError>
    ensures { OnOk result (string_bytes out.new ≡ string_bytes out.old ++ difference_head sector left.now right.now first) }
{
    let count = count_differences(left, right, 0, 512);
    write!(out, "sector {sector}: {count}")?;
    write!(out, " of 512 bytes differ, the first is byte {first}\n")
}

/// Appends a sector of two devices, where it differs: how many bytes, the first of them, and the first rows that differ, those of the
/// first device after `<`.
///
/// # Errors
///
/// Memory was refused.
#[tactic(auto, unfolding(crate::specs::Sectors::sector_difference))]
pub fn put_sector(
    out: &mut String,
    sector: u32,
    left: &[u8; 512],
    right: &[u8; 512],
) -> Result<(), AllocError>
    requires { sector < most_sectors }
    ensures { OnOk result (string_bytes out.new ≡ string_bytes out.old ++ sector_difference sector left.now right.now) }
{
    if same(left, right) {
        return Ok(());
    }
    match first_difference(left, right) {
        Some(first) => {
            put_head(out, sector, left, right, first)?;
            put_rows(out, sector, left, right, first)
        }
        None => Ok(()),
    }
}

/// Appends a sector of two devices, where it differs.
fn put_sector_of<W: Device, I: Device>(
    out: &mut String,
    whole: &W,
    image: &I,
    sector: u32,
) -> Result<(), AllocError>
    requires { sector < most_sectors }
    ensures { OnOk result (string_bytes out.new ≡ string_bytes out.old ++ sector_at (W.content whole.now) (I.content image.now) sector) }
{
    match (whole.sector(sector), image.sector(sector)) {
        (Some(left), Some(right)) => put_sector(out, sector, left, right),
        (Some(_left), None) => Ok(()),
        (None, _) => Ok(()),
    }
}

/// Appends each sector in which an image differs from the one where nothing departs: how many bytes, the first of them,
/// and the first rows that differ, those of the first device after `<`.
///
/// # Errors
///
/// Memory was refused.
#[tactic(auto, using(crate::proofs::Steps::text_next), unfolding(crate::specs::Sectors::difference_text))]
pub fn put_differences<W: Device, I: Device>(
    out: &mut String,
    whole: &W,
    image: &I,
) -> Result<(), AllocError>
    requires { length (I.content image.now) ≤ most_sectors }
    ensures { OnOk result (string_bytes out.new ≡ string_bytes out.old ++ difference_text (W.content whole.now) (I.content image.now)) }
{
    for sector in 0..image.sectors() {
        put_sector_of(out, whole, image, sector)?;
    }
    Ok(())
}
