//! The header of an entry of a log, or of a raw log, that is refused (docs/LOG-FORMAT.md, Entry header).

ghost use Rattle.std.specs.Prelude.{◌≤◌};

use base::numbers::{u32_at, u64_at};
use std::alloc::AllocError;

/// The bytes of the super block, and of a header.
const SECTOR: usize = 512;

/// The flag of a discard, after whose header no data stands.
const DISCARD: u64 = 4;

/// The four numbers of a header, as they stand there.
#[derive(Clone, Copy)]
struct ShownHeader {
    sector: u64,
    count: u64,
    flags: u64,
    length: u64,
}

/// The header that begins at a byte, where the file holds all of it.
fn header_at(bytes: &[u8], at: usize) -> Option<ShownHeader> {
    if at > bytes.len() || bytes.len() - at < SECTOR {
        return None;
    }
    Some(ShownHeader {
        sector: u64_at(bytes, at),
        count: u64_at(bytes, at + 8),
        flags: u64_at(bytes, at + 16),
        length: u64_at(bytes, at + 24),
    })
}

/// How many bytes a sector of the log has.
fn sector_of(bytes: &[u8]) -> usize
    ensures { result ≤ 4096 }
{
    if bytes.len() >= SECTOR && u32_at(bytes, 24) == 4096 {
        4096
    } else {
        SECTOR
    }
}

/// Returns how many bytes a header and its data take, in sectors of `sector` bytes.
fn extent(header: &ShownHeader, sector: usize) -> Option<u64> {
    if header.flags / DISCARD % 2 == 1 {
        return Some(sector as u64);
    }
    header.count.checked_add(1)?.checked_mul(sector as u64)
}

/// The byte after the entry whose header begins at a byte.
fn end_of(bytes: &[u8], at: usize) -> Option<usize> {
    let header = header_at(bytes, at)?;
    let extent = extent(&header, sector_of(bytes))?;
    at.checked_add(extent as usize)
}

/// The byte at which the header of the entry of that number begins.
fn place_of(bytes: &[u8], number: usize) -> Option<usize> {
    let mut at = sector_of(bytes);
    for _ in 0..number {
        at = end_of(bytes, at)?;
    }
    Some(at)
}

/// Appends a note with the numbers of a header.
fn put_numbers(out: &mut String, number: usize, header: &ShownHeader) -> Result<(), AllocError> {
    write!(
        out,
        "note: the header of entry {number} has sector {}",
        header.sector
    )?;
    write!(out, " count {} flags {}", header.count, header.flags)?;
    write!(out, " length {}\n", header.length)
}

/// Appends a note with the header of the entry of that number, where the file holds it.
pub(crate) fn put_header(out: &mut String, bytes: &[u8], number: usize) -> Result<(), AllocError> {
    let Some(at) = place_of(bytes, number) else {
        return Ok(());
    };
    match header_at(bytes, at) {
        Some(header) => put_numbers(out, number, &header),
        None => Ok(()),
    }
}

/// Appends a note with the length of the file, and where the data ends of the entry of that number.
pub(crate) fn put_end(out: &mut String, bytes: &[u8], number: usize) -> Result<(), AllocError> {
    let length = bytes.len();
    write!(out, "note: the file has {length} bytes")?;
    let Some(at) = place_of(bytes, number) else {
        return out.push_str("\n");
    };
    match end_of(bytes, at) {
        Some(end) => write!(out, "; the entry ends at byte {end}\n"),
        None => write!(out, "; the entry begins at byte {at}\n"),
    }
}
