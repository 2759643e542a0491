//! From the bytes of a raw log to the canonical text of the log of its entries: one pass, in which each check is made once and in
//! its order.

ghost use Rattle.std.specs.Prelude.{true, false, ◌≡◌, ◌≤◌, ◌+◌, ◌-◌, ◌*◌, ◌⊎◌, length, IfOk, IfErr, OnOk};
ghost use Rattle.std.specs.List.{slice_range};
ghost use Rattle.base.specs.Sizes.{byte_limit, most_log_bytes, most_sectors, most_units};
ghost use Rattle.base.specs.declared.causes.LogCause.TheVariants as cause;
ghost use Rattle.logfmt.specs.Bounds.{AreBytes, IsEntry};
ghost use Rattle.raw_log.specs.Raw.{IsTimes, bytes_in};
ghost use Rattle.raw_log.specs.Faults.{FirstRawFault, HasNoRawFault};
ghost use Rattle.raw_log.specs.Header.{HeaderStands, HeaderFits, StandsDivided, data_bytes};
ghost use Rattle.raw_log.specs.Imported.{IsImported};

use crate::header::{RawHeader, checked_header, checked_super};
use crate::writer::{put_entry, put_super};
use base::bytes::Bytes;
use base::limits::Limits;
use base::numbers::u64_at;
use logfmt::{Entry, LogFault, SECTOR};
use std::alloc::Global;

/// The entry, in sectors of 512 bytes, whose header stands at byte `start`, with its text and its data.
fn entry_of(raw: &[u8], times: u64, start: usize, sectors: u32, header: RawHeader) -> Entry<'_>
    requires times { IsTimes times }
    requires device { sectors ≤ most_sectors }
    requires stands { HeaderStands times raw.now start header }
    requires fits { HeaderFits sectors header }
    requires few { header.count ≤ most_units }
    requires need { start + bytes_in times 1 + data_bytes header ≤ most_log_bytes }
    ensures stands { StandsDivided times raw.now start result }
    ensures fits { IsEntry sectors result }
    ensures recorded { result.flags.mark ≡ true → result.flags.flush ≡ false }
    ensures text { length result.text ≤ 480 }
{
    let text = start + 32;
    let data = start + SECTOR * times as usize;
    Entry {
        sector: header.sector,
        count: header.count,
        flags: header.flags,
        text: Bytes::of(&raw[text..text + header.text_length as usize]),
        content: Bytes::of(&raw[data..data + header.data_bytes()]),
    }
}

/// How many bytes more a log may have that has `written` bytes.
fn room_after(limits: Limits, written: usize) -> usize
    requires few { written ≤ byte_limit limits }
    ensures value { result ≡ byte_limit limits - written }
    ensures few { result ≤ most_log_bytes }
{
    limits.bytes() - written
}

/// Imports a raw log, whose sectors have 512 or 4,096 bytes, for a device of `sectors` sectors of 512 bytes: the canonical text of
/// the log of its entries, within these limits (docs/LOG-FORMAT.md, Importing a raw log).
///
/// # Errors
///
/// The first fault of the bytes, at the entry where it is, 0 for the super block; or want of memory, at 0.
pub fn import(alloc: Global, raw: &[u8], sectors: u32, limits: Limits) -> Result<Vec<u8>, LogFault>
    requires some { 1 ≤ sectors }
    requires device { sectors ≤ most_sectors }
    ensures imported { IfOk result (λ text. IsImported raw.now sectors limits text.items) }
    ensures clean { OnOk result (HasNoRawFault raw.now sectors limits) }
    ensures fault { IfErr result (λ f. (f ≡ record { code = cause.Memory; at = 0 }) ⊎ FirstRawFault raw.now sectors limits f.code f.at) }
{
    let times = match checked_super(raw) {
        Ok(times) => times,
        Err(code) => return Err(LogFault { code, at: 0 }),
    };
    let count = u64_at(raw, 16) as u32;
    let mut out = Vec::new(alloc);
    put_super(&mut out, u64::from(count))?;
    let mut start = SECTOR * times as usize;
    let mut units = 0;
    for number in 0..count {
        let room = room_after(limits, out.len());
        let header = match checked_header(raw, times, start, sectors, limits, units, room) {
            Ok(header) => header,
            Err(code) => return Err(LogFault { code, at: number }),
        };
        let entry = entry_of(raw, times, start, sectors, header);
        put_entry(&mut out, &entry)?;
        start += SECTOR * times as usize + header.data_bytes();
        units += header.count;
    }
    Ok(out)
}
