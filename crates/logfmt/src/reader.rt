//! From bytes to a log: one pass, in which each check is made once and in its order.

ghost use Rattle.std.specs.Prelude.{true, false, ◌≡◌, ◌≤◌, ◌<◌, ◌+◌, ◌*◌, ◌⊎◌, [], length, IfOk, IfErr, IfNone, OnOk, if◌then◌else◌};
ghost use Rattle.base.specs.Check.{first_failing};
ghost use Rattle.base.specs.Sizes.{byte_limit, most_log_bytes, most_sectors, unit_limit};
ghost use Rattle.base.specs.Numbers.{number_at};
ghost use Rattle.base.specs.declared.causes.LogCause.TheVariants as cause;
ghost use Rattle.logfmt.specs.Bounds.{AreBytes, IsEntry, data_of, units_of};
ghost use Rattle.std.specs.List.{slice_range};
ghost use Rattle.logfmt.specs.LogText.{LogText, StandsAt};
ghost use Rattle.logfmt.specs.Faults.{FirstFault, HasNoFault, super_checks, SuperPasses};
ghost use Rattle.logfmt.specs.Header.{HeaderStands, HeaderFits};

use crate::entry::{Entry, Log, SECTOR};
use crate::fault::LogFault;
use crate::header::{Header, checked_header};
use crate::initial::InitialContent;
use crate::{MAGIC, VERSION};
use base::bytes::Bytes;
use base::causes::LogCause;
use base::limits::Limits;
use base::numbers::{u32_at, u64_at};
use std::alloc::Global;

/// How many entries a log may have.
const MAX_ENTRIES: u64 = 65_536;

/// The cause for which the super block is refused, if there is one.
#[tactic(auto, unfolding(crate::specs::Faults::super_checks))]
fn super_fault(bytes: &[u8], limits: Limits) -> Option<LogCause>
    ensures exact { result ≡ first_failing (super_checks bytes.now limits) }
    ensures passes { IfNone result (SuperPasses bytes.now limits) }
{
    if bytes.len() < SECTOR {
        return Some(LogCause::Short);
    }
    if bytes.len() > limits.bytes() {
        return Some(LogCause::Limit);
    }
    if u64_at(bytes, 0) != MAGIC {
        return Some(LogCause::Magic);
    }
    if u64_at(bytes, 8) != VERSION {
        return Some(LogCause::Version);
    }
    if u32_at(bytes, 24) != 512 {
        return Some(LogCause::SectorSize);
    }
    if u64_at(bytes, 16) > MAX_ENTRIES {
        return Some(LogCause::Limit);
    }
    None
}

/// The entry whose header stands in sector `at`, with its text and its data.
fn entry_of(bytes: &[u8], at: usize, sectors: u32, header: Header) -> Entry<'_>
    requires size { length bytes.now ≤ most_log_bytes }
    requires device { sectors ≤ most_sectors }
    requires stands { HeaderStands bytes.now at header }
    requires fits { HeaderFits sectors header }
    ensures stands { StandsAt bytes.now at result }
    ensures fits { IsEntry sectors result }
    ensures recorded { result.flags.mark ≡ true → result.flags.flush ≡ false }
{
    let text = SECTOR * at + 32;
    let data = SECTOR * (at + 1);
    let data_end = data + SECTOR * header.data_sectors() as usize;
    Entry {
        sector: header.sector,
        count: header.count,
        flags: header.flags,
        text: Bytes::of(&bytes[text..text + header.text_length as usize]),
        content: Bytes::of(&bytes[data..data_end]),
    }
}

/// Reads a log for a device of `sectors` sectors of 512 bytes (docs/LOG-FORMAT.md), which held zeros before entry 0. The limits
/// say how many bytes and units it may have.
///
/// # Errors
///
/// The first fault of the bytes, at the entry where it is, 0 for the super block; or want of memory,
/// at 0.
pub fn read<'x>(
    alloc: Global,
    bytes: &'x [u8],
    sectors: u32,
    limits: Limits,
) -> Result<Log<'x>, LogFault>
    requires some { 1 ≤ sectors }
    requires device { sectors ≤ most_sectors }
    ensures found { IfOk result (LogText bytes.now) }
    ensures size { OnOk result (length bytes.now ≤ byte_limit limits) }
    ensures units { IfOk result (λ log. units_of log.entries ≤ unit_limit limits) }
    ensures sectors { IfOk result (λ log. log.sectors ≡ sectors) }
    ensures initial { IfOk result (λ log. log.initial ≡ []) }
    ensures clean { OnOk result (HasNoFault bytes.now sectors limits) }
    ensures fault { IfErr result (λ f. (f ≡ record { code = cause.Memory; at = 0 }) ⊎ FirstFault bytes.now sectors limits f.code f.at) }
{
    if let Some(code) = super_fault(bytes, limits) {
        return Err(LogFault { code, at: 0 });
    }
    let count = u64_at(bytes, 16) as u32;
    let mut entries = Vec::new(alloc);
    let mut at = 1;
    let mut units = 0;
    for number in 0..count {
        let header = match checked_header(bytes, at, sectors, limits, units) {
            Ok(header) => header,
            Err(code) => return Err(LogFault { code, at: number }),
        };
        entries.push(entry_of(bytes, at, sectors, header))?;
        at += 1 + header.data_sectors() as usize;
        units += header.count;
    }
    Ok(Log::of(sectors, entries, InitialContent::none()))
}
