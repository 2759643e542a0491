//! The super block and the header of an entry, checked in the order of the checks of a raw log.

ghost use Rattle.std.specs.Prelude.{◌≡◌, ◌==◌, ◌≤◌, ◌<◌, ◌+◌, ◌*◌, ◌||◌, ◌&&◌, ◌^◌, ◌↔◌, nat_le, nat_lt, if◌then◌else◌, length, IsTrue, IsSome, IfOk, IfSome, MatchResult, Some, None};
ghost use Rattle.base.specs.Sizes.{most_log_bytes, most_sectors, most_units, raw_limit, unit_limit};
ghost use Rattle.base.specs.Check.{first_failing};
ghost use Rattle.logfmt.specs.Faults.{has_mark_form};
ghost use Rattle.logfmt.specs.Flags.{has_bit};
ghost use Rattle.raw_log.specs.Faults.{raw_super_checks, raw_entry_checks, is_on_device};
ghost use Rattle.raw_log.specs.Raw.{IsTimes, bytes_in};
ghost use Rattle.raw_log.specs.Header.{SuperStands, HeaderStands, HeaderFits, IsMarkHeader, divided_header, data_bytes};

use base::causes::LogCause;
use base::limits::Limits;
use base::numbers::{u32_at, u64_at};
use logfmt::{Flags, SECTOR};

/// The bytes `rhswfsj` and a zero.
pub(crate) const MAGIC: u64 = 0x006a_7366_7773_6872;

/// The only version of the format.
pub(crate) const VERSION: u64 = 1;

/// How many entries a log may have.
const MAX_ENTRIES: u64 = 65_536;

/// How many bytes of text fit the header of a mark.
pub(crate) const MAX_TEXT: u64 = 480;

/// How many sectors of 512 bytes a sector of the raw log has, as its super block tells, or the first cause for which that is
/// refused.
#[tactic(auto, unfolding(crate::specs::Faults::raw_super_checks))]
pub(crate) fn checked_super(raw: &[u8]) -> Result<u64, LogCause>
    ensures exact { MatchResult result (λ _. first_failing (raw_super_checks raw.now) ≡ None) (λ c. first_failing (raw_super_checks raw.now) ≡ Some c) }
    ensures stands { IfOk result (SuperStands raw.now) }
{
    if raw.len() < SECTOR {
        return Err(LogCause::Short);
    }
    if u64_at(raw, 0) != MAGIC {
        return Err(LogCause::Magic);
    }
    if u64_at(raw, 8) != VERSION {
        return Err(LogCause::Version);
    }
    let times = match u32_at(raw, 24) {
        512 => 1,
        4096 => 8,
        _ => return Err(LogCause::SectorSize),
    };
    if raw.len() < SECTOR * times as usize {
        return Err(LogCause::Short);
    }
    if u64_at(raw, 16) > MAX_ENTRIES {
        return Err(LogCause::Limit);
    }
    Ok(times)
}

/// The fields of an entry's header.
#[derive(Clone, Copy)]
pub(crate) struct RawHeader {
    /// The first sector of the device that the entry covers.
    pub sector: u64,
    /// How many sectors it covers.
    pub count: u64,
    /// Its flags, of which none is unknown.
    pub flags: Flags,
    /// The length of a mark's text.
    pub text_length: u64,
}

impl RawHeader {
    /// How many bytes of data follow the header, where its sectors have 512 bytes.
    pub(crate) fn data_bytes(&self) -> usize
        requires { self.now.count ≤ most_units }
        ensures { result ≡ data_bytes self.now }
    {
        if self.flags.discard {
            0
        } else {
            SECTOR * self.count as usize
        }
    }

    /// Whether the header has the form of a mark.
    fn is_mark(&self) -> bool
        ensures { IsTrue result ↔ IsMarkHeader self.now }
    {
        let flags = self.flags;
        !flags.flush
            && !flags.fua
            && !flags.discard
            && self.count == 0
            && self.text_length <= MAX_TEXT
    }

    /// The header in sectors of 512 bytes, of which `times` are one of the raw log; none where these don't lie on a device of
    /// that many.
    fn in_sectors_of_512(&self, times: u64, sectors: u32) -> Option<RawHeader>
        requires times { IsTimes times }
        ensures known { IsSome result ↔ IsTrue (is_on_device times sectors self.now.sector self.now.count) }
        ensures value { IfSome result (λ h. h ≡ divided_header times self.now) }
        ensures device { IfSome result (λ h. 0 < h.count → h.sector + h.count ≤ sectors) }
        ensures few { IfSome result (λ h. h.count ≤ sectors) }
        ensures mark { IsMarkHeader self.now → IfSome result IsMarkHeader }
    {
        let sector = self.sector.checked_mul(times)?;
        let count = self.count.checked_mul(times)?;
        if count != 0 && sector.checked_add(count)? > u64::from(sectors) {
            return None;
        }
        Some(RawHeader {
            sector,
            count,
            ..*self
        })
    }
}

/// The header at byte `start`, in sectors of 512 bytes, after entries of `units` units, where the log that comes out has room for
/// `room` bytes more; or the first cause for which it is refused.
#[tactic(auto, unfolding(crate::specs::Faults::raw_entry_checks, logfmt::specs::Faults::has_mark_form))]
pub(crate) fn checked_header(
    raw: &[u8],
    times: u64,
    start: usize,
    sectors: u32,
    limits: Limits,
    units: u64,
    room: usize,
) -> Result<RawHeader, LogCause>
    requires times { IsTimes times }
    requires start { start ≤ raw_limit limits }
    requires device { sectors ≤ most_sectors }
    requires units { units ≤ unit_limit limits }
    requires room { room ≤ most_log_bytes }
    ensures exact { MatchResult result (λ _. first_failing (raw_entry_checks times raw.now sectors limits start units room) ≡ None) (λ c. first_failing (raw_entry_checks times raw.now sectors limits start units room) ≡ Some c) }
    ensures stands { IfOk result (HeaderStands times raw.now start) }
    ensures fits { IfOk result (HeaderFits sectors) }
    ensures within { IfOk result (λ h. units + h.count ≤ unit_limit limits) }
    ensures few { IfOk result (λ h. h.count ≤ most_units) }
    ensures room { IfOk result (λ h. 512 + data_bytes h ≤ room) }
    ensures need { IfOk result (λ h. start + bytes_in times 1 + data_bytes h ≤ raw_limit limits) }
{
    let (most_units, most_needed) = (limits.units(), limits.raw_bytes());
    let data = start + SECTOR * times as usize;
    if data > most_needed {
        return Err(LogCause::Limit);
    }
    if data > raw.len() {
        return Err(LogCause::CutShort);
    }
    let Some(flags) = Flags::of_word(u64_at(raw, start + 16)) else {
        return Err(LogCause::Flags);
    };
    let header = RawHeader {
        sector: u64_at(raw, start),
        count: u64_at(raw, start + 8),
        flags,
        text_length: u64_at(raw, start + 24),
    };
    if !flags.mark && header.text_length != 0 {
        return Err(LogCause::DataLength);
    }
    if flags.mark && !header.is_mark() {
        return Err(LogCause::MarkForm);
    }
    let Some(header) = header.in_sectors_of_512(times, sectors) else {
        return Err(LogCause::Device);
    };
    if units + header.count > most_units {
        return Err(LogCause::Limit);
    }
    if SECTOR + header.data_bytes() > room {
        return Err(LogCause::Limit);
    }
    if data + header.data_bytes() > most_needed {
        return Err(LogCause::Limit);
    }
    if data + header.data_bytes() > raw.len() {
        return Err(LogCause::CutShort);
    }
    Ok(header)
}
