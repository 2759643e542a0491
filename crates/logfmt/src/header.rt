//! The header of an entry, checked in the order of the log's checks.

ghost use Rattle.std.specs.Prelude.{◌≡◌, ◌==◌, ◌≤◌, ◌<◌, ◌+◌, ◌*◌, ◌||◌, ◌↔◌, nat_le, if◌then◌else◌, length, IsTrue, IfOk, MatchResult, Some, None};
ghost use Rattle.base.specs.Check.{first_failing};
ghost use Rattle.base.specs.Sizes.{most_log_bytes, most_sectors, unit_limit};
ghost use Rattle.logfmt.specs.Faults.{entry_checks, has_mark_form};
ghost use Rattle.logfmt.specs.Flags.{has_bit};
ghost use Rattle.logfmt.specs.Header.{HeaderStands, HeaderFits, IsMarkHeader};

use crate::entry::{MAX_TEXT, SECTOR};
use crate::flags::Flags;
use base::causes::LogCause;
use base::limits::Limits;
use base::numbers::u64_at;

/// The fields of an entry's header.
#[derive(Clone, Copy)]
pub(crate) struct Header {
    /// The first sector of the device that the entry covers.
    pub sector: u64,
    /// How many sectors it covers.
    pub count: u64,
    /// Its flags, of which none is unknown.
    pub flags: Flags,
    /// The length of a mark's text.
    pub text_length: u64,
}

impl Header {
    /// How many sectors of data follow the header.
    pub(crate) fn data_sectors(&self) -> u64
        ensures { result ≡ (if self.now.flags.discard then 0 else self.now.count) }
    {
        if self.flags.discard { 0 } else { self.count }
    }

    /// Whether the header has the form of a mark.
    fn is_mark(&self) -> bool
        ensures { IsTrue result ↔ IsMarkHeader self.now }
    {
        let flags = self.flags;
        !flags.flush
            && !flags.fua
            && !flags.discard
            && self.count == 0
            && self.text_length <= MAX_TEXT as u64
    }

    /// Whether the entry lies on a device of that many sectors, or covers none.
    fn is_on_device(&self, sectors: u32) -> bool
        ensures { result ≡ ((self.now.count == 0) || nat_le (self.now.sector + self.now.count) sectors) }
    {
        if self.count == 0 {
            return true;
        }
        match self.sector.checked_add(self.count) {
            Some(end) => end <= u64::from(sectors),
            None => false,
        }
    }
}

/// The header in sector `at`, after entries of `units` units, or the first cause for which it is
/// refused.
#[tactic(auto, unfolding(crate::specs::Faults::entry_checks, crate::specs::Faults::has_mark_form))]
pub(crate) fn checked_header(
    bytes: &[u8],
    at: usize,
    sectors: u32,
    limits: Limits,
    units: u64,
) -> Result<Header, LogCause>
    requires size { length bytes.now ≤ most_log_bytes }
    requires place { 512 * at ≤ most_log_bytes }
    requires device { sectors ≤ most_sectors }
    requires units { units ≤ unit_limit limits }
    ensures exact { MatchResult result (λ _. first_failing (entry_checks bytes.now sectors limits at units) ≡ None) (λ c. first_failing (entry_checks bytes.now sectors limits at units) ≡ Some c) }
    ensures stands { IfOk result (HeaderStands bytes.now at) }
    ensures fits { IfOk result (HeaderFits sectors) }
    ensures within { IfOk result (λ h. units + h.count ≤ unit_limit limits) }
{
    if SECTOR * (at + 1) > bytes.len() {
        return Err(LogCause::CutShort);
    }
    let Some(flags) = Flags::of_word(u64_at(bytes, SECTOR * at + 16)) else {
        return Err(LogCause::Flags);
    };
    let header = Header {
        sector: u64_at(bytes, SECTOR * at),
        count: u64_at(bytes, SECTOR * at + 8),
        flags,
        text_length: u64_at(bytes, SECTOR * at + 24),
    };
    if !flags.mark && header.text_length != 0 {
        return Err(LogCause::DataLength);
    }
    if flags.mark && !header.is_mark() {
        return Err(LogCause::MarkForm);
    }
    if !header.is_on_device(sectors) {
        return Err(LogCause::Device);
    }
    let most = limits.units();
    if units + header.count > most {
        return Err(LogCause::Limit);
    }
    if SECTOR * (at + 1 + header.data_sectors() as usize) > bytes.len() {
        return Err(LogCause::CutShort);
    }
    Ok(header)
}
