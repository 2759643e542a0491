//! How far a raw log is to be read, as its headers tell (docs/LOG-FORMAT.md, Importing a raw log).

ghost use Rattle.std.specs.Prelude.{ℕ, List, ◌≡◌, ◌≤◌, ◌<◌, ◌+◌, ◌*◌, ◌-◌, ◌^◌, ◌++◌, min, length};
ghost use Rattle.base.specs.Sizes.{raw_limit};
ghost use Rattle.raw_log.specs.Faults.{data_sectors};
ghost use Rattle.input_files.specs.RawLogs.{IsReach};

use base::limits::Limits;
use base::numbers::{u32_at, u64_at};

/// The flag of a discard, after whose header no data stands.
const DISCARD: u64 = 4;

/// How far a raw log is to be read. Where entries are left, that is to the end of the header of the first of them.
#[derive(Clone, Copy)]
pub(crate) struct RawReach {
    /// How many bytes of it may be needed.
    limits: Limits,
    /// How many bytes a sector has.
    size: u64,
    /// How many bytes are to be read.
    pub needed: u64,
    /// How many entries are left.
    pub left: u64,
    pub ghost sector: { 512 ≤ size },
    pub ghost header: { size ≤ needed },
    pub ghost most: { needed ≤ raw_limit limits },
}

impl RawReach {
    /// Returns the reach of a raw log that begins with these bytes.
    pub(crate) fn of_super(raw: &[u8], limits: Limits) -> RawReach
        requires there { 512 ≤ length raw.now }
        ensures reach { (rest : List ℕ) → IsReach limits (raw.now ++ rest) result.size result.needed result.left }
        ensures limits { result.limits ≡ limits }
    {
        let _most = limits.raw_bytes();
        let size = u64::from(u32_at(raw, 24));
        if size != 512 && size != 4096 {
            return RawReach {
                limits,
                size: 512,
                needed: 512,
                left: 0,
            };
        }
        let left = u64_at(raw, 16);
        let needed = if left == 0 { size } else { 2 * size };
        RawReach {
            limits,
            size,
            needed,
            left,
        }
    }

    /// Returns the reach after the first entry that is left, of a raw log that was read as far as this one says.
    pub(crate) fn beyond(self, raw: &[u8]) -> RawReach
        requires left { 0 < self.left }
        requires there { self.needed ≤ length raw.now }
        ensures less { result.left < self.left }
        ensures more { self.needed ≤ result.needed }
        ensures limits { result.limits ≡ self.limits }
        ensures reach { (rest : List ℕ) → IsReach self.limits (raw.now ++ rest) self.size self.needed self.left → IsReach self.limits (raw.now ++ rest) result.size result.needed result.left }
    {
        let (limits, size) = (self.limits, self.size);
        let most = limits.raw_bytes() as u64;
        let data = data_bytes(raw, (self.needed - size) as usize, size);
        let left = self.left - 1;
        let next = if left == 0 { 0 } else { size };
        let needed = self.needed.saturating_add(data).saturating_add(next);
        if needed > most {
            return RawReach {
                limits,
                size,
                needed: most,
                left: 0,
            };
        }
        RawReach {
            limits,
            size,
            needed,
            left,
        }
    }
}

/// How many bytes of data stand after the header at a byte, in sectors of `size` bytes.
#[tactic(auto, unfolding(logfmt::specs::Flags::has_bit))]
fn data_bytes(raw: &[u8], header: usize, size: u64) -> u64
    requires { header + 32 ≤ length raw.now }
    ensures { result ≡ min (data_sectors raw.now header * size) (2 ^ 64 - 1) }
{
    if u64_at(raw, header + 16) / DISCARD % 2 == 1 {
        0
    } else {
        u64_at(raw, header + 8).saturating_mul(size)
    }
}
