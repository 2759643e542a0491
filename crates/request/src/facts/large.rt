//! Entries of more sectors than may be lost together.

ghost use Rattle.std.specs.Prelude.{◌≡◌, ◌+◌, ◌^◌, ◌<◌, ◌≤◌, if◌then◌else◌, length, count_by};
ghost use Rattle.request.specs.Large.{is_large};

use logfmt::Entry;

/// Whether an entry has more sectors than may depart, and isn't forced to the device.
fn is_large(entry: &Entry, bound: u8) -> bool
    ensures { result ≡ is_large bound entry.now }
{
    !entry.flags.fua && entry.count > u64::from(bound)
}

/// A count with one more, where the entry is so.
fn count_with(count: usize, entry: &Entry, bound: u8) -> usize
    requires { count < 2 ^ 32 }
    ensures { result ≡ count + (if is_large bound entry.now then 1 else 0) }
{
    if is_large(entry, bound) {
        count + 1
    } else {
        count
    }
}

/// How many of these entries are so.
pub(crate) fn count_large(entries: &[Entry], bound: u8) -> usize
    requires { length entries.now ≤ 65536 }
    ensures { result ≡ count_by (is_large bound) entries.now }
{
    let mut count = 0;
    for entry in entries {
        count = count_with(count, entry, bound);
    }
    count
}
