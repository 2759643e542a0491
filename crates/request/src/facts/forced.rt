//! Entries with FUA, of which no image loses or tears anything.

ghost use Rattle.std.specs.Prelude.{◌≡◌, ◌+◌, ◌^◌, ◌<◌, ◌≤◌, if◌then◌else◌, length, count_by};
ghost use Rattle.request.specs.Forced.{is_forced_entry};

use logfmt::Entry;

/// Whether an entry writes or discards something, with FUA.
fn is_forced_entry(entry: &Entry) -> bool
    ensures { result ≡ is_forced_entry entry.now }
{
    entry.flags.fua && entry.count > 0
}

/// A count with one more, where the entry is so.
fn count_with(count: usize, entry: &Entry) -> usize
    requires { count < 2 ^ 32 }
    ensures { result ≡ count + (if is_forced_entry entry.now then 1 else 0) }
{
    if is_forced_entry(entry) {
        count + 1
    } else {
        count
    }
}

/// How many of these entries are so.
pub(crate) fn count_forced(entries: &[Entry]) -> usize
    requires { length entries.now ≤ 65536 }
    ensures { result ≡ count_by is_forced_entry entries.now }
{
    let mut count = 0;
    for entry in entries {
        count = count_with(count, entry);
    }
    count
}
