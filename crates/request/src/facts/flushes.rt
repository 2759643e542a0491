//! Flush entries, without which `--cuts flush` has one cut.

ghost use Rattle.std.specs.Prelude.{◌≡◌, ◌+◌, ◌^◌, ◌<◌, ◌≤◌, if◌then◌else◌, length, count_by};
ghost use Rattle.request.specs.Flushes.{is_flush_entry};

use logfmt::Entry;

/// A count with one more, where the entry is a flush entry.
fn count_with(count: usize, entry: &Entry) -> usize
    requires { count < 2 ^ 32 }
    ensures { result ≡ count + (if is_flush_entry entry.now then 1 else 0) }
{
    if entry.flags.flush { count + 1 } else { count }
}

/// How many of these entries are flush entries.
pub(crate) fn count_flushes(entries: &[Entry]) -> usize
    requires { length entries.now ≤ 65536 }
    ensures { result ≡ count_by is_flush_entry entries.now }
{
    let mut count = 0;
    for entry in entries {
        count = count_with(count, entry);
    }
    count
}
