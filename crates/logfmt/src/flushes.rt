//! A log to which flushes are added, so that it can be seen what they change.

ghost use Rattle.std.specs.Prelude.{◌≡◌, ◌==◌, ◌<◌, ◌≤◌, length, All};
ghost use Rattle.logfmt.specs.Flushed.{with_flushes, flushed_at};

use crate::entry::{Entry, Log};

impl<'x> Log<'x> {
    /// The log with a flush right before each of these entries, as if it had been recorded so
    /// (docs/CRASH-MODEL.md, Added flushes). The entries keep their numbers. A place may be that of a
    /// mark. It takes no memory.
    pub fn with_flushes(self, places: &[u32]) -> Log<'x>
        requires { All (λ place. place < length self.entries) places.now }
        ensures { result ≡ with_flushes places.now self.entry }
    {
        let sectors = self.sectors();
        let (mut entries, initial) = self.into_parts();
        for place in places {
            put_flush(&mut entries, *place as usize);
        }
        Log::of(sectors, entries, initial)
    }
}

/// Makes an entry a flush entry.
fn put_flush(entries: &mut Vec<Entry<'_>>, place: usize)
    requires { place < length entries.old.items }
    ensures { entries.new.items ≡ flushed_at (λ number. place == number) entries.old.items }
{
    entries[place].flags.flush = true;
}
