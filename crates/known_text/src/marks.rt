//! How many marks stand before each cut of a log.

ghost use Rattle.std.specs.Prelude.{◌≡◌, ◌+◌, ◌<◌, ◌^◌, if◌then◌else◌, IfOk, length};
ghost use Rattle.known_text.specs.Reading.{AreMarks};

use logfmt::Entry;
use std::alloc::{AllocError, Global};

/// A count with one more, if that is to be counted.
fn with(count: u32, is: bool) -> u32
    requires { count + 1 < 2 ^ 32 }
    ensures { result ≡ count + (if is then 1 else 0) }
{
    if is { count + 1 } else { count }
}

/// How many marks stand before each cut of a log of these entries, from the first to the last.
#[tactic(auto, using(crate::proofs::MarksCounted::marks_begun, crate::proofs::MarksCounted::marks_counted, crate::proofs::MarksCounted::marks_all))]
pub(crate) fn marks_of(alloc: Global, entries: &[Entry]) -> Result<Vec<u32>, AllocError>
    requires { length entries.now < 2 ^ 32 }
    ensures { IfOk result (λ marks. AreMarks entries.now marks.items) }
{
    let mut marks = Vec::new(alloc);
    let mut count = 0;
    marks.push(count)?;
    for entry in entries {
        count = with(count, entry.flags.mark);
        marks.push(count)?;
    }
    Ok(marks)
}
