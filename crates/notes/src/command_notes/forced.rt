//! Entries with FUA, where parts are torn.

ghost use Rattle.std.specs.Prelude.{◌≡◌, ◌++◌, OnOk, string_bytes};
ghost use Rattle.notes.specs.Forced.{forced_count, forced_words, forced_text};

use std::alloc::AllocError;

/// Appends how many there are.
#[tactic(auto, unfolding(crate::specs::Forced::forced_count))]
fn put_count(out: &mut String, count: usize) -> Result<(), AllocError>
    ensures { OnOk result (string_bytes out.new ≡ string_bytes out.old ++ forced_count count) }
{
    write!(out, "note: entries with FUA: {count}")
}

/// Appends what no image has of them.
#[tactic(auto, unfolding(crate::specs::Forced::forced_words))]
fn put_words(out: &mut String) -> Result<(), AllocError>
    ensures { OnOk result (string_bytes out.new ≡ string_bytes out.old ++ forced_words) }
{
    out.push_str(
        "; no image loses or tears one, though a crash may while it is in flight; 'crashbpf explore --bound any' does (docs/CRASH-MODEL.md, What a clean report doesn't say)\n",
    )
}

/// Appends a note with the number of entries with FUA.
pub(crate) fn put_forced(out: &mut String, count: usize) -> Result<(), AllocError>
    ensures { OnOk result (string_bytes out.new ≡ string_bytes out.old ++ forced_text count) }
{
    put_count(out, count)?;
    put_words(out)
}
