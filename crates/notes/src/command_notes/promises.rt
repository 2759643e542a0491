//! Marks that promise what nothing made durable.

ghost use Rattle.std.specs.Prelude.{◌≡◌, ◌++◌, OnOk, string_bytes};
ghost use Rattle.std.specs.List.{flat_map};
ghost use Rattle.std.specs.Fmt.{decimal};
ghost use Rattle.notes.specs.Promises.{promise_words, loss_words, next_text, marks_text, more_text, promises_text};

use request::facts::Promises;
use std::alloc::AllocError;

/// Appends what is wrong with the marks that follow.
#[tactic(auto, unfolding(crate::specs::Promises::promise_words))]
fn put_words(out: &mut String) -> Result<(), AllocError>
    ensures { OnOk result (string_bytes out.new ≡ string_bytes out.old ++ promise_words) }
{
    out.push_str("note: marks that promise what nothing made durable: entries ")
}

/// Appends what a crash may do there.
#[tactic(auto, unfolding(crate::specs::Promises::loss_words))]
fn put_loss(out: &mut String) -> Result<(), AllocError>
    ensures { OnOk result (string_bytes out.new ≡ string_bytes out.old ++ loss_words) }
{
    out.push_str(
        "note: a write before each of them may still be lost there: it has no flush after it, and isn't FUA\n",
    )
}

/// Appends marks that follow another, each after a comma.
fn put_next(out: &mut String, marks: &[u32]) -> Result<(), AllocError>
    ensures { OnOk result (string_bytes out.new ≡ string_bytes out.old ++ flat_map next_text marks.now) }
{
    for mark in marks {
        write!(out, ", {mark}")?;
    }
    Ok(())
}

/// Appends a mark.
fn put_mark(out: &mut String, mark: u32) -> Result<(), AllocError>
    ensures { OnOk result (string_bytes out.new ≡ string_bytes out.old ++ decimal mark) }
{
    write!(out, "{mark}")
}

/// Appends marks, with commas between.
fn put_marks(out: &mut String, marks: &[u32]) -> Result<(), AllocError>
    ensures { OnOk result (string_bytes out.new ≡ string_bytes out.old ++ marks_text marks.now) }
{
    match marks {
        [] => Ok(()),
        [first, rest @ ..] => {
            put_mark(out, *first)?;
            put_next(out, rest)
        }
    }
}

/// Appends how many more there are, where there are some, and ends the line.
#[tactic(auto, unfolding(crate::specs::Promises::more_text))]
fn put_more(out: &mut String, more: usize) -> Result<(), AllocError>
    ensures { OnOk result (string_bytes out.new ≡ string_bytes out.old ++ more_text more) }
{
    if more == 0 {
        out.push_str("\n")
    } else {
        write!(out, " and {more} more\n")
    }
}

/// Appends a note with the entries of the first of that many marks, where there are some, and what a crash may do there.
pub(crate) fn put_promises(out: &mut String, found: &Promises) -> Result<(), AllocError>
    ensures { OnOk result (string_bytes out.new ≡ string_bytes out.old ++ promises_text found.now.count found.now.first.items) }
{
    if found.count == 0 {
        return Ok(());
    }
    put_words(out)?;
    put_marks(out, found.first.as_slice())?;
    put_more(out, found.count.saturating_sub(found.first.len()))?;
    put_loss(out)
}
