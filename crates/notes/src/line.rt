//! The line of a note.

ghost use Rattle.std.specs.Prelude.{◌≡◌, ◌++◌, OnOk, string_bytes};
ghost use Rattle.notes.specs.Line.{note_line, refused_notes};

use std::alloc::AllocError;

/// Appends a note with that text.
///
/// # Errors
///
/// Memory was refused.
pub fn put_note(out: &mut String, text: &str) -> Result<(), AllocError>
    ensures { OnOk result (string_bytes out.new ≡ string_bytes out.old ++ note_line text.now) }
{
    write!(out, "note: {text}\n")
}

/// Appends notes with what is wrong, and with what helps, where that isn't empty.
///
/// # Errors
///
/// Memory was refused.
pub fn put_refused(out: &mut String, rule: &str, cure: &str) -> Result<(), AllocError>
    ensures { OnOk result (string_bytes out.new ≡ string_bytes out.old ++ refused_notes rule.now cure.now) }
{
    put_note(out, rule)?;
    if cure.is_empty() {
        return Ok(());
    }
    put_note(out, cure)
}
