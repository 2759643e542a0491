//! Programs that pass without looking at what a log writes.

ghost use Rattle.std.specs.Prelude.{◌≡◌, ◌++◌, ◌≤◌, OnOk, string_bytes, length};
ghost use Rattle.notes.specs.Blind.{whose_text, blind_words, blind_text, blind_texts};

use std::alloc::AllocError;

/// Appends which program is meant.
#[tactic(auto, unfolding(crate::specs::Blind::whose_text))]
fn put_whose(out: &mut String, program: u8) -> Result<(), AllocError>
    ensures { OnOk result (string_bytes out.new ≡ string_bytes out.old ++ whose_text program) }
{
    write!(out, "note: program {program}")
}

/// Appends what is said of it.
#[tactic(auto, unfolding(crate::specs::Blind::blind_words))]
fn put_words(out: &mut String) -> Result<(), AllocError>
    ensures { OnOk result (string_bytes out.new ≡ string_bytes out.old ++ blind_words) }
{
    out.push_str(": looks at no sector that an entry writes, so no crash makes it fail\n")
}

/// Appends a note where a program is so.
fn put_program(out: &mut String, program: u8, blind: bool) -> Result<(), AllocError>
    ensures { OnOk result (string_bytes out.new ≡ string_bytes out.old ++ blind_text program blind) }
{
    if !blind {
        return Ok(());
    }
    put_whose(out, program)?;
    put_words(out)
}

/// Appends a note for each of these programs that passes without looking at a sector that an entry of the log writes, with its number.
pub(crate) fn put_blind(out: &mut String, blind: &[bool]) -> Result<(), AllocError>
    requires { length blind.now ≤ 8 }
    ensures { OnOk result (string_bytes out.new ≡ string_bytes out.old ++ blind_texts 0 blind.now) }
{
    for (number, blind) in blind.iter().enumerate() {
        put_program(out, number as u8, *blind)?;
    }
    Ok(())
}
