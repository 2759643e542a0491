//! The line of a case, printed from what was read.

ghost use Rattle.std.specs.Prelude.{◌≡◌, ◌++◌, ◌↔◌, IfOk, IsTrue, OnOk, map, string_bytes};
ghost use Rattle.report.specs.ChoiceText.{part_text};
ghost use Rattle.join.specs.CaseTexts.{among_text, mixed_text, next_mixed, next_part, parts_text, said_text, told_body};
ghost use Rattle.join.specs.CaseReading.{mixed_value};

use crate::case_parts::names::{Mixed, PartName};
use crate::case_parts::said::CaseSaid;
use case_text::{put_fates, put_number, put_place, put_window};
use epochs::By;
use report::choice_text::{put_names, put_part};
use std::alloc::{AllocError, Global};

/// Appends a part that follows another.
fn put_next_part(out: &mut String, by: By, part: PartName) -> Result<(), AllocError>
    ensures { OnOk result (string_bytes out.new ≡ string_bytes out.old ++ next_part by part) }
{
    write!(out, ",")?;
    put_part(out, by, part.entry, part.place)
}

/// Appends parts, joined by commas; a hyphen where there is none.
#[tactic(auto, unfolding(crate::specs::CaseTexts::parts_text))]
fn put_parts(out: &mut String, by: By, parts: &[PartName]) -> Result<(), AllocError>
    ensures { OnOk result (string_bytes out.new ≡ string_bytes out.old ++ parts_text by parts.now) }
{
    match parts {
        [] => write!(out, "-"),
        [first, rest @ ..] => {
            put_part(out, by, first.entry, first.place)?;
            for part in rest {
                put_next_part(out, by, *part)?;
            }
            Ok(())
        }
    }
}

/// Appends a part with what may become of it.
#[tactic(auto, unfolding(crate::specs::CaseTexts::mixed_text))]
fn put_mixed(out: &mut String, by: By, mixed: &Mixed) -> Result<(), AllocError>
    ensures { OnOk result (string_bytes out.new ≡ string_bytes out.old ++ mixed_text by (mixed_value mixed.now)) }
{
    put_part(out, by, mixed.part.entry, mixed.part.place)?;
    write!(out, ":")?;
    put_fates(out, mixed.fates.as_slice())
}

/// Appends one that follows another.
fn put_next_mixed(out: &mut String, by: By, mixed: &Mixed) -> Result<(), AllocError>
    ensures { OnOk result (string_bytes out.new ≡ string_bytes out.old ++ next_mixed by (mixed_value mixed.now)) }
{
    write!(out, ",")?;
    put_mixed(out, by, mixed)
}

/// Appends parts of which two fates or more are possible, where there are some.
#[tactic(auto, unfolding(crate::specs::CaseTexts::among_text))]
fn put_among(out: &mut String, by: By, mixed: &[Mixed]) -> Result<(), AllocError>
    ensures { OnOk result (string_bytes out.new ≡ string_bytes out.old ++ among_text by (map mixed_value mixed.now)) }
{
    match mixed {
        [] => Ok(()),
        [first, rest @ ..] => {
            write!(out, " among ")?;
            put_mixed(out, by, first)?;
            for other in rest {
                put_next_mixed(out, by, other)?;
            }
            Ok(())
        }
    }
}

/// Appends what is said of the parts at risk.
#[tactic(auto, unfolding(crate::specs::CaseTexts::said_text))]
fn put_said(out: &mut String, by: By, said: &CaseSaid<'_>) -> Result<(), AllocError>
    ensures { OnOk result (string_bytes out.new ≡ string_bytes out.old ++ said_text by said.now) }
{
    write!(out, " choice ")?;
    put_names(out, by, said.lost.as_slice())?;
    write!(out, " kept ")?;
    put_parts(out, by, said.kept.as_slice())?;
    put_among(out, by, said.mixed.as_slice())?;
    write!(out, " free {}", said.free)
}

/// Appends the line of a case without its newline.
#[tactic(auto, unfolding(crate::specs::CaseTexts::told_body, crate::specs::CaseTexts::front_text))]
fn put_body(out: &mut String, by: By, said: &CaseSaid<'_>) -> Result<(), AllocError>
    ensures { OnOk result (string_bytes out.new ≡ string_bytes out.old ++ told_body by said.now) }
{
    put_place(out, said.front.cut, said.front.epoch, said.front.marks)?;
    put_number(out, said.front.program, said.front.number)?;
    write!(out, "{}", said.outcome)?;
    put_said(out, by, said)?;
    put_window(out, said.window)
}

/// Whether a text is the line of a case without its newline, as it is printed.
pub(crate) fn is_body(
    alloc: Global,
    by: By,
    said: &CaseSaid<'_>,
    text: &str,
) -> Result<bool, AllocError>
    ensures { IfOk result (λ is. IsTrue is ↔ (text.now ≡ told_body by said.now)) }
{
    let mut printed = String::new(alloc);
    put_body(&mut printed, by, said)?;
    Ok(printed.as_str() == text)
}
