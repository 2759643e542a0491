//! What is known of the parts at risk in a case, as a text.

ghost use Rattle.std.specs.Prelude.{◌≡◌, ◌++◌, OnOk, map, string_bytes};
ghost use Rattle.std.specs.List.{flat_map};
ghost use Rattle.case_text.specs.Collected.{mixed_value};
ghost use Rattle.case_text.specs.Text.{fate_word, next_fate, fates_text, part_name, next_part, parts_text, mixed_text, next_mixed, among_text, known_text, window_text};

use crate::fates::fates_of;
use crate::known::{KnownParts, MixedFates};
use choices::Fate;
use epochs::{By, Part};
use losses::flushes::Window;
use report::choice_text::{put_departures, put_fate, put_part};
use std::alloc::AllocError;

/// Appends what may become of a part.
fn put_word(out: &mut String, fate: Option<Fate>) -> Result<(), AllocError>
    ensures { OnOk result (string_bytes out.new ≡ string_bytes out.old ++ fate_word fate) }
{
    match fate {
        Some(fate) => put_fate(out, fate),
        None => write!(out, "whole"),
    }
}

/// Appends a fate that follows another.
fn put_next_word(out: &mut String, fate: Option<Fate>) -> Result<(), AllocError>
    ensures { OnOk result (string_bytes out.new ≡ string_bytes out.old ++ next_fate fate) }
{
    write!(out, "+")?;
    put_word(out, fate)
}

/// Appends some fates, joined by plus signs.
///
/// # Errors
///
/// Memory was refused.
#[tactic(auto, unfolding(crate::specs::Text::fates_text))]
pub fn put_fates(out: &mut String, fates: &[Option<Fate>]) -> Result<(), AllocError>
    ensures { OnOk result (string_bytes out.new ≡ string_bytes out.old ++ fates_text fates.now) }
{
    match fates {
        [] => Ok(()),
        [first, rest @ ..] => {
            put_word(out, *first)?;
            for fate in rest {
                put_next_word(out, *fate)?;
            }
            Ok(())
        }
    }
}

/// Appends a part that follows another.
fn put_next_part(out: &mut String, by: By, part: Part) -> Result<(), AllocError>
    ensures { OnOk result (string_bytes out.new ≡ string_bytes out.old ++ next_part by part) }
{
    write!(out, ",")?;
    put_part(out, by, part.entry, part.place)
}

/// Appends some parts, joined by commas; a hyphen where there is none.
#[tactic(auto, unfolding(crate::specs::Text::parts_text))]
pub(crate) fn put_parts(out: &mut String, by: By, parts: &[Part]) -> Result<(), AllocError>
    ensures { OnOk result (string_bytes out.new ≡ string_bytes out.old ++ parts_text by parts.now) }
{
    match parts {
        [] => write!(out, "-"),
        [first, rest @ ..] => {
            put_part(out, by, first.entry, first.place)?;
            for part in rest {
                put_next_part(out, by, *part)?;
            }
            Ok(())
        }
    }
}

/// Appends a part with what may become of it.
#[tactic(auto, unfolding(crate::specs::Text::mixed_text))]
fn put_mixed(out: &mut String, by: By, mixed: MixedFates) -> Result<(), AllocError>
    ensures { OnOk result (string_bytes out.new ≡ string_bytes out.old ++ mixed_text by (mixed_value mixed)) }
{
    put_part(out, by, mixed.part.entry, mixed.part.place)?;
    write!(out, ":")?;
    let fates = fates_of(mixed.set);
    put_fates(out, fates.as_slice())
}

/// Appends one that follows another.
fn put_next_mixed(out: &mut String, by: By, mixed: MixedFates) -> Result<(), AllocError>
    ensures { OnOk result (string_bytes out.new ≡ string_bytes out.old ++ next_mixed by (mixed_value mixed)) }
{
    write!(out, ",")?;
    put_mixed(out, by, mixed)
}

/// Appends the parts of which more than one fate is possible and not all, where there are some.
#[tactic(auto, unfolding(crate::specs::Text::among_text))]
fn put_among(out: &mut String, by: By, mixed: &[MixedFates]) -> Result<(), AllocError>
    ensures { OnOk result (string_bytes out.new ≡ string_bytes out.old ++ among_text by (map mixed_value mixed.now)) }
{
    match mixed {
        [] => Ok(()),
        [first, rest @ ..] => {
            write!(out, " among ")?;
            put_mixed(out, by, *first)?;
            for other in rest {
                put_next_mixed(out, by, *other)?;
            }
            Ok(())
        }
    }
}

/// Appends what is known of the parts at risk.
///
/// # Errors
///
/// Memory was refused.
#[tactic(auto, unfolding(crate::specs::Text::known_text))]
pub fn put_known(out: &mut String, by: By, known: &KnownParts) -> Result<(), AllocError>
    ensures { OnOk result (string_bytes out.new ≡ string_bytes out.old ++ known_text by known.now) }
{
    write!(out, " choice ")?;
    put_departures(out, by, known.lost.as_slice())?;
    write!(out, " kept ")?;
    put_parts(out, by, known.kept.as_slice())?;
    put_among(out, by, known.mixed.as_slice())?;
    write!(out, " free {}", known.free)
}

/// Appends the window of a case.
///
/// # Errors
///
/// Memory was refused.
pub fn put_window(out: &mut String, window: Option<Window>) -> Result<(), AllocError>
    ensures { OnOk result (string_bytes out.new ≡ string_bytes out.old ++ window_text window) }
{
    match window {
        Some(window) => write!(out, " flush {}..{}", window.start, window.end),
        None => write!(out, " flush none"),
    }
}
