//! The text of a choice.

ghost use Rattle.std.specs.Prelude.{◌≡◌, ◌++◌, OnOk, map, string_bytes};
ghost use Rattle.choices.specs.Named.{name_of};
ghost use Rattle.report.specs.ChoiceText.{fate_text, part_text, name_text, next_name_text, names_text, departures_text};

use choices::{Departure, Fate, Name};
use epochs::By;
use std::alloc::AllocError;

/// Appends what became of a part that is not whole.
///
/// # Errors
///
/// Memory was refused.
pub fn put_fate(out: &mut String, fate: Fate) -> Result<(), AllocError>
    ensures { OnOk result (string_bytes out.new ≡ string_bytes out.old ++ fate_text fate) }
{
    match fate {
        Fate::Drop => write!(out, "drop"),
        Fate::Head(eighths) => write!(out, "head{}", eighths.count()),
        Fate::Tail(eighths) => write!(out, "tail{}", eighths.count()),
    }
}

/// Appends a part, by the number of its entry and its place there.
///
/// # Errors
///
/// Memory was refused.
#[tactic(auto, unfolding(crate::specs::ChoiceText::part_text))]
pub fn put_part(out: &mut String, by: By, entry: u32, place: u32) -> Result<(), AllocError>
    ensures { OnOk result (string_bytes out.new ≡ string_bytes out.old ++ part_text by entry place) }
{
    match by {
        By::Sector => write!(out, "{entry}.{place}"),
        By::Write => {
            let _place = place;
            write!(out, "{entry}")
        }
    }
}

/// Appends the name of a departure.
#[tactic(auto, unfolding(crate::specs::ChoiceText::name_text))]
fn put_name(out: &mut String, by: By, name: Name) -> Result<(), AllocError>
    ensures { OnOk result (string_bytes out.new ≡ string_bytes out.old ++ name_text by name) }
{
    put_part(out, by, name.entry, name.place)?;
    write!(out, ":")?;
    put_fate(out, name.fate)
}

/// Appends a name that follows another.
fn put_next_name(out: &mut String, by: By, name: Name) -> Result<(), AllocError>
    ensures { OnOk result (string_bytes out.new ≡ string_bytes out.old ++ next_name_text by name) }
{
    write!(out, ",")?;
    put_name(out, by, name)
}

/// Appends the names of a choice's departures, joined by commas; a hyphen where there is none.
///
/// # Errors
///
/// Memory was refused.
#[tactic(auto, unfolding(crate::specs::ChoiceText::names_text))]
pub fn put_names(out: &mut String, by: By, names: &[Name]) -> Result<(), AllocError>
    ensures { OnOk result (string_bytes out.new ≡ string_bytes out.old ++ names_text by names.now) }
{
    match names {
        [] => write!(out, "-"),
        [first, rest @ ..] => {
            put_name(out, by, *first)?;
            for name in rest {
                put_next_name(out, by, *name)?;
            }
            Ok(())
        }
    }
}

/// The name of a departure.
fn name_of(departure: Departure) -> Name
    ensures { result ≡ name_of departure }
{
    Name {
        entry: departure.part.entry,
        place: departure.part.place,
        fate: departure.fate,
    }
}

/// Appends the departures of a choice, as the report prints them; a hyphen where there is none.
///
/// # Errors
///
/// Memory was refused.
#[tactic(auto, unfolding(crate::specs::ChoiceText::names_text))]
pub fn put_departures(out: &mut String, by: By, departures: &[Departure]) -> Result<(), AllocError>
    ensures { OnOk result (string_bytes out.new ≡ string_bytes out.old ++ departures_text by departures.now) }
{
    match departures {
        [] => write!(out, "-"),
        [first, rest @ ..] => {
            put_name(out, by, name_of(*first))?;
            for departure in rest {
                put_next_name(out, by, name_of(*departure))?;
            }
            Ok(())
        }
    }
}
