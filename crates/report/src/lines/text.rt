//! A failing line as it is printed (docs/OUTPUT.md, The report).

ghost use Rattle.std.specs.Prelude.{◌≡◌, ◌++◌, OnOk, string_bytes};
ghost use Rattle.interp.specs.Ending.{ending_of};
ghost use Rattle.report.specs.LineValues.{line_value};
ghost use Rattle.report.specs.LineText.{codes_text, ending_text, part_text, departure_text, next_departure_text, choice_text, line_text};

use crate::choice_text::put_fate;
use crate::lines::line::Line;
use choices::Departure;
use epochs::{By, Part};
use interp::Outcome;
use std::alloc::AllocError;

/// Appends the codes of a verdict.
#[tactic(auto, unfolding(crate::specs::LineText::codes_text))]
fn put_codes(out: &mut String, codes: &[u64]) -> Result<(), AllocError>
    ensures { OnOk result (string_bytes out.new ≡ string_bytes out.old ++ codes_text codes.now) }
{
    match codes {
        [] => write!(out, "-"),
        [first, rest @ ..] => {
            write!(out, "{first}")?;
            for code in rest {
                write!(out, ",{code}")?;
            }
            Ok(())
        }
    }
}

/// Appends what a program ended in.
///
/// # Errors
///
/// Memory was refused.
pub fn put_outcome(out: &mut String, outcome: &Outcome) -> Result<(), AllocError>
    ensures { OnOk result (string_bytes out.new ≡ string_bytes out.old ++ ending_text (ending_of outcome.now)) }
{
    match outcome {
        Outcome::Verdict(verdict) => {
            write!(out, "answer {} codes ", verdict.answer)?;
            put_codes(out, verdict.codes.as_slice())
        }
        Outcome::Fault { code, slot } => write!(out, "fault {} slot {slot}", code.number()),
        Outcome::OutOfSteps => write!(out, "out of steps"),
        Outcome::Stray(slot) => write!(out, "stray at slot {slot}"),
    }
}

/// Appends a part.
#[tactic(auto, unfolding(crate::specs::LineText::part_text))]
fn put_part(out: &mut String, by: By, part: Part) -> Result<(), AllocError>
    ensures { OnOk result (string_bytes out.new ≡ string_bytes out.old ++ part_text by part) }
{
    match by {
        By::Sector => write!(out, "{}.{}", part.entry, part.place),
        By::Write => write!(out, "{}", part.entry),
    }
}

/// Appends a departure.
#[tactic(auto, unfolding(crate::specs::LineText::departure_text))]
fn put_departure(out: &mut String, by: By, departure: Departure) -> Result<(), AllocError>
    ensures { OnOk result (string_bytes out.new ≡ string_bytes out.old ++ departure_text by departure) }
{
    put_part(out, by, departure.part)?;
    write!(out, ":")?;
    put_fate(out, departure.fate)
}

/// Appends a departure that follows another.
fn put_next_departure(out: &mut String, by: By, departure: Departure) -> Result<(), AllocError>
    ensures { OnOk result (string_bytes out.new ≡ string_bytes out.old ++ next_departure_text by departure) }
{
    write!(out, ",")?;
    put_departure(out, by, departure)
}

/// Appends the departures of a choice.
#[tactic(auto, unfolding(crate::specs::LineText::choice_text))]
fn put_choice(out: &mut String, by: By, departures: &[Departure]) -> Result<(), AllocError>
    ensures { OnOk result (string_bytes out.new ≡ string_bytes out.old ++ choice_text by departures.now) }
{
    match departures {
        [] => write!(out, "-"),
        [first, rest @ ..] => {
            put_departure(out, by, *first)?;
            for departure in rest {
                put_next_departure(out, by, *departure)?;
            }
            Ok(())
        }
    }
}

/// Appends a failing line.
#[tactic(auto, unfolding(crate::specs::LineText::line_text))]
pub(crate) fn put_line(out: &mut String, line: &Line) -> Result<(), AllocError>
    ensures { OnOk result (string_bytes out.new ≡ string_bytes out.old ++ line_text (line_value line.now)) }
{
    write!(
        out,
        "image {} cut {} program {} ",
        line.image, line.cut, line.program
    )?;
    put_outcome(out, &line.outcome)?;
    write!(out, " choice ")?;
    put_choice(out, line.by, line.departures.as_slice())?;
    write!(out, "\n")
}
