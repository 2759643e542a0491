//! Cases that a run left out, of which no case that it judged fails.

ghost use Rattle.std.specs.Prelude.{◌≡◌, ◌++◌, OnOk, string_bytes};
ghost use Rattle.notes.specs.LeftOut.{left_most, left_count, left_words, torn_words, torn_text, lost_words, lost_text, covered_words, torn_parts, covered_text};

use crate::put_note;
use request::LossWords;
use request::facts::LeftOut;
use std::alloc::AllocError;

/// Appends a number of parts.
#[tactic(auto, unfolding(crate::specs::LeftOut::left_most))]
fn put_most(out: &mut String, most: u64) -> Result<(), AllocError>
    ensures { OnOk result (string_bytes out.new ≡ string_bytes out.old ++ left_most most) }
{
    write!(out, "{most} are left out: ")
}

/// Appends how many cases have more parts.
#[tactic(auto, unfolding(crate::specs::LeftOut::left_count))]
fn put_count(out: &mut String, count: u64) -> Result<(), AllocError>
    ensures { OnOk result (string_bytes out.new ≡ string_bytes out.old ++ left_count count) }
{
    write!(out, "{count}\n")
}

/// Appends a number of parts, and how many cases have more.
fn put_left(out: &mut String, most: u64, count: u64) -> Result<(), AllocError>
    ensures { OnOk result (string_bytes out.new ≡ string_bytes out.old ++ left_words most count) }
{
    put_most(out, most)?;
    put_count(out, count)
}

/// Appends what is counted of torn parts.
#[tactic(auto, unfolding(crate::specs::LeftOut::torn_words))]
fn put_torn_words(out: &mut String) -> Result<(), AllocError>
    ensures { OnOk result (string_bytes out.new ≡ string_bytes out.old ++ torn_words) }
{
    out.push_str("note: cases with more torn parts than ")
}

/// Appends how many cases have more torn parts than these.
fn put_torn(out: &mut String, most: u64, count: u64) -> Result<(), AllocError>
    ensures { OnOk result (string_bytes out.new ≡ string_bytes out.old ++ torn_text most count) }
{
    put_torn_words(out)?;
    put_left(out, most, count)
}

/// Appends what is counted of lost parts.
#[tactic(auto, unfolding(crate::specs::LeftOut::lost_words))]
fn put_lost_words(out: &mut String) -> Result<(), AllocError>
    ensures { OnOk result (string_bytes out.new ≡ string_bytes out.old ++ lost_words) }
{
    out.push_str("note: cases with more lost or torn parts than ")
}

/// Appends how many cases have more lost parts than these.
fn put_lost(out: &mut String, most: u64, count: u64) -> Result<(), AllocError>
    ensures { OnOk result (string_bytes out.new ≡ string_bytes out.old ++ lost_text most count) }
{
    put_lost_words(out)?;
    put_left(out, most, count)
}

/// Appends that every loss is covered.
#[tactic(auto, unfolding(crate::specs::LeftOut::covered_words))]
fn put_covered_words(out: &mut String) -> Result<(), AllocError>
    ensures { OnOk result (string_bytes out.new ≡ string_bytes out.old ++ covered_words) }
{
    out.push_str("note: every loss is covered, with at most ")
}

/// Appends how many of the parts are torn.
#[tactic(auto, unfolding(crate::specs::LeftOut::torn_parts))]
fn put_parts(out: &mut String, most: u64) -> Result<(), AllocError>
    ensures { OnOk result (string_bytes out.new ≡ string_bytes out.old ++ torn_parts most) }
{
    write!(out, "{most} of the parts torn\n")
}

/// Appends that every loss is covered, and tears of that many parts.
fn put_covered(out: &mut String, most: u64) -> Result<(), AllocError>
    ensures { OnOk result (string_bytes out.new ≡ string_bytes out.old ++ covered_text most) }
{
    put_covered_words(out)?;
    put_parts(out, most)
}

/// Appends notes where a clean run of any number of losses isn't complete: what was left out, and, where it was asked for each cut of its
/// log, what is covered all the same.
pub(crate) fn put_left_out(
    out: &mut String,
    losses: &LossWords,
    all_cuts: bool,
    left: &LeftOut,
) -> Result<(), AllocError> {
    let torn = losses.torn.unwrap_or(1);
    if left.torn > 0 {
        put_torn(out, torn, left.torn)?;
    }
    match losses.at_most {
        Some(most) if left.lost > 0 => {
            put_lost(out, most, left.lost)?;
            if all_cuts {
                put_note(out, "without --at-most every loss is covered")?;
            }
            Ok(())
        }
        None if left.torn > 0 && all_cuts => put_covered(out, torn),
        _ => Ok(()),
    }
}
