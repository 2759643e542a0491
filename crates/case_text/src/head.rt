//! What stands before the lines of cases.

ghost use Rattle.std.specs.Prelude.{◌≡◌, ◌++◌, OnOk, string_bytes};
ghost use Rattle.case_text.specs.Text.{torn_words, at_most_words, losses_text, options_text, head_text, has_range, inputs_told, inputs_text, opening_text, cases_head};

use epochs::Cuts;
use losses::found::Losses;
use report::{Head, put_device, put_given, put_programs, yes_or_no_word};
use std::alloc::AllocError;

/// Appends how many parts may be torn, where some may be.
fn put_torn(out: &mut String, asked: Losses) -> Result<(), AllocError>
    ensures { OnOk result (string_bytes out.new ≡ string_bytes out.old ++ torn_words asked) }
{
    if asked.tears {
        write!(out, " torn {}", asked.torn)?;
    }
    Ok(())
}

/// Appends how many parts may not be whole, where that is bounded.
fn put_at_most(out: &mut String, lost: Option<u32>) -> Result<(), AllocError>
    ensures { OnOk result (string_bytes out.new ≡ string_bytes out.old ++ at_most_words lost) }
{
    match lost {
        Some(most) => write!(out, " at-most {most}"),
        None => Ok(()),
    }
}

/// Appends what is asked of losses.
#[tactic(auto, unfolding(crate::specs::Text::losses_text))]
fn put_losses(out: &mut String, asked: Losses) -> Result<(), AllocError>
    ensures { OnOk result (string_bytes out.new ≡ string_bytes out.old ++ losses_text asked) }
{
    write!(out, " bound any tears {}", yes_or_no_word(asked.tears))?;
    put_torn(out, asked)?;
    put_at_most(out, asked.lost)
}

/// Appends the options and the programs.
///
/// # Errors
///
/// Memory was refused.
#[tactic(auto, unfolding(crate::specs::Text::options_text))]
pub fn put_options(out: &mut String, head: &Head, asked: Losses) -> Result<(), AllocError>
    ensures { OnOk result (string_bytes out.new ≡ string_bytes out.old ++ options_text head.now asked) }
{
    put_device(out, head)?;
    put_losses(out, asked)?;
    put_given(out, head)?;
    put_programs(out, head.programs.as_slice())
}

/// Whether a run is of a range of the cuts.
pub fn has_range(cuts: &Cuts) -> bool
    ensures { result ≡ has_range cuts.now }
{
    cuts.from.is_some() || cuts.to.is_some()
}

/// The number of a run's inputs, where the run is of a range of the cuts.
fn inputs_told(cuts: &Cuts, inputs: u64) -> Option<u64>
    ensures { result ≡ inputs_told cuts.now inputs }
{
    if has_range(cuts) { Some(inputs) } else { None }
}

/// Appends the line of that number, where it is told.
fn put_inputs(out: &mut String, inputs: Option<u64>) -> Result<(), AllocError>
    ensures { OnOk result (string_bytes out.new ≡ string_bytes out.old ++ inputs_text inputs) }
{
    match inputs {
        Some(inputs) => write!(out, "inputs {inputs}\n"),
        None => Ok(()),
    }
}

/// Appends the first line, and that of the number of the run's inputs, where it is told.
///
/// # Errors
///
/// Memory was refused.
pub fn put_opening(out: &mut String, inputs: Option<u64>) -> Result<(), AllocError>
    ensures { OnOk result (string_bytes out.new ≡ string_bytes out.old ++ opening_text inputs) }
{
    write!(out, "crash cases 1\n")?;
    put_inputs(out, inputs)
}

/// Appends what stands before the lines of all failing cases: the title, the number of the inputs of a run of a range of the cuts, the
/// options and the programs.
pub(crate) fn put_cases_head(
    out: &mut String,
    inputs: u64,
    head: &Head,
    asked: Losses,
) -> Result<(), AllocError>
    ensures { OnOk result (string_bytes out.new ≡ string_bytes out.old ++ cases_head (inputs_told head.now.cuts inputs) head.now asked) }
{
    put_opening(out, inputs_told(&head.cuts, inputs))?;
    put_options(out, head, asked)
}

/// Appends what stands before the line of the first failing case alone: the title, the options and the programs.
pub(crate) fn put_head(out: &mut String, head: &Head, asked: Losses) -> Result<(), AllocError>
    ensures { OnOk result (string_bytes out.new ≡ string_bytes out.old ++ head_text head.now asked) }
{
    write!(out, "crash cases 1\n")?;
    put_options(out, head, asked)
}
