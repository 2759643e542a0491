//! What is told of the wanted cuts after their kind.

ghost use Rattle.std.specs.Prelude.{◌≡◌, ◌++◌, OnOk, string_bytes};
ghost use Rattle.std.specs.List.{flat_map};
ghost use Rattle.report.specs.Words.{flush_words, next_flush, from_words, to_words, cuts_words};

use epochs::Cuts;
use std::alloc::AllocError;

/// Appends an entry that follows another.
fn put_next(out: &mut String, entry: u32) -> Result<(), AllocError>
    ensures { OnOk result (string_bytes out.new ≡ string_bytes out.old ++ next_flush entry) }
{
    write!(out, ",{entry}")
}

/// Appends the entries before which a flush is added, where there are some.
#[tactic(auto, unfolding(crate::specs::Words::flush_words))]
fn put_flushes(out: &mut String, entries: &[u32]) -> Result<(), AllocError>
    ensures { OnOk result (string_bytes out.new ≡ string_bytes out.old ++ flush_words entries.now) }
{
    match entries {
        [] => Ok(()),
        [first, rest @ ..] => {
            write!(out, " flush {first}")?;
            for entry in rest {
                put_next(out, *entry)?;
            }
            Ok(())
        }
    }
}

/// Appends the first cut that is wanted, where one is given.
fn put_from(out: &mut String, first: Option<u64>) -> Result<(), AllocError>
    ensures { OnOk result (string_bytes out.new ≡ string_bytes out.old ++ from_words first) }
{
    match first {
        Some(cut) => write!(out, " from {cut}"),
        None => Ok(()),
    }
}

/// Appends the last cut that is wanted, where one is given.
fn put_to(out: &mut String, last: Option<u64>) -> Result<(), AllocError>
    ensures { OnOk result (string_bytes out.new ≡ string_bytes out.old ++ to_words last) }
{
    match last {
        Some(cut) => write!(out, " to {cut}"),
        None => Ok(()),
    }
}

/// Appends what is told of the wanted cuts after their kind: the flushes that were added to the log, and the first and the last
/// cut, each where it was given (docs/OUTPUT.md, The report). Mostly that is nothing.
///
/// # Errors
///
/// Memory was refused.
#[tactic(auto, unfolding(crate::specs::Words::cuts_words))]
pub fn put_cuts_words(out: &mut String, cuts: &Cuts) -> Result<(), AllocError>
    ensures { OnOk result (string_bytes out.new ≡ string_bytes out.old ++ cuts_words cuts.now) }
{
    put_flushes(out, cuts.flushes.places())?;
    put_from(out, cuts.from)?;
    put_to(out, cuts.to)
}
