//! The number of the log and of the options on which an image hangs, of which records are.

ghost use Rattle.std.specs.Prelude.{◌≡◌, ◌++◌, IfOk, OnOk, string_bytes};
ghost use Rattle.report.specs.Report.{base_words};
ghost use Rattle.known_runs.specs.Number.{by_word, image_line, records_number};

use epochs::By;
use images::initial_number;
use logfmt::Log;
use request::{Options, number_of_report};
use std::alloc::{AllocError, Global};

/// What departs as one, in a word.
fn word_of_by(by: By) -> &'static str
    ensures { result.now ≡ by_word by }
{
    match by {
        By::Sector => "sector",
        By::Write => "write",
    }
}

/// Appends the number of what the device held before entry 0, where that is given.
fn put_base(out: &mut String, base: Option<u64>) -> Result<(), AllocError>
    ensures { OnOk result (string_bytes out.new ≡ string_bytes out.old ++ base_words base) }
{
    match base {
        Some(number) => write!(out, " base {number}"),
        None => Ok(()),
    }
}

/// The line of the options on which an image of a log hangs.
#[tactic(auto, unfolding(crate::specs::Number::image_line))]
fn image_line(alloc: Global, log: &Log<'_>, options: &Options) -> Result<String, AllocError>
    ensures { IfOk result (λ line. string_bytes line ≡ image_line options.now log.now) }
{
    let mut line = String::new(alloc);
    let sectors = options.sectors();
    let entries = log.entries().len();
    let by = word_of_by(options.by());
    write!(line, "sectors {sectors} entries {entries}")?;
    write!(line, " by {by}")?;
    put_base(&mut line, initial_number(log))?;
    write!(line, "\n")?;
    Ok(line)
}

/// The number of the bytes of a log and of the options on which its images hang. The log is the one without flushes that are added.
///
/// # Errors
///
/// Memory was refused.
pub(crate) fn number_of_records(
    alloc: Global,
    file: &[u8],
    log: &Log<'_>,
    options: &Options,
) -> Result<u64, AllocError>
    ensures { IfOk result (λ number. number ≡ records_number file.now options.now log.now) }
{
    let line = image_line(alloc, log, options)?;
    Ok(number_of_report(file, line.as_bytes()))
}
