//! A log as a table.

ghost use Rattle.std.specs.Prelude.{◌≡◌, ◌++◌, ◌≤◌, ◌<◌, length, IfOk, OnOk, slice_get, Some, string_bytes};
ghost use Rattle.crash_text.specs.LogTable.{word_text, flags_text, is_write, sectors_text, mark_text, head_text, what_text, entry_line, noted_line, entry_note, log_table};

use crate::escaped::put_escaped;
use epochs::{By, Cuts, Plan};
use logfmt::{Entry, Flags, Log};
use std::alloc::{AllocError, Global};

/// Whether an entry writes sectors.
pub fn is_write(entry: &Entry) -> bool
    ensures { result ≡ is_write entry.now }
{
    entry.count > 0 && !entry.flags.discard
}

/// Appends a word where something is so.
///
/// # Errors
///
/// Memory was refused.
pub fn put_word(out: &mut String, is_so: bool, word: &str) -> Result<(), AllocError>
    ensures { OnOk result (string_bytes out.new ≡ string_bytes out.old ++ word_text is_so word.now) }
{
    if is_so {
        write!(out, " {word}")
    } else {
        Ok(())
    }
}

/// Appends the flags of an entry.
fn put_flags(out: &mut String, flags: Flags) -> Result<(), AllocError>
    ensures { OnOk result (string_bytes out.new ≡ string_bytes out.old ++ flags_text flags) }
{
    put_word(out, flags.flush, "flush")?;
    put_word(out, flags.fua, "fua")?;
    put_word(out, flags.discard, "discard")?;
    put_word(out, flags.mark, "mark")?;
    put_word(out, flags.metadata, "metadata")
}

/// Appends the sectors that an entry covers, if it covers any.
fn put_sectors(out: &mut String, entry: &Entry) -> Result<(), AllocError>
    ensures { OnOk result (string_bytes out.new ≡ string_bytes out.old ++ sectors_text entry.now) }
{
    if entry.count == 0 {
        return Ok(());
    }
    write!(out, " sector {} count {}", entry.sector, entry.count)
}

/// Appends the text of a mark.
fn put_text(out: &mut String, entry: &Entry) -> Result<(), AllocError>
    ensures { OnOk result (string_bytes out.new ≡ string_bytes out.old ++ mark_text entry.now) }
{
    if !entry.flags.mark {
        return Ok(());
    }
    out.push_str(" text \"")?;
    put_escaped(out, entry.text.as_slice())?;
    out.push_str("\"")
}

/// Appends the number of an entry and its epoch.
#[tactic(auto, unfolding(crate::specs::LogTable::head_text))]
fn put_head(out: &mut String, number: usize, epoch: u32) -> Result<(), AllocError>
    ensures { OnOk result (string_bytes out.new ≡ string_bytes out.old ++ head_text number epoch) }
{
    write!(out, "entry {number} epoch {epoch}")
}

/// Appends what an entry asks of the device, as in the table.
///
/// # Errors
///
/// Memory was refused.
#[tactic(auto, unfolding(crate::specs::LogTable::what_text))]
pub fn put_what(out: &mut String, entry: &Entry) -> Result<(), AllocError>
    ensures { OnOk result (string_bytes out.new ≡ string_bytes out.old ++ what_text entry.now) }
{
    put_word(out, is_write(entry), "write")?;
    put_flags(out, entry.flags)?;
    put_sectors(out, entry)?;
    put_text(out, entry)
}

/// Appends the line of an entry of that number and epoch, as in the table.
///
/// # Errors
///
/// Memory was refused.
#[tactic(auto, unfolding(crate::specs::LogTable::entry_line))]
pub fn put_entry_line(
    out: &mut String,
    number: usize,
    epoch: u32,
    entry: &Entry,
) -> Result<(), AllocError>
    ensures { OnOk result (string_bytes out.new ≡ string_bytes out.old ++ entry_line number epoch entry.now) }
{
    put_head(out, number, epoch)?;
    put_what(out, entry)?;
    out.push_str("\n")
}

/// The entries of a log, one a line: the number by which the report names it, its epoch, what it asks of the device, the
/// sectors of the device that it covers, and the text of a mark.
///
/// # Errors
///
/// Memory was refused.
pub fn log_table(alloc: Global, log: &Log) -> Result<String, AllocError>
    ensures { IfOk result (λ text. string_bytes text ≡ log_table log.now.entries) }
{
    let plan = Plan::new(alloc, log, Cuts::ALL, By::Sector)?;
    let mut out = String::new(alloc);
    for (number, entry) in log.entries().iter().enumerate() {
        put_entry_line(&mut out, number, plan.epoch(number as u32), entry)?;
    }
    Ok(out)
}

/// Appends a note with an entry.
fn put_noted(out: &mut String, number: usize, epoch: u32, entry: &Entry) -> Result<(), AllocError>
    ensures { OnOk result (string_bytes out.new ≡ string_bytes out.old ++ noted_line number epoch entry.now) }
{
    out.push_str("note: ")?;
    put_entry_line(out, number, epoch, entry)
}

/// Appends a note with the entry of that number, where the log has one.
///
/// # Errors
///
/// Memory was refused.
pub fn put_entry(
    alloc: Global,
    out: &mut String,
    log: &Log,
    number: usize,
) -> Result<(), AllocError>
    ensures { OnOk result (string_bytes out.new ≡ string_bytes out.old ++ entry_note log.now.entries number) }
{
    let plan = Plan::new(alloc, log, Cuts::ALL, By::Sector)?;
    let Some(entry) = log.entries().get(number) else {
        return Ok(());
    };
    put_noted(out, number, plan.epoch(number as u32), entry)
}
