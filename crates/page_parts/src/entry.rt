//! The entries of a log: a cell for each in the row of entries, and a line for each in the list of entries.

ghost use Rattle.std.specs.Prelude.{◌≡◌, ◌<◌, ◌≤◌, ◌++◌, length, IfOk, OnOk, string_bytes};
ghost use Rattle.crash_text.specs.LogTable.{line_at};
ghost use Rattle.page_parts.specs.Html.{html};
ghost use Rattle.page_parts.specs.Entries.{shade_text, class_text, label_text, link_text, cell_class, cell_text, cell_at, place_at, cells_text, row_text, rows_text};

use crate::html::{put_html, put_mark_label};
use crate::lacking::{Lacking, put_lacking};
use crate::logged::Logged;
use crate::pieces::{PagePart, put, put_number};
use crash_text::{is_write, put_entry_line, put_word};
use epochs::Plan;
use logfmt::{Entry, Log};
use std::alloc::{AllocError, Global};

/// Appends the class of every other epoch.
pub(crate) fn put_shade(out: &mut String, epoch: u32) -> Result<(), AllocError>
    ensures { OnOk result (string_bytes out.new ≡ string_bytes out.old ++ shade_text epoch) }
{
    put_word(out, epoch % 2 == 1, "o")
}

/// Appends the classes of an entry.
#[tactic(auto, unfolding(crate::specs::Entries::class_text))]
fn put_classes(out: &mut String, entry: &Entry) -> Result<(), AllocError>
    ensures { OnOk result (string_bytes out.new ≡ string_bytes out.old ++ class_text entry.now) }
{
    put_word(out, is_write(entry), "write")?;
    put_word(out, entry.flags.flush, "flush")?;
    put_word(out, entry.flags.fua, "fua")?;
    put_word(out, entry.flags.discard, "discard")?;
    put_word(out, entry.flags.mark, "mark")
}

/// Appends the text of a mark.
fn put_label(alloc: Global, out: &mut String, entry: &Entry) -> Result<(), AllocError>
    ensures { OnOk result (string_bytes out.new ≡ string_bytes out.old ++ label_text entry.now) }
{
    if !entry.flags.mark {
        return Ok(());
    }
    out.push_str(" ")?;
    put_mark_label(alloc, out, entry.text.as_slice())
}

/// Appends to where the cell of an entry leads, and its number.
#[tactic(auto, unfolding(crate::specs::Entries::link_text))]
fn put_link(out: &mut String, number: u32) -> Result<(), AllocError>
    ensures { OnOk result (string_bytes out.new ≡ string_bytes out.old ++ link_text number) }
{
    put(out, PagePart::CellLink)?;
    put_number(out, u64::from(number))?;
    put(out, PagePart::LinkEnd)?;
    put_number(out, u64::from(number))
}

/// Appends the classes of a cell.
#[tactic(auto, unfolding(crate::specs::Entries::cell_class))]
fn put_cell_class(out: &mut String, epoch: u32, entry: &Entry) -> Result<(), AllocError>
    ensures { OnOk result (string_bytes out.new ≡ string_bytes out.old ++ cell_class epoch entry.now) }
{
    put(out, PagePart::CellOpen)?;
    put_shade(out, epoch)?;
    put_classes(out, entry)
}

/// Appends the cell of an entry of that number and epoch.
#[tactic(auto, unfolding(crate::specs::Entries::cell_text))]
fn put_cell(
    alloc: Global,
    out: &mut String,
    number: u32,
    epoch: u32,
    entry: &Entry,
) -> Result<(), AllocError>
    ensures { OnOk result (string_bytes out.new ≡ string_bytes out.old ++ cell_text number epoch entry.now) }
{
    put_cell_class(out, epoch, entry)?;
    put_link(out, number)?;
    put_label(alloc, out, entry)?;
    put(out, PagePart::CellClose)
}

/// Appends the cell of an entry of the log.
fn put_cell_of(
    alloc: Global,
    out: &mut String,
    logged: &Logged<'_>,
    number: u32,
) -> Result<(), AllocError>
    requires there { number < length logged.now.log.now.entries }
    ensures { OnOk result (string_bytes out.new ≡ string_bytes out.old ++ cell_at logged.now.log.now.entries number) }
{
    let (plan, log) = (logged.plan, logged.log);
    put_cell(
        alloc,
        out,
        number,
        plan.epoch(number),
        &log.entries()[number as usize],
    )
}

/// Appends the flush that is missing before an entry, if there is one, and its cell.
#[tactic(auto, unfolding(crate::specs::Entries::place_at))]
fn put_place(
    alloc: Global,
    out: &mut String,
    logged: &Logged<'_>,
    lacking: &Lacking<'_>,
    number: u32,
) -> Result<(), AllocError>
    requires there { number < length logged.now.log.now.entries }
    ensures { OnOk result (string_bytes out.new ≡ string_bytes out.old ++ place_at lacking.now.of logged.now.log.now.entries lacking.now.program lacking.now.flushes.now number) }
{
    put_lacking(out, lacking, number)?;
    put_cell_of(alloc, out, logged, number)
}

/// Appends the cells of the entries from `from` to before `to`, with the flushes that are missing.
#[tactic(auto, using(crash_text::proofs::Steps::text_more), unfolding(crate::specs::Entries::cells_text))]
pub(crate) fn put_cells(
    alloc: Global,
    out: &mut String,
    logged: &Logged<'_>,
    lacking: &Lacking<'_>,
    from: u32,
    to: u32,
) -> Result<(), AllocError>
    requires to { to ≤ length logged.now.log.now.entries }
    ensures { OnOk result (string_bytes out.new ≡ string_bytes out.old ++ cells_text lacking.now.of logged.now.log.now.entries lacking.now.program lacking.now.flushes.now from to) }
{
    for step in 0..to.saturating_sub(from) {
        put_place(alloc, out, logged, lacking, from + step)?;
    }
    Ok(())
}

/// The line of an entry, as `log` prints it.
fn line_of(alloc: Global, plan: &Plan<'_>, log: &Log, number: u32) -> Result<String, AllocError>
    requires log { plan.now.log ≡ log.now }
    requires there { number < length log.now.entries }
    ensures { IfOk result (λ line. string_bytes line ≡ line_at log.now.entries number) }
{
    let mut line = String::new(alloc);
    put_entry_line(
        &mut line,
        number as usize,
        plan.epoch(number),
        &log.entries()[number as usize],
    )?;
    Ok(line)
}

/// Appends the line of an entry to the list.
#[tactic(auto, unfolding(crate::specs::Entries::row_text))]
fn put_row(
    alloc: Global,
    out: &mut String,
    plan: &Plan<'_>,
    log: &Log,
    number: u32,
) -> Result<(), AllocError>
    requires log { plan.now.log ≡ log.now }
    requires there { number < length log.now.entries }
    ensures { OnOk result (string_bytes out.new ≡ string_bytes out.old ++ row_text log.now.entries number) }
{
    let line = line_of(alloc, plan, log, number)?;
    put(out, PagePart::RowOpen)?;
    put_number(out, u64::from(number))?;
    put(out, PagePart::LinkEnd)?;
    put_html(out, line.as_bytes())?;
    put(out, PagePart::RowClose)
}

/// Appends the lines of all entries.
#[tactic(auto, using(crash_text::proofs::Steps::text_next), unfolding(crate::specs::Entries::rows_text))]
pub(crate) fn put_rows(
    alloc: Global,
    out: &mut String,
    plan: &Plan<'_>,
    log: &Log,
) -> Result<(), AllocError>
    requires log { plan.now.log ≡ log.now }
    ensures { OnOk result (string_bytes out.new ≡ string_bytes out.old ++ rows_text log.now.entries) }
{
    let count = log.entries().len() as u32;
    for number in 0..count {
        put_row(alloc, out, plan, log, number)?;
    }
    Ok(())
}
