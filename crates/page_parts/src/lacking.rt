//! The flushes that are missing: in the row of entries, and in words above it.

ghost use Rattle.std.specs.Prelude.{◌≡◌, ◌<◌, ◌≤◌, ◌==◌, ◌++◌, length, OnOk, string_bytes};
ghost use Rattle.std.specs.List.{position};
ghost use Rattle.losses.specs.declared.flushes.counted.MissingFlush.{MissingFlush as FlushValue};
ghost use Rattle.page_parts.specs.Lacking.{flush_name, from_text, taken_text, flush_title, flush_link, flush_text, lack_at, between_text, named_text, named_from, more_text, entries_word, every_text, flushes_text, cure_text, uncured_text, advice_text};

use crate::counts::{JudgedKind, put_kind, put_single};
use crate::pieces::{PagePart, put, put_number};
use losses::flushes::MissingFlush;
use std::alloc::AllocError;

/// How many flushes are named in words.
pub(crate) const MOST_NAMED: usize = 16;

/// The flushes that are missing for the program of that number, of which images or cases fail.
#[derive(Clone, Copy)]
pub struct Lacking<'a> {
    /// What fails.
    pub of: JudgedKind,
    /// The number of the program.
    pub program: usize,
    /// The flushes.
    pub flushes: &'a [MissingFlush],
}

/// Appends the name of the place of a flush before that entry.
#[tactic(auto, unfolding(crate::specs::Lacking::flush_name))]
pub(crate) fn put_name(out: &mut String, program: usize, entry: u32) -> Result<(), AllocError>
    ensures { OnOk result (string_bytes out.new ≡ string_bytes out.old ++ flush_name program entry) }
{
    write!(out, "p{program}f{entry}")
}

/// Appends from which entry on a flush may stand as well, where that is another than its own.
#[tactic(auto, unfolding(crate::specs::Lacking::from_text))]
fn put_from(out: &mut String, flush: MissingFlush) -> Result<(), AllocError>
    ensures { OnOk result (string_bytes out.new ≡ string_bytes out.old ++ from_text flush) }
{
    if flush.from == flush.at {
        return Ok(());
    }
    put(out, PagePart::LackFrom)?;
    put_number(out, u64::from(flush.from))?;
    put(out, PagePart::LackOn)
}

/// Appends how many failing images or cases a flush takes away.
#[tactic(auto, unfolding(crate::specs::Lacking::taken_text))]
fn put_taken(out: &mut String, of: JudgedKind, flush: MissingFlush) -> Result<(), AllocError>
    ensures { OnOk result (string_bytes out.new ≡ string_bytes out.old ++ taken_text of flush) }
{
    put(out, PagePart::LackFailing)?;
    put_kind(out, of)?;
    out.push_str(": ")?;
    put_number(out, flush.failing as u64)
}

/// Appends what stands beside the pointer at a flush: where it may stand, and how many failing images or cases it takes away.
#[tactic(auto, unfolding(crate::specs::Lacking::flush_title))]
pub(crate) fn put_flush_title(
    out: &mut String,
    of: JudgedKind,
    flush: MissingFlush,
) -> Result<(), AllocError>
    ensures { OnOk result (string_bytes out.new ≡ string_bytes out.old ++ flush_title of flush) }
{
    put(out, PagePart::LackTitle)?;
    put_number(out, u64::from(flush.at))?;
    put_from(out, flush)?;
    put_taken(out, of, flush)
}

/// Appends the place of a flush in the row, and to which line it leads.
#[tactic(auto, unfolding(crate::specs::Lacking::flush_link))]
fn put_flush_link(out: &mut String, program: usize, entry: u32) -> Result<(), AllocError>
    ensures { OnOk result (string_bytes out.new ≡ string_bytes out.old ++ flush_link program entry) }
{
    put(out, PagePart::LackOpen)?;
    put_name(out, program, entry)?;
    put(out, PagePart::CellLink)?;
    put_number(out, u64::from(entry))
}

/// Appends a flush in the row.
#[tactic(auto, unfolding(crate::specs::Lacking::flush_text))]
fn put_flush(
    out: &mut String,
    of: JudgedKind,
    program: usize,
    flush: MissingFlush,
) -> Result<(), AllocError>
    ensures { OnOk result (string_bytes out.new ≡ string_bytes out.old ++ flush_text of program flush) }
{
    put_flush_link(out, program, flush.at)?;
    put_flush_title(out, of, flush)?;
    put(out, PagePart::LackClose)
}

/// The number of the flush before an entry, if there is one.
fn flush_before(flushes: &[MissingFlush], entry: u32) -> Option<usize>
    ensures { result ≡ position (λ (m : FlushValue). m.at == entry) flushes.now }
{
    flushes.iter().position(|flush| flush.at == entry)
}

/// Appends the flush that is missing before an entry, if there is one.
pub(crate) fn put_lacking(
    out: &mut String,
    lacking: &Lacking<'_>,
    entry: u32,
) -> Result<(), AllocError>
    ensures { OnOk result (string_bytes out.new ≡ string_bytes out.old ++ lack_at lacking.now.of lacking.now.program lacking.now.flushes.now entry) }
{
    match flush_before(lacking.flushes, entry) {
        Some(number) => put_flush(out, lacking.of, lacking.program, lacking.flushes[number]),
        None => Ok(()),
    }
}

/// Appends what stands before the entry of a number, of `count` entries that are named.
fn put_between(out: &mut String, count: usize, number: usize) -> Result<(), AllocError>
    requires { number < count }
    ensures { OnOk result (string_bytes out.new ≡ string_bytes out.old ++ between_text count number) }
{
    if number == 0 {
        Ok(())
    } else if number + 1 == count {
        out.push_str(" and ")
    } else {
        out.push_str(", ")
    }
}

/// Appends an entry before which a flush is missing, by a link to its place in the row.
#[tactic(auto, unfolding(crate::specs::Lacking::named_text))]
fn put_named(
    out: &mut String,
    program: usize,
    count: usize,
    number: usize,
    flush: MissingFlush,
) -> Result<(), AllocError>
    requires { number < count }
    ensures { OnOk result (string_bytes out.new ≡ string_bytes out.old ++ named_text program count number flush) }
{
    put_between(out, count, number)?;
    put(out, PagePart::NamedOpen)?;
    put_name(out, program, flush.at)?;
    put(out, PagePart::LinkEnd)?;
    put_number(out, u64::from(flush.at))?;
    put(out, PagePart::NamedClose)
}

/// Appends the first of `count` flushes.
#[tactic(auto, using(crate::proofs::Rows::named_more, crate::proofs::Rows::named_end))]
fn put_names(
    out: &mut String,
    program: usize,
    count: usize,
    flushes: &[MissingFlush],
) -> Result<(), AllocError>
    requires { length flushes.now ≤ count }
    ensures { OnOk result (string_bytes out.new ≡ string_bytes out.old ++ named_from program count 0 flushes.now) }
{
    for (number, flush) in flushes.iter().enumerate() {
        put_named(out, program, count, number, *flush)?;
    }
    Ok(())
}

/// Appends how many more there are.
#[tactic(auto, unfolding(crate::specs::Lacking::more_text))]
fn put_more(out: &mut String, count: usize) -> Result<(), AllocError>
    ensures { OnOk result (string_bytes out.new ≡ string_bytes out.old ++ more_text count) }
{
    if count == 0 {
        return Ok(());
    }
    write!(out, " and {count} more")
}

/// Appends the words before the entries that are named.
fn put_entries_word(out: &mut String, count: usize) -> Result<(), AllocError>
    ensures { OnOk result (string_bytes out.new ≡ string_bytes out.old ++ entries_word count) }
{
    if count == 1 {
        put(out, PagePart::CureEntry)
    } else {
        put(out, PagePart::CureEntries)
    }
}

/// Appends what the flushes take away.
#[tactic(auto, unfolding(crate::specs::Lacking::every_text))]
fn put_every(out: &mut String, of: JudgedKind) -> Result<(), AllocError>
    ensures { OnOk result (string_bytes out.new ≡ string_bytes out.old ++ every_text of) }
{
    put(out, PagePart::CureEvery)?;
    put_single(out, of)?;
    put(out, PagePart::CureClose)
}

/// Appends the flushes that take every failing image or case away against which a flush helps.
#[tactic(auto, unfolding(crate::specs::Lacking::flushes_text))]
fn put_flushes(out: &mut String, lacking: &Lacking<'_>) -> Result<(), AllocError>
    ensures { OnOk result (string_bytes out.new ≡ string_bytes out.old ++ flushes_text lacking.now.of lacking.now.program lacking.now.flushes.now) }
{
    let count = lacking.flushes.len();
    let named = count.min(MOST_NAMED);
    put_entries_word(out, count)?;
    put_names(out, lacking.program, count, &lacking.flushes[..named])?;
    put_more(out, count - named)?;
    put_every(out, lacking.of)
}

/// Appends where a flush is missing, if one is.
fn put_cure(out: &mut String, lacking: &Lacking<'_>) -> Result<(), AllocError>
    ensures { OnOk result (string_bytes out.new ≡ string_bytes out.old ++ cure_text lacking.now.of lacking.now.program lacking.now.flushes.now) }
{
    if lacking.flushes.is_empty() {
        return Ok(());
    }
    put_flushes(out, lacking)
}

/// Appends against how many failing images or cases no flush helps, if there are any.
#[tactic(auto, unfolding(crate::specs::Lacking::uncured_text))]
fn put_uncured(out: &mut String, of: JudgedKind, count: usize) -> Result<(), AllocError>
    ensures { OnOk result (string_bytes out.new ≡ string_bytes out.old ++ uncured_text of count) }
{
    if count == 0 {
        return Ok(());
    }
    put(out, PagePart::UncuredOpen)?;
    put_number(out, count as u64)?;
    put(out, PagePart::UncuredOf)?;
    put_kind(out, of)?;
    put(out, PagePart::UncuredClose)
}

/// Appends what flushes would do: which are missing, and how many failing images or cases none takes away.
///
/// # Errors
///
/// Memory was refused.
pub fn put_advice(out: &mut String, lacking: &Lacking<'_>, uncured: usize) -> Result<(), AllocError>
    ensures { OnOk result (string_bytes out.new ≡ string_bytes out.old ++ advice_text lacking.now.of lacking.now.program lacking.now.flushes.now uncured) }
{
    put_cure(out, lacking)?;
    put_uncured(out, lacking.of, uncured)
}
