//! A large log: its entries and its cuts in blocks, in the row and in the list of entries.

ghost use Rattle.std.specs.Prelude.{◌≡◌, ◌+◌, ◌<◌, ◌≤◌, ◌++◌, ◌∷◌, [], length, filter, option_copied, option_map, IfOk, OnOk, string_bytes};
ghost use Rattle.std.specs.List.{flat_map, list_any, find};
ghost use Rattle.crash_text.specs.LogTable.{is_write};
ghost use Rattle.page_parts.specs.Blocks.{is_large, width_of, begins_block, beyond, end_of, range_text, is_within, fails_within, count_within, is_listed, more_name, listed_name, block_link, block_title, block_failing, no_failing, block_cuts, lack_link, lack_text, lacks_within, block_lack, first_lack, block_lacks, is_mark, kinds_text, entries_class, entries_link, entries_cell, block_cell, row_block, row_at, row_blocks, cell_means, width_text, short_line, short_at, line_text, lines_text, block_name, list_block, list_at, list_blocks, large_list};

use crate::counts::{CutCount, JudgedKind, put_kind};
use crate::entry::put_shade;
use crate::html::put_html;
use crate::lacking::{Lacking, MOST_NAMED, put_flush_title, put_name as put_flush_name};
use crate::logged::Logged;
use crate::pieces::{PagePart, put, put_number};
use crate::strip::{put_failing_class, put_failing_title, put_passing, put_place_name};
use crash_text::{is_write, put_what, put_word};
use epochs::Plan;
use logfmt::{Entry, Log};
use losses::flushes::MissingFlush;
use std::alloc::{AllocError, Global};

/// The number of entries from which on a log is large.
pub const MOST_CELLS: usize = 1000;

/// A block of entries or cuts: its first number, and the first after it.
#[derive(Clone, Copy)]
struct Block {
    from: u32,
    to: u64,
}

/// Whether a log is large.
pub(crate) fn is_large(log: &Log) -> bool
    ensures { result ≡ is_large log.now.entries }
{
    MOST_CELLS <= log.entries().len()
}

/// How many entries a block of a log has.
fn width_of(log: &Log) -> u64
    ensures value { result ≡ width_of log.now.entries }
    ensures some { 0 < result }
    ensures bound { result ≤ 4294967296 }
{
    (log.entries().len() / MOST_CELLS + 1) as u64
}

/// Whether a block begins at that number.
fn begins_block(log: &Log, number: u32) -> bool
    ensures { result ≡ begins_block log.now.entries number }
{
    u64::from(number) % width_of(log) == 0
}

/// The block that begins at that number.
fn block_at(log: &Log, from: u32) -> Block
    ensures from { result.from ≡ from }
    ensures to { result.to ≡ beyond log.now.entries from }
{
    Block {
        from,
        to: u64::from(from) + width_of(log),
    }
}

/// The entry after those of the block that begins at that number.
fn end_of(log: &Log, from: u32) -> u32
    ensures value { result ≡ end_of log.now.entries from }
    ensures bound { result ≤ length log.now.entries }
{
    block_at(log, from).to.min(log.entries().len() as u64) as u32
}

/// Appends the first and the last number of a block.
#[tactic(auto, unfolding(crate::specs::Blocks::range_text))]
fn put_range(out: &mut String, from: u32, end: u64) -> Result<(), AllocError>
    ensures { OnOk result (string_bytes out.new ≡ string_bytes out.old ++ range_text from end) }
{
    put_number(out, u64::from(from))?;
    out.push_str(" to ")?;
    put_number(out, end.saturating_sub(1))
}

/// Whether a cut is one of a block.
fn is_within(block: Block, cut: &CutCount) -> bool
    ensures { result ≡ is_within block.from block.to cut.now }
{
    block.from <= cut.cut && u64::from(cut.cut) < block.to
}

/// Whether something fails at a cut of a block.
fn fails_within(block: Block, cut: &CutCount) -> bool
    ensures { result ≡ fails_within block.from block.to cut.now }
{
    cut.failing != 0 && is_within(block, cut)
}

/// One for a cut of a block at which something fails, else none.
fn count_one(block: Block, cut: &CutCount) -> usize
    ensures value { result ≡ length (filter (fails_within block.from block.to) (cut.now ∷ [])) }
    ensures bound { result ≤ 1 }
{
    if fails_within(block, cut) { 1 } else { 0 }
}

/// Returns at how many cuts of a block images fail.
fn count_within(block: Block, cuts: &[CutCount]) -> usize
    ensures value { result ≡ count_within block.from block.to cuts.now }
    ensures bound { result ≤ length cuts.now }
{
    let mut count = 0;
    for cut in cuts {
        count += count_one(block, cut);
    }
    count
}

/// The first cut of a block at which something fails.
fn first_within(block: Block, cuts: &[CutCount]) -> Option<&CutCount>
    ensures { option_map (λ c. c.now) result ≡ find (fails_within block.from block.to) cuts.now }
{
    cuts.iter().find(|cut| fails_within(block, cut))
}

/// Whether the failing cuts from that number on are among those that are listed.
fn is_listed(cuts: &[CutCount], from: u32) -> bool
    ensures { result ≡ is_listed cuts.now from }
{
    let before = Block {
        from: 0,
        to: u64::from(from),
    };
    count_within(before, cuts) < MOST_CELLS
}

/// Appends the name of the place that tells how many failing cuts aren't listed.
#[tactic(auto, unfolding(crate::specs::Blocks::more_name))]
pub(crate) fn put_more_name(out: &mut String, program: usize) -> Result<(), AllocError>
    ensures { OnOk result (string_bytes out.new ≡ string_bytes out.old ++ more_name program) }
{
    write!(out, "p{program}more")
}

/// Appends the name of the place of a cut, or of what tells how many aren't listed.
fn put_listed_name(
    out: &mut String,
    program: usize,
    listed: bool,
    cut: u32,
) -> Result<(), AllocError>
    ensures { OnOk result (string_bytes out.new ≡ string_bytes out.old ++ listed_name program listed cut) }
{
    if listed {
        put_place_name(out, program, cut)
    } else {
        put_more_name(out, program)
    }
}

/// Appends to where the cell of the cuts of a block leads.
#[tactic(auto, unfolding(crate::specs::Blocks::block_link))]
fn put_block_link(
    out: &mut String,
    program: usize,
    listed: bool,
    cut: &CutCount,
) -> Result<(), AllocError>
    ensures { OnOk result (string_bytes out.new ≡ string_bytes out.old ++ block_link program listed cut.now) }
{
    put(out, PagePart::FailingLink)?;
    put_listed_name(out, program, listed, cut.cut)
}

/// Appends what stands beside the pointer at the cell of the cuts of a block.
#[tactic(auto, unfolding(crate::specs::Blocks::block_title))]
fn put_block_title(
    out: &mut String,
    block: Block,
    count: usize,
    cut: &CutCount,
) -> Result<(), AllocError>
    ensures { OnOk result (string_bytes out.new ≡ string_bytes out.old ++ block_title block.from block.to count cut.now) }
{
    put_failing_title(out, cut)?;
    put(out, PagePart::BlockCuts)?;
    put_range(out, block.from, block.to)?;
    put(out, PagePart::BlockFailing)?;
    put_number(out, count as u64)
}

/// Appends the cell of the cuts of a block at which something fails, of which that is the first.
#[tactic(auto, unfolding(crate::specs::Blocks::block_failing))]
fn put_block_failing(
    out: &mut String,
    logged: &Logged<'_>,
    program: usize,
    cuts: &[CutCount],
    block: Block,
    cut: &CutCount,
) -> Result<(), AllocError>
    requires from { block.from ≤ length logged.now.log.now.entries }
    ensures { OnOk result (string_bytes out.new ≡ string_bytes out.old ++ block_failing logged.now.log.now.entries program cuts.now block.from block.to cut.now) }
{
    let (plan, _log) = (logged.plan, logged.log);
    put_failing_class(out, plan.epoch(block.from), cut)?;
    put_block_link(out, program, is_listed(cuts, block.from), cut)?;
    put_block_title(out, block, count_within(block, cuts), cut)?;
    put(out, PagePart::FailingClose)
}

/// Whether a block has wanted cuts.
fn has_cuts(block: Block, cuts: &[CutCount]) -> bool
    ensures { result ≡ list_any (is_within block.from block.to) cuts.now }
{
    cuts.iter().any(|cut| is_within(block, cut))
}

/// Appends the cell of the cuts of a block at which nothing fails, if it has wanted ones.
fn put_no_failing(
    out: &mut String,
    logged: &Logged<'_>,
    cuts: &[CutCount],
    block: Block,
) -> Result<(), AllocError>
    requires from { block.from ≤ length logged.now.log.now.entries }
    ensures { OnOk result (string_bytes out.new ≡ string_bytes out.old ++ no_failing logged.now.log.now.entries cuts.now block.from block.to) }
{
    let (plan, _log) = (logged.plan, logged.log);
    if has_cuts(block, cuts) {
        put_passing(out, plan.epoch(block.from))
    } else {
        Ok(())
    }
}

/// Appends the cell of the cuts of a block, if it has wanted ones.
fn put_block_cuts(
    out: &mut String,
    logged: &Logged<'_>,
    program: usize,
    cuts: &[CutCount],
    block: Block,
) -> Result<(), AllocError>
    requires from { block.from ≤ length logged.now.log.now.entries }
    ensures { OnOk result (string_bytes out.new ≡ string_bytes out.old ++ block_cuts logged.now.log.now.entries program cuts.now block.from block.to) }
{
    match first_within(block, cuts) {
        Some(cut) => put_block_failing(out, logged, program, cuts, block, cut),
        None => put_no_failing(out, logged, cuts, block),
    }
}

/// Appends the place of a flush that is missing in the block from that entry on, and to which lines it leads.
#[tactic(auto, unfolding(crate::specs::Blocks::lack_link))]
fn put_lack_link(out: &mut String, program: usize, entry: u32, from: u32) -> Result<(), AllocError>
    ensures { OnOk result (string_bytes out.new ≡ string_bytes out.old ++ lack_link program entry from) }
{
    put(out, PagePart::LackOpen)?;
    put_flush_name(out, program, entry)?;
    put(out, PagePart::CellLink)?;
    put_number(out, u64::from(from))
}

/// Appends a flush that is missing in the block from that entry on.
#[tactic(auto, unfolding(crate::specs::Blocks::lack_text))]
fn put_lack(
    out: &mut String,
    of: JudgedKind,
    program: usize,
    from: u32,
    flush: MissingFlush,
) -> Result<(), AllocError>
    ensures { OnOk result (string_bytes out.new ≡ string_bytes out.old ++ lack_text of program from flush) }
{
    put_lack_link(out, program, flush.at, from)?;
    put_flush_title(out, of, flush)?;
    put(out, PagePart::LackClose)
}

/// Whether a flush is missing in a block.
fn lacks_within(block: Block, flush: MissingFlush) -> bool
    ensures { result ≡ lacks_within block.from block.to flush }
{
    block.from <= flush.at && u64::from(flush.at) < block.to
}

/// Appends a flush where it is missing in a block.
fn put_block_lack(
    out: &mut String,
    of: JudgedKind,
    program: usize,
    block: Block,
    flush: MissingFlush,
) -> Result<(), AllocError>
    ensures { OnOk result (string_bytes out.new ≡ string_bytes out.old ++ block_lack of program block.from block.to flush) }
{
    if lacks_within(block, flush) {
        put_lack(out, of, program, block.from, flush)
    } else {
        Ok(())
    }
}

/// Appends those of the flushes that are missing in a block.
fn put_lacks(
    out: &mut String,
    of: JudgedKind,
    program: usize,
    block: Block,
    flushes: &[MissingFlush],
) -> Result<(), AllocError>
    ensures { OnOk result (string_bytes out.new ≡ string_bytes out.old ++ flat_map (block_lack of program block.from block.to) flushes.now) }
{
    for flush in flushes {
        put_block_lack(out, of, program, block, *flush)?;
    }
    Ok(())
}

/// Whether one of the flushes is missing in a block.
fn has_lack(block: Block, flushes: &[MissingFlush]) -> bool
    ensures { result ≡ list_any (lacks_within block.from block.to) flushes.now }
{
    flushes.iter().any(|flush| lacks_within(block, *flush))
}

/// The first of the flushes that is missing in a block.
fn first_lacking(block: Block, flushes: &[MissingFlush]) -> Option<&MissingFlush>
    ensures { option_copied result ≡ find (lacks_within block.from block.to) flushes.now }
{
    flushes.iter().find(|flush| lacks_within(block, **flush))
}

/// Appends the first of the flushes that is missing in a block, if one is.
fn put_first_lack(
    out: &mut String,
    of: JudgedKind,
    program: usize,
    block: Block,
    flushes: &[MissingFlush],
) -> Result<(), AllocError>
    ensures { OnOk result (string_bytes out.new ≡ string_bytes out.old ++ first_lack of program block.from block.to flushes.now) }
{
    match first_lacking(block, flushes) {
        Some(flush) => put_lack(out, of, program, block.from, *flush),
        None => Ok(()),
    }
}

/// Appends the flushes that are missing in a block and named in words, or the first, where none is.
fn put_block_lacks(out: &mut String, lacking: &Lacking<'_>, block: Block) -> Result<(), AllocError>
    ensures { OnOk result (string_bytes out.new ≡ string_bytes out.old ++ block_lacks lacking.now.of lacking.now.program block.from block.to lacking.now.flushes.now) }
{
    let named = lacking.flushes.len().min(MOST_NAMED);
    let flushes = &lacking.flushes[..named];
    if has_lack(block, flushes) {
        put_lacks(out, lacking.of, lacking.program, block, flushes)
    } else {
        put_first_lack(out, lacking.of, lacking.program, block, lacking.flushes)
    }
}

/// Whether some of the entries write sectors.
fn has_write(entries: &[Entry]) -> bool
    ensures { result ≡ list_any is_write entries.now }
{
    entries.iter().any(|entry| is_write(entry))
}

/// Whether one of the entries is a mark.
fn has_mark(entries: &[Entry]) -> bool
    ensures { result ≡ list_any is_mark entries.now }
{
    entries.iter().any(|entry| entry.flags.mark)
}

/// Appends the classes of the cell of these entries.
#[tactic(auto, unfolding(crate::specs::Blocks::kinds_text))]
fn put_kinds(out: &mut String, entries: &[Entry]) -> Result<(), AllocError>
    ensures { OnOk result (string_bytes out.new ≡ string_bytes out.old ++ kinds_text entries.now) }
{
    put_word(out, has_write(entries), "write")?;
    put_word(out, has_mark(entries), "mark")
}

/// Appends the classes of the cell of the entries from `from` to before `end`.
#[tactic(auto, unfolding(crate::specs::Blocks::entries_class))]
fn put_entries_class(
    out: &mut String,
    logged: &Logged<'_>,
    from: u32,
    end: u32,
) -> Result<(), AllocError>
    requires there { from < length logged.now.log.now.entries }
    requires order { from ≤ end }
    requires end { end ≤ length logged.now.log.now.entries }
    ensures { OnOk result (string_bytes out.new ≡ string_bytes out.old ++ entries_class logged.now.log.now.entries from end) }
{
    let (plan, log) = (logged.plan, logged.log);
    put(out, PagePart::CellOpen)?;
    put_shade(out, plan.epoch(from))?;
    put_kinds(out, &log.entries()[from as usize..end as usize])
}

/// Appends to where the cell of entries leads, and their numbers.
#[tactic(auto, unfolding(crate::specs::Blocks::entries_link))]
fn put_entries_link(out: &mut String, from: u32, end: u32) -> Result<(), AllocError>
    ensures { OnOk result (string_bytes out.new ≡ string_bytes out.old ++ entries_link from end) }
{
    put(out, PagePart::CellLink)?;
    put_number(out, u64::from(from))?;
    put(out, PagePart::LinkEnd)?;
    put_range(out, from, u64::from(end))
}

/// Appends the cell of the entries from `from` to before `end`.
#[tactic(auto, unfolding(crate::specs::Blocks::entries_cell))]
fn put_entries_cell(
    out: &mut String,
    logged: &Logged<'_>,
    from: u32,
    end: u32,
) -> Result<(), AllocError>
    requires there { from < length logged.now.log.now.entries }
    requires order { from ≤ end }
    requires end { end ≤ length logged.now.log.now.entries }
    ensures { OnOk result (string_bytes out.new ≡ string_bytes out.old ++ entries_cell logged.now.log.now.entries from end) }
{
    put_entries_class(out, logged, from, end)?;
    put_entries_link(out, from, end)?;
    put(out, PagePart::CellClose)
}

/// Appends the cell of the entries of the block from that entry on, if there are some.
fn put_block_cell(out: &mut String, logged: &Logged<'_>, from: u32) -> Result<(), AllocError>
    ensures { OnOk result (string_bytes out.new ≡ string_bytes out.old ++ block_cell logged.now.log.now.entries from) }
{
    let log = logged.log;
    if (from as usize) < log.entries().len() {
        put_entries_cell(out, logged, from, end_of(log, from))
    } else {
        Ok(())
    }
}

/// Appends a block in the row: its cuts, the flushes that are missing, and its entries.
#[tactic(auto, unfolding(crate::specs::Blocks::row_block))]
fn put_row_block(
    out: &mut String,
    logged: &Logged<'_>,
    lacking: &Lacking<'_>,
    cuts: &[CutCount],
    from: u32,
) -> Result<(), AllocError>
    requires from { from ≤ length logged.now.log.now.entries }
    ensures { OnOk result (string_bytes out.new ≡ string_bytes out.old ++ row_block lacking.now.of logged.now.log.now.entries lacking.now.program lacking.now.flushes.now cuts.now from) }
{
    let block = block_at(logged.log, from);
    put_block_cuts(out, logged, lacking.program, cuts, block)?;
    put_block_lacks(out, lacking, block)?;
    put_block_cell(out, logged, from)
}

/// Appends the block of the row that begins at that number, if one does.
fn put_row_at(
    out: &mut String,
    logged: &Logged<'_>,
    lacking: &Lacking<'_>,
    cuts: &[CutCount],
    number: u32,
) -> Result<(), AllocError>
    requires number { number ≤ length logged.now.log.now.entries }
    ensures { OnOk result (string_bytes out.new ≡ string_bytes out.old ++ row_at lacking.now.of logged.now.log.now.entries lacking.now.program lacking.now.flushes.now cuts.now number) }
{
    if begins_block(logged.log, number) {
        put_row_block(out, logged, lacking, cuts, number)
    } else {
        Ok(())
    }
}

/// Appends the blocks of the row of a large log.
#[tactic(auto, using(crash_text::proofs::Steps::text_next), unfolding(crate::specs::Blocks::row_blocks))]
pub(crate) fn put_row_blocks(
    out: &mut String,
    logged: &Logged<'_>,
    lacking: &Lacking<'_>,
    cuts: &[CutCount],
) -> Result<(), AllocError>
    ensures { OnOk result (string_bytes out.new ≡ string_bytes out.old ++ row_blocks lacking.now.of logged.now.log.now.entries lacking.now.program lacking.now.flushes.now cuts.now) }
{
    let count = logged.log.entries().len() as u32;
    for number in 0..count + 1 {
        put_row_at(out, logged, lacking, cuts, number)?;
    }
    Ok(())
}

/// Appends for what a cell of a large log stands.
#[tactic(auto, unfolding(crate::specs::Blocks::cell_means))]
fn put_cell_means(out: &mut String, of: JudgedKind, log: &Log) -> Result<(), AllocError>
    ensures { OnOk result (string_bytes out.new ≡ string_bytes out.old ++ cell_means of log.now.entries) }
{
    put(out, PagePart::WidthOpen)?;
    put_number(out, width_of(log))?;
    put(out, PagePart::WidthClose)?;
    put_kind(out, of)?;
    put(out, PagePart::WidthEnd)
}

/// Appends for what a cell stands, where the log is large.
pub(crate) fn put_width(out: &mut String, of: JudgedKind, log: &Log) -> Result<(), AllocError>
    ensures { OnOk result (string_bytes out.new ≡ string_bytes out.old ++ width_text of log.now.entries) }
{
    if is_large(log) {
        put_cell_means(out, of, log)
    } else {
        Ok(())
    }
}

/// Appends an entry of that number and epoch as it stands in a block.
#[tactic(auto, unfolding(crate::specs::Blocks::short_line))]
fn put_short(out: &mut String, number: u32, epoch: u32, entry: &Entry) -> Result<(), AllocError>
    ensures { OnOk result (string_bytes out.new ≡ string_bytes out.old ++ short_line number epoch entry.now) }
{
    write!(out, "{number} {epoch}")?;
    put_what(out, entry)?;
    out.push_str("\n")
}

/// The line of an entry in its block.
fn short_of(alloc: Global, plan: &Plan<'_>, log: &Log, number: u32) -> Result<String, AllocError>
    requires log { plan.now.log ≡ log.now }
    requires there { number < length log.now.entries }
    ensures { IfOk result (λ line. string_bytes line ≡ short_at log.now.entries number) }
{
    let mut line = String::new(alloc);
    put_short(
        &mut line,
        number,
        plan.epoch(number),
        &log.entries()[number as usize],
    )?;
    Ok(line)
}

/// Appends the line of an entry.
fn put_line(
    alloc: Global,
    out: &mut String,
    plan: &Plan<'_>,
    log: &Log,
    number: u32,
) -> Result<(), AllocError>
    requires log { plan.now.log ≡ log.now }
    requires there { number < length log.now.entries }
    ensures { OnOk result (string_bytes out.new ≡ string_bytes out.old ++ line_text log.now.entries number) }
{
    let line = short_of(alloc, plan, log, number)?;
    put_html(out, line.as_bytes())
}

/// Appends the lines of the entries from `from` to before `end`.
#[tactic(auto, using(crash_text::proofs::Steps::text_more), unfolding(crate::specs::Blocks::lines_text))]
fn put_lines(
    alloc: Global,
    out: &mut String,
    plan: &Plan<'_>,
    log: &Log,
    from: u32,
    end: u32,
) -> Result<(), AllocError>
    requires log { plan.now.log ≡ log.now }
    requires end { end ≤ length log.now.entries }
    ensures { OnOk result (string_bytes out.new ≡ string_bytes out.old ++ lines_text log.now.entries from end) }
{
    for step in 0..end.saturating_sub(from) {
        put_line(alloc, out, plan, log, from + step)?;
    }
    Ok(())
}

/// Appends what begins the lines of a block.
#[tactic(auto, unfolding(crate::specs::Blocks::block_name))]
fn put_block_name(out: &mut String, from: u32, end: u32) -> Result<(), AllocError>
    ensures { OnOk result (string_bytes out.new ≡ string_bytes out.old ++ block_name from end) }
{
    put(out, PagePart::BlockOpen)?;
    put_number(out, u64::from(from))?;
    put(out, PagePart::BlockName)?;
    put_range(out, from, u64::from(end))?;
    put(out, PagePart::BlockLines)
}

/// Appends the lines of a block.
#[tactic(auto, unfolding(crate::specs::Blocks::list_block))]
fn put_list_block(
    alloc: Global,
    out: &mut String,
    plan: &Plan<'_>,
    log: &Log,
    from: u32,
    end: u32,
) -> Result<(), AllocError>
    requires log { plan.now.log ≡ log.now }
    requires end { end ≤ length log.now.entries }
    ensures { OnOk result (string_bytes out.new ≡ string_bytes out.old ++ list_block log.now.entries from end) }
{
    put_block_name(out, from, end)?;
    put_lines(alloc, out, plan, log, from, end)?;
    put(out, PagePart::BlockClose)
}

/// Appends the lines of the block that begins at that entry, if one does.
fn put_list_at(
    alloc: Global,
    out: &mut String,
    plan: &Plan<'_>,
    log: &Log,
    number: u32,
) -> Result<(), AllocError>
    requires log { plan.now.log ≡ log.now }
    ensures { OnOk result (string_bytes out.new ≡ string_bytes out.old ++ list_at log.now.entries number) }
{
    if begins_block(log, number) {
        put_list_block(alloc, out, plan, log, number, end_of(log, number))
    } else {
        Ok(())
    }
}

/// Appends the lines of all blocks.
#[tactic(auto, using(crash_text::proofs::Steps::text_next), unfolding(crate::specs::Blocks::list_blocks))]
fn put_list_blocks(
    alloc: Global,
    out: &mut String,
    plan: &Plan<'_>,
    log: &Log,
) -> Result<(), AllocError>
    requires log { plan.now.log ≡ log.now }
    ensures { OnOk result (string_bytes out.new ≡ string_bytes out.old ++ list_blocks log.now.entries) }
{
    let count = log.entries().len() as u32;
    for number in 0..count {
        put_list_at(alloc, out, plan, log, number)?;
    }
    Ok(())
}

/// Appends the list of the entries of a large log.
#[tactic(auto, unfolding(crate::specs::Blocks::large_list))]
pub(crate) fn put_large_list(
    alloc: Global,
    out: &mut String,
    plan: &Plan<'_>,
    log: &Log,
) -> Result<(), AllocError>
    requires log { plan.now.log ≡ log.now }
    ensures { OnOk result (string_bytes out.new ≡ string_bytes out.old ++ large_list log.now.entries) }
{
    put(out, PagePart::BlocksOpen)?;
    put_list_blocks(alloc, out, plan, log)?;
    put(out, PagePart::SectionClose)
}
