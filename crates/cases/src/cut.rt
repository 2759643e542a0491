//! A cut of a log, with what a crash may take there.

ghost use Rattle.std.specs.Prelude.{◌≡◌, ◌+◌, ◌^◌, ◌<◌, ◌≤◌, ◌++◌, ◌==◌, ◌||◌, not, length, filter, slice_get, Some, IfOk, OnOk};
ghost use Rattle.logfmt.specs.declared.entry.Entry.{Entry as LogEntry};
ghost use Rattle.epochs.specs.declared.part.Part.{Part as LogPart};
ghost use Rattle.epochs.specs.Laws.{last_flush};
ghost use Rattle.epochs.specs.Parts.{parts_of_entry, part_size};
ghost use Rattle.base.specs.Sizes.{most_sectors};
ghost use Rattle.logfmt.specs.Bounds.{IsLog};
ghost use Rattle.cases.specs.Risk.{is_at_risk, parts_at_risk};
ghost use Rattle.cases.specs.AtCut.{parts_of, Apart};

use epochs::{By, Part, last_flush};
use logfmt::{Entry, Log};
use std::alloc::{AllocError, Global};
use std::marker::Model;

/// A cut of a log, and the parts of which a crash may take something there (docs/CRASH-MODEL.md, Any number of losses).
///
/// Contracts see it as the log, what departs as one, and the number of the cut.
#[derive(Drop)]
pub struct Cut<'a> {
    log: &'a Log<'a>,
    way: By,
    number: u32,
    /// The last flush entry before the cut, or 0.
    flush: u32,
    parts: Vec<Part>,
}

impl<'a> Model for Cut<'a> {
    ghost use Rattle.cases.specs.AtCut.{CutValue};
    ghost use Rattle.cases.specs.Table.{IsCut};

    ghost Value = { CutValue };

    ghost view = { λ c. record { log = c.log.now; way = c.way; cut = c.number } };

    ghost invariant = { λ c. IsCut (record { log = c.log.now; way = c.way; cut = c.number }) c.flush c.parts.items };
}

/// How many sectors a part of an entry has.
fn size_of(way: By, entry: &Entry) -> u64
    ensures { result ≡ part_size way entry.now }
{
    match way {
        By::Sector => 1,
        By::Write => entry.count,
    }
}

/// Appends the parts of an entry.
fn put_parts(parts: &mut Vec<Part>, way: By, number: u32, entry: &Entry) -> Result<(), AllocError>
    requires device { 0 < entry.now.count → entry.now.sector + entry.now.count ≤ most_sectors }
    requires fits { entry.now.sector < 2 ^ 64 }
    ensures { OnOk result (parts.new.items ≡ parts.old.items ++ parts_of_entry way number entry.now) }
{
    let size = size_of(way, entry);
    for place in 0..way.parts(entry) {
        let before = place * size;
        parts.push(Part {
            entry: number,
            place: before as u32,
            count: size as u32,
            sector: (entry.sector + before) as u32,
        })?;
    }
    Ok(())
}

/// Whether an entry isn't forced to the device with its data, or is the last before a cut, and so in flight.
fn is_open(forced: bool, number: u32, cut: u32) -> bool
    requires { number < cut }
    ensures { result ≡ (not forced || (number + 1 == cut)) }
{
    if forced { number + 1 == cut } else { true }
}

/// Whether a crash may take something of an entry at a cut, by the last flush entry before that.
pub fn is_risky(entries: &[Entry], cut: u32, flush: u32, number: u32) -> bool
    requires cut { cut ≤ length entries.now }
    requires number { number < cut }
    requires flush { flush ≡ last_flush entries.now cut }
    ensures { result ≡ is_at_risk entries.now cut number }
{
    let open = is_open(entries[number as usize].flags.fua, number, cut);
    if open { flush <= number } else { false }
}

/// Appends the parts of an entry, if a crash may take something of it at a cut.
fn put_risky(
    parts: &mut Vec<Part>,
    log: &Log,
    way: By,
    cut: u32,
    flush: u32,
    number: u32,
) -> Result<(), AllocError>
    requires cut { cut ≤ length log.now.entries }
    requires number { number < cut }
    requires flush { flush ≡ last_flush log.now.entries cut }
    ensures { OnOk result ((x : LogEntry) → slice_get log.now.entries number ≡ Some x
        → parts.new.items ≡ parts.old.items ++ filter (λ (p : LogPart). is_at_risk log.now.entries cut p.entry) (parts_of_entry way number x)) }
{
    let entries = log.entries();
    if is_risky(entries, cut, flush, number) {
        put_parts(parts, way, number, &entries[number as usize])?;
    }
    Ok(())
}

/// The parts at risk at a cut, by entry and then by sector. No entry before the last flush entry has one.
fn parts_at_risk(
    alloc: Global,
    log: &Log,
    way: By,
    cut: u32,
    flush: u32,
) -> Result<Vec<Part>, AllocError>
    requires cut { cut ≤ length log.now.entries }
    requires flush { flush ≡ last_flush log.now.entries cut }
    ensures { IfOk result (λ parts. parts.items ≡ parts_at_risk way log.now.entries cut) }
{
    let mut parts = Vec::new(alloc);
    for number in flush..cut {
        put_risky(&mut parts, log, way, cut, flush, number)?;
    }
    Ok(parts)
}

impl<'a> Cut<'a> {
    /// A cut of a log. It takes memory for each part at risk.
    pub fn new(alloc: Global, log: &'a Log<'a>, way: By, number: u32) -> Result<Cut<'a>, AllocError>
        requires { number ≤ length log.now.entries }
        ensures { IfOk result (λ cut. cut ≡ record { log = log.now; way = way; cut = number }) }
    {
        let flush = last_flush(log.entries(), number);
        let parts = parts_at_risk(alloc, log, way, number, flush)?;
        Ok(Cut {
            log,
            way,
            number,
            flush,
            parts,
        })
    }

    /// The parts at risk, by entry and then by sector, each once.
    pub fn parts(&self) -> &[Part]
        ensures value { result.now ≡ parts_of self.now }
        ensures apart { Apart (parts_of self.now) }
    {
        self.parts.as_slice()
    }

    /// The log.
    pub(crate) fn log(&self) -> &'a Log<'a>
        ensures value { result.now ≡ self.now.log }
        ensures bounds { IsLog self.now.log }
        ensures within { self.now.cut ≤ length self.now.log.entries }
    {
        self.log
    }

    /// What departs as one.
    pub(crate) fn way(&self) -> By
        ensures { result ≡ self.now.way }
    {
        self.way
    }

    /// The number of the cut.
    pub fn number(&self) -> u32
        ensures value { result ≡ self.now.cut }
        ensures within { result ≤ length self.now.log.entries }
    {
        self.number
    }

    /// The last flush entry before the cut, or 0. No entry before it is at risk.
    pub(crate) fn flush(&self) -> u32
        ensures value { result ≡ last_flush self.now.log.entries self.now.cut }
        ensures low { result ≤ self.now.cut }
    {
        self.flush
    }

    /// Whether a crash may take something of an entry.
    pub(crate) fn risks(&self, number: u32) -> bool
        requires { number < self.now.cut }
        ensures { result ≡ is_at_risk self.now.log.entries self.now.cut number }
    {
        is_risky(self.log.entries(), self.number, self.flush, number)
    }
}
