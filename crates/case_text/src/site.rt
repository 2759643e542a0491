//! A cut, with what is the same in each of its lines.

ghost use Rattle.std.specs.Prelude.{◌≡◌, ◌<◌, ◌≤◌, length, IfOk};
ghost use Rattle.epochs.specs.Laws.{last_flush};
ghost use Rattle.epochs.specs.Units.{epoch_at, marks_at};
ghost use Rattle.cases.specs.AtCut.{Apart, parts_of};
ghost use Rattle.case_text.specs.Window.{stays, last_staying, later, between};

use crate::known::KnownParts;
use cases::{Cut, is_risky};
use epochs::{By, Part, Plan, last_flush};
use logfmt::{Entry, Log};
use losses::flushes::Window;
use std::alloc::{AllocError, Global};
use std::marker::Model;

/// A cut, with what is the same in each of its lines.
#[derive(Drop)]
pub struct Site<'a> {
    cut: Cut<'a>,
    by: By,
    tears: bool,
    epoch: u32,
    marks: u32,
    /// The last entry that stands on each of its images.
    staying: Option<u32>,
}

impl<'a> Model for Site<'a> {
    ghost use Rattle.case_text.specs.Collected.{SiteValue, IsSite};

    ghost Value = { SiteValue };

    ghost view = { λ s. record { at = s.cut; tears = s.tears } };

    ghost invariant = { λ s. IsSite (record { at = s.cut; tears = s.tears }) s.by s.epoch s.marks s.staying };
}

/// Whether an entry stands on each image of a cut.
fn stays(by: By, entries: &[Entry], cut: u32, flush: u32, number: u32) -> bool
    requires cut { cut ≤ length entries.now }
    requires number { number < cut }
    requires flush { flush ≡ last_flush entries.now cut }
    ensures { result ≡ stays by entries.now cut number }
{
    let risk = is_risky(entries, cut, flush, number);
    let entry = &entries[number as usize];
    entry.flags.mark || (0 < by.parts(entry) && !risk)
}

/// The last entry that stands on each image of a cut.
fn last_staying(by: By, log: &Log, cut: u32) -> Option<u32>
    requires { cut ≤ length log.now.entries }
    ensures { result ≡ last_staying (record { log = log.now; way = by; cut = cut }) }
{
    let entries = log.entries();
    let flush = last_flush(entries, cut);
    let mut number = cut;
    while number > 0 {
        number -= 1;
        if stays(by, entries, cut, flush, number) {
            return Some(number);
        }
    }
    None
}

/// The later of two entries, each of which there may not be.
fn later(one: Option<u32>, other: Option<u32>) -> Option<u32>
    ensures { result ≡ later one other }
{
    match (one, other) {
        (Some(one), Some(other)) => Some(one.max(other)),
        (Some(one), None) => Some(one),
        (None, other) => other,
    }
}

/// The window from after the first entry to the second, if that is later.
fn between(first: Option<u32>, last: Option<u32>) -> Option<Window>
    ensures { result ≡ between first last }
{
    let first = first?;
    let last = last?;
    if first < last {
        Some(Window {
            start: first + 1,
            end: last,
        })
    } else {
        None
    }
}

impl<'a> Site<'a> {
    /// A cut of a log.
    ///
    /// # Errors
    ///
    /// Memory was refused.
    pub fn new(
        alloc: Global,
        plan: &Plan<'_>,
        log: &'a Log<'a>,
        by: By,
        tears: bool,
        number: u32,
    ) -> Result<Site<'a>, AllocError>
        requires plan { plan.now.log ≡ log.now }
        requires cut { number ≤ length log.now.entries }
        ensures { IfOk result (λ site. site ≡ record { at = record { log = log.now; way = by; cut = number }; tears = tears }) }
    {
        let cut = Cut::new(alloc, log, by, number)?;
        Ok(Site {
            cut,
            by,
            tears,
            epoch: plan.epoch(number),
            marks: plan.marks(number),
            staying: last_staying(by, log, number),
        })
    }

    /// The number of the cut.
    pub fn number(&self) -> u32
        ensures { result ≡ self.now.at.cut }
    {
        self.cut.number()
    }

    /// Its epoch.
    pub fn epoch(&self) -> u32
        ensures { result ≡ epoch_at self.now.at.log.entries self.now.at.cut }
    {
        self.epoch
    }

    /// How many marks stand before it.
    pub fn marks(&self) -> u32
        ensures { result ≡ marks_at self.now.at.log.entries self.now.at.cut }
    {
        self.marks
    }

    /// What departs as one.
    pub fn by(&self) -> By
        ensures { result ≡ self.now.at.way }
    {
        self.by
    }

    /// Whether parts may be torn.
    pub fn tears(&self) -> bool
        ensures { result ≡ self.now.tears }
    {
        self.tears
    }

    /// The parts at risk.
    pub fn parts(&self) -> &[Part]
        ensures value { result.now ≡ parts_of self.now.at }
        ensures apart { Apart result.now }
    {
        self.cut.parts()
    }

    /// The window of a case, by what is known of it.
    pub fn window(&self, known: &KnownParts) -> Option<Window>
        ensures { result ≡ between known.now.first_lost (later (last_staying self.now.at) known.now.last_arrived) }
    {
        between(known.first_lost, later(self.staying, known.last_arrived))
    }
}
