//! What is known of a checker at a cut by its footprints.

ghost use Rattle.std.specs.Prelude.{◌≡◌, ◌<◌, ◌≤◌, ◌++◌, ℕ, [], false, is_none, length, slice_get, IfOk, IfSome, Some, List};
ghost use Rattle.std.specs.Option.{option_map_or};
ghost use Rattle.logfmt.specs.Bounds.{IsLog};
ghost use Rattle.choices.specs.Picked.{IsRanked, marked_picks};
ghost use Rattle.images.specs.Views.{context_at, sectors_of};
ghost use Rattle.interp.specs.Ending.{ending_of};
ghost use Rattle.checker.specs.Checker.{IsFor, judgement};
ghost use Rattle.checker.specs.Footprints.{kept_footprint};
ghost use Rattle.checker.specs.Memory.{IsServed};
ghost use Rattle.workers.specs.Entries.{AddsTold};
ghost use Rattle.workers.specs.Reuse.{AreKnown, EntryValue, IsEntryOf, IsFound, IsNextTold, Rises, tells, told_or};

use crate::input::Input;
use crate::told::{PLACES, above, are_marked, first_told, place_of};
use checker::{Checker, RunMemory};
use choices::{Choice, Pick, Picked};
use epochs::Plan;
use helpers::Footprint;
use images::View;
use interp::{Noted, Outcome};
use std::alloc::{AllocError, Global};
use std::marker::Model;

/// The most sectors of a footprint that is kept.
const ROOM: usize = 32;

/// The most choices of a cut of which the outcome is kept.
const MOST_ENTRIES: usize = 1024;

/// The most parts that these keep together, but for those of one.
const MOST_PARTS: usize = 65_536;

/// What a checker ends in on the image of a choice, and which of the volatile parts of the cut cover a sector of the
/// footprint of that run: those in the list of all from `first` to before `end`, by their numbers, rising. With `all`
/// each may: it isn't known which, or they are more than half.
#[derive(Drop)]
struct FootprintEntry {
    choice: Picked,
    outcome: Outcome,
    first: usize,
    end: usize,
    all: bool,
}

/// What a checker ends in on some choices of a cut. The index leads from the departures of a choice to a place where its
/// entry may stand; what stands there is compared.
///
/// Contracts see the entries.
#[derive(Drop)]
pub(crate) struct Entries {
    entries: Vec<FootprintEntry>,
    parts: Vec<u32>,
    index: Vec<u16>,
}

impl Model for Entries {
    ghost use Rattle.std.specs.Prelude.{List, map};
    ghost use Rattle.workers.specs.Reuse.{EntryValue};

    ghost Value = { List EntryValue };

    ghost use Rattle.workers.specs.Entries.{AreKept, entry_value};

    ghost view = { λ e. map (entry_value e.parts.items) e.entries.items };

    ghost invariant = { λ e. AreKept e.entries.items e.parts.items e.index.items };
}

/// An entry that holds for an image, and which of its departures the entry has.
#[derive(Clone, Copy)]
pub(crate) struct KnownEntry {
    entry: usize,
    pub(crate) marks: [bool; 3],
}

/// What a checker ends in on an image, where it is run, with the footprint of that run.
fn noted_on(memory: &mut RunMemory, view: &View<'_>, checker: &Checker<'_>) -> Noted<ROOM>
    requires device { IsFor view.now.log.sectors checker.now.verified }
    requires served { IsServed memory.old checker.now.guards }
    ensures ends { ending_of result.outcome ≡ judgement checker.now (sectors_of view.now) (context_at view.now.log view.now.cut) }
    ensures looks { result.footprint ≡ kept_footprint 32 checker.now (sectors_of view.now) (context_at view.now.log view.now.cut) }
    ensures bounds { IsLog view.now.log }
    ensures memory { memory.new ≡ memory.old }
{
    let context = view.context();
    checker.judge_noted::<View<'_>, ROOM>(memory, &context, view)
}

/// Adds the volatile parts of a cut that cover a sector of a footprint, and answers whether that was done: it is where they
/// are at most half of all, and there is room.
fn put_told(
    parts: &mut Vec<u32>,
    plan: &Plan<'_>,
    cut: u32,
    footprint: &Footprint<ROOM>,
) -> Result<bool, AllocError>
    requires { cut ≤ length plan.now.log.entries }
    ensures told { IfOk result (AddsTold parts.old.items parts.new.items plan.now cut footprint.now) }
    ensures added { (more : List ℕ) × (parts.new.items ≡ parts.old.items ++ more) }
{
    let Some(sectors) = footprint.sectors() else {
        return Ok(false);
    };
    if parts.len() >= MOST_PARTS {
        return Ok(false);
    }
    plan.put_touching(parts, cut, sectors, plan.volatile(cut) / 2)
}

impl Entries {
    /// Returns entries by which nothing is known.
    pub(crate) fn new(alloc: Global) -> Result<Entries, AllocError>
        ensures { IfOk result (λ entries. entries ≡ []) }
    {
        let mut index = Vec::new(alloc);
        index.resize(PLACES, 0)?;
        Ok(Entries {
            entries: Vec::new(alloc),
            parts: Vec::new(alloc),
            index,
        })
    }

    /// Empties the entries, since nothing is known of another cut.
    pub(crate) fn clear(&mut self)
        ensures { self.new ≡ [] }
    {
        self.entries.clear();
        self.parts.clear();
    }

    /// Whether footprints tell nothing at this cut: that of the run on the image in which nothing departs doesn't.
    pub(crate) fn is_vain(&self) -> bool
        ensures { result ≡ option_map_or (λ (entry : EntryValue). is_none entry.told) (slice_get self.now 0) false }
    {
        match self.entries.as_slice().first() {
            Some(entry) => entry.all,
            None => false,
        }
    }

    /// How many entries there are.
    fn len(&self) -> usize
        ensures value { result ≡ length self.now }
        ensures few { result ≤ 1024 }
    {
        self.entries.len()
    }

    /// The entry of the marked departures.
    fn entry_of(&self, picks: &[Pick], marks: &[bool; 3]) -> Option<usize>
        requires { length picks.now ≤ 3 }
        ensures { IfSome result (λ entry. IsEntryOf self.now entry (marked_picks marks.now picks.now)) }
    {
        let place = usize::from(self.index[place_of(picks, marks)]);
        let entry = self.entries.as_slice().get(place)?;
        if are_marked(entry.choice.picks(), picks, marks) {
            Some(place)
        } else {
            None
        }
    }

    /// Whether each part may be told by an entry, or else which.
    fn told(&self, entry: usize) -> (bool, &[u32])
        requires { entry < length self.now }
        ensures told { (value : EntryValue) → slice_get self.now entry ≡ Some value → value.told ≡ told_or result.0 result.1.now }
        ensures rising { Rises result.1.now }
    {
        let own = &self.entries[entry];
        (own.all, &self.parts.as_slice()[own.first..own.end])
    }

    /// Runs the checker on the image of the marked departures, and adds its entry.
    fn learn(
        &mut self,
        input: &Input<'_>,
        alloc: Global,
        memory: &mut RunMemory,
        checker: &Checker<'_>,
        picked: &Picked,
        marks: &[bool; 3],
    ) -> Result<usize, AllocError>
        requires room { length self.old < 1024 }
        requires known { AreKnown input.now picked.now.place checker.now self.old }
        requires device { IsFor input.now.plan.log.sectors checker.now.verified }
        requires served { IsServed memory.old checker.now.guards }
        requires member { (n : ℕ) × IsRanked input.now.plan input.now.bound input.now.tears n picked.now }
        ensures memory { memory.new ≡ memory.old }
        ensures known { AreKnown input.now picked.now.place checker.now self.new }
        ensures entry { IfOk result (λ entry. IsEntryOf self.new entry (marked_picks marks.now picked.now.picks)) }
    {
        let choice = picked.only(input.plan, marks);
        let view = input.history.view(alloc, &choice)?;
        let run = noted_on(memory, &view, checker);
        let first = self.parts.len();
        let told = put_told(&mut self.parts, input.plan, choice.cut(), &run.footprint)?;
        let entry = self.entries.len();
        self.entries.push(FootprintEntry {
            choice: Picked::of(&choice),
            outcome: run.outcome,
            first,
            end: self.parts.len(),
            all: !told,
        })?;
        self.index[place_of(picked.picks(), marks)] = entry as u16;
        Ok(entry)
    }

    /// The entry of the marked departures. It is added where there is room and memory for it.
    fn entry_known(
        &mut self,
        input: &Input<'_>,
        alloc: Global,
        memory: &mut RunMemory,
        checker: &Checker<'_>,
        picked: &Picked,
        marks: &[bool; 3],
    ) -> Option<usize>
        requires known { AreKnown input.now picked.now.place checker.now self.old }
        requires device { IsFor input.now.plan.log.sectors checker.now.verified }
        requires served { IsServed memory.old checker.now.guards }
        requires member { (n : ℕ) × IsRanked input.now.plan input.now.bound input.now.tears n picked.now }
        ensures memory { memory.new ≡ memory.old }
        ensures known { AreKnown input.now picked.now.place checker.now self.new }
        ensures entry { IfSome result (λ entry. IsEntryOf self.new entry (marked_picks marks.now picked.now.picks)) }
    {
        if let Some(entry) = self.entry_of(picked.picks(), marks) {
            return Some(entry);
        }
        if self.len() >= MOST_ENTRIES {
            return None;
        }
        self.learn(input, alloc, memory, checker, picked, marks)
            .ok()
    }

    /// The entry that holds for an image, if there is one: of those of its departures that the runs so far could tell.
    pub(crate) fn find(
        &mut self,
        input: &Input<'_>,
        alloc: Global,
        memory: &mut RunMemory,
        checker: &Checker<'_>,
        picked: &Picked,
    ) -> Option<KnownEntry>
        requires known { AreKnown input.now picked.now.place checker.now self.old }
        requires device { IsFor input.now.plan.log.sectors checker.now.verified }
        requires served { IsServed memory.old checker.now.guards }
        requires member { (n : ℕ) × IsRanked input.now.plan input.now.bound input.now.tears n picked.now }
        ensures memory { memory.new ≡ memory.old }
        ensures known { AreKnown input.now picked.now.place checker.now self.new }
        ensures found { IfSome result (λ found. IsFound self.new picked.now.picks found) }
    {
        let mut marks = [false; 3];
        for _turn in 0..input.asked.bound {
            let entry = self.entry_known(input, alloc, memory, checker, picked, &marks)?;
            let (all, told) = self.told(entry);
            match first_told(all, told, picked.picks(), &marks) {
                None => return Some(KnownEntry { entry, marks }),
                Some(_) if all => return None,
                Some(place) => marks[place] = true,
            }
        }
        None
    }

    /// The outcome that is found.
    pub(crate) fn outcome(&self, found: &KnownEntry) -> &Outcome
        requires { found.now.entry < length self.now }
        ensures { (entry : EntryValue) → slice_get self.now found.now.entry ≡ Some entry → ending_of result.now ≡ entry.ending }
    {
        &self.entries[found.entry].outcome
    }

    /// The first part after one that is told.
    pub(crate) fn next_told(&self, found: &KnownEntry, part: u32) -> Option<u32>
        requires { found.now.entry < length self.now }
        ensures { (entry : EntryValue) → slice_get self.now found.now.entry ≡ Some entry → tells entry.told part ≡ false → IsNextTold entry.told part result }
    {
        let (_all, told) = self.told(found.entry);
        above(told, part)
    }
}
