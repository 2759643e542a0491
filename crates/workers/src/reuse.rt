//! What a worker knows of the images of a cut by the footprints of checkers.

ghost use Rattle.std.specs.Prelude.{◌≡◌, ◌<◌, ◌≤◌, ℕ, All, IsTrue, length, slice_get, Some, IfSome, OnOk, []};
ghost use Rattle.choices.specs.Picked.{IsRanked, choice_of_picked};
ghost use Rattle.checker.specs.Checker.{IsFor};
ghost use Rattle.checker.specs.Memory.{IsServed, AreServed};
ghost use Rattle.interp.specs.Ending.{ending_of};
ghost use Rattle.workers.specs.Failing.{Subject, image_count, ending_at};
ghost use Rattle.workers.specs.Reuse.{IsFound};
ghost use Rattle.workers.specs.Local.{IsTrueOf, Reaches, HoldsFrom, Tells, TellsAll};

use crate::entries::{Entries, KnownEntry};
use crate::input::{Input, stretch};
use crate::look::{EntryLook, Stop};
use checker::{Checker, RunMemory};
use choices::{Picked, fates};
use interp::Outcome;
use std::alloc::{AllocError, Global};
use std::marker::Model;

/// The fewest images of a cut of which something is kept.
const FEWEST_IMAGES: u64 = 64;

/// For each checker its entries of the cut at hand, which are emptied at another one, and whether they may tell something there;
/// and the image with which the next block may begin.
#[derive(Drop)]
pub(crate) struct Reuse {
    alloc: Global,
    place: Option<usize>,
    on: bool,
    entries: Vec<Entries>,
    next: Option<(u64, Picked)>,
}

impl Model for Reuse {
    ghost use Rattle.std.specs.Prelude.{if◌then◌else◌, None};
    ghost use Rattle.workers.specs.Local.{ReuseValue};

    ghost Value = { ReuseValue };

    ghost view = { λ r. record { place = if r.on then r.place else None; entries = r.entries.items; next = r.next } };
}

impl Reuse {
    /// Returns a reuse by which nothing is known.
    pub(crate) fn new(alloc: Global) -> Reuse
        ensures { (s : Subject) → IsTrueOf s result }
    {
        Reuse {
            alloc,
            place: None,
            on: false,
            entries: Vec::new(alloc),
            next: None,
        }
    }

    /// The picks of the choice of an image. Those after the images of the block before are at hand.
    pub(crate) fn start(&mut self, input: &Input<'_>, image: u64) -> Picked
        requires known { IsTrueOf input.now self.old }
        requires image { image < image_count input.now }
        ensures known { IsTrueOf input.now self.new }
        ensures picked { IsRanked input.now.plan input.now.bound input.now.tears image result }
    {
        match self.next.take() {
            Some((next, picked)) if next == image => picked,
            _ => input.picked(image),
        }
    }

    /// Keeps those of the image after a block.
    pub(crate) fn keep(&mut self, image: u64, picked: Picked)
        ensures { (s : Subject) → IsTrueOf s self.old → (image < image_count s → IsRanked s.plan s.bound s.tears image picked) → IsTrueOf s self.new }
    {
        self.next = Some((image, picked));
    }

    /// Whether something may be known of an image.
    #[inline(always)]
    pub(crate) fn is_on(&mut self, input: &Input<'_>, picked: &Picked) -> bool
        requires known { IsTrueOf input.now self.old }
        requires member { (n : ℕ) × IsRanked input.now.plan input.now.bound input.now.tears n picked.now }
        ensures known { IsTrueOf input.now self.new }
        ensures place { IsTrue result → self.new.place ≡ Some picked.now.place }
    {
        if self.place != Some(picked.place()) {
            return self.begin(input, picked);
        }
        self.on
    }

    /// Empties the entries at another cut, and answers whether something may be known there. There are none where it has few
    /// images, and none beside a cache: an outcome that the cache has comes without its footprint.
    #[inline(never)]
    fn begin(&mut self, input: &Input<'_>, picked: &Picked) -> bool
        requires known { IsTrueOf input.now self.old }
        requires member { (n : ℕ) × IsRanked input.now.plan input.now.bound input.now.tears n picked.now }
        ensures known { IsTrueOf input.now self.new }
        ensures place { IsTrue result → self.new.place ≡ Some picked.now.place }
    {
        self.place = Some(picked.place());
        self.on = false;
        let few = input.images_at(picked.place()) < FEWEST_IMAGES;
        if few || input.asked.bound == 0 || input.asked.cache > 0 {
            return false;
        }
        self.on = empty_entries(&mut self.entries, self.alloc, input.checkers.len()).is_ok();
        self.on
    }

    /// Returns how many of `most` images in a row, from one on, a checker is known to find good without a run of their own. In these
    /// images the last departure alone changes.
    fn look_by(
        &mut self,
        input: &Input<'_>,
        memory: &mut RunMemory,
        number: usize,
        checker: &Checker<'_>,
        picked: &Picked,
        most: u64,
    ) -> EntryLook
        requires known { IsTrueOf input.now self.old }
        requires place { self.old.place ≡ Some picked.now.place }
        requires member { (n : ℕ) × IsRanked input.now.plan input.now.bound input.now.tears n picked.now }
        requires within { number < length input.now.checkers }
        requires checker { slice_get input.now.checkers number ≡ Some checker.now }
        requires device { IsFor input.now.plan.log.sectors checker.now.verified }
        requires served { IsServed memory.old checker.now.guards }
        requires some { 1 ≤ most }
        requires reach { Reaches input.now picked.now most }
        ensures memory { memory.new ≡ memory.old }
        ensures known { IsTrueOf input.now self.new }
        ensures place { self.new.place ≡ self.old.place }
        ensures told { Tells input.now picked.now most number result }
    {
        let alloc = self.alloc;
        let own = &mut self.entries[number];
        let Some(found) = own.find(input, alloc, memory, checker, picked) else {
            return EntryLook::Stops(Stop {
                checker: number,
                outcome: None,
            });
        };
        let outcome = own.outcome(&found);
        if outcome.fails() {
            return EntryLook::Stops(Stop {
                checker: number,
                outcome: Some(outcome.copy()),
            });
        }
        EntryLook::Good(alike(input, own, &found, picked, most))
    }

    /// How many images in a row from one on all checkers find good, without a run of their own, or which checker doesn't.
    pub(crate) fn look(
        &mut self,
        input: &Input<'_>,
        memory: &mut RunMemory,
        picked: &Picked,
        most: u64,
    ) -> EntryLook
        requires known { IsTrueOf input.now self.old }
        requires place { self.old.place ≡ Some picked.now.place }
        requires member { (n : ℕ) × IsRanked input.now.plan input.now.bound input.now.tears n picked.now }
        requires some { 1 ≤ most }
        requires served { AreServed memory.old input.now.checkers }
        ensures memory { memory.new ≡ memory.old }
        ensures known { IsTrueOf input.now self.new }
        ensures place { self.new.place ≡ self.old.place }
        ensures told { TellsAll input.now picked.now most result }
    {
        let mut good = input.reach(picked, most);
        for (number, checker) in input.checkers.iter().enumerate() {
            match self.look_by(input, memory, number, checker, picked, good) {
                EntryLook::Good(count) => good = count,
                EntryLook::Stops(stop) => return EntryLook::Stops(stop),
            }
        }
        EntryLook::Good(good)
    }

    /// What a checker ends in on the image at hand, if that is known.
    pub(crate) fn outcome(
        &mut self,
        input: &Input<'_>,
        memory: &mut RunMemory,
        number: usize,
        checker: &Checker<'_>,
        picked: &Picked,
    ) -> Option<Outcome>
        requires known { IsTrueOf input.now self.old }
        requires place { self.old.place ≡ Some picked.now.place }
        requires member { (n : ℕ) × IsRanked input.now.plan input.now.bound input.now.tears n picked.now }
        requires within { number < length input.now.checkers }
        requires checker { slice_get input.now.checkers number ≡ Some checker.now }
        requires device { IsFor input.now.plan.log.sectors checker.now.verified }
        requires served { IsServed memory.old checker.now.guards }
        ensures memory { memory.new ≡ memory.old }
        ensures known { IsTrueOf input.now self.new }
        ensures place { self.new.place ≡ self.old.place }
        ensures ends { IfSome result (λ outcome. ending_of outcome ≡ ending_at input.now (choice_of_picked input.now.plan picked.now) checker.now) }
    {
        let alloc = self.alloc;
        let own = &mut self.entries[number];
        let found = own.find(input, alloc, memory, checker, picked)?;
        Some(own.outcome(&found).copy())
    }

    /// Keeps nothing more of this cut where no entry can tell anything.
    #[inline(always)]
    pub(crate) fn end_if_vain(&mut self)
        ensures { (s : Subject) → IsTrueOf s self.old → IsTrueOf s self.new }
    {
        if are_vain(&self.entries) {
            self.on = false;
        }
    }
}

/// Whether no entry can tell anything.
#[inline(always)]
fn are_vain(entries: &[Entries]) -> bool {
    for own in entries {
        if !own.is_vain() {
            return false;
        }
    }
    true
}

/// Empties all lists of entries, and adds empty ones until there are at least `count`.
fn empty_entries(entries: &mut Vec<Entries>, alloc: Global, count: usize) -> Result<(), AllocError>
    ensures empty { OnOk result (All (λ own. own ≡ []) entries.new.items) }
    ensures enough { OnOk result (count ≤ length entries.new.items) }
{
    clear_all(entries.as_mut_slice());
    while entries.len() < count {
        entries.push(Entries::new(alloc)?)?;
    }
    Ok(())
}

/// Empties each list of entries.
fn clear_all(entries: &mut [Entries])
    ensures { All (λ own. own ≡ []) entries.new }
{
    for own in entries.iter_mut() {
        own.clear();
    }
}

/// Returns of how many of `most` images in a row the entry speaks that was found for the first of them. In these images the last
/// departure alone changes.
fn alike(input: &Input<'_>, own: &Entries, found: &KnownEntry, picked: &Picked, most: u64) -> u64
    requires found { IsFound own.now picked.now.picks found.now }
    requires member { (n : ℕ) × IsRanked input.now.plan input.now.bound input.now.tears n picked.now }
    requires some { 1 ≤ most }
    ensures some { 1 ≤ result }
    ensures most { result ≤ most }
    ensures alike { (is : IsFound own.now picked.now.picks found.now) → HoldsFrom input.now picked.now found.now is.entry result }
{
    let picks = picked.picks();
    if picks.is_empty() {
        return 1;
    }
    let at = picks.len() - 1;
    if found.marks[at] {
        return 1;
    }
    let last = picks[at];
    match own.next_told(found, last.part) {
        Some(next) => stretch(fates(input.asked.tears), last, next).min(most),
        None => most,
    }
}
