//! Marks that promise what nothing made durable (docs/CRASH-MODEL.md, Marks that promise too much).

ghost use Rattle.std.specs.Prelude.{ℕ, ◌≡◌, ◌+◌, ◌<◌, ◌≤◌, ◌++◌, ◌∷◌, [], List, Some, if◌then◌else◌, IsTrue, IsFalse, IfOk, OnOk, length, slice_index, slice_get};
ghost use Rattle.logfmt.specs.declared.entry.Entry.{Entry};
ghost use Rattle.request.specs.Promises.{forces, is_unforced, ArePromises, AreFirst};
ghost use Rattle.request.specs.Search.{AreWithin, is_among, AllAre, OneIsNot, AreStamped, TellForced, IsUnforced, NoneIsUnforced, IsJudged, IsSearched};

use arrayvec::ArrayVec;
use logfmt::{Entry, Log};
use std::alloc::{AllocError, Global};

/// The marks of a log that promise what nothing made durable.
#[derive(Drop)]
pub struct Promises {
    /// How many there are.
    pub count: usize,
    /// The entries of the first of them.
    pub first: ArrayVec<u32, 8>,
}

/// The search for such marks, which goes from entry to entry.
#[derive(Drop)]
pub(crate) struct PromiseSearch {
    /// For each sector the mark, plus 1, before which it was last seen that an entry with FUA covers the sector. Without sectors until a
    /// mark comes.
    pub(crate) stamps: Vec<u32>,
    /// The first entry that is looked at for the next mark.
    pub(crate) start: usize,
    /// What was found.
    pub(crate) found: Promises,
}

/// Whether all sectors of an entry have a stamp.
fn has_stamp(stamps: &[u32], stamp: u32, entry: &Entry) -> bool
    requires { 0 < entry.now.count → entry.now.sector + entry.now.count ≤ length stamps.now }
    ensures all { IsTrue result → AllAre stamps.now stamp entry.now.sector entry.now.count }
    ensures not { IsFalse result → OneIsNot stamps.now stamp entry.now.sector entry.now.count }
{
    for place in 0..entry.count {
        if stamps[(entry.sector + place) as usize] != stamp {
            return false;
        }
    }
    true
}

/// Gives all sectors of an entry a stamp.
fn put_stamp(stamps: &mut [u32], stamp: u32, entry: &Entry)
    requires { 0 < entry.now.count → entry.now.sector + entry.now.count ≤ length stamps.old }
    ensures { AreStamped (is_among entry.now.sector entry.now.count) stamp stamps.old stamps.new }
{
    for place in 0..entry.count {
        stamps[(entry.sector + place) as usize] = stamp;
    }
}

/// Whether an entry is a write without FUA of which a sector hasn't a stamp. One with FUA gives its sectors the stamp.
fn is_unforced(stamps: &mut [u32], stamp: u32, entry: &Entry) -> bool
    requires { 0 < entry.now.count → entry.now.sector + entry.now.count ≤ length stamps.old }
    ensures value { (es : List Entry) (e m : ℕ) → slice_get es e ≡ Some entry.now → TellForced es (e + 1) m stamp stamps.old → result ≡ is_unforced es m e }
    ensures stamped { AreStamped (λ s. forces s entry.now) stamp stamps.old stamps.new }
{
    if entry.flags.fua {
        put_stamp(stamps, stamp, entry);
        return false;
    }
    !entry.flags.discard && !has_stamp(stamps, stamp, entry)
}

/// Whether a mark promises too much by the entries from `start` on: goes back from the mark, and gives the sectors of entries with FUA
/// its stamp.
fn is_too_much(entries: &[Entry], start: usize, mark: usize, stamps: &mut [u32]) -> bool
    requires within { AreWithin (length stamps.old) entries.now }
    requires few { length entries.now ≤ 65536 }
    requires low { start ≤ mark }
    requires inside { mark < length entries.now }
    requires old { (n : ℕ) → slice_index stamps.old n ≤ mark }
    ensures some { IsTrue result → IsUnforced entries.now start mark }
    ensures none { IsFalse result → NoneIsUnforced entries.now start mark }
    ensures old { (n : ℕ) → slice_index stamps.new n ≤ mark + 1 }
    ensures long { length stamps.new ≡ length stamps.old }
{
    let stamp = mark as u32 + 1;
    for place in (start..mark).rev() {
        if is_unforced(stamps, stamp, &entries[place]) {
            return true;
        }
    }
    false
}

/// Makes a table of stamps as long as there are sectors.
fn make_room(stamps: &mut Vec<u32>, sectors: usize) -> Result<(), AllocError>
    ensures long { OnOk result (sectors ≤ length stamps.new.items) }
    ensures kept { OnOk result ((n : ℕ) → slice_index stamps.new.items n ≡ slice_index stamps.old.items n) }
{
    if stamps.len() < sectors {
        stamps.resize(sectors, 0)?;
    }
    Ok(())
}

impl Promises {
    /// Returns promises with nothing found yet.
    fn new() -> Promises
        ensures { AreFirst [] result }
    {
        Promises {
            count: 0,
            first: ArrayVec::new(),
        }
    }

    /// One more mark.
    fn add(&mut self, mark: u32)
        requires { self.old.count < 65536 }
        ensures { (marks : _) → AreFirst marks self.old → AreFirst (marks ++ mark ∷ []) self.new }
    {
        self.count += 1;
        if !self.first.is_full() {
            self.first.push(mark);
        }
    }
}

/// The first entry that is looked at for a mark, where an entry stands before it that may be a flush entry.
fn start_by(entry: &Entry, place: usize, start: usize) -> usize
    ensures { result ≡ (if entry.now.flags.flush then place else start) }
{
    if entry.flags.flush { place } else { start }
}

impl PromiseSearch {
    /// Judges a mark by the entries from the start on.
    fn judge(&mut self, entries: &[Entry], sectors: usize, mark: usize) -> Result<(), AllocError>
        requires within { AreWithin sectors entries.now }
        requires few { length entries.now ≤ 65536 }
        requires inside { mark < length entries.now }
        requires low { self.old.start ≤ mark }
        requires old { (n : ℕ) → slice_index self.old.stamps.items n ≤ mark }
        requires room { self.old.found.count < 65536 }
        ensures start { OnOk result (self.new.start ≡ self.old.start) }
        ensures old { OnOk result ((n : ℕ) → slice_index self.new.stamps.items n ≤ mark + 1) }
        ensures judged { OnOk result ((marks : List ℕ) → AreFirst marks self.old.found → IsJudged entries.now self.old.start mark marks self.new.found) }
    {
        make_room(&mut self.stamps, sectors)?;
        if is_too_much(entries, self.start, mark, self.stamps.as_mut_slice()) {
            self.found.add(mark as u32);
        }
        Ok(())
    }

    /// Looks at the next entry: judges it where it is a mark.
    fn pass(&mut self, entries: &[Entry], sectors: usize, place: usize) -> Result<(), AllocError>
        requires within { AreWithin sectors entries.now }
        requires few { length entries.now ≤ 65536 }
        requires inside { place < length entries.now }
        requires searched { IsSearched entries.now place self.old }
        ensures { OnOk result (IsSearched entries.now (place + 1) self.new) }
    {
        let entry = &entries[place];
        self.start = start_by(entry, place, self.start);
        if !entry.flags.mark {
            return Ok(());
        }
        self.judge(entries, sectors, place)?;
        self.start = place;
        Ok(())
    }
}

/// The marks of a log that promise what nothing made durable. It looks at each entry for one mark alone.
pub(crate) fn promises_of(alloc: Global, log: &Log) -> Result<Promises, AllocError>
    ensures { IfOk result (ArePromises log.now.entries) }
{
    let (entries, sectors) = (log.entries(), log.sectors() as usize);
    let mut search = PromiseSearch {
        stamps: Vec::new(alloc),
        start: 0,
        found: Promises::new(),
    };
    for place in 0..entries.len() {
        search.pass(entries, sectors, place)?;
    }
    Ok(search.found)
}
