//! Programs that pass without looking at what a log writes (docs/CRASH-MODEL.md, A checker that looks at nothing).

ghost use Rattle.std.specs.Prelude.{◌≡◌, ◌≤◌, ◌<◌, ◌+◌, ◌&&◌, ℕ, not, length, map, IsTrue, IfOk, slice_get, Some, true, false};
ghost use Rattle.std.specs.List.{list_all};
ghost use Rattle.std.specs.Option.{option_map_or};
ghost use Rattle.epochs.specs.Cuts.{cuts_of};
ghost use Rattle.images.specs.Views.{IsMember, view_of};
ghost use Rattle.helpers.specs.Footprint.{lists};
ghost use Rattle.interp.specs.Ending.{ending_of};
ghost use Rattle.checker.specs.Checker.{IsFor, AreFor};
ghost use Rattle.checker.specs.Memory.{IsServed};
ghost use Rattle.machine.specs.Outcome.{fails};
ghost use Rattle.runs.specs.Blind.{covers, is_bare, ending_on, looks_on, whole_at, is_blind, changes, has_few_contexts, is_noticed, same_context, IsLastContext};

use crate::task::Task;
use arrayvec::ArrayVec;
use checker::{Checker, RunMemory};
use choices::{Choice, Starts};
use epochs::Plan;
use images::{History, View};
use interp::Noted;
use logfmt::Entry;
use std::alloc::{AllocError, Global};

/// The most sectors of a footprint that is kept.
const ROOM: usize = 32;

/// The most flushes and marks that are taken for few, however many cuts are wanted.
const MOST_CHANGES: u32 = 1024;

/// How many sectors are kept of which it is known that no entry writes or discards them.
const KEPT: usize = 64;

/// Whether an entry writes or discards a sector.
fn covers(entry: &Entry, sector: u32) -> bool
    ensures { result ≡ covers sector entry.now }
{
    let sector = u64::from(sector);
    entry.sector <= sector && sector - entry.sector < entry.count
}

/// Whether no entry does.
fn is_bare(entries: &[Entry], sector: u32) -> bool
    ensures { result ≡ is_bare entries.now sector }
{
    for entry in entries {
        if covers(entry, sector) {
            return false;
        }
    }
    true
}

/// Whether a number is one of those.
fn lists(numbers: &[u32], number: u32) -> bool
    ensures { result ≡ lists numbers.now number }
{
    for own in numbers {
        if *own == number {
            return true;
        }
    }
    false
}

/// Whether no entry writes or discards a sector, by what is known of some sectors. One of which it is found is known then, where
/// there is room.
fn is_bare_by(entries: &[Entry], known: &mut ArrayVec<u32, KEPT>, sector: u32) -> bool
    requires known { list_all (is_bare entries.now) known.old.items ≡ true }
    ensures value { result ≡ is_bare entries.now sector }
    ensures known { list_all (is_bare entries.now) known.new.items ≡ true }
{
    if lists(known.as_slice(), sector) {
        return true;
    }
    let bare = is_bare(entries, sector);
    if bare && !known.is_full() {
        known.push(sector);
    }
    bare
}

/// Whether no entry writes or discards one of those sectors.
fn are_bare(entries: &[Entry], known: &mut ArrayVec<u32, KEPT>, sectors: &[u32]) -> bool
    requires known { list_all (is_bare entries.now) known.old.items ≡ true }
    ensures value { result ≡ list_all (is_bare entries.now) sectors.now }
    ensures known { list_all (is_bare entries.now) known.new.items ≡ true }
{
    for sector in sectors {
        if !is_bare_by(entries, known, *sector) {
            return false;
        }
    }
    true
}

/// What a checker ends in on an image, with the footprint of that run.
#[tactic(auto, unfolding(crate::specs::Blind::ending_on, crate::specs::Blind::looks_on))]
fn noted_on(memory: &mut RunMemory, view: &View<'_>, checker: &Checker<'_>) -> Noted<ROOM>
    requires device { IsFor view.now.log.sectors checker.now.verified }
    requires served { IsServed memory.old checker.now.guards }
    ensures ends { ending_of result.outcome ≡ ending_on checker.now view.now }
    ensures looks { result.footprint.sectors ≡ looks_on checker.now view.now }
    ensures memory { memory.new ≡ memory.old }
{
    let context = view.context();
    checker.judge_noted::<View<'_>, ROOM>(memory, &context, view)
}

/// Whether a run passed and looked at no sector that an entry writes or discards.
fn was_blind(entries: &[Entry], known: &mut ArrayVec<u32, KEPT>, run: &Noted<ROOM>) -> bool
    requires known { list_all (is_bare entries.now) known.old.items ≡ true }
    ensures value { result ≡ not (fails (ending_of run.now.outcome)) && option_map_or (list_all (is_bare entries.now)) run.now.footprint.sectors false }
    ensures known { list_all (is_bare entries.now) known.new.items ≡ true }
{
    if run.outcome.fails() {
        return false;
    }
    match run.footprint.sectors() {
        Some(sectors) => are_bare(entries, known, sectors),
        None => false,
    }
}

/// The choice of a wanted cut in which nothing is lost or torn.
fn whole_choice(starts: &Starts<'_>, place: usize) -> Choice
    requires { place < length (cuts_of starts.now.plan.kind starts.now.plan.log.entries) }
    ensures member { IsMember starts.now.plan result }
    ensures whole { (cut : ℕ) → slice_get (cuts_of starts.now.plan.kind starts.now.plan.log.entries) place ≡ Some cut → view_of starts.now.plan result ≡ whole_at starts.now.plan.log cut }
{
    let (first, _end) = starts.range_of(place);
    starts.nth(first)
}

/// The image of a wanted cut in which nothing is lost or torn.
fn whole_view<'x>(
    alloc: Global,
    starts: &Starts<'_>,
    history: &'x History<'x>,
    place: usize,
) -> Result<View<'x>, AllocError>
    requires same { history.now ≡ starts.now.plan }
    requires place { place < length (cuts_of starts.now.plan.kind starts.now.plan.log.entries) }
    ensures log { IfOk result (λ view. view.log ≡ starts.now.plan.log) }
    ensures whole { IfOk result (λ view. (cut : ℕ) → slice_get (cuts_of starts.now.plan.kind starts.now.plan.log.entries) place ≡ Some cut
        → view ≡ whole_at starts.now.plan.log cut) }
{
    let choice = whole_choice(starts, place);
    history.view(alloc, &choice)
}

/// Whether two cuts have the same epoch and the same marks.
fn is_same_context(plan: &Plan<'_>, last: u32, cut: u32) -> bool
    requires last { last ≤ length plan.now.log.entries }
    requires cut { cut ≤ length plan.now.log.entries }
    ensures { result ≡ same_context plan.now.log.entries last cut }
{
    plan.epoch(last) == plan.epoch(cut) && plan.marks(last) == plan.marks(cut)
}

/// Whether a wanted cut has the epoch and the marks of the one before it. There a checker is blind that was so before: what it
/// looked at, no entry changed.
fn has_last_context(plan: &Plan<'_>, place: usize) -> bool
    requires inside { place < length (cuts_of plan.now.kind plan.now.log.entries) }
    ensures some { IsTrue result → 0 < place }
    ensures same { IsTrue result → (last : ℕ) × (cut : ℕ) × IsLastContext plan.now place last cut }
{
    if place == 0 {
        return false;
    }
    let cuts = plan.cuts();
    let (last, cut) = (cuts[place - 1], cuts[place]);
    is_same_context(plan, last, cut)
}

/// Whether a checker passes on the image of each wanted cut in which nothing is lost or torn, and looks there at no sector that an
/// entry writes or discards; and there is a wanted cut.
fn is_blind(
    alloc: Global,
    task: &Task<'_>,
    starts: &Starts<'_>,
    history: &History<'_>,
    checker: &Checker<'_>,
) -> Result<bool, AllocError>
    requires starts { starts.now.plan ≡ task.now.plan.now }
    requires history { history.now ≡ task.now.plan.now }
    requires device { IsFor task.now.log.now.sectors checker.now.verified }
    ensures { IfOk result (λ blind. blind ≡ is_blind task.now.plan.now checker.now) }
{
    let (plan, entries) = (task.plan, task.log.entries());
    let cuts = plan.cuts();
    let mut memory = RunMemory::of(alloc, checker)?;
    let mut known = ArrayVec::new();
    for place in 0..cuts.len() {
        if !has_last_context(plan, place) {
            let view = whole_view(alloc, starts, &*history, place)?;
            let run = noted_on(&mut memory, &view, checker);
            if !was_blind(entries, &mut known, &run) {
                return Ok(false);
            }
        }
    }
    Ok(!cuts.is_empty())
}

/// How many flushes and marks stand before the last wanted cut.
fn changes(plan: &Plan<'_>) -> u32
    ensures value { result ≡ changes plan.now }
    ensures few { result ≤ 131072 }
{
    match plan.cuts().last() {
        Some(cut) => plan.epoch(*cut) + plan.marks(*cut),
        None => 0,
    }
}

/// Whether these are few: at most 1,024, or at most a sixteenth of the wanted cuts. Then the runs that find whether a program is blind
/// are few beside those that judge images.
#[tactic(auto, unfolding(crate::specs::Blind::has_few_contexts))]
fn has_few_contexts(plan: &Plan<'_>) -> bool
    ensures { result ≡ has_few_contexts plan.now }
{
    let changes = changes(plan);
    changes <= MOST_CHANGES || 16 * changes as usize <= plan.cuts().len()
}

/// Whether it is found of a checker that it is blind.
fn is_noticed(
    alloc: Global,
    task: &Task<'_>,
    starts: &Starts<'_>,
    history: &History<'_>,
    checker: &Checker<'_>,
) -> Result<bool, AllocError>
    requires starts { starts.now.plan ≡ task.now.plan.now }
    requires history { history.now ≡ task.now.plan.now }
    requires device { IsFor task.now.log.now.sectors checker.now.verified }
    ensures { IfOk result (λ noticed. noticed ≡ is_noticed task.now.plan.now checker.now) }
{
    if !has_few_contexts(task.plan) {
        return Ok(false);
    }
    is_blind(alloc, task, starts, history, checker)
}

/// Finds which programs of a run pass at each wanted cut, on the image in which nothing is lost or torn, without looking at a sector
/// that an entry writes or discards. It makes a run of a program for each epoch and each number of marks at the cuts, up to the first
/// cut at which it doesn't: no more runs than the images of the cuts need at least. Where more than 1,024 flushes and marks stand before
/// the last wanted cut, and more than a sixteenth of the wanted cuts, it makes none and finds none.
pub(crate) fn find_blind(
    alloc: Global,
    task: &Task<'_>,
    starts: &Starts<'_>,
    history: &History<'_>,
) -> Result<ArrayVec<bool, 8>, AllocError>
    requires starts { starts.now.plan ≡ task.now.plan.now }
    requires history { history.now ≡ task.now.plan.now }
    requires few { length task.now.checkers.now ≤ 8 }
    requires verified { AreFor task.now.options.now.sectors task.now.checkers.now }
    ensures { IfOk result (λ blind. blind.items ≡ map (is_noticed task.now.plan.now) task.now.checkers.now) }
{
    let mut out = ArrayVec::new();
    for checker in task.checkers {
        out.push(is_noticed(alloc, task, starts, history, checker)?);
    }
    Ok(out)
}

/// Finds the same of a task whose images aren't judged one by one.
pub(crate) fn find_blind_of<'x>(
    alloc: Global,
    task: &'x Task<'x>,
) -> Result<ArrayVec<bool, 8>, AllocError>
    requires few { length task.now.checkers.now ≤ 8 }
    requires verified { AreFor task.now.options.now.sectors task.now.checkers.now }
    ensures { IfOk result (λ blind. blind.items ≡ map (is_noticed task.now.plan.now) task.now.checkers.now) }
{
    let (plan, options) = (task.plan, task.options);
    let history = History::new(alloc, &*plan, &*task.log)?;
    let (bound, tears) = (options.bound(), options.tears());
    let starts = Starts::new(alloc, &*plan, bound, tears)?;
    find_blind(alloc, task, &starts, &history)
}
