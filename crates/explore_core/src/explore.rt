//! The state of an exploration, and its events.

ghost use Rattle.std.specs.Prelude.{◌≡◌, ◌<◌, IfOk, OnOk, OnErr, slice_get, length};
ghost use Rattle.explore_core.specs.Sound.{IsSound};
ghost use Rattle.explore_core.specs.Lists.{listed_under};
ghost use Rattle.explore_core.specs.State.{start, after, after_all, job_by_cache, lower_image, may_draw, after_list, after_draw, is_idle, after_steal, next_job, after_look, last_judged, after_put, after_post, piece_passed, piece_done, handed_over, quit};

use crate::cache::{CacheEntry, cache_outcome, put_entry};
use crate::event::Event;
use crate::hand::WorkerHand;
use crate::hands::{
    end_worker, failing_in_hand, hand_over, idle_hands, is_idle, is_judged, judge_in_hand,
    last_judged, may_draw, next_job, piece_passed, set_hand, set_late,
};
use crate::job::{Job, JobList, Jobs};
use crate::lists::{Drawn, listed_under, unlist};
use crate::piece::HandedBlock;
use std::alloc::{AllocError, Global};
use std::marker::Model;

/// An exploration under way. Contracts see its state (`specs/State.antt`).
#[derive(Drop)]
pub struct Explore<'a> {
    jobs: &'a Jobs,
    first: bool,
    next: u64,
    late: Vec<bool>,
    lists: Vec<Drawn>,
    least: Option<u64>,
    cache: Vec<CacheEntry>,
    pieces: Vec<HandedBlock>,
    hands: Vec<WorkerHand>,
}

impl<'a> Model for Explore<'a> {
    ghost use Rattle.explore_core.specs.State.{State};

    ghost Value = { State };

    ghost view = { λ e. record { blocks = e.jobs.now; first = e.first; next = e.next; late = e.late.items; lists = e.lists.items; least = e.least; cache = e.cache.items; pieces = e.pieces.items; hands = e.hands.items } };

    ghost use Rattle.std.specs.Prelude.{length};
    ghost use Rattle.explore_core.specs.Counted.{AreCounted};

    ghost invariant = { λ e. AreCounted (length e.jobs.now) e.next e.late.items };
}

impl<'a> Explore<'a> {
    /// An exploration at its start.
    pub fn new(
        alloc: Global,
        jobs: &'a Jobs,
        workers: u8,
        first: bool,
    ) -> Result<Explore<'a>, AllocError>
        ensures { IfOk result (λ e. e ≡ start jobs.now workers first) }
    {
        let hands = idle_hands(alloc, workers)?;
        let mut late = Vec::new(alloc);
        late.resize(usize::from(workers), false)?;
        Ok(Explore {
            jobs,
            first,
            next: 0,
            late,
            lists: Vec::new(alloc),
            least: None,
            cache: Vec::new(alloc),
            pieces: Vec::new(alloc),
            hands,
        })
    }

    /// How often a worker asked for a next block.
    pub fn next(&self) -> u64
        ensures { result ≡ self.now.next }
    {
        self.next
    }

    /// The least image that was posted, if there is one.
    pub fn least(&self) -> Option<u64>
        ensures { result ≡ self.now.least }
    {
        self.least
    }

    /// What was handed over so far, in the order of time.
    pub fn pieces(&self) -> &[HandedBlock]
        ensures { result.now ≡ self.now.pieces }
    {
        self.pieces.as_slice()
    }

    /// Puts the next block into a worker's list.
    fn list_next(&mut self, worker: usize) -> Result<(), AllocError>
        requires { self.old.next < length self.old.blocks }
        ensures listed { OnOk result (self.new ≡ after_list self.old worker) }
        ensures kept { OnErr result (self.new ≡ self.old) }
    {
        let _blocks = self.jobs.block_count();
        let next = self.next;
        let block = next as usize;
        self.lists.push(Drawn { worker, block })?;
        self.next = next + 1;
        Ok(())
    }

    fn draw(&mut self, worker: usize) -> Result<(), AllocError>
        ensures drawn { OnOk result (self.new ≡ after_draw self.old worker (may_draw (slice_get self.old.hands worker) (slice_get self.old.late worker))) }
        ensures kept { OnErr result (self.new ≡ self.old) }
    {
        if !may_draw(self.hands.as_slice(), self.late.as_slice(), worker) {
            return Ok(());
        }
        if self.next < self.jobs.block_count() as u64 {
            return self.list_next(worker);
        }
        set_late(self.late.as_mut_slice(), worker);
        self.next += 1;
        Ok(())
    }

    fn take(&mut self, alloc: Global, worker: u8, from: u8, block: usize)
        ensures { self.new ≡ after_steal self.old worker from block (is_idle (slice_get self.old.hands worker)) (listed_under from block self.old.lists) }
    {
        let taker = usize::from(worker);
        let owner = usize::from(from);
        if !is_idle(self.hands.as_slice(), taker) {
            return;
        }
        if !listed_under(self.lists.as_slice(), owner, block) {
            return;
        }
        unlist(&mut self.lists, owner, block);
        let hand = WorkerHand::Holding {
            block,
            judged: JobList::new(alloc),
        };
        set_hand(self.hands.as_mut_slice(), taker, hand);
    }

    fn look(&mut self, worker: usize) -> Result<(), AllocError>
        ensures looked { OnOk result (self.new ≡ after_look self.old worker (slice_get self.old.hands worker) (next_job self.old.blocks (slice_get self.old.hands worker))) }
        ensures kept { OnErr result (self.new ≡ self.old) }
    {
        match next_job(self.hands.as_slice(), worker, self.jobs) {
            Some(job) => {
                let judged = job_by_cache(self.cache.as_slice(), job);
                judge_in_hand(self.hands.as_mut_slice(), worker, judged)
            }
            None => Ok(()),
        }
    }

    fn put(&mut self, worker: usize, gone: &[u64]) -> Result<(), AllocError>
        ensures put { OnOk result (self.new ≡ after_put self.old gone.now (last_judged (slice_get self.old.hands worker))) }
        ensures kept { OnErr result (self.new ≡ self.old) }
    {
        match last_judged(self.hands.as_slice(), worker) {
            Some(job) => {
                let entry = CacheEntry {
                    key: job.key,
                    outcome: job.outcome,
                };
                put_entry(&mut self.cache, entry, gone)
            }
            None => Ok(()),
        }
    }

    fn post(&mut self, worker: usize)
        ensures { self.new ≡ after_post self.old (slice_get self.old.hands worker) }
    {
        let image = failing_in_hand(self.hands.as_slice(), worker);
        self.least = lower_image(self.least, image);
    }

    fn pass(&mut self, worker: usize) -> Result<(), AllocError>
        ensures passed { OnOk result (self.new ≡ handed_over self.old worker (piece_passed self.old.blocks self.old.first self.old.least (slice_get self.old.hands worker))) }
        ensures kept { OnErr result (self.new ≡ self.old) }
    {
        if !self.first {
            return Ok(());
        }
        let Some(image) = self.least else {
            return Ok(());
        };
        let Some(piece) = piece_passed(self.hands.as_slice(), worker, self.jobs, image) else {
            return Ok(());
        };
        self.pieces.push(piece)?;
        set_hand(self.hands.as_mut_slice(), worker, WorkerHand::Idle);
        Ok(())
    }

    fn retire(&mut self, worker: usize) -> Result<(), AllocError>
        ensures done { OnOk result (self.new ≡ handed_over self.old worker (piece_done self.old.blocks (slice_get self.old.hands worker))) }
        ensures kept { OnErr result (self.new ≡ self.old) }
    {
        if is_judged(self.hands.as_slice(), worker, self.jobs) {
            hand_over(&mut self.pieces, self.hands.as_mut_slice(), worker)
        } else {
            Ok(())
        }
    }

    fn quit(&mut self, worker: usize)
        ensures { self.new ≡ quit self.old worker (slice_get self.old.hands worker) }
    {
        end_worker(self.hands.as_mut_slice(), worker);
    }
}

/// One event. Where its condition fails, as where there is no such worker, nothing changes.
///
/// # Errors
///
/// Want of memory; the exploration is then unchanged.
pub fn step(alloc: Global, explore: &mut Explore, event: &Event) -> Result<(), AllocError>
    ensures stepped { OnOk result (explore.new ≡ after explore.old event.now) }
    ensures kept { OnErr result (explore.new ≡ explore.old) }
{
    match event {
        Event::Draw(worker) => return explore.draw(usize::from(*worker)),
        Event::Take(worker, from, block) => explore.take(alloc, *worker, *from, *block),
        Event::Look(worker) => return explore.look(usize::from(*worker)),
        Event::Put(worker, gone) => return explore.put(usize::from(*worker), gone.as_slice()),
        Event::Post(worker) => explore.post(usize::from(*worker)),
        Event::Pass(worker) => return explore.pass(usize::from(*worker)),
        Event::Done(worker) => return explore.retire(usize::from(*worker)),
        Event::Quit(worker) => explore.quit(usize::from(*worker)),
    }
    Ok(())
}

/// The exploration after a list of events, with all that holds after every such list.
///
/// # Errors
///
/// Want of memory.
pub fn run<'a>(
    alloc: Global,
    jobs: &'a Jobs,
    workers: u8,
    first: bool,
    events: &[Event],
) -> Result<Explore<'a>, AllocError>
    ensures state { IfOk result (λ explore. explore ≡ after_all (start jobs.now workers first) events.now) }
    ensures sound { IfOk result (λ explore. IsSound explore) }
{
    jobs.are_jobs();
    let mut explore = Explore::new(alloc, jobs, workers, first)?;
    for event in events {
        step(alloc, &mut explore, event)?;
    }
    Ok(explore)
}

/// The job with the outcome that the cache has for its key, or else with its own.
fn job_by_cache(cache: &[CacheEntry], job: Job) -> Job
    ensures { result ≡ job_by_cache cache.now job }
{
    Job {
        outcome: cache_outcome(cache, job.key).unwrap_or(job.outcome),
        ..job
    }
}

/// The lower of the least image so far and another.
fn lower_image(least: Option<u64>, image: Option<u64>) -> Option<u64>
    ensures { result ≡ lower_image least image }
{
    match (least, image) {
        (Some(least), Some(image)) => Some(least.min(image)),
        (None, image) => image,
        (least, None) => least,
    }
}
