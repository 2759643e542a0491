//! Callers of the exploration as a list of events.

use explore_core::{Event, Explore, HandedBlock, Job, Jobs, Keys, run};
use std::alloc::{AllocError, Global};

/// The jobs of these blocks, if they are jobs.
pub fn jobs_of(blocks: Vec<Vec<Job>>) -> Option<Jobs> {
    Jobs::new(blocks)
}

/// The event in which a worker puts an outcome, and these keys leave the cache.
pub fn put_of(worker: u8, gone: Vec<u64>) -> Event {
    Event::Put(worker, Keys::of(gone))
}

/// An exploration of two workers after these events.
pub fn ended<'a>(
    alloc: Global,
    jobs: &'a Jobs,
    events: &[Event],
) -> Result<Explore<'a>, AllocError> {
    run(alloc, jobs, 2, false, events)
}

/// How often a worker asked for a next block.
pub fn next_of(explore: &Explore<'_>) -> u64 {
    explore.next()
}

/// The least image that was posted, if there is one.
pub fn least_of(explore: &Explore<'_>) -> Option<u64> {
    explore.least()
}

/// What was handed over.
pub fn pieces_of<'a>(explore: &'a Explore<'_>) -> &'a [HandedBlock] {
    explore.pieces()
}
