//! What a worker has in hand.

ghost use Rattle.std.specs.Prelude.{◌≡◌, OnOk, OnErr, Some, true, is_some};
ghost use Rattle.explore_core.specs.State.{ended, failing_in_hand, is_going, is_idle, judging, last_judged, lines_in_hand, next_job, piece_done, piece_passed};

use crate::job::{Job, JobList, Jobs, first_failing_image, lies_after};
use crate::piece::{BlockFindings, HandedBlock};
use std::alloc::AllocError;

/// What a worker has in hand.
#[derive(Drop)]
pub enum WorkerHand {
    /// Nothing: it may take a block.
    Idle,
    /// A block, and its jobs that are judged so far, each with the outcome that was taken for it.
    Holding { block: usize, judged: JobList },
    /// Nothing: it has ended.
    Ended,
    /// It has ended, and this block is lost.
    Lost { block: usize },
}

impl WorkerHand {
    /// Whether the worker hasn't ended.
    pub(crate) fn is_going(&self) -> bool
        ensures { result ≡ is_going (Some self.now) }
    {
        matches!(self, WorkerHand::Idle | WorkerHand::Holding { .. })
    }

    /// Whether the worker may take a block.
    pub(crate) fn is_idle(&self) -> bool
        ensures { result ≡ is_idle (Some self.now) }
    {
        matches!(self, WorkerHand::Idle)
    }

    /// The job of the block in hand that is to be judged next, if there is one.
    pub(crate) fn next_job(&self, jobs: &Jobs) -> Option<Job>
        ensures { result ≡ next_job jobs.now (Some self.now) }
    {
        match self {
            WorkerHand::Holding { block, judged } => {
                jobs.block(*block).get(judged.as_slice().len()).copied()
            }
            _ => None,
        }
    }

    /// The job that was judged last, if there is one in hand.
    pub(crate) fn last_judged(&self) -> Option<Job>
        ensures { result ≡ last_judged (Some self.now) }
    {
        match self {
            WorkerHand::Holding { block: _, judged } => judged.as_slice().last().copied(),
            _ => None,
        }
    }

    /// The image of the first failing job in hand, if there is one.
    pub(crate) fn failing_image(&self) -> Option<u64>
        ensures { result ≡ failing_in_hand (Some self.now) }
    {
        match self {
            WorkerHand::Holding { block: _, judged } => first_failing_image(judged.as_slice()),
            _ => None,
        }
    }

    /// The piece that names that image, where the block in hand lies wholly after it.
    pub(crate) fn piece_passed(&self, jobs: &Jobs, image: u64) -> Option<HandedBlock>
        ensures { result ≡ piece_passed jobs.now true (Some image) (Some self.now) }
    {
        match self {
            WorkerHand::Holding { block, judged: _ } => {
                if lies_after(image, jobs.block(*block)) {
                    Some(HandedBlock {
                        block: *block,
                        found: BlockFindings::Passed(image),
                    })
                } else {
                    None
                }
            }
            _ => None,
        }
    }

    /// Whether a block is in hand that is wholly judged.
    pub(crate) fn is_judged(&self, jobs: &Jobs) -> bool
        ensures { result ≡ is_some (piece_done jobs.now (Some self.now)) }
    {
        match self {
            WorkerHand::Holding { block, judged } => {
                judged.as_slice().len() == jobs.block(*block).len()
            }
            _ => false,
        }
    }

    /// Adds a judged job to those of the block in hand. Where memory is wanting, nothing changes.
    pub(crate) fn judge(&mut self, job: Job) -> Result<(), AllocError>
        ensures judged { OnOk result (self.new ≡ judging job self.old) }
        ensures kept { OnErr result (self.new ≡ self.old) }
    {
        match self {
            WorkerHand::Holding { block: _, judged } => judged.push(job),
            _ => Ok(()),
        }
    }

    /// The block in hand with its failing jobs, if there is one.
    pub(crate) fn into_lines(self) -> Option<HandedBlock>
        ensures { result ≡ lines_in_hand (Some self) }
    {
        match self {
            WorkerHand::Holding { block, mut judged } => {
                judged.keep_failing();
                Some(HandedBlock {
                    block,
                    found: BlockFindings::Lines(judged),
                })
            }
            _ => None,
        }
    }

    /// Ends the worker: a block in its hand is lost.
    pub(crate) fn end(&mut self)
        ensures { self.new ≡ ended self.old }
    {
        match self {
            WorkerHand::Idle => *self = WorkerHand::Ended,
            WorkerHand::Holding { block, judged: _ } => *self = WorkerHand::Lost { block: *block },
            _ => {}
        }
    }
}
