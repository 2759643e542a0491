//! The hands of all workers, by a worker's number. Of a worker that isn't there each call finds nothing, and changes nothing.
//!
//! The calls ask for the place first, and then index. By `get` their proofs took two to three times as long.

ghost use Rattle.std.specs.Prelude.{◌≡◌, OnOk, OnErr, IfOk, Some, [], ◌∷◌, ◌++◌, true, is_some, replicate, slice_get, slice_set};
ghost use Rattle.explore_core.specs.State.{change_hand, as_list, ended, failing_in_hand, is_idle, judging, last_judged, lines_in_hand, may_draw, next_job, piece_done, piece_passed};
ghost use Rattle.explore_core.specs.declared.hand.WorkerHand.TheVariants.{Idle as idle};

use crate::hand::WorkerHand;
use crate::job::{Job, Jobs};
use crate::piece::HandedBlock;
use std::alloc::{AllocError, Global};
use std::mem;

/// The hands of that many workers, all idle.
pub(crate) fn idle_hands(alloc: Global, workers: u8) -> Result<Vec<WorkerHand>, AllocError>
    ensures { IfOk result (λ hands. hands.items ≡ replicate workers idle) }
{
    let mut hands = Vec::new(alloc);
    for _worker in 0..workers {
        hands.push(WorkerHand::Idle)?;
    }
    Ok(hands)
}

/// Whether a worker hasn't ended, and found a block at each draw.
pub(crate) fn may_draw(hands: &[WorkerHand], late: &[bool], worker: usize) -> bool
    ensures { result ≡ may_draw (slice_get hands.now worker) (slice_get late.now worker) }
{
    worker < hands.len() && worker < late.len() && hands[worker].is_going() && !late[worker]
}

/// Marks a worker that found no block left.
pub(crate) fn set_late(late: &mut [bool], worker: usize)
    ensures { late.new ≡ slice_set late.old worker true }
{
    if worker < late.len() {
        late[worker] = true;
    }
}

/// Whether a worker may take a block.
pub(crate) fn is_idle(hands: &[WorkerHand], worker: usize) -> bool
    ensures { result ≡ is_idle (slice_get hands.now worker) }
{
    worker < hands.len() && hands[worker].is_idle()
}

/// Gives that into a worker's hand, where there is such a worker.
pub(crate) fn set_hand(hands: &mut [WorkerHand], worker: usize, hand: WorkerHand)
    ensures { hands.new ≡ slice_set hands.old worker hand }
{
    if worker < hands.len() {
        hands[worker] = hand;
    }
}

/// The job of the block in a worker's hand that is to be judged next, if there is one.
pub(crate) fn next_job(hands: &[WorkerHand], worker: usize, jobs: &Jobs) -> Option<Job>
    ensures { result ≡ next_job jobs.now (slice_get hands.now worker) }
{
    if worker < hands.len() {
        hands[worker].next_job(jobs)
    } else {
        None
    }
}

/// Adds a judged job to those of the block in a worker's hand. Where memory is wanting, nothing changes.
pub(crate) fn judge_in_hand(
    hands: &mut [WorkerHand],
    worker: usize,
    job: Job,
) -> Result<(), AllocError>
    ensures judged { OnOk result (hands.new ≡ change_hand (judging job) hands.old worker (slice_get hands.old worker)) }
    ensures kept { OnErr result (hands.new ≡ hands.old) }
{
    if worker < hands.len() {
        hands[worker].judge(job)
    } else {
        Ok(())
    }
}

/// The job that a worker judged last, if there is one in its hand.
pub(crate) fn last_judged(hands: &[WorkerHand], worker: usize) -> Option<Job>
    ensures { result ≡ last_judged (slice_get hands.now worker) }
{
    if worker < hands.len() {
        hands[worker].last_judged()
    } else {
        None
    }
}

/// The image of the first failing job in a worker's hand, if there is one.
pub(crate) fn failing_in_hand(hands: &[WorkerHand], worker: usize) -> Option<u64>
    ensures { result ≡ failing_in_hand (slice_get hands.now worker) }
{
    if worker < hands.len() {
        hands[worker].failing_image()
    } else {
        None
    }
}

/// The piece that names that image, where the block in a worker's hand lies wholly after it.
pub(crate) fn piece_passed(
    hands: &[WorkerHand],
    worker: usize,
    jobs: &Jobs,
    image: u64,
) -> Option<HandedBlock>
    ensures { result ≡ piece_passed jobs.now true (Some image) (slice_get hands.now worker) }
{
    if worker < hands.len() {
        hands[worker].piece_passed(jobs, image)
    } else {
        None
    }
}

/// Whether a worker has a block in hand that is wholly judged.
pub(crate) fn is_judged(hands: &[WorkerHand], worker: usize, jobs: &Jobs) -> bool
    ensures { result ≡ is_some (piece_done jobs.now (slice_get hands.now worker)) }
{
    worker < hands.len() && hands[worker].is_judged(jobs)
}

/// Takes the block in a worker's hand with its failing jobs, if there is one. The worker is idle then.
fn take_lines(hands: &mut [WorkerHand], worker: usize) -> Option<HandedBlock>
    ensures lines { result ≡ lines_in_hand (slice_get hands.old worker) }
    ensures idle { hands.new ≡ slice_set hands.old worker idle }
{
    if worker < hands.len() {
        mem::replace(&mut hands[worker], WorkerHand::Idle).into_lines()
    } else {
        None
    }
}

/// Hands over the block in a worker's hand with its failing jobs, if there is one. The worker is idle then.
/// Where memory is wanting, nothing changes.
pub(crate) fn hand_over(
    pieces: &mut Vec<HandedBlock>,
    hands: &mut [WorkerHand],
    worker: usize,
) -> Result<(), AllocError>
    ensures lines { OnOk result (pieces.new.items ≡ pieces.old.items ++ as_list (lines_in_hand (slice_get hands.old worker))) }
    ensures idle { OnOk result (hands.new ≡ slice_set hands.old worker idle) }
    ensures kept { OnErr result ((pieces.new.items ≡ pieces.old.items) × (hands.new ≡ hands.old)) }
{
    pieces.reserve(1)?;
    if let Some(piece) = take_lines(hands, worker) {
        pieces.push(piece)?;
    }
    Ok(())
}

/// Ends a worker, where there is such a worker: a block in its hand is lost.
pub(crate) fn end_worker(hands: &mut [WorkerHand], worker: usize)
    ensures { hands.new ≡ change_hand ended hands.old worker (slice_get hands.old worker) }
{
    if worker < hands.len() {
        hands[worker].end();
    }
}
