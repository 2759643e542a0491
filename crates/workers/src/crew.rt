//! The workers of a run, each on a thread of its own.

ghost use Rattle.std.specs.Prelude.{◌≡◌, ◌<◌, ◌≤◌, [], false, All, length, map, reverse, IfOk};
ghost use Rattle.shares.specs.Hands.{AreTogether, IsEmptyHand};
ghost use Rattle.shares.specs.Seats.{BoardName, SeatValue};
ghost use Rattle.workers.specs.Input.{IsRunOf};
ghost use Rattle.workers.specs.Pieces.{block_count};
ghost use Rattle.workers.specs.Crew.{AreBack, AreDone, AreParted, IsDone};

use crate::cache::Shards;
use crate::gate::Gate;
use crate::input::Input;
use crate::piece::Piece;
use crate::taking::pieces_taken;
use crate::worker::Worker;
use shares::{Board, Deal, Hand, Seat, are_refused, blocks_left, hands};
use std::alloc::{AllocError, Global};
use std::sync::Wait;
use std::thread;
use std::thread::Threads;
use verdict_cache::Run;

/// What a worker begins with: its number, its seat at the board, and its hand.
#[derive(Drop)]
pub(crate) struct WorkerStart<H: Deal> {
    worker: u8,
    seat: Seat,
    hand: Hand<H>,
}

/// What a worker comes back with: its seat and its hand in any case, and the pieces of the blocks that it
/// took.
#[derive(Drop)]
pub(crate) struct Done<H: Deal> {
    seat: Seat,
    hand: Hand<H>,
    pieces: Result<Vec<Piece>, AllocError>,
}

/// A job for each seat, with a hand. The last is that of worker 0, since the last one runs on the thread
/// of the caller. Each worker has the hand of its number.
fn jobs_of<H: Deal>(
    alloc: Global,
    seats: Vec<Seat>,
    hands: Vec<Hand<H>>,
) -> Result<Vec<WorkerStart<H>>, AllocError>
    requires seats { length seats.items ≤ 64 }
    requires hands { length hands.items ≡ length seats.items }
    requires empty { All IsEmptyHand hands.items }
    ensures seats { IfOk result (λ jobs. map (λ j. j.seat) jobs.items ≡ seats.items) }
    ensures empty { IfOk result (λ jobs. All (λ j. IsEmptyHand j.hand) jobs.items) }
    ensures places { IfOk result (λ jobs. map (λ j. j.hand.place) jobs.items ≡ reverse (map (λ h. h.place) hands.items)) }
{
    let mut worker = seats.len() as u8;
    let mut hands = hands;
    let mut jobs = Vec::new(alloc);
    for seat in seats {
        worker = worker.saturating_sub(1);
        let hand = hands.pop().unwrap();
        jobs.push(WorkerStart { worker, seat, hand })?;
    }
    Ok(jobs)
}

impl<H: Deal> WorkerStart<H> {
    /// Takes blocks until there is none left.
    fn take_all<'a, J: Run, G: Gate, R: Wait>(
        self,
        rt: &R,
        gate: &G,
        input: &Input<'a>,
        shards: &Shards<'_, 'a, J>,
        board: &Board,
    ) -> Done<H>
        requires run { IsRunOf J.plan J.checkers input.now }
        requires board { self.seat.board ≡ board.now.name }
        requires blocks { (board.now.name.blocks ≡ block_count input.now) × (H.blocks ≡ block_count input.now) }
        requires fresh { (self.seat.steps ≡ []) × IsEmptyHand self.hand }
        ensures { IsDone input.now board.now.name self.hand.place result }
    {
        let WorkerStart {
            worker,
            mut seat,
            mut hand,
        } = self;
        let own = Worker {
            input: &*input,
            shards: &*shards,
            gate: &*gate,
            number: worker,
        };
        let pieces = pieces_taken(rt, &own, board, &mut seat, &mut hand);
        Done { seat, hand, pieces }
    }
}

/// What the workers come back with. Each job has a thread, the last one that of the caller.
fn all_done<
    'a,
    J: Run + Send + Sync,
    H: Deal + Send + Sync,
    G: Gate + Sync,
    R: Threads + Wait + Sync,
>(
    rt: &R,
    gate: &G,
    input: &Input<'a>,
    shards: &Shards<'_, 'a, J>,
    board: &Board,
    jobs: Vec<WorkerStart<H>>,
) -> Result<Vec<Done<H>>, AllocError>
    requires run { IsRunOf J.plan J.checkers input.now }
    requires blocks { (board.now.name.blocks ≡ block_count input.now) × (H.blocks ≡ block_count input.now) }
    requires fresh { All (λ j. (j.seat.board ≡ board.now.name) × (j.seat.steps ≡ []) × IsEmptyHand j.hand) jobs.items }
    ensures { IfOk result (λ done. AreDone input.now board.now.name (map (λ j. j.hand.place) jobs.items) done.items) }
{
    thread::map_vec(
        rt,
        jobs,
        &|job: WorkerStart<H>| -> Done<H>
            requires { IsRunOf J.plan J.checkers input.now × (board.now.name.blocks ≡ block_count input.now) × (H.blocks ≡ block_count input.now)
                × (job.seat.board ≡ board.now.name) × (job.seat.steps ≡ []) × IsEmptyHand job.hand }
            ensures { IsDone input.entry.now board.entry.now.name job.hand.place result }
        { job.take_all(rt, gate, input, shards, board) },
    )
}

/// What a run has when all its workers are back: its board, their seats, their pieces, the blocks that they
/// left in their hands, and whether the push of a closing mark was refused to one of these.
#[derive(Drop)]
pub(crate) struct Back {
    pub(crate) board: Board,
    pub(crate) seats: Vec<Seat>,
    pub(crate) pieces: Vec<Piece>,
    pub(crate) left: Vec<u32>,
    pub(crate) refused: bool,
}

/// What workers come back with, part by part.
#[derive(Drop)]
struct Returned<H: Deal> {
    seats: Vec<Seat>,
    hands: Vec<Hand<H>>,
    pieces: Vec<Piece>,
}

/// The seats and the hands of the workers, and all their pieces.
///
/// # Errors
///
/// A worker found no memory.
fn split_done<H: Deal>(alloc: Global, done: Vec<Done<H>>) -> Result<Returned<H>, AllocError>
    ensures { IfOk result (λ parts. AreParted done.items parts.seats.items parts.hands.items parts.pieces.items) }
{
    let mut seats = Vec::new(alloc);
    let mut hands = Vec::new(alloc);
    let mut pieces = Vec::new(alloc);
    for one in done {
        let Done {
            seat,
            hand,
            pieces: own,
        } = one;
        let mut own = own?;
        pieces.append(&mut own)?;
        hands.push(hand)?;
        seats.push(seat)?;
    }
    Ok(Returned {
        seats,
        hands,
        pieces,
    })
}

/// Sends out that many workers of a run, and waits until all are back. No block is left in their hands, unless
/// the push of a closing mark was refused.
///
/// # Errors
///
/// Memory was refused, here or to a worker.
pub(crate) fn crew_back<
    'a,
    J: Run + Send + Sync,
    H: Deal + Send + Sync,
    G: Gate + Sync,
    R: Threads + Wait + Sync,
>(
    rt: &R,
    alloc: Global,
    gate: &G,
    input: &Input<'a>,
    shards: &Shards<'_, 'a, J>,
    crew: u8,
) -> Result<Back, AllocError>
    requires run { IsRunOf J.plan J.checkers input.now }
    requires blocks { H.blocks ≡ block_count input.now }
    requires workers { H.workers ≡ crew }
    requires crew { (0 < crew) × (crew ≤ 64) }
    ensures back { IfOk result (λ back. AreBack input.now back.board back.seats.items back.pieces.items back.left.items) }
    ensures none_left { IfOk result (λ back. back.refused ≡ false → back.left.items ≡ []) }
{
    let (board, seats) = Board::new(alloc, input.block_count(), crew)?;
    let jobs = jobs_of(alloc, seats, hands::<H>(alloc, crew)?)?;
    let done = all_done(rt, gate, input, shards, &board, jobs)?;
    let Returned {
        seats,
        mut hands,
        pieces,
    } = split_done(alloc, done)?;
    hands.reverse();
    let refused = are_refused(hands.as_slice());
    let left = blocks_left(alloc, hands)?;
    Ok(Back {
        board,
        seats,
        pieces,
        left,
        refused,
    })
}
