//! Open pieces, shared out to workers.

ghost use Rattle.std.specs.Prelude.{◌≡◌, ◌≤◌, length, slice_get, Some, None, All, IfOk, IfSome};
ghost use Rattle.images.specs.Views.{context_at};
ghost use Rattle.checker.specs.Checker.{AreFor};
ghost use Rattle.case_runs.specs.Leaves.{IsFit};
ghost use Rattle.case_runs.specs.Pieces.{IsSearchOf};
ghost use Rattle.case_runs.specs.Shares.{cut_in, IsAnswer, AreAnswers};

use crate::gate::CaseGate;
use crate::pieces::{
    Begun, Start, Subtree, SubtreeAnswer, copy_start, is_start, pieces_of, run_start,
};
use crate::work::CaseWork;
use cases::{Cut, Search};
use checker::Checker;
use helpers::Context;
use std::alloc::{AllocError, Global};
use std::sync::atomic::{AtomicUsize, Ordering};
use std::thread;
use std::thread::Threads;

/// Where there are fewer pieces for each worker, there are few.
const FEW: usize = 16;

/// After this number of leaves a piece is cut where there are few pieces, so that there are more soon.
const SHORT: u32 = 128;

/// After this number it is cut where there are many.
const LONG: u32 = 2048;

/// After this number of leaves a worker takes no piece more in a round.
const ROUND: usize = 65_536;

/// An open piece, as workers see it.
#[derive(Clone, Copy)]
struct OpenSubtree<'s> {
    cut: u32,
    program: usize,
    start: &'s Start,
}

/// The open pieces of a round, which its workers draw one by one.
#[derive(Drop)]
struct Pile<'s> {
    jobs: Vec<OpenSubtree<'s>>,
    next: AtomicUsize,
    /// After this number of leaves a piece is cut.
    most: u32,
}

/// What a worker has: its answers, and how many leaves they have.
#[derive(Drop)]
struct WorkerAnswers {
    answers: Vec<SubtreeAnswer>,
    leaves: usize,
}

/// Appends the open pieces of what was begun at a cut with a checker.
fn put_jobs<'s>(jobs: &mut Vec<OpenSubtree<'s>>, begun: &'s Begun) -> Result<(), AllocError> {
    for piece in begun.pieces.as_slice() {
        if let Subtree::Open(start) = piece {
            jobs.push(OpenSubtree {
                cut: begun.cut,
                program: begun.program,
                start,
            })?;
        }
    }
    Ok(())
}

impl<'s> Pile<'s> {
    /// The open pieces of all that was begun.
    fn new(alloc: Global, begun: &'s [Begun], workers: usize) -> Result<Pile<'s>, AllocError> {
        let mut jobs = Vec::new(alloc);
        for one in begun {
            put_jobs(&mut jobs, one)?;
        }
        let most = if jobs.len() / FEW < workers {
            SHORT
        } else {
            LONG
        };
        Ok(Pile {
            jobs,
            next: AtomicUsize::new(0),
            most,
        })
    }

    /// The place of the next piece.
    fn draw(&self) -> usize {
        self.next.fetch_add(1, Ordering::SeqCst)
    }
}

/// Explores the tree below an open piece.
fn answer_of<G: CaseGate>(
    alloc: Global,
    gate: &G,
    search: &mut Search<'_>,
    cut: &Cut<'_>,
    context: Context,
    checker: &Checker<'_>,
    work: &CaseWork<'_>,
    job: &OpenSubtree<'_>,
    place: usize,
    most: u32,
) -> Result<Option<SubtreeAnswer>, AllocError>
    requires cut { cut.now ≡ cut_in work.now job.now.cut }
    requires checker { slice_get work.now.checkers.now job.now.program ≡ Some checker.now }
    requires context { context ≡ context_at cut.now.log cut.now.cut }
    requires fit { IsFit checker.now context }
    requires search { IsSearchOf work.now.asked cut.now search.old }
    ensures search { IsSearchOf work.now.asked cut.now search.new }
    ensures answer { IfOk result (λ found. IfSome found (IsAnswer work.now)) }
{
    if !is_start(cut, job.start) {
        return Ok(None);
    }
    let ran = run_start(
        alloc, gate, search, cut, context, checker, work.asked, job.start, most,
    )?;
    Ok(Some(SubtreeAnswer {
        place,
        cut: job.cut,
        program: job.program,
        start: copy_start(alloc, job.start)?,
        leaves: ran.found.cases,
        pieces: pieces_of(alloc, ran)?,
    }))
}

impl WorkerAnswers {
    /// Takes an answer, if there is one.
    fn put(&mut self, work: &CaseWork<'_>, answer: Option<SubtreeAnswer>) -> Result<(), AllocError>
        requires answers { All (IsAnswer work.now) self.old.answers.items }
        requires answer { IfSome answer (IsAnswer work.now) }
        ensures { All (IsAnswer work.now) self.new.answers.items }
    {
        let _way = work.way;
        let Some(answer) = answer else {
            return Ok(());
        };
        self.leaves = self.leaves.saturating_add(answer.leaves);
        self.answers.push(answer)?;
        Ok(())
    }

    /// Takes open pieces of one cut and checker, the first of them at hand, and answers the place of the next.
    fn take_each<G: CaseGate>(
        &mut self,
        alloc: Global,
        gate: &G,
        search: &mut Search<'_>,
        cut: &Cut<'_>,
        context: Context,
        checker: &Checker<'_>,
        work: &CaseWork<'_>,
        pile: &Pile<'_>,
        place: usize,
        first: &OpenSubtree<'_>,
    ) -> Result<usize, AllocError>
        requires cut { cut.now ≡ cut_in work.now first.now.cut }
        requires checker { slice_get work.now.checkers.now first.now.program ≡ Some checker.now }
        requires context { context ≡ context_at cut.now.log cut.now.cut }
        requires fit { IsFit checker.now context }
        requires search { IsSearchOf work.now.asked cut.now search.old }
        requires answers { All (IsAnswer work.now) self.old.answers.items }
        ensures { All (IsAnswer work.now) self.new.answers.items }
    {
        let none = usize::MAX;
        let mut place = place;
        for _turn in 0..pile.jobs.len() {
            let Some(job) = pile.jobs.get(place) else {
                return Ok(none);
            };
            if job.cut != first.cut || job.program != first.program {
                return Ok(place);
            }
            let answer = answer_of(
                alloc, gate, search, cut, context, checker, work, job, place, pile.most,
            )?;
            self.put(work, answer)?;
            if self.leaves >= ROUND {
                return Ok(none);
            }
            place = pile.draw();
        }
        Ok(none)
    }

    /// Takes open pieces as `take_each` does. It answers no place where there is no such cut or no such checker.
    fn take_at<G: CaseGate>(
        &mut self,
        alloc: Global,
        gate: &G,
        work: &CaseWork<'_>,
        pile: &Pile<'_>,
        place: usize,
        first: &OpenSubtree<'_>,
    ) -> Result<usize, AllocError>
        requires device { AreFor work.now.log.now.sectors work.now.checkers.now }
        requires answers { All (IsAnswer work.now) self.old.answers.items }
        ensures { All (IsAnswer work.now) self.new.answers.items }
    {
        let Some(checker) = work.checkers.get(first.program) else {
            return Ok(usize::MAX);
        };
        if first.cut as usize > work.log.entries().len() {
            return Ok(usize::MAX);
        }
        let cut = Cut::new(alloc, work.log, work.way, first.cut)?;
        let context = work.context(first.cut);
        let asked = work.asked;
        let mut search = Search::new(alloc, &cut, asked.tears, asked.torn, asked.lost)?;
        self.take_each(
            alloc,
            gate,
            &mut search,
            &cut,
            context,
            checker,
            work,
            pile,
            place,
            first,
        )
    }
}

/// What a worker finds in a round.
fn answers_of<G: CaseGate>(
    alloc: Global,
    gate: &G,
    work: &CaseWork<'_>,
    pile: &Pile<'_>,
) -> Result<Vec<SubtreeAnswer>, AllocError>
    requires device { AreFor work.now.log.now.sectors work.now.checkers.now }
    ensures { IfOk result (λ answers. All (IsAnswer work.now) answers.items) }
{
    let mut hand = WorkerAnswers {
        answers: Vec::new(alloc),
        leaves: 0,
    };
    let mut place = pile.draw();
    for _turn in 0..pile.jobs.len() {
        let Some(job) = pile.jobs.get(place) else {
            return Ok(hand.answers);
        };
        place = hand.take_at(alloc, gate, work, pile, place, job)?;
    }
    Ok(hand.answers)
}

/// What all workers find in a round. The last one is on the thread of the caller.
fn all_answers<G: CaseGate + Sync, R: Threads + Sync>(
    rt: &R,
    alloc: Global,
    gate: &G,
    work: &CaseWork<'_>,
    pile: &Pile<'_>,
    workers: usize,
) -> Result<Vec<Result<Vec<SubtreeAnswer>, AllocError>>, AllocError>
    requires device { AreFor work.now.log.now.sectors work.now.checkers.now }
    ensures { IfOk result (λ all. All (λ one. IfOk one (λ answers. All (IsAnswer work.now) answers.items)) all.items) }
{
    thread::map_indices(
        rt,
        alloc,
        workers,
        &|_worker: usize| -> Result<Vec<SubtreeAnswer>, AllocError>
            requires { AreFor work.now.log.now.sectors work.now.checkers.now }
            ensures { IfOk result (λ answers. All (IsAnswer work.entry.now) answers.items) }
        { answers_of(alloc, gate, work, pile) },
    )
}

/// A place for the answer of each open piece, the last one first.
fn places_of(alloc: Global, count: usize) -> Result<Vec<Option<SubtreeAnswer>>, AllocError>
    ensures { IfOk result (λ places. All (λ place. place ≡ None) places.items) }
{
    let mut places = Vec::new(alloc);
    for _place in 0..count {
        places.push(None)?;
    }
    Ok(places)
}

/// Puts an answer in its place.
fn put_answer(work: &CaseWork<'_>, places: &mut Vec<Option<SubtreeAnswer>>, answer: SubtreeAnswer)
    requires places { AreAnswers work.now places.old.items }
    requires answer { IsAnswer work.now answer }
    ensures { AreAnswers work.now places.new.items }
{
    let _work = work.asked;
    let count = places.len();
    if answer.place < count {
        let place = count - 1 - answer.place;
        places[place] = Some(answer);
    }
}

/// Puts the answers of a worker in their places, if it didn't want memory.
fn put_found(
    work: &CaseWork<'_>,
    places: &mut Vec<Option<SubtreeAnswer>>,
    found: Result<Vec<SubtreeAnswer>, AllocError>,
) -> Result<(), AllocError>
    requires places { AreAnswers work.now places.old.items }
    requires found { IfOk found (λ answers. All (IsAnswer work.now) answers.items) }
    ensures { AreAnswers work.now places.new.items }
{
    let _work = work.asked;
    let answers = found?;
    for answer in answers {
        put_answer(work, places, answer);
    }
    Ok(())
}

/// Puts the answers of all workers in their places.
fn put_answers(
    alloc: Global,
    work: &CaseWork<'_>,
    count: usize,
    all: Vec<Result<Vec<SubtreeAnswer>, AllocError>>,
) -> Result<Vec<Option<SubtreeAnswer>>, AllocError>
    requires { All (λ one. IfOk one (λ answers. All (IsAnswer work.now) answers.items)) all.items }
    ensures { IfOk result (λ places. AreAnswers work.now places.items) }
{
    let mut places = places_of(alloc, count)?;
    for one in all {
        put_found(work, &mut places, one)?;
    }
    Ok(places)
}

/// Answers for the open pieces of what was begun, in the reverse of their order, as far as that many workers found them in a round.
pub(crate) fn answers<G: CaseGate + Sync, R: Threads + Sync>(
    rt: &R,
    alloc: Global,
    gate: &G,
    work: &CaseWork<'_>,
    begun: &[Begun],
    workers: usize,
) -> Result<Vec<Option<SubtreeAnswer>>, AllocError>
    requires device { AreFor work.now.log.now.sectors work.now.checkers.now }
    ensures { IfOk result (λ places. AreAnswers work.now places.items) }
{
    let pile = Pile::new(alloc, begun, workers)?;
    let count = pile.jobs.len();
    let all = all_answers(rt, alloc, gate, work, &pile, workers.min(count))?;
    put_answers(alloc, work, count, all)
}
