//! Rounds of workers, in which what was begun becomes whole.

ghost use Rattle.std.specs.Prelude.{◌≡◌, ◌∷◌, ◌++◌, [], List, All, IfOk, OnOk, IfSome, IsTrue};
ghost use Rattle.checker.specs.Checker.{AreFor};
ghost use Rattle.case_runs.specs.declared.pieces.Subtree.{Subtree as PieceValue};
ghost use Rattle.case_runs.specs.Pieces.{open_as};
ghost use Rattle.case_runs.specs.Shares.{IsAnswer, AreAnswers, IsBegun, AreAllOf, AreBelow, HaveSame};

use crate::gate::CaseGate;
use crate::pieces::{Begun, Start, Subtree, SubtreeAnswer, all_choices, are_same};
use crate::sharing::answers;
use crate::work::CaseWork;
use losses::found::MOST_CASES;
use std::alloc::{AllocError, Global};
use std::thread::Threads;

/// Whether an answer is that of an open piece.
fn is_of(answer: &SubtreeAnswer, cut: u32, program: usize, start: &Start) -> bool
    ensures cut { IsTrue result → answer.now.cut ≡ cut }
    ensures program { IsTrue result → answer.now.program ≡ program }
    ensures whole { IsTrue result → answer.now.start.whole ≡ start.now.whole }
    ensures sets { IsTrue result → answer.now.start.sets.items ≡ start.now.sets.items }
{
    let same = are_same(&answer.start, start);
    answer.cut == cut && answer.program == program && same
}

/// Takes the next answer, if there is one.
fn next_answer(
    work: &CaseWork<'_>,
    places: &mut Vec<Option<SubtreeAnswer>>,
) -> Option<SubtreeAnswer>
    requires { AreAnswers work.now places.old.items }
    ensures places { AreAnswers work.now places.new.items }
    ensures answer { IfSome result (IsAnswer work.now) }
{
    let _way = work.way;
    match places.pop() {
        Some(answer) => answer,
        None => None,
    }
}

/// Appends what takes the place of an open piece: what the answer says, if it is that of the piece.
fn put_below(
    work: &CaseWork<'_>,
    out: &mut Vec<Subtree>,
    cut: u32,
    program: usize,
    start: Start,
    answer: Option<SubtreeAnswer>,
) -> Result<(), AllocError>
    requires { IfSome answer (IsAnswer work.now) }
    ensures same { (rest : List PieceValue) → OnOk result (HaveSame work.now cut program (out.old.items ++ (open_as start ∷ rest)) (out.new.items ++ rest)) }
{
    let _way = work.way;
    if let Some(answer) = answer {
        if is_of(&answer, cut, program, &start) {
            let mut pieces = answer.pieces;
            out.append(&mut pieces)?;
            return Ok(());
        }
    }
    out.push(Subtree::Open(start))?;
    Ok(())
}

/// Appends a piece, or what takes its place.
fn put_piece(
    work: &CaseWork<'_>,
    out: &mut Vec<Subtree>,
    cut: u32,
    program: usize,
    piece: Subtree,
    places: &mut Vec<Option<SubtreeAnswer>>,
) -> Result<(), AllocError>
    requires { AreAnswers work.now places.old.items }
    ensures places { AreAnswers work.now places.new.items }
    ensures same { (rest : List PieceValue) → OnOk result (HaveSame work.now cut program (out.old.items ++ (piece ∷ rest)) (out.new.items ++ rest)) }
{
    match piece {
        Subtree::Told(found) => {
            out.push(Subtree::Told(found))?;
            Ok(())
        }
        Subtree::Open(start) => {
            let answer = next_answer(work, places);
            put_below(work, out, cut, program, start, answer)
        }
    }
}

/// Whether all pieces were found.
fn is_done(begun: &Begun) -> bool {
    for piece in begun.pieces.as_slice() {
        if let Subtree::Open(_start) = piece {
            return false;
        }
    }
    true
}

/// Pieces, with the answers in their places.
fn pieces_on(
    alloc: Global,
    work: &CaseWork<'_>,
    cut: u32,
    program: usize,
    pieces: Vec<Subtree>,
    places: &mut Vec<Option<SubtreeAnswer>>,
) -> Result<Vec<Subtree>, AllocError>
    requires places { AreAnswers work.now places.old.items }
    requires pieces { AreAllOf work.now cut program pieces.items }
    ensures places { AreAnswers work.now places.new.items }
    ensures pieces { IfOk result (λ pieces. AreAllOf work.now cut program pieces.items) }
{
    let mut out = Vec::new(alloc);
    for piece in pieces {
        put_piece(work, &mut out, cut, program, piece, places)?;
    }
    Ok(out)
}

/// What was begun, with the answers in their places.
fn gone_on(
    alloc: Global,
    work: &CaseWork<'_>,
    begun: Begun,
    places: &mut Vec<Option<SubtreeAnswer>>,
) -> Result<Begun, AllocError>
    requires places { AreAnswers work.now places.old.items }
    requires begun { IsBegun work.now begun }
    ensures places { AreAnswers work.now places.new.items }
    ensures begun { IfOk result (IsBegun work.now) }
{
    if is_done(&begun) {
        return Ok(begun);
    }
    let Begun {
        cut,
        program,
        pieces,
    } = begun;
    let pieces = pieces_on(alloc, work, cut, program, pieces, places)?;
    Ok(Begun {
        cut,
        program,
        pieces,
    })
}

/// Returns all that was begun, with the answers in their places.
fn all_gone_on(
    alloc: Global,
    work: &CaseWork<'_>,
    begun: Vec<Begun>,
    places: Vec<Option<SubtreeAnswer>>,
) -> Result<Vec<Begun>, AllocError>
    requires places { AreAnswers work.now places.items }
    requires begun { All (IsBegun work.now) begun.items }
    ensures { IfOk result (λ begun. All (IsBegun work.now) begun.items) }
{
    let mut places = places;
    let mut out = Vec::new(alloc);
    for one in begun {
        let gone = gone_on(alloc, work, one, &mut places)?;
        out.push(gone)?;
    }
    Ok(out)
}

/// How many leaves were found at a cut with a checker.
fn leaves_at(begun: &Begun) -> usize {
    let mut leaves: usize = 0;
    for piece in begun.pieces.as_slice() {
        if let Subtree::Told(found) = piece {
            leaves = leaves.saturating_add(found.cases);
        }
    }
    leaves
}

/// Whether a round more finds more that is wanted: something is still to be explored, and there aren't too many leaves yet.
fn is_wanted(begun: &[Begun]) -> bool {
    let mut leaves: usize = 0;
    let mut done = true;
    for one in begun {
        leaves = leaves.saturating_add(leaves_at(one));
        done = done && is_done(one);
    }
    !done && leaves <= MOST_CASES as usize
}

/// A beginning at each cut with each checker.
fn beginnings(alloc: Global, work: &CaseWork<'_>, cuts: &[u32]) -> Result<Vec<Begun>, AllocError>
    ensures { IfOk result (λ begun. All (IsBegun work.now) begun.items) }
{
    let mut out = Vec::new(alloc);
    for cut in cuts {
        put_beginnings(&mut out, work, *cut)?;
    }
    Ok(out)
}

/// Appends a beginning at a cut with each checker.
fn put_beginnings(out: &mut Vec<Begun>, work: &CaseWork<'_>, cut: u32) -> Result<(), AllocError>
    requires { All (IsBegun work.now) out.old.items }
    ensures { All (IsBegun work.now) out.new.items }
{
    for program in 0..work.checkers.len() {
        let pieces = whole_piece(*out.allocator(), work, cut, program)?;
        out.push(Begun {
            cut,
            program,
            pieces,
        })?;
    }
    Ok(())
}

/// Returns all choices of a cut, as a piece.
pub(crate) fn whole_piece(
    alloc: Global,
    work: &CaseWork<'_>,
    cut: u32,
    program: usize,
) -> Result<Vec<Subtree>, AllocError>
    ensures { IfOk result (λ pieces. AreAllOf work.now cut program pieces.items) }
{
    let _way = work.way;
    let _of = (cut, program);
    let mut pieces = Vec::new(alloc);
    pieces.push(Subtree::Open(all_choices(alloc)))?;
    Ok(pieces)
}

/// What workers find at some cuts with each checker, in rounds: nothing, where there is one alone.
pub(crate) fn explored<G: CaseGate + Sync, R: Threads + Sync>(
    rt: &R,
    alloc: Global,
    gate: &G,
    work: &CaseWork<'_>,
    cuts: &[u32],
    workers: usize,
) -> Result<Vec<Begun>, AllocError>
    requires device { AreFor work.now.log.now.sectors work.now.checkers.now }
    ensures { IfOk result (λ begun. All (IsBegun work.now) begun.items) }
{
    if workers < 2 {
        return Ok(Vec::new(alloc));
    }
    let mut begun = beginnings(alloc, work, cuts)?;
    for _round in 0..u32::MAX {
        if !is_wanted(begun.as_slice()) {
            return Ok(begun);
        }
        let places = answers(rt, alloc, gate, work, begun.as_slice(), workers)?;
        begun = all_gone_on(alloc, work, begun, places)?;
    }
    Ok(begun)
}
