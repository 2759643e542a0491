//! What was found at a cut with a checker so far, in pieces, and how a piece is gone on with.

ghost use Rattle.std.specs.Prelude.{◌≡◌, ◌∷◌, [], true, map, IfOk, OnOk, IsTrue};
ghost use Rattle.images.specs.Views.{context_at};
ghost use Rattle.cases.specs.Search.{pending};
ghost use Rattle.case_runs.specs.Leaves.{IsFit};
ghost use Rattle.case_runs.specs.Pieces.{IsSearchOf, IsStart, start_case, RanFrom, told_as, open_at};

use crate::gate::{CaseGate, Watched};
use crate::judge::CaseJudge;
use crate::leaves::copy_sets;
use cases::{Cut, Search};
use checker::Checker;
use helpers::Context;
use losses::found::{CaseFindings, Losses};
use std::alloc::{AllocError, Global};

/// Where a search begins: at all choices of a cut, or at a case.
#[derive(Drop)]
pub(crate) struct Start {
    /// Whether it is at all choices; then it has no sets.
    pub(crate) whole: bool,
    /// The case, as a set for each part at risk.
    pub(crate) sets: Vec<u16>,
}

/// A piece of the tree of a cut and a checker.
#[derive(Drop)]
pub(crate) enum Subtree {
    /// What was found there.
    Told(CaseFindings),
    /// A case that is still to be explored.
    Open(Start),
}

/// What was found at a cut with a checker so far: pieces, in the order of the tree.
#[derive(Drop)]
pub(crate) struct Begun {
    pub(crate) cut: u32,
    /// The number of the checker.
    pub(crate) program: usize,
    pub(crate) pieces: Vec<Subtree>,
}

/// What came of an open piece.
#[derive(Drop)]
pub(crate) struct SubtreeAnswer {
    /// The place of the piece among the open ones.
    pub(crate) place: usize,
    pub(crate) cut: u32,
    pub(crate) program: usize,
    /// Where the piece begins.
    pub(crate) start: Start,
    /// How many leaves were found.
    pub(crate) leaves: usize,
    /// What takes its place.
    pub(crate) pieces: Vec<Subtree>,
}

/// What a run found, and the cases that are still to be explored after it.
#[derive(Drop)]
pub(crate) struct Ran {
    pub(crate) found: CaseFindings,
    pub(crate) left: Vec<Vec<u16>>,
}

/// Returns a start at all choices of a cut, which are still to be explored.
pub(crate) fn all_choices(alloc: Global) -> Start
    ensures { result.whole ≡ true }
{
    Start {
        whole: true,
        sets: Vec::new(alloc),
    }
}

/// A copy of a start.
pub(crate) fn copy_start(alloc: Global, start: &Start) -> Result<Start, AllocError>
    ensures whole { IfOk result (λ copy. copy.whole ≡ start.now.whole) }
    ensures sets { IfOk result (λ copy. copy.sets.items ≡ start.now.sets.items) }
{
    let sets = copy_sets(alloc, start.sets.as_slice())?;
    Ok(Start {
        whole: start.whole,
        sets,
    })
}

/// Whether two starts are the same.
pub(crate) fn are_same(one: &Start, other: &Start) -> bool
    ensures whole { IsTrue result → one.now.whole ≡ other.now.whole }
    ensures sets { IsTrue result → one.now.sets.items ≡ other.now.sets.items }
{
    one.whole == other.whole && one.sets.as_slice() == other.sets.as_slice()
}

/// Whether a start has a set for each part at risk.
pub(crate) fn is_start(cut: &Cut<'_>, start: &Start) -> bool
    ensures { IsTrue result → IsStart cut.now start.now }
{
    start.whole || start.sets.len() == cut.parts().len()
}

/// Lets a search begin there.
fn begin_at(
    alloc: Global,
    search: &mut Search<'_>,
    cut: &Cut<'_>,
    start: &Start,
    asked: Losses,
) -> Result<(), AllocError>
    requires search { IsSearchOf asked cut.now search.old }
    requires start { IsStart cut.now start.now }
    ensures search { IsSearchOf asked cut.now search.new }
    ensures pending { OnOk result (pending search.new ≡ start_case asked.tears cut.now start.now ∷ []) }
    ensures none { OnOk result ((search.new.torn_beyond ≡ 0) × (search.new.lost_beyond ≡ 0)) }
{
    let _cut = cut.number();
    if start.whole {
        return search.begin(alloc);
    }
    search.begin_at(copy_sets(alloc, start.sets.as_slice())?);
    Ok(())
}

/// Explores the tree below a start, up to a limit of leaves.
pub(crate) fn run_start<G: CaseGate>(
    alloc: Global,
    gate: &G,
    search: &mut Search<'_>,
    cut: &Cut<'_>,
    context: Context,
    checker: &Checker<'_>,
    asked: Losses,
    start: &Start,
    most: u32,
) -> Result<Ran, AllocError>
    requires context { context ≡ context_at cut.now.log cut.now.cut }
    requires fit { IsFit checker.now context }
    requires search { IsSearchOf asked cut.now search.old }
    requires start { IsStart cut.now start.now }
    ensures search { IsSearchOf asked cut.now search.new }
    ensures ran { IfOk result (RanFrom asked cut.now checker.now most (start_case asked.tears cut.now start.now ∷ [])) }
{
    begin_at(alloc, search, cut, start, asked)?;
    let mut judge = Watched::new(CaseJudge::new(alloc, checker, context)?, gate);
    let _ended = search.run(&mut judge, most)?;
    let found = judge.into_findings(search);
    let left = search.take_all(alloc)?;
    Ok(Ran { found, left })
}

/// The pieces of what a run found, and of what is still to be explored after it.
pub(crate) fn pieces_of(alloc: Global, ran: Ran) -> Result<Vec<Subtree>, AllocError>
    ensures { IfOk result (λ pieces. pieces.items ≡ told_as ran.found ∷ map open_at ran.left.items) }
{
    let Ran { found, left } = ran;
    let mut pieces = Vec::new(alloc);
    pieces.push(Subtree::Told(found))?;
    for sets in left {
        pieces.push(Subtree::Open(Start { whole: false, sets }))?;
    }
    Ok(pieces)
}
