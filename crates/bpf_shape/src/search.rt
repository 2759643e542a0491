//! Which slots are reached along edges.

ghost use Rattle.std.specs.Prelude.{◌≡◌, ◌<◌, ℕ, Some, OnOk, IfOk, length};
ghost use Rattle.bpf_shape.specs.Paths.{Leads};
ghost use Rattle.bpf_shape.specs.Edges.{control};
ghost use Rattle.bpf_shape.specs.Calls.{callee};
ghost use Rattle.bpf_shape.specs.Search.{entering, search_edges, marks_after, waiting_after, IsMarked, Met, EdgesFit, EntriesFit, AllWait, Enters, AreMarks};

use crate::again::plain;
use crate::calls::callee;
use crate::edges::{Edges, control};
use bpf_isa::program::Program;
use std::alloc::{AllocError, Global};

/// Which edges a search follows.
#[derive(Clone, Copy)]
pub(crate) enum EdgeKind {
    /// The control edges.
    All,
    /// The control edges without again edges.
    Plain,
    /// The control edges, and one from each local call to its entry.
    Entering,
}

/// The control edges of a slot, and one from a local call to its entry.
#[tactic(auto, unfolding(crate::specs::Search::entering))]
fn entering(program: &Program, slot: usize) -> Edges
    ensures { result ≡ entering program.now slot }
{
    let edges = control(program, slot);
    match callee(program, slot) {
        Some(entry) => Edges {
            next: edges.next,
            target: Some(entry),
        },
        None => edges,
    }
}

/// The edges of a slot of that kind.
fn edges_by(program: &Program, kind: EdgeKind, slot: usize) -> Edges
    ensures { result ≡ search_edges kind program.now slot }
{
    match kind {
        EdgeKind::All => control(program, slot),
        EdgeKind::Plain => plain(program, slot),
        EdgeKind::Entering => entering(program, slot),
    }
}

/// Marks a slot, if there is one; it waits, if it wasn't marked.
fn meet_slot(
    marks: &mut Vec<bool>,
    waiting: &mut Vec<usize>,
    slot: Option<usize>,
) -> Result<(), AllocError>
    ensures marks { OnOk result (marks.new.items ≡ marks_after marks.old.items slot) }
    ensures waiting { OnOk result (waiting.new.items ≡ waiting_after marks.old.items waiting.old.items slot) }
{
    match slot {
        Some(slot) => {
            if slot < marks.len() && !marks[slot] {
                marks[slot] = true;
                waiting.push(slot)?;
            }
            Ok(())
        }
        None => Ok(()),
    }
}

/// Marks the slots to which edges lead; those wait that weren't marked.
fn meet(marks: &mut Vec<bool>, waiting: &mut Vec<usize>, edges: Edges) -> Result<(), AllocError>
    ensures { OnOk result (Met (Leads edges) marks.old.items waiting.old.items marks.new.items waiting.new.items) }
{
    meet_slot(marks, waiting, edges.next)?;
    meet_slot(marks, waiting, edges.target)?;
    Ok(())
}

/// Marks what is reached along edges of that kind from the marked slots, all of which wait.
fn spread(
    program: &Program,
    kind: EdgeKind,
    marks: &mut Vec<bool>,
    waiting: &mut Vec<usize>,
) -> Result<(), AllocError>
    requires edges { EdgesFit (search_edges kind program.now) (length program.now) }
    requires wait { AllWait (length program.now) marks.old.items waiting.old.items }
    ensures { OnOk result (AreMarks (search_edges kind program.now) (length program.now) (IsMarked marks.old.items) marks.new.items) }
{
    while let Some(slot) = waiting.pop() {
        meet(marks, waiting, edges_by(program, kind, slot))?;
    }
    Ok(())
}

/// For each slot, whether one of these edges begins a walk to it along edges of that kind.
pub(crate) fn reach_of_edges(
    alloc: Global,
    program: &Program,
    kind: EdgeKind,
    from: Edges,
) -> Result<Vec<bool>, AllocError>
    requires edges { EdgesFit (search_edges kind program.now) (length program.now) }
    requires within { (t : ℕ) → Leads from t → t < length program.now }
    ensures { IfOk result (λ marks. AreMarks (search_edges kind program.now) (length program.now) (Leads from) marks.items) }
{
    let mut marks = Vec::new(alloc);
    marks.resize(program.slots(), false)?;
    let mut waiting = Vec::new(alloc);
    meet(&mut marks, &mut waiting, from)?;
    spread(program, kind, &mut marks, &mut waiting)?;
    Ok(marks)
}

/// For each slot, whether it is reached from that slot along edges of that kind.
pub(crate) fn reached_from(
    alloc: Global,
    program: &Program,
    kind: EdgeKind,
    slot: usize,
) -> Result<Vec<bool>, AllocError>
    requires edges { EdgesFit (search_edges kind program.now) (length program.now) }
    requires within { slot < length program.now }
    ensures { IfOk result (λ marks. AreMarks (search_edges kind program.now) (length program.now) (λ t. slot ≡ t) marks.items) }
{
    let start = Edges {
        next: Some(slot),
        target: None,
    };
    reach_of_edges(alloc, program, kind, start)
}

/// Marks the entry of a local call, if the call is marked; it waits, if it wasn't marked.
fn enter(
    program: &Program,
    outer: &Vec<bool>,
    marks: &mut Vec<bool>,
    waiting: &mut Vec<usize>,
    slot: usize,
) -> Result<(), AllocError>
    requires { slot < length outer.now.items }
    ensures { OnOk result (Met (λ t. IsMarked outer.now.items slot × (callee program.now slot ≡ Some t)) marks.old.items waiting.old.items marks.new.items waiting.new.items) }
{
    if outer[slot] {
        meet_slot(marks, waiting, callee(program, slot))?;
    }
    Ok(())
}

/// For each slot, whether it is reached from the entry of a marked local call.
pub(crate) fn reach_of_entries(
    alloc: Global,
    program: &Program,
    outer: &Vec<bool>,
) -> Result<Vec<bool>, AllocError>
    requires edges { EdgesFit (control program.now) (length program.now) }
    requires entries { EntriesFit program.now }
    requires marks { length outer.now.items ≡ length program.now }
    ensures { IfOk result (λ marks. AreMarks (control program.now) (length program.now) (Enters program.now outer.now.items (length program.now)) marks.items) }
{
    let mut marks = Vec::new(alloc);
    marks.resize(program.slots(), false)?;
    let mut waiting = Vec::new(alloc);
    for slot in 0..program.slots() {
        enter(program, outer, &mut marks, &mut waiting, slot)?;
    }
    spread(program, EdgeKind::All, &mut marks, &mut waiting)?;
    Ok(marks)
}
