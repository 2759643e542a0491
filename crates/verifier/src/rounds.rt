//! Inference: rounds, until one changes nothing.
//!
//! In a round only the slots with a mark pass on what they know: those at which the round before learned
//! something. What the others pass on is contained where it arrives since they passed it on last.

ghost use Rattle.std.specs.Prelude.{◌≡◌, ◌<◌, ◌≤◌, ◌++◌, [], ◌∷◌, OnOk, IfOk, IfSome, IfNone, true, false, get_or, length, map, replicate};
ghost use Rattle.bpf_isa.specs.Program.{IsProgram};
ghost use Rattle.verifier.specs.Tables.{sent_with};
ghost use Rattle.verifier.specs.Seen.{arrival_of};
ghost use Rattle.verifier.specs.Rounds.{passed_by, IsSettled};
ghost use Rattle.verifier.specs.Visits.{one_if, count_set, NeedMore};
ghost use Rattle.verifier.specs.Passing.{Arrive, IsRound, Arrived, IsMarked, MadeRound, Kept, passed_if, passed_again};

use crate::passing::{Arrival, push_sent, rule_at};
use crate::scene::Scene;
use crate::table::Table;
use std::alloc::{AllocError, Global};

/// Whether a slot has a mark.
fn is_marked(marks: &[bool], slot: usize) -> bool
    ensures { result ≡ get_or marks.now slot false }
{
    slot < marks.len() && marks[slot]
}

/// Appends what a slot passes on in a round: nothing, where a rule is broken.
// States make its frame large, so it stays out of the loop over the slots without a mark.
#[inline(never)]
fn push_passed(
    waiting: &mut Vec<Arrival>,
    scene: &Scene,
    table: &Table,
    slot: usize,
) -> Result<(), AllocError>
    ensures { OnOk result (map arrival_of waiting.new.items ≡ map arrival_of waiting.old.items ++ passed_by scene.now.guards scene.now.program.now scene.now.sectors table.now slot) }
{
    if rule_at(scene, table, slot).is_some() {
        return Ok(());
    }
    push_sent(waiting, scene, table, slot)
}

/// Pushes what a slot with a mark passes on, and nothing where it has none.
fn push_marked(
    waiting: &mut Vec<Arrival>,
    scene: &Scene,
    table: &Table,
    marks: &[bool],
    slot: usize,
) -> Result<(), AllocError>
    ensures { OnOk result (map arrival_of waiting.new.items ≡ map arrival_of waiting.old.items ++ passed_if scene.now.guards scene.now.program.now scene.now.sectors table.now marks.now slot) }
{
    if !is_marked(marks, slot) {
        return Ok(());
    }
    push_passed(waiting, scene, table, slot)
}

/// What all slots with a mark pass on.
#[tactic(auto, unfolding(crate::specs::Passing::passed_again))]
fn passed_states(
    alloc: Global,
    scene: &Scene,
    table: &Table,
    marks: &[bool],
) -> Result<Vec<Arrival>, AllocError>
    ensures passed { IfOk result (λ waiting. map arrival_of waiting.items ≡ passed_again scene.now.guards scene.now.program.now scene.now.sectors table.now marks.now) }
    ensures program { OnOk result (IsProgram scene.now.program.now) }
{
    let mut waiting = Vec::new(alloc);
    for slot in 0..scene.program.slots() {
        push_marked(&mut waiting, scene, table, marks, slot)?;
    }
    Ok(waiting)
}

/// A mark for each slot.
fn all_marked(alloc: Global, slots: usize) -> Result<Vec<bool>, AllocError>
    ensures { IfOk result (λ marks. marks.items ≡ replicate slots true) }
{
    let mut marks = Vec::new(alloc);
    marks.resize(slots, true)?;
    Ok(marks)
}

/// Takes all marks away.
fn clear(marks: &mut Vec<bool>)
    ensures { marks.new.items ≡ replicate (length marks.old.items) false }
{
    marks.fill(false);
}

/// A state arrives and its slot is marked, if it isn't contained in what is known. Whether it was not.
#[tactic(auto, using(crate::proofs::Marks::kept_self))]
fn arrive(table: &mut Table, marks: &mut Vec<bool>, arrival: &Arrival) -> bool
    requires slot { arrival.now.slot < length table.old }
    requires marks { length marks.old.items ≡ length table.old }
    ensures arrived { Arrived table.old (arrival_of arrival.now ∷ []) table.new result }
    ensures kept { Kept table.old marks.old.items table.new marks.new.items }
{
    let _states = table.slots();
    if table.covers(arrival.slot, &arrival.state) {
        return false;
    }
    table.receive(arrival.slot, &arrival.state);
    marks[arrival.slot] = true;
    true
}

/// All that is passed on arrives. Whether some of it was not contained in what was known.
#[tactic(auto, using(crate::proofs::Marks::kept_self))]
fn arrive_all(table: &mut Table, marks: &mut Vec<bool>, waiting: &[Arrival]) -> bool
    requires waiting { Arrive (length table.old) (map arrival_of waiting.now) }
    requires marks { length marks.old.items ≡ length table.old }
    ensures arrived { Arrived table.old (map arrival_of waiting.now) table.new result }
    ensures kept { Kept table.old marks.old.items table.new marks.new.items }
{
    let _states = table.slots();
    let mut changed = false;
    for arrival in waiting {
        if arrive(table, marks, arrival) {
            changed = true;
        }
    }
    changed
}

/// A round: what the marked slots pass on arrives, and the marks are set anew. Whether it changes the
/// table.
fn make_round(
    alloc: Global,
    scene: &Scene,
    table: &mut Table,
    marks: &mut Vec<bool>,
) -> Result<bool, AllocError>
    requires round { IsRound (length scene.now.program.now) table.old }
    requires marks { IsMarked scene.now.guards scene.now.program.now scene.now.sectors table.old marks.old.items }
    ensures { IfOk result (λ changed. MadeRound scene.now.guards scene.now.program.now scene.now.sectors table.old table.new marks.new.items changed) }
{
    let waiting = passed_states(alloc, scene, table, marks.as_slice())?;
    clear(marks);
    Ok(arrive_all(table, marks, waiting.as_slice()))
}

/// One for a mark that is set.
fn one_if(mark: bool) -> u64
    ensures value { result ≡ one_if mark }
    ensures bound { result ≤ 1 }
{
    if mark { 1 } else { 0 }
}

/// How many marks are set.
fn count_set(marks: &[bool]) -> u64
    ensures { result ≡ count_set marks.now }
{
    let mut set = 0;
    for place in 0..marks.len() {
        set += one_if(marks[place]);
    }
    set
}

/// The table at which the rounds end, unless they need more visits of slots than these.
#[tactic(auto, using(crate::proofs::Counting::counted_settled))]
pub(crate) fn make_rounds_within(
    alloc: Global,
    scene: &Scene,
    most: u64,
) -> Result<Option<Table>, AllocError>
    ensures settled { IfOk result (λ found. IfSome found (IsSettled scene.now.guards scene.now.program.now scene.now.sectors)) }
    ensures more { IfOk result (λ found. IfNone found (NeedMore scene.now.guards scene.now.program.now scene.now.sectors most)) }
    ensures program { OnOk result (IsProgram scene.now.program.now) }
{
    let slots = scene.program.slots();
    let mut table = Table::first(alloc, slots)?;
    let mut marks = all_marked(alloc, slots)?;
    let mut left = most;
    loop {
        if !make_round(alloc, scene, &mut table, &mut marks)? {
            return Ok(Some(table));
        }
        let visits = count_set(marks.as_slice());
        if left < visits {
            return Ok(None);
        }
        left -= visits;
    }
}

/// The table at which the rounds end: each that changes it raises its sum, which stays below 2^96.
pub(crate) fn make_rounds(alloc: Global, scene: &Scene) -> Result<Table, AllocError>
    ensures settled { IfOk result (λ table. IsSettled scene.now.guards scene.now.program.now scene.now.sectors table) }
    ensures program { OnOk result (IsProgram scene.now.program.now) }
{
    let slots = scene.program.slots();
    let mut table = Table::first(alloc, slots)?;
    let mut marks = all_marked(alloc, slots)?;
    loop {
        if !make_round(alloc, scene, &mut table, &mut marks)? {
            return Ok(table);
        }
    }
}
