//! Whether a table is good.

ghost use Rattle.std.specs.Prelude.{◌≡◌, ◌<◌, ◌↔◌, ℕ, IsTrue, false, OnOk, IfErr, IfSome, IfNone, Some};
ghost use Rattle.std.specs.Option.{option_to_list};
ghost use Rattle.bpf_shape.specs.Shape.{IsShapeOf};
ghost use Rattle.ranges.specs.SeenStates.{state_of};
ghost use Rattle.ranges.specs.States.{start};
ghost use Rattle.verifier.specs.Passing.{along, end_of, state_along};
ghost use Rattle.verifier.specs.Tables.{CoversAll, Covers, state_at, rule_with, sent_with, passed_on_with};
ghost use Rattle.verifier.specs.Good.{IsGood, IsGoodWith, IsGoodAt};
ghost use Rattle.verifier.specs.Breaches.{BreaksAt, FirstSlot, FirstBreach, FirstRule, KeepsRules};

use crate::passing::{Edge, arrive_by, effect_on, end_of, rule_at};
use crate::scene::Scene;
use crate::table::Table;
use base::causes::VerifierCause;
use bpf_isa::instr::Instr;
use bpf_isa::program::Program;
use bpf_shape::{Fault, Shape};
use ranges::State;

/// Whether what is passed along an edge, if there is one, is contained in what is known where it arrives. A state is changed
/// in place in the room that is given, whatever stands there.
fn covers_along(
    scene: &Scene,
    table: &Table,
    edge: Edge,
    slot: usize,
    instr: &Instr,
    state: &State,
    room: &mut State,
) -> bool
    requires { slot < 4096 }
    ensures { IsTrue result ↔ CoversAll table.now (option_to_list (along scene.now.shape.now.heads (end_of edge slot instr.now) (state_along edge scene.now.guards scene.now.sectors (state_of state.now) instr.now))) }
{
    match end_of(edge, slot, instr) {
        Some(to) => {
            let effect = effect_on(scene, edge, instr, state);
            *room = *state;
            !arrive_by(scene, &effect, to, room) || table.covers(to, room)
        }
        None => true,
    }
}

/// Whether all that an instruction passes on is contained in what is known where it arrives.
fn covers_edges(
    scene: &Scene,
    table: &Table,
    slot: usize,
    instr: &Instr,
    state: &State,
    room: &mut State,
) -> bool
    requires { slot < 4096 }
    ensures { IsTrue result ↔ CoversAll table.now (passed_on_with scene.now.guards scene.now.shape.now.heads scene.now.sectors slot (Some instr.now) (Some (state_of state.now))) }
{
    covers_along(scene, table, Edge::Next, slot, instr, state, room)
        && covers_along(scene, table, Edge::Target, slot, instr, state, room)
}

/// Whether all that a slot passes on is contained in what a table knows where it arrives.
#[tactic(auto, unfolding(crate::specs::Tables::sent_with))]
fn covers_sent(scene: &Scene, table: &Table, slot: usize, room: &mut State) -> bool
    ensures { IsTrue result ↔ CoversAll table.now (sent_with scene.now.guards scene.now.program.now scene.now.sectors table.now slot) }
{
    match (scene.program.at(slot), table.state(slot)) {
        (Some(instr), Some(state)) => covers_edges(scene, table, slot, &instr, state, room),
        _ => true,
    }
}

/// What a slot breaks first: a rule, or an edge.
fn breach_at(scene: &Scene, table: &Table, slot: usize, room: &mut State) -> Option<VerifierCause>
    ensures good { IfNone result (IsGoodAt scene.now.guards scene.now.program.now scene.now.sectors table.now slot) }
    ensures breach { IfSome result (λ cause. BreaksAt scene.now.guards scene.now.program.now scene.now.sectors table.now slot cause) }
{
    if let Some(cause) = rule_at(scene, table, slot) {
        return Some(cause);
    }
    if covers_sent(scene, table, slot, room) {
        None
    } else {
        Some(VerifierCause::Unsettled)
    }
}

/// Tests all slots, in rising order.
fn check_slots(scene: &Scene, table: &Table, room: &mut State) -> Result<(), Fault>
    ensures good { OnOk result ((slot : ℕ) → IsGoodAt scene.now.guards scene.now.program.now scene.now.sectors table.now slot) }
    ensures breach { IfErr result (λ f. FirstSlot scene.now.guards scene.now.program.now scene.now.sectors table.now f.code f.slot) }
{
    for slot in 0..scene.program.slots() {
        if let Some(cause) = breach_at(scene, table, slot, room) {
            return Err(fault_at(cause, slot));
        }
    }
    Ok(())
}

/// Whether a table is good; else its first breach.
pub(crate) fn check_good(scene: &Scene, table: &Table) -> Result<(), Fault>
    ensures good { OnOk result (IsGoodWith scene.now.guards scene.now.program.now scene.now.sectors table.now) }
    ensures breach { IfErr result (λ f. FirstBreach scene.now.guards scene.now.program.now scene.now.sectors table.now f.code f.slot) }
{
    if table.slots() != scene.program.slots() {
        return Err(fault_at(VerifierCause::Unsettled, 0));
    }
    let mut room = State::start();
    if !table.covers(0, &room) {
        return Err(fault_at(VerifierCause::Unsettled, 0));
    }
    check_slots(scene, table, &mut room)
}

/// Whether a table is good for a program and its shape, on a device of that many sectors, with guards or without; else the
/// first breach, in the order of docs/VERIFIER.md, Good table.
pub fn check_table_with(
    program: &Program,
    shape: &Shape,
    sectors: u32,
    table: &Table,
    guards: bool,
) -> Result<(), Fault>
    requires { IsShapeOf guards program.now shape.now }
    ensures good { OnOk result (IsGoodWith guards program.now sectors table.now) }
    ensures breach { IfErr result (λ f. FirstBreach guards program.now sectors table.now f.code f.slot) }
{
    let scene = Scene {
        program,
        shape,
        sectors,
        guards,
    };
    check_good(&scene, table)
}

/// Whether a table is good without guards; else the first breach, as `check_table_with` tells it.
pub fn check_table(
    program: &Program,
    shape: &Shape,
    sectors: u32,
    table: &Table,
) -> Result<(), Fault>
    requires { IsShapeOf false program.now shape.now }
    ensures good { OnOk result (IsGood program.now sectors table.now) }
    ensures breach { IfErr result (λ f. FirstBreach false program.now sectors table.now f.code f.slot) }
{
    check_table_with(program, shape, sectors, table, false)
}

/// Whether each slot of a table keeps its rules, edges aside; else the lowest that doesn't.
pub(crate) fn check_rules(scene: &Scene, table: &Table) -> Result<(), Fault>
    ensures kept { OnOk result (KeepsRules scene.now.guards scene.now.program.now table.now) }
    ensures broken { IfErr result (λ f. FirstRule scene.now.guards scene.now.program.now table.now f.code f.slot) }
{
    for slot in 0..scene.program.slots() {
        if let Some(cause) = rule_at(scene, table, slot) {
            return Err(fault_at(cause, slot));
        }
    }
    Ok(())
}

/// The refusal of a slot.
pub(crate) fn fault_at(code: VerifierCause, slot: usize) -> Fault
    ensures { result ≡ record { code = code; slot = slot } }
{
    Fault {
        code,
        slot: slot as u64,
    }
}
