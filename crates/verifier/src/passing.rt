//! What a slot passes on, and the first rule that is broken there.

ghost use Rattle.std.specs.Prelude.{◌≡◌, ◌<◌, ◌++◌, OnOk, Some, map};
ghost use Rattle.std.specs.Option.{option_map, option_to_list};
ghost use Rattle.ranges.specs.SeenStates.{state_of};
ghost use Rattle.ranges.specs.Changing.{left_of};
ghost use Rattle.ranges.specs.Moving.{reach};
ghost use Rattle.verifier.specs.Tables.{arriving, arrival, is_loose, rule_with, sent_with, passed_on_with};
ghost use Rattle.verifier.specs.Passing.{target_of, end_of, state_along, along};
ghost use Rattle.verifier.specs.Seen.{arrival_of};

use crate::scene::Scene;
use crate::table::Table;
use base::causes::VerifierCause;
use bpf_isa::instr::Instr;
use bpf_isa::program::Program;
use bpf_shape::{Shape, callee_of, edges_of};
use ranges::{Effect, State, broken_rule, effect_after, effect_along, lead};
use std::alloc::AllocError;

/// The two edges of a slot: to the next one, and to the target of a jump or the entry of a local function.
#[derive(Clone, Copy)]
pub(crate) enum Edge {
    Next,
    Target,
}

/// A state that arrives at a slot.
#[derive(Clone, Copy)]
pub(crate) struct Arrival {
    pub slot: usize,
    pub state: State,
}

/// The first rule that is broken at a slot; none is where it has no state, or no instruction begins.
#[tactic(auto, unfolding(crate::specs::Tables::rule_with))]
pub(crate) fn rule_at(scene: &Scene, table: &Table, slot: usize) -> Option<VerifierCause>
    ensures { result ≡ rule_with scene.now.guards scene.now.program.now table.now slot }
{
    match (scene.program.at(slot), table.state(slot)) {
        (Some(instr), Some(state)) => broken_rule(scene.guards, &instr, state),
        _ => None,
    }
}

/// Whether guards are asked for, and a rule without them is broken.
fn is_loose(guards: bool, instr: &Instr, state: &State) -> bool
    ensures { result ≡ is_loose guards (state_of state.now) instr.now }
{
    guards && broken_rule(false, instr, state).is_some()
}

/// Where an instruction passes a state besides the next slot: the entry of a local function, or the
/// target of a jump.
#[tactic(auto, unfolding(crate::specs::Passing::target_of))]
pub(crate) fn target_of(slot: usize, instr: &Instr) -> Option<usize>
    requires { slot < 4096 }
    ensures { result ≡ target_of slot instr.now }
{
    match callee_of(slot, instr) {
        Some(entry) => Some(entry),
        None => edges_of(slot, instr).target,
    }
}

/// Where an edge of a slot leads.
#[inline(always)]
pub(crate) fn end_of(edge: Edge, slot: usize, instr: &Instr) -> Option<usize>
    requires { slot < 4096 }
    ensures { result ≡ end_of edge slot instr.now }
{
    match edge {
        Edge::Next => edges_of(slot, instr).next,
        Edge::Target => target_of(slot, instr),
    }
}

/// What comes of a state along an edge.
#[tactic(auto, unfolding(crate::specs::Passing::along_with))]
pub(crate) fn effect_on(scene: &Scene, edge: Edge, instr: &Instr, state: &State) -> Effect
    ensures { left_of (state_of state.now) result ≡ state_along edge scene.now.guards scene.now.sectors (state_of state.now) instr.now }
{
    let loose = is_loose(scene.guards, instr, state);
    match (edge, instr) {
        (Edge::Next, Instr::Branch { .. }) => effect_along(loose, instr, false, state),
        (Edge::Next, _) => effect_after(loose, instr, state, scene.sectors),
        (Edge::Target, Instr::CallLocal { .. }) => Effect::Entered,
        (Edge::Target, _) => effect_along(loose, instr, true, state),
    }
}

/// A state arrives at a slot: it is rounded where that is a head.
fn arrive_at(shape: &Shape, slot: usize, state: &mut State)
    ensures { state_of state.new ≡ arriving shape.now.heads slot (state_of state.old) }
{
    if shape.is_head(slot) {
        state.widen();
    }
}

/// Leads a state to a slot, as it arrives there. Whether something is passed.
pub(crate) fn arrive_by(scene: &Scene, effect: &Effect, slot: usize, state: &mut State) -> bool
    ensures { along scene.now.shape.now.heads (Some slot) (left_of (state_of state.old) effect.now) ≡ option_map (λ s. (slot, s)) (reach result (state_of state.new)) }
{
    if !lead(effect, state) {
        return false;
    }
    arrive_at(scene.shape, slot, state);
    true
}

/// Appends what arrives at a slot, if something is passed there.
// The state makes its frame large, so it is entered only where there is that edge.
#[inline(never)]
fn push_arrival(
    waiting: &mut Vec<Arrival>,
    scene: &Scene,
    slot: usize,
    effect: &Effect,
    state: &State,
) -> Result<(), AllocError>
    ensures { OnOk result (map arrival_of waiting.new.items ≡ map arrival_of waiting.old.items ++ option_to_list (along scene.now.shape.now.heads (Some slot) (left_of (state_of state.now) effect.now))) }
{
    let mut arrival = Arrival {
        slot,
        state: *state,
    };
    if !arrive_by(scene, effect, slot, &mut arrival.state) {
        return Ok(());
    }
    waiting.push(arrival)?;
    Ok(())
}

/// Appends what arrives along an edge, if there is one and something is passed.
fn push_along(
    waiting: &mut Vec<Arrival>,
    scene: &Scene,
    edge: Edge,
    slot: usize,
    instr: &Instr,
    state: &State,
) -> Result<(), AllocError>
    requires { slot < 4096 }
    ensures { OnOk result (map arrival_of waiting.new.items ≡ map arrival_of waiting.old.items ++ option_to_list (along scene.now.shape.now.heads (end_of edge slot instr.now) (state_along edge scene.now.guards scene.now.sectors (state_of state.now) instr.now))) }
{
    match end_of(edge, slot, instr) {
        Some(to) => {
            let effect = effect_on(scene, edge, instr, state);
            push_arrival(waiting, scene, to, &effect, state)
        }
        None => Ok(()),
    }
}

/// Appends what an instruction passes on, as it arrives.
fn push_passed_on(
    waiting: &mut Vec<Arrival>,
    scene: &Scene,
    slot: usize,
    instr: &Instr,
    state: &State,
) -> Result<(), AllocError>
    requires { slot < 4096 }
    ensures { OnOk result (map arrival_of waiting.new.items ≡ map arrival_of waiting.old.items ++ passed_on_with scene.now.guards scene.now.shape.now.heads scene.now.sectors slot (Some instr.now) (Some (state_of state.now))) }
{
    push_along(waiting, scene, Edge::Next, slot, instr, state)?;
    push_along(waiting, scene, Edge::Target, slot, instr, state)?;
    Ok(())
}

/// Appends what a slot passes on, as it arrives; nothing, where it has no state, or no instruction begins.
#[tactic(auto, unfolding(crate::specs::Tables::sent_with))]
pub(crate) fn push_sent(
    waiting: &mut Vec<Arrival>,
    scene: &Scene,
    table: &Table,
    slot: usize,
) -> Result<(), AllocError>
    ensures { OnOk result (map arrival_of waiting.new.items ≡ map arrival_of waiting.old.items ++ sent_with scene.now.guards scene.now.program.now scene.now.sectors table.now slot) }
{
    match (scene.program.at(slot), table.state(slot)) {
        (Some(instr), Some(state)) => push_passed_on(waiting, scene, slot, &instr, state),
        _ => Ok(()),
    }
}
