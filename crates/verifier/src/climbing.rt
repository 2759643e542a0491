//! The search for the least good table, a slot at a time.
//!
//! Of the slots that learned something the first in the order of the ways passes on what it knows, until none is left or
//! a rule is broken. So a slot is visited once where several ways meet, however they are laid out; a loop is gone through
//! until it is settled before what stands after its end is looked at; and a slot costs nothing while nothing that it
//! knows changes. Where that takes a million steps the next million goes forward in the order, and begins anew at its
//! end, and so on in turn. Each table on the way is below every good one. Whether the last one is good is not known
//! here: its caller tests it.
//!
//! Only those parts of what a slot knows are joined that changed since it passed them on last, or that its instruction
//! makes of these. In a long search the parts on which no head hangs wait for many laps (`news`). The rules of a slot
//! are tested again where its instruction looks at one of the parts that are passed on. Where it changes little, they go
//! from slot to slot one by one (`way`). Else, and the first time along an edge, when all parts are told, the state is
//! copied into one room for all steps, and led along the edge in place. No list of what is passed on is made.

ghost use Rattle.std.specs.Prelude.{◌≡◌, ◌<◌, OnOk, IfOk, IfErr, IfSome, Some, length, [], ◌∷◌};
ghost use Rattle.std.specs.Option.{option_to_list};
ghost use Rattle.bpf_isa.specs.Program.{IsProgram};
ghost use Rattle.bpf_isa.specs.Slots.{at};
ghost use Rattle.ranges.specs.Changing.{left_of};
ghost use Rattle.ranges.specs.Moving.{reach};
ghost use Rattle.ranges.specs.SeenStates.{state_of};
ghost use Rattle.verifier.specs.Sought.{TakesIn, IsSought};
ghost use Rattle.verifier.specs.Tables.{state_at, rule_with};
ghost use Rattle.verifier.specs.Ways.{Goes, IsWay, LearnsAlong, LeavesAt};
ghost use Rattle.verifier.specs.Passing.{Arrive, StaysSought, along, state_along};

use crate::agenda::Agenda;
use crate::check::fault_at;
use crate::parts::{Parts, changed_by, parts_of};
use crate::passing::{Edge, arrive_by, effect_on, end_of, rule_at};
use crate::scene::Scene;
use crate::table::Table;
use crate::way::{Way, learn_along};
use bpf_isa::instr::Instr;
use bpf_shape::Fault;
use ranges::{Effect, State};
use std::alloc::{AllocError, Global};

/// How many steps the search makes before it gives up: more than any can need in a lifetime.
const MOST_STEPS: u64 = 1 << 48;

/// A state arrives at a slot, which learns from the parts that are told.
fn arrive(table: &mut Table, agenda: &mut Agenda, slot: usize, state: &State, told: Parts)
    requires { slot < length table.old }
    ensures { TakesIn table.old ((slot, state_of state.now) ∷ []) table.new }
{
    let learned = table.learn(slot, state, told);
    if learned.is_some() {
        agenda.put(slot, learned);
    }
}

/// What little changes goes along a way, and arrives there.
fn arrive_along(table: &mut Table, agenda: &mut Agenda, way: &Way, told: Parts)
    requires { Goes way.now (length table.old) }
    ensures { LearnsAlong way.now table.old table.new }
{
    let learned = learn_along(table, way, told);
    if learned.is_some() {
        agenda.put(way.to, learned);
    }
}

/// Leads a state along an edge to a slot. What is passed arrives there.
fn lead_along(
    scene: &Scene,
    table: &mut Table,
    agenda: &mut Agenda,
    edge: Edge,
    slot: usize,
    effect: &Effect,
    changed: Parts,
    state: &mut State,
)
    requires { Arrive (length table.old) (option_to_list (along scene.now.shape.now.heads (Some slot) (left_of (state_of state.old) effect.now))) }
    ensures { TakesIn table.old (option_to_list (along scene.now.shape.now.heads (Some slot) (left_of (state_of state.old) effect.now))) table.new }
{
    if arrive_by(scene, effect, slot, state) {
        let told = agenda.told(edge, slot, changed);
        arrive(table, agenda, slot, state, told);
    }
}

/// Copies what is known at a slot, if there is a state. Whether there is.
fn copy_state(table: &Table, slot: usize, room: &mut State) -> bool
    ensures { state_at table.now slot ≡ reach result (state_of room.new) }
{
    match table.state(slot) {
        Some(state) => {
            *room = *state;
            true
        }
        None => false,
    }
}

/// Where little changes and something is known there already, the way to another slot.
#[inline(always)]
fn way_to(table: &Table, from: usize, to: usize, effect: &Effect, is_head: bool) -> Option<Way>
    ensures { IfSome result (IsWay from to is_head effect.now (length table.now)) }
{
    match effect {
        Effect::Changed(change) => {
            if from != to && to < table.slots() && table.state(to).is_some() {
                Some(Way {
                    from,
                    to,
                    change: *change,
                    is_head,
                })
            } else {
                None
            }
        }
        Effect::Nothing | Effect::Entered => None,
    }
}

/// What comes of a slot's state along an edge. Nothing does where it has none.
#[inline(always)]
fn effect_at(scene: &Scene, table: &Table, slot: usize, edge: Edge, instr: &Instr) -> Effect
    ensures { LeavesAt (state_at table.now slot) result (λ s. state_along edge scene.now.guards scene.now.sectors s instr.now) }
{
    match table.state(slot) {
        Some(state) => effect_on(scene, edge, instr, state),
        None => Effect::Nothing,
    }
}

/// What a slot passes along an edge arrives.
#[tactic(auto, using(crate::proofs::Ascending::stays_self, crate::proofs::Ascending::stays_more))]
fn pass_along(
    scene: &Scene,
    table: &mut Table,
    agenda: &mut Agenda,
    slot: usize,
    edge: Edge,
    instr: &Instr,
    room: &mut State,
)
    requires long { length table.old ≡ length scene.now.program.now }
    requires small { slot < 4096 }
    requires instr { at scene.now.program.now slot ≡ Some instr.now }
    ensures { StaysSought scene.now.guards scene.now.program.now scene.now.sectors table.old table.new }
{
    let _states = table.slots();
    let _slots = scene.program.slots();
    let Some(to) = end_of(edge, slot, instr) else {
        return;
    };
    let effect = effect_at(scene, table, slot, edge, instr);
    if agenda.has_told(edge)
        && let Some(way) = way_to(table, slot, to, &effect, scene.shape.is_head(to))
    {
        let told = agenda.told(edge, to, parts_of(&way.change));
        arrive_along(table, agenda, &way, told);
    } else if !matches!(effect, Effect::Nothing) && copy_state(table, slot, room) {
        let changed = changed_by(instr);
        lead_along(scene, table, agenda, edge, to, &effect, changed, room);
    }
}

/// Takes a slot from the agenda, and passes on what it knows. Whether there was one. An error is a broken rule: then no
/// table is good.
#[tactic(auto, using(crate::proofs::Ascending::stays_self, crate::proofs::Ascending::stays_more))]
fn make_step(
    scene: &Scene,
    table: &mut Table,
    agenda: &mut Agenda,
    room: &mut State,
) -> Result<bool, Fault>
    requires long { length table.old ≡ length scene.now.program.now }
    ensures sought { StaysSought scene.now.guards scene.now.program.now scene.now.sectors table.old table.new }
    ensures broken { IfErr result (λ f. rule_with scene.now.guards scene.now.program.now table.new f.slot ≡ Some f.code) }
{
    let Some(slot) = agenda.take(scene) else {
        return Ok(false);
    };
    let Some(instr) = scene.program.at(slot) else {
        return Ok(true);
    };
    let is_seen = agenda.is_seen_by(&instr);
    if is_seen && let Some(cause) = rule_at(scene, table, slot) {
        return Err(fault_at(cause, slot));
    }
    pass_along(scene, table, agenda, slot, Edge::Next, &instr, room);
    if agenda.keeps_from_target(&instr) {
        return Ok(true);
    }
    pass_along(scene, table, agenda, slot, Edge::Target, &instr, room);
    Ok(true)
}

/// The table at which the search ends: the least good one, where there is one, unless it takes too many steps; and the
/// rule that is broken there, if the search met one.
#[tactic(auto, using(crate::proofs::Ascending::more_climbed))]
pub(crate) fn climb(alloc: Global, scene: &Scene) -> Result<(Table, Option<Fault>), AllocError>
    ensures sought { IfOk result (λ found. IsSought scene.now.guards scene.now.program.now scene.now.sectors found.0) }
    ensures met { IfOk result (λ found. IfSome found.1 (λ f. rule_with scene.now.guards scene.now.program.now found.0 f.slot ≡ Some f.code)) }
    ensures program { OnOk result (IsProgram scene.now.program.now) }
{
    let mut table = Table::first(alloc, scene.program.slots())?;
    let mut agenda = Agenda::new(alloc, scene.program)?;
    let mut room = State::start();
    agenda.put(0, Parts::ALL);
    for _step in 0..MOST_STEPS {
        match make_step(scene, &mut table, &mut agenda, &mut room) {
            Ok(true) => {}
            Ok(false) => return Ok((table, None)),
            Err(fault) => return Ok((table, Some(fault))),
        }
    }
    Ok((table, None))
}
