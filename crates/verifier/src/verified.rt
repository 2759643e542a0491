//! Programs that are accepted.

ghost use Rattle.std.specs.Prelude.{◌≡◌, ◌≤◌, ◌⊎◌, IfOk, IfErr, OnOk, None, false};
ghost use Rattle.std.specs.Option.{option_map};
ghost use Rattle.base.specs.Sizes.{most_sectors};
ghost use Rattle.bpf_isa.specs.Program.{IsProgram};
ghost use Rattle.bpf_shape.specs.Fault.{memory_fault};
ghost use Rattle.ranges.specs.SeenStates.{state_of};
ghost use Rattle.verifier.specs.Breaches.{KeepsRules};
ghost use Rattle.verifier.specs.Inferred.{IsKnown, IsKnownWith};
ghost use Rattle.verifier.specs.Tables.{state_at};
ghost use Rattle.bpf_shape.specs.Shape.{ShapeValue, IsShapeOf};
ghost use Rattle.verifier.specs.Good.{IsGoodWith};
ghost use Rattle.verifier.specs.Rounds.{IsSettled};
ghost use Rattle.verifier.specs.Verdicts.{IsVerified, Refused, RefusedWith};

use crate::check::check_rules;
use crate::inferring::infer;
use crate::scene::Scene;
use crate::table::Table;
use bpf_isa::program::Program;
use bpf_shape::{Fault, shape};
use ranges::State;
use std::alloc::Global;
use std::marker::Model;

/// A program that is accepted for devices of that many sectors, with guards or without, with the budget of its steps and its
/// least good table.
///
/// Contracts see it as a record of these five, of which `IsVerified` always holds.
#[derive(Drop)]
pub struct Verified<'x> {
    guards: bool,
    program: &'x Program,
    sectors: u32,
    budget: u64,
    table: Table,
}

impl<'x> Model for Verified<'x> {
    ghost use Rattle.verifier.specs.Verdicts.{VerifiedValue, IsVerified};

    ghost Value = { VerifiedValue };

    ghost view = { λ v. record { guards = v.guards; program = v.program.now; sectors = v.sectors; budget = v.budget; table = v.table } };

    ghost invariant = { λ v. IsVerified (record { guards = v.guards; program = v.program.now; sectors = v.sectors; budget = v.budget; table = v.table }) };
}

impl<'x> Verified<'x> {
    /// Whether it is accepted with guards. Then a run tests the places of its guarded slots.
    pub fn has_guards(&self) -> bool
        ensures guards { result ≡ self.now.guards }
        ensures verified { IsVerified self.now }
    {
        self.guards
    }

    /// The program.
    pub fn program(&self) -> &'x Program
        ensures program { result.now ≡ self.now.program }
        ensures verified { IsVerified self.now }
    {
        self.program
    }

    /// For how many sectors of a device it is accepted.
    pub fn sectors(&self) -> u32
        ensures sectors { result ≡ self.now.sectors }
        ensures verified { IsVerified self.now }
    {
        self.sectors
    }

    /// How many steps a run takes at most.
    pub fn budget(&self) -> u64
        ensures budget { result ≡ self.now.budget }
        ensures verified { IsVerified self.now }
    {
        self.budget
    }

    /// What is known at each slot: the least good table.
    pub fn table(&self) -> &Table
        ensures table { result.now ≡ self.now.table }
        ensures verified { IsVerified self.now }
    {
        &self.table
    }
}

/// Why a program is not accepted, with what is known where it breaks a rule.
#[derive(Clone, Copy)]
pub struct Unaccepted {
    pub fault: Fault,
    /// What is known at the slot of the fault; None where nothing is, where the shape is wrong, and for want of memory.
    pub known: Option<State>,
}

/// A fault that no table tells.
fn by_itself(fault: Fault) -> Unaccepted
    ensures { result ≡ record { fault = fault; known = None } }
{
    Unaccepted { fault, known: None }
}

/// A fault with what a table knows at its slot.
fn on_table(table: &Table, fault: Fault) -> Unaccepted
    ensures fault { result.fault ≡ fault }
    ensures known { option_map state_of result.known ≡ state_at table.now fault.slot }
{
    Unaccepted {
        fault,
        known: table.state(fault.slot as usize).copied(),
    }
}

/// The table that is inferred, where it breaks no rule; else the fault, with what is known there.
fn kept_table(alloc: Global, scene: &Scene) -> Result<Table, Unaccepted>
    ensures settled { IfOk result (IsSettled scene.now.guards scene.now.program.now scene.now.sectors) }
    ensures kept { IfOk result (KeepsRules scene.now.guards scene.now.program.now) }
    ensures program { OnOk result (IsProgram scene.now.program.now) }
    ensures refused { IfErr result (λ u. (u.fault ≡ memory_fault) ⊎ RefusedWith scene.now.guards scene.now.program.now scene.now.sectors u.fault.code u.fault.slot) }
    ensures known { IfErr result (λ u. IsKnownWith scene.now.guards scene.now.program.now scene.now.sectors u.fault (option_map state_of u.known)) }
{
    let (table, met) = match infer(alloc, scene) {
        Ok(found) => found,
        Err(error) => return Err(by_itself(Fault::from(error))),
    };
    if let Some(fault) = met {
        return Err(on_table(&table, fault));
    }
    match check_rules(scene, &table) {
        Ok(()) => Ok(table),
        Err(fault) => Err(on_table(&table, fault)),
    }
}

/// Whether a program is accepted for devices of that many sectors, with guards or without (docs/VERIFIER.md): it is where it
/// has the right shape and some table is good for it, and then it has the least good table. Else the first broken shape
/// rule; or the first breach of the table at which the rounds end, where no table is good; or, where they need more than
/// 500,000 visits of slots, the first breach that the search met. `Memory` is want of memory. Beside a fault it is told what
/// is known at its slot: what the inferred table has there, and nothing where a shape rule is broken or memory is wanting.
pub fn verify_with<'x>(
    alloc: Global,
    program: &'x Program,
    sectors: u32,
    guards: bool,
) -> Result<Verified<'x>, Unaccepted>
    requires some { 1 ≤ sectors }
    requires device { sectors ≤ most_sectors }
    ensures guards { IfOk result (λ v. v.guards ≡ guards) }
    ensures program { IfOk result (λ v. v.program ≡ program.now) }
    ensures sectors { IfOk result (λ v. v.sectors ≡ sectors) }
    ensures verified { IfOk result IsVerified }
    ensures refused { IfErr result (λ u. (u.fault ≡ memory_fault) ⊎ RefusedWith guards program.now sectors u.fault.code u.fault.slot) }
    ensures known { IfErr result (λ u. IsKnownWith guards program.now sectors u.fault (option_map state_of u.known)) }
{
    let shape = match shape(alloc, program, guards) {
        Ok(shape) => shape,
        Err(fault) => return Err(by_itself(fault)),
    };
    let scene = Scene {
        program,
        shape: &shape,
        sectors,
        guards,
    };
    match kept_table(alloc, &scene) {
        Ok(table) => Ok(Verified {
            guards,
            program,
            sectors,
            budget: shape.budget(),
            table,
        }),
        Err(unaccepted) => Err(unaccepted),
    }
}

/// Whether a program is accepted without guards, as `verify` says, and beside a fault what is known at its slot.
pub fn verify_known<'x>(
    alloc: Global,
    program: &'x Program,
    sectors: u32,
) -> Result<Verified<'x>, Unaccepted>
    requires some { 1 ≤ sectors }
    requires device { sectors ≤ most_sectors }
    ensures guards { IfOk result (λ v. v.guards ≡ false) }
    ensures program { IfOk result (λ v. v.program ≡ program.now) }
    ensures sectors { IfOk result (λ v. v.sectors ≡ sectors) }
    ensures verified { IfOk result IsVerified }
    ensures refused { IfErr result (λ u. (u.fault ≡ memory_fault) ⊎ Refused program.now sectors u.fault.code u.fault.slot) }
    ensures known { IfErr result (λ u. IsKnown program.now sectors u.fault (option_map state_of u.known)) }
{
    verify_with(alloc, program, sectors, false)
}

/// Whether a program is accepted without guards for devices of that many sectors, as `verify_with` says.
pub fn verify<'x>(alloc: Global, program: &'x Program, sectors: u32) -> Result<Verified<'x>, Fault>
    requires some { 1 ≤ sectors }
    requires device { sectors ≤ most_sectors }
    ensures guards { IfOk result (λ v. v.guards ≡ false) }
    ensures program { IfOk result (λ v. v.program ≡ program.now) }
    ensures sectors { IfOk result (λ v. v.sectors ≡ sectors) }
    ensures verified { IfOk result IsVerified }
    ensures refused { IfErr result (λ f. (f ≡ memory_fault) ⊎ Refused program.now sectors f.code f.slot) }
{
    match verify_known(alloc, program, sectors) {
        Ok(verified) => Ok(verified),
        Err(unaccepted) => Err(unaccepted.fault),
    }
}
