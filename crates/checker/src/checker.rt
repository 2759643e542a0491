//! A program that judges crash images, with the way in which it is run.

ghost use Rattle.std.specs.Prelude.{◌≡◌, length, None, is_some, true, IfOk};
ghost use Rattle.interp.specs.Ending.{ending_of};
ghost use Rattle.helpers.specs.Footprint.{footprint_after, unread};
ghost use Rattle.machine.specs.Footprint.{footprint};
ghost use Rattle.machine.specs.Guards.{guarded_footprint, guarded_outcome};
ghost use Rattle.machine.specs.Outcome.{outcome};
ghost use Rattle.plain.specs.Guards.{IsGuardedEnd, guarded_ending};
ghost use Rattle.plain.specs.Runs.{IsVerdict};
ghost use Rattle.checker.specs.Checker.{Suits, checker_of, guarded_count, guarded_of, guards_of, judgement};
ghost use Rattle.checker.specs.Footprints.{kept_footprint};
ghost use Rattle.checker.specs.Memory.{IsServed};

use crate::memory::RunMemory;
use bpf_isa::program::Program;
use helpers::{Context, Device};
use interp::{Noted, Outcome, Verdict, run_noted};
use plain::{Ended, Guarded, GuardedEnd, OwnMemory, run, run_guarded};
use soundness::{accepted_runs_safely, guarded_runs_safely};
use std::alloc::{AllocError, Global};
use std::marker::Model;
use verifier::{Verified, guarded_slots, is_guarded_at};

/// Runs a program without checks, which is known to end in a verdict within that many steps.
#[inline(always)]
fn run_plain<D: Device, const ROOM: usize>(
    program: &Program,
    context: &Context,
    device: &D,
    budget: u64,
) -> Noted<ROOM>
    requires ends { IsVerdict (outcome program.now (D.content device.now) context.now budget) }
    ensures ends { ending_of result.outcome ≡ outcome program.now (D.content device.now) context.now budget }
    ensures reads { result.footprint ≡ footprint_after (unread ROOM) (footprint program.now (D.content device.now) context.now budget) }
{
    let Ended {
        answer,
        codes,
        footprint,
    } = run(program, context, device, budget);
    Noted {
        outcome: Outcome::Verdict(Verdict { answer, codes }),
        footprint,
    }
}

/// Runs a program with guards, which is known to end within that many steps in a verdict, or to stray at a guarded slot.
#[inline(always)]
fn run_with_guards<D: Device, const ROOM: usize>(
    guarded: &Guarded,
    memory: &mut OwnMemory,
    context: &Context,
    device: &D,
    budget: u64,
) -> Noted<ROOM>
    requires ends { IsGuardedEnd guarded.now.guarded (guarded_outcome guarded.now.program (D.content device.now) context.now budget) }
    ensures ends { ending_of result.outcome ≡ guarded_outcome guarded.now.program (D.content device.now) context.now budget }
    ensures reads { result.footprint ≡ footprint_after (unread ROOM) (guarded_footprint guarded.now.program (D.content device.now) context.now budget) }
{
    let GuardedEnd {
        stray,
        answer,
        codes,
        footprint,
    } = run_guarded(guarded, memory, context, device, budget);
    let outcome = match stray {
        Some(slot) => Outcome::Stray(slot),
        None => Outcome::Verdict(Verdict { answer, codes }),
    };
    Noted { outcome, footprint }
}

/// Runs a program with guards, with the memory that is there for it.
#[inline(always)]
fn run_guarded_in<D: Device, const ROOM: usize>(
    memory: &mut RunMemory,
    guarded: &Guarded,
    context: &Context,
    device: &D,
    budget: u64,
) -> Noted<ROOM>
    requires there { memory.old ≡ true }
    requires ends { IsGuardedEnd guarded.now.guarded (guarded_outcome guarded.now.program (D.content device.now) context.now budget) }
    ensures ends { ending_of result.outcome ≡ guarded_outcome guarded.now.program (D.content device.now) context.now budget }
    ensures reads { result.footprint ≡ footprint_after (unread ROOM) (guarded_footprint guarded.now.program (D.content device.now) context.now budget) }
    ensures memory { memory.new ≡ memory.old }
{
    match &mut memory.own {
        Some(own) => run_with_guards(guarded, own, context, device, budget),
        None => unreachable!(),
    }
}

/// Returns for each slot of an accepted program whether it is guarded.
#[tactic(auto, unfolding(crate::specs::Checker::guards_of))]
fn guards_of(alloc: Global, verified: &Verified) -> Result<Vec<bool>, AllocError>
    ensures { IfOk result (λ guards. guards.items ≡ guards_of verified.now) }
{
    let mut guards = Vec::new(alloc);
    for slot in 0..verified.program().slots() {
        guards.push(is_guarded_at(verified, slot))?;
    }
    Ok(guards)
}

/// An accepted program with its guards, where it is accepted with guards.
fn guarded_of<'p>(alloc: Global, verified: &Verified<'p>) -> Result<Option<Guarded<'p>>, AllocError>
    ensures { IfOk result (λ guarded. guarded ≡ guarded_of verified.now) }
{
    if !verified.has_guards() {
        return Ok(None);
    }
    let guards = guards_of(alloc, verified)?;
    let guarded = Guarded::new(alloc, verified.program(), guards)?;
    Ok(Some(guarded))
}

/// How many slots of a program that is accepted with guards are guarded, and 0 of any other.
fn guarded_count(alloc: Global, verified: &Verified<'_>) -> Result<u32, AllocError>
    ensures { IfOk result (λ count. count ≡ guarded_count verified.now) }
{
    if verified.has_guards() {
        let slots = guarded_slots(alloc, verified)?;
        return Ok(slots.len() as u32);
    }
    Ok(0)
}

/// A program that judges crash images: one that the verifier accepted, with its budget, or one that no
/// verifier was asked about, with a limit of steps.
///
/// Contracts see the program, the most steps of a run, for which size of devices it was verified, and, where that was with
/// guards, how many of its slots are guarded.
#[derive(Drop)]
pub struct Checker<'p> {
    program: &'p Program,
    limit: u64,
    /// The number of sectors of the devices for which the program was verified, if it was.
    verified: Option<u32>,
    /// The program with its guards, if it was verified with guards.
    guarded: Option<Guarded<'p>>,
    /// How many of its slots are guarded then.
    count: u32,
}

impl<'p> Model for Checker<'p> {
    ghost use Rattle.std.specs.Option.{option_map};
    ghost use Rattle.checker.specs.Checker.{CheckerValue, IsChecker};

    ghost Value = { CheckerValue };

    ghost view = { λ c. record { program = c.program.now; limit = c.limit; verified = c.verified; guards = option_map (λ _. c.count) c.guarded } };

    ghost invariant = { λ c. IsChecker (record { program = c.program.now; limit = c.limit; verified = c.verified; guards = option_map (λ _. c.count) c.guarded }) c.guarded };
}

impl<'p> Checker<'p> {
    /// A program that is run with every check, for at most that many steps.
    pub fn limited(program: &'p Program, limit: u64) -> Checker<'p>
        ensures { result ≡ record { program = program.now; limit = limit; verified = None; guards = None } }
    {
        Checker {
            program,
            limit,
            verified: None,
            guarded: None,
            count: 0,
        }
    }

    /// A program that the verifier accepted, for at most as many steps as its budget says. It keeps the program and which of
    /// its slots are guarded, and not the table. It takes memory where the program is accepted with guards.
    ///
    /// # Errors
    ///
    /// Memory was refused.
    pub fn verified(alloc: Global, verified: &Verified<'p>) -> Result<Checker<'p>, AllocError>
        ensures { IfOk result (λ c. c ≡ checker_of verified.now) }
    {
        let guarded = guarded_of(alloc, verified)?;
        let count = guarded_count(alloc, verified)?;
        Ok(Checker {
            program: verified.program(),
            limit: verified.budget(),
            verified: Some(verified.sectors()),
            guarded,
            count,
        })
    }

    /// Whether the verifier accepted the program with guards.
    pub fn has_guards(&self) -> bool
        ensures { result ≡ is_some self.now.guards }
    {
        self.guards().is_some()
    }

    /// How many slots are guarded, where the verifier accepted the program with guards.
    pub fn guards(&self) -> Option<u32>
        ensures { result ≡ self.now.guards }
    {
        match &self.guarded {
            Some(_guarded) => Some(self.count),
            None => None,
        }
    }

    /// Whether the verifier accepted the program.
    pub fn is_verified(&self) -> bool
        ensures { result ≡ is_some self.now.verified }
    {
        self.verified.is_some()
    }

    /// How many slots the program has.
    pub fn slots(&self) -> u32
        ensures { result ≡ length self.now.program }
    {
        self.program.slots() as u32
    }

    /// The most steps of a run: the limit, or the budget of a verified program.
    pub fn limit(&self) -> u64
        ensures { result ≡ self.now.limit }
    {
        self.limit
    }

    /// Runs the program on an image, and answers what it ends in (docs/MACHINE.md, Outcome). A verified one is
    /// run without checks, on an image of a device of the size for which it was verified. With guards the places of
    /// guarded slots are tested (docs/MACHINE.md, Guards), and its program has memory of its own. What a run before wrote there is cleared.
    pub fn judge<D: Device>(&self, memory: &mut RunMemory, context: &Context, device: &D) -> Outcome
        requires image { Suits self.now.verified (D.content device.now) context.now }
        requires served { IsServed memory.old self.now.guards }
        ensures ends { ending_of result ≡ judgement self.now (D.content device.now) context.now }
        ensures memory { memory.new ≡ memory.old }
    {
        self.judge_noted::<D, 0>(memory, context, device).outcome
    }

    /// Runs the program on an image as `judge` does, and answers the footprint of the run too (docs/MACHINE.md, Footprint), in
    /// that much room.
    #[inline(always)]
    #[tactic(auto, unfolding(crate::specs::Checker::judgement, crate::specs::Footprints::footprint_of))]
    pub fn judge_noted<D: Device, const ROOM: usize>(
        &self,
        memory: &mut RunMemory,
        context: &Context,
        device: &D,
    ) -> Noted<ROOM>
        requires image { Suits self.now.verified (D.content device.now) context.now }
        requires served { IsServed memory.old self.now.guards }
        ensures ends { ending_of result.outcome ≡ judgement self.now (D.content device.now) context.now }
        ensures reads { result.footprint ≡ kept_footprint ROOM self.now (D.content device.now) context.now }
        ensures memory { memory.new ≡ memory.old }
    {
        match &self.guarded {
            Some(guarded) => {
                // A law of the machine, which does nothing: it ends in a verdict, or strays at a guarded slot.
                guarded_runs_safely();
                run_guarded_in(memory, guarded, context, device, self.limit)
            }
            None => self.judge_unguarded(context, device),
        }
    }

    /// Runs the program of a checker without guards on an image.
    #[inline(always)]
    fn judge_unguarded<D: Device, const ROOM: usize>(
        &self,
        context: &Context,
        device: &D,
    ) -> Noted<ROOM>
        requires image { Suits self.now.verified (D.content device.now) context.now }
        requires unguarded { self.now.guards ≡ None }
        ensures ends { ending_of result.outcome ≡ outcome self.now.program (D.content device.now) context.now self.now.limit }
        ensures reads { result.footprint ≡ footprint_after (unread ROOM) (footprint self.now.program (D.content device.now) context.now self.now.limit) }
    {
        match self.verified {
            Some(_sectors) => {
                // A law of the machine, which does nothing: an accepted program ends in a verdict.
                accepted_runs_safely();
                run_plain(self.program, context, device, self.limit)
            }
            None => run_noted(self.program, context, device, self.limit),
        }
    }
}
