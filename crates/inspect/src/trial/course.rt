//! What a run comes to, and how many steps it makes.

ghost use Rattle.std.specs.Prelude.{◌≡◌, IfOk};
ghost use Rattle.machine.specs.Memory.{context_bytes};
ghost use Rattle.interp.specs.Ending.{ending_of};
ghost use Rattle.interp.specs.Walks.{memory_as, outcome_as, start_as, steps_end_as};
ghost use Rattle.inspect.specs.Trace.{ending_of_halt, steps_made};

use arrayvec::ArrayVec;
use bpf_isa::program::Program;
use helpers::{Context, Device};
use interp::{Halt, Outcome, Verdict, Walk};
use std::alloc::{AllocError, Global};

/// What a run came to, and how many steps it made.
#[derive(Drop)]
pub(crate) struct Course {
    pub(crate) outcome: Outcome,
    pub(crate) steps: u64,
}

/// The outcome of a run that ended so.
fn outcome_of<D: Device>(walk: &Walk<'_, D>, halt: Halt) -> Outcome
    ensures { ending_of result ≡ ending_of_halt walk.now.state.codes halt }
{
    match halt {
        Halt::Verdict(answer) => {
            let mut codes = ArrayVec::new();
            walk.put_codes(&mut codes);
            Outcome::Verdict(Verdict { answer, codes })
        }
        Halt::Fault { code, slot } => Outcome::Fault { code, slot },
        Halt::Stray(slot) => Outcome::Stray(slot),
    }
}

/// Makes at most that many steps.
fn follow<D: Device>(walk: &mut Walk<'_, D>, limit: u64) -> Course
    ensures outcome { ending_of result.outcome ≡ steps_end_as walk.old.guards walk.old.program walk.old.context walk.old.device limit walk.old.memory walk.old.state }
    ensures steps { result.steps ≡ steps_made walk.old.guards walk.old.program walk.old.context walk.old.device limit walk.old.memory walk.old.state }
{
    for made in 0..limit {
        if let Some(halt) = walk.step() {
            return Course {
                outcome: outcome_of(walk, halt),
                steps: made + 1,
            };
        }
    }
    Course {
        outcome: Outcome::OutOfSteps,
        steps: limit,
    }
}

/// What a program comes to in a context and on a device within that many steps, with guards or without, and how many it makes.
#[inline(never)]
pub(crate) fn course_of<D: Device>(
    alloc: Global,
    program: &Program,
    context: &Context,
    device: &D,
    guards: bool,
    limit: u64,
) -> Result<Course, AllocError>
    ensures outcome { IfOk result (λ course. ending_of course.outcome ≡ outcome_as guards program.now (D.content device.now) context.now limit) }
    ensures steps { IfOk result (λ course. course.steps ≡ steps_made guards program.now (context_bytes context.now) (D.content device.now) limit (memory_as guards) (start_as guards)) }
{
    let mut walk = Walk::new(alloc, program, context, device, guards)?;
    Ok(follow(&mut walk, limit))
}
