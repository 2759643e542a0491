//! Laws of the end of runs. Nothing here is called.

ghost use Rattle.std.specs.Prelude.{◌≡◌, ℕ, List, []};
ghost use Rattle.machine.specs.Outcome.{OutOfSteps, Verdict, steps_end};
ghost use Rattle.machine.specs.State.{start};
ghost use Rattle.soundness.specs.Ending.{RunsEndWithinBudget};
ghost use Rattle.soundness.specs.Reaching.{FaultsAreOfSteps, RunsGoOn};
ghost use Rattle.soundness.specs.Worked.{nested_loops};

use bpf_shape::laws::again_has_form;

/// A run goes on from each state that it reaches.
pub fn runs_go_on()
    ensures { RunsGoOn }
{}

/// A run never stops at a fault where no step from a reached state is one, and the other way round.
pub fn faults_are_of_steps()
    ensures { FaultsAreOfSteps }
{}

/// The run of a program of right shape that meets no fault ends within the program's budget.
pub fn run_ends_within_budget()
    ensures { RunsEndWithinBudget }
{
    again_has_form();
}

/// A loop inside a loop answers 0 at its 29th step: both calls of `again` count over the whole run. The
/// budget is 54.
#[tactic(auto, unfolding(crate::specs::Worked::nested_loops, machine::specs::Outcome::steps_end, machine::specs::Step::step_of, machine::specs::Step::checks, machine::specs::Step::call_checks, machine::specs::Step::effect, machine::specs::Step::call_effect, machine::specs::Arithmetic::arithmetic, machine::specs::Arithmetic::operator_value, machine::specs::Arithmetic::holds, machine::specs::Arithmetic::condition_holds, machine::specs::State::start, machine::specs::State::no_turns, machine::specs::State::unset_stack, helpers::specs::Answers::again_answer))]
pub fn worked_loops()
    ensures ends { (context : List ℕ) (device : List (List ℕ)) → steps_end nested_loops context device 29 start ≡ Verdict 0 [] }
    ensures goes_on { (context : List ℕ) (device : List (List ℕ)) → steps_end nested_loops context device 28 start ≡ OutOfSteps }
{}
