//! What notes say of programs and of a run.

ghost use Rattle.std.specs.Prelude.{◌≡◌, ◌∷◌, [], None};
ghost use Rattle.request.specs.Found.{IsEmpty};

use crate::facts::left_out::LeftOut;
use crate::facts::untold::Untold;
use arrayvec::ArrayVec;
use verifier::Unreached;

/// What notes say of the programs of a command, and of its run.
#[derive(Drop)]
pub struct RunFacts {
    /// What no run reaches of each program, one after the other; none of one that isn't verified.
    pub unreached: ArrayVec<Option<Unreached>, 8>,
    /// Whether a program of a run passes without looking at what the log writes, for one program after the other.
    pub blind: ArrayVec<bool, 8>,
    /// How many cases a run of any number of losses left out, where none that it judged fails.
    pub left_out: Option<LeftOut>,
    /// How much records of a program didn't tell, where they were asked.
    pub untold: Option<Untold>,
}

impl RunFacts {
    /// What there is to say where no program is verified, and nothing is run.
    pub fn none() -> RunFacts
        ensures { IsEmpty result }
    {
        RunFacts {
            unreached: ArrayVec::new(),
            blind: ArrayVec::new(),
            left_out: None,
            untold: None,
        }
    }

    /// What there is to say of one program that is looked at by itself: what no run reaches of it.
    pub fn of_program(unreached: Option<Unreached>) -> RunFacts
        ensures unreached { result.unreached.items ≡ unreached ∷ [] }
        ensures blind { result.blind.items ≡ [] }
        ensures left_out { result.left_out ≡ None }
        ensures untold { result.untold ≡ None }
    {
        let mut facts = RunFacts::none();
        facts.unreached.push(unreached);
        facts
    }
}
