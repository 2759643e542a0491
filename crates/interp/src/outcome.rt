//! What a run of a checker comes to.

ghost use Rattle.std.specs.Prelude.{◌≡◌, ◌≤◌, length};
ghost use Rattle.machine.specs.Outcome.{fails};
ghost use Rattle.interp.specs.Ending.{ending_of};

use arrayvec::ArrayVec;
use base::causes::MachineFault;
use helpers::Footprint;

/// The most codes that a verdict keeps.
pub const MAX_CODES: usize = 16;

/// The answer of a checker, 0 where the image is good, and the codes that it reported.
#[derive(Drop)]
pub struct Verdict {
    pub answer: u64,
    pub codes: ArrayVec<u64, 16>,
}

/// What a run comes to within a number of steps (docs/MACHINE.md, Outcome).
#[derive(Drop)]
pub enum Outcome {
    /// The checker ended.
    Verdict(Verdict),
    /// The machine stopped at the instruction of that slot.
    Fault { code: MachineFault, slot: u32 },
    /// All steps were made, and none of them ended the checker.
    OutOfSteps,
    /// With guards: the checker strayed at that slot (docs/MACHINE.md, Guards).
    Stray(u32),
}

/// A copy of the codes.
fn copy_codes(codes: &[u64]) -> ArrayVec<u64, 16>
    requires { length codes.now ≤ 16 }
    ensures { result.items ≡ codes.now }
{
    let mut copy = ArrayVec::new();
    for code in codes {
        copy.push(*code);
    }
    copy
}

impl Outcome {
    /// Whether an image on which a checker comes to this is bad: all but a verdict with answer 0.
    pub fn fails(&self) -> bool
        ensures { result ≡ fails (ending_of self.now) }
    {
        match self {
            Outcome::Verdict(verdict) => verdict.answer != 0,
            Outcome::Fault { code: _, slot: _ } => true,
            Outcome::OutOfSteps => true,
            Outcome::Stray(_slot) => true,
        }
    }

    /// A copy, for those who put one into a cache and keep one. It takes no memory.
    pub fn copy(&self) -> Outcome
        ensures { result ≡ self.now }
    {
        match self {
            Outcome::Verdict(verdict) => Outcome::Verdict(Verdict {
                answer: verdict.answer,
                codes: copy_codes(verdict.codes.as_slice()),
            }),
            Outcome::Fault { code, slot } => Outcome::Fault {
                code: *code,
                slot: *slot,
            },
            Outcome::OutOfSteps => Outcome::OutOfSteps,
            Outcome::Stray(slot) => Outcome::Stray(*slot),
        }
    }
}

/// What a run of a checker comes to, and its footprint (docs/MACHINE.md, Footprint) in so much room.
#[derive(Drop)]
pub struct Noted<const ROOM: usize> {
    pub outcome: Outcome,
    pub footprint: Footprint<ROOM>,
}
