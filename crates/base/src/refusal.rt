//! Why the product refuses what it was asked.

ghost use Rattle.std.specs.Prelude.{◌≡◌};
ghost use Rattle.base.specs.Refusals.{cause_number, work_refusal, memory_refusal};

use crate::causes::{
    AsmCause, CodeCause, JoinCause, LogCause, RequestCause, VerifierCause, WorkCause,
};

/// The cause of a refusal, by what was refused.
#[derive(Clone, Copy, Debug, PartialEq, Eq)]
pub enum Cause {
    Log(LogCause),
    Request(RequestCause),
    Code(CodeCause),
    Asm(AsmCause),
    Verifier(VerifierCause),
    Join(JoinCause),
    Work(WorkCause),
}

impl Cause {
    /// The number under which a refusal is printed.
    pub fn number(self) -> u8
        ensures { result ≡ cause_number self }
    {
        match self {
            Cause::Log(cause) => cause.number(),
            Cause::Request(cause) => cause.number(),
            Cause::Code(cause) => cause.number(),
            Cause::Asm(cause) => cause.number(),
            Cause::Verifier(cause) => cause.number(),
            Cause::Join(cause) => cause.number(),
            Cause::Work(cause) => cause.number(),
        }
    }
}

/// A refusal: its cause, the place that the cause names (an entry, an option, a slot, a file, a block), and
/// the program that is at fault, where one is (docs/REFUSALS.md, All refusals).
#[derive(Clone, Copy, Debug, PartialEq, Eq)]
pub struct Refusal {
    pub code: Cause,
    pub at: u64,
    pub program: Option<u8>,
}

impl Refusal {
    /// The refusal of a run's work for that cause: at a block, at the number of seats, or at 0.
    pub fn of_work(cause: WorkCause, at: u64) -> Refusal
        ensures { result ≡ work_refusal cause at }
    {
        Refusal {
            code: Cause::Work(cause),
            at,
            program: None,
        }
    }

    /// The refusal for want of memory in the work.
    pub fn of_memory() -> Refusal
        ensures { result ≡ memory_refusal }
    {
        Refusal::of_work(WorkCause::Memory, 0)
    }
}
