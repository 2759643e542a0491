//! Why a program is refused by the verifier, and where.

ghost use Rattle.std.specs.Prelude.{◌≡◌};

use base::causes::VerifierCause;
use std::alloc::AllocError;

/// Why a program is refused, with the slot that is the cause, which is 0 for the budget and for
/// want of memory.
#[derive(Clone, Copy, Debug)]
pub struct Fault {
    pub code: VerifierCause,
    pub slot: u64,
}

impl Fault {
    /// Want of memory.
    pub(crate) const MEMORY: Fault = Fault {
        code: VerifierCause::Memory,
        slot: 0,
    };

    /// A slot for that cause.
    pub(crate) fn at(code: VerifierCause, slot: usize) -> Fault
        ensures { result ≡ record { code = code; slot = slot } }
    {
        Fault {
            code,
            slot: slot as u64,
        }
    }
}

impl From<AllocError> for Fault {
    ghost use Rattle.bpf_shape.specs.Fault.{memory_fault};

    ghost from_gives = { λ _ f. f ≡ memory_fault };

    fn from(_: AllocError) -> Fault {
        Fault::MEMORY
    }
}
