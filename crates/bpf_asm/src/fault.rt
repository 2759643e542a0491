//! Why a text is no program.

ghost use Rattle.std.specs.Prelude.{◌≡◌};
ghost use Rattle.bpf_isa.specs.Decoding as code;
ghost use Rattle.base.specs.declared.causes.AsmCause.TheVariants.{Memory};
ghost use Rattle.bpf_asm.specs.Says.{memory_fault, empty_fault};

pub use base::causes::AsmCause;
use base::causes::CodeCause;
use bpf_isa::program::CodeFault;
use std::alloc::{AllocError, AllocFailed};

/// Why a text is refused, with the line that is the cause, from 1; 0 where memory or the text as a
/// whole is.
#[derive(Clone, Copy, Debug)]
pub struct AsmFault {
    pub code: AsmCause,
    pub line: u64,
}

impl AsmFault {
    /// Want of memory.
    pub(crate) const MEMORY: AsmFault = AsmFault {
        code: AsmCause::Memory,
        line: 0,
    };
}

impl From<AllocError> for AsmFault {
    ghost use Rattle.bpf_asm.specs.Says.{memory_fault};

    ghost from_gives = { λ _ f. f ≡ memory_fault };

    fn from(_: AllocError) -> AsmFault {
        AsmFault::MEMORY
    }
}

impl<T: Drop> From<AllocFailed<T>> for AsmFault {
    ghost use Rattle.bpf_asm.specs.Says.{memory_fault};

    ghost from_gives = { λ _ f. f ≡ memory_fault };

    fn from(_: AllocFailed<T>) -> AsmFault {
        AsmFault::MEMORY
    }
}

/// Why a line by itself says nothing.
#[derive(Clone, Copy)]
pub(crate) enum LineCause {
    /// It begins with no name of an instruction, and with no label.
    Word,
    /// What stands after has another form.
    Operand,
    /// A number is out of its range.
    Range,
}

impl LineCause {
    /// The refusal of the text for that line.
    pub(crate) fn at(self, line: u64) -> AsmFault
        ensures { result.code ≡ Memory → ⊥ }
    {
        let code = match self {
            LineCause::Word => AsmCause::Word,
            LineCause::Operand => AsmCause::Operand,
            LineCause::Range => AsmCause::Range,
        };
        AsmFault { code, line }
    }
}

/// The refusal of instructions that make no program: for want of memory, or as there are none.
pub(crate) fn of_code(fault: CodeFault) -> AsmFault
    ensures memory { fault ≡ code.memory_fault → result ≡ memory_fault }
    ensures count { fault ≡ code.count_fault → result ≡ empty_fault }
{
    match fault.code {
        CodeCause::Memory => AsmFault::MEMORY,
        _ => AsmFault {
            code: AsmCause::Range,
            line: 0,
        },
    }
}
