//! What most likely helps against a refusal, in sentences. What the refusal means is the text of its cause.

use base::causes::{AsmCause, CodeCause, LogCause, VerifierCause};

/// What most likely helps against it; empty where nothing is known.
pub fn log_cure(cause: LogCause) -> &'static str {
    match cause {
        LogCause::Short | LogCause::Magic | LogCause::Version => {
            "LOG stands before the programs, and is what the target dm-log-writes made"
        }
        LogCause::SectorSize => {
            "record over a device with sectors of 512 bytes; in a log of your own the size of a sector stands at byte 24"
        }
        LogCause::CutShort => {
            "copy more of the log device; in a log of your own the number of entries stands at byte 16"
        }
        LogCause::Limit => {
            "copy the first 64 MiB of the log device alone; make file systems without discards"
        }
        _ => "",
    }
}

/// What most likely helps against it; empty where nothing is known.
pub fn code_cure(cause: CodeCause) -> &'static str {
    match cause {
        CodeCause::Memory => "",
        _ => {
            "is the file a program? crashbpf-cc makes one of C, 'crashbpf asm' one of an assembly text"
        }
    }
}

/// What most likely helps against it; empty where nothing is known.
pub fn asm_cure(cause: AsmCause) -> &'static str {
    match cause {
        AsmCause::Word => "a label has a line of its own, and lines end in a newline alone",
        AsmCause::Operand => {
            "a place in memory is written [r10-8], with its sign, a target +1, -1 or by its label"
        }
        _ => "",
    }
}

/// What most likely helps against it; empty where nothing is known.
pub fn verifier_cure(cause: VerifierCause) -> &'static str {
    match cause {
        VerifierCause::Target | VerifierCause::End => {
            "are these the bytes of one whole function? crashbpf-cc takes the one that is named; in C return on each path"
        }
        VerifierCause::Loop => {
            "in C begin the loop's body with TURN(times, otherwise), or compile it by crashbpf-cc, which bounds plain loops"
        }
        VerifierCause::AgainForm => "in C write TURN, with a constant from 1 to 1048576",
        VerifierCause::CallDepth => {
            "in C write a loop in place of recursion, and compile by crashbpf-cc, which inlines all but LOCAL functions, memset, memcpy and memcmp too"
        }
        VerifierCause::Budget => "fewer turns, or whole sectors by same, zero and mix",
        VerifierCause::UnsetRegister => {
            "give each variable a value, in C on each path; choose a position, not between two addresses (p = c ? &a : &b) or structs (s = c ? a : b); a checker has one parameter, the context, and a LOCAL function takes and answers numbers alone"
        }
        VerifierCause::UnsetByte => "copy fills a local only with the whole size of the local",
        VerifierCause::OutsideRegion => {
            "in C take SECTOR(n, ..), which tests for 0, and test a u64 index with < right before its use: TURN_BELOW, ELEMENT, with KEEP(pointer) in a loop that has ELEMENT twice; or read by position, as u64_at(p)"
        }
        VerifierCause::ReadOnly => "write to a local copy",
        VerifierCause::PointerArithmetic => {
            "in C make the index a u64 and test it right before its use, or read by position, as u64_at(p); an array of locals with a variable index needs --guards"
        }
        VerifierCause::PointerAsNumber => "compare indices in place of pointers",
        VerifierCause::HelperArgument => {
            "copy takes a local and a constant length from 1 to 512; the others take numbers, a sector by its number"
        }
        VerifierCause::FramePointer => "leave r10 to the compiler",
        VerifierCause::UnknownHelper => {
            "take those of include/checker.h, not Linux's; its checksums take --guards"
        }
        _ => "",
    }
}

/// What helps a program that is to be accepted with guards, whose rules are fewer (docs/VERIFIER.md, Guards).
pub fn guarded_cure(cause: VerifierCause) -> &'static str {
    match cause {
        VerifierCause::UnsetRegister => {
            "give each variable a value, in C on each path; a checker has one parameter, the context"
        }
        VerifierCause::HelperArgument => "copy takes a constant length from 1 to 512",
        VerifierCause::UnknownHelper => "take those of include/checker.h, not Linux's",
        _ => verifier_cure(cause),
    }
}
