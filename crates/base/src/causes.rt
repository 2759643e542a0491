//! The causes of refusals and of machine faults, each with the number under which it is printed.
//!
//! docs/REFUSALS.md has one table of all of them.

ghost use Rattle.std.specs.Prelude.{◌≡◌};
ghost use Rattle.base.specs.Causes.{log_number, request_number, code_number, asm_number, verifier_number, join_number, work_number, fault_number};

use thiserror::Error;

/// Why a log is refused (docs/LOG-FORMAT.md).
#[derive(Clone, Copy, Debug, PartialEq, Eq, Error)]
pub enum LogCause {
    #[error("a log has at least 512 bytes (docs/LOG-FORMAT.md, Super block)")]
    Short = 1,
    #[error("the file doesn't begin as a log does, with 'rhswfsj' (docs/LOG-FORMAT.md, Super block)")]
    Magic = 2,
    #[error("the log's version isn't 1 (docs/LOG-FORMAT.md, Super block)")]
    Version = 3,
    #[error("the log's sectors don't have 512 bytes (docs/LOG-FORMAT.md, Super block)")]
    SectorSize = 4,
    #[error("the file ends within the entry, its header or its data (docs/LOG-FORMAT.md, Layout)")]
    CutShort = 5,
    #[error("the entry has a flag above 16 (docs/LOG-FORMAT.md, Flags)")]
    Flags = 6,
    #[error("the entry has a data length, which only a mark may have (docs/LOG-FORMAT.md, Entry header)")]
    DataLength = 7,
    #[error("a mark has no other flag but 16, no sectors, and at most 480 bytes of text (docs/LOG-FORMAT.md, Flags)")]
    MarkForm = 8,
    #[error("the entry goes past the device (docs/LOG-FORMAT.md, The device)")]
    Device = 9,
    #[error("a log has at most 67108864 bytes, 65536 entries, and 262144 sectors written or discarded (docs/LOG-FORMAT.md, Limits)")]
    Limit = 10,
    #[error("there is no memory for the log")]
    Memory = 11,
}

impl LogCause {
    /// The number under which a refusal prints this cause.
    pub fn number(self) -> u8
        ensures { result ≡ log_number self }
    {
        self as u8
    }
}

/// Why a request is refused (docs/REFUSALS.md, All refusals).
#[derive(Clone, Copy, Debug, PartialEq, Eq)]
pub enum RequestCause {
    /// The log has too many crash images.
    TooManyImages = 12,
    /// An option or a number is out of its range.
    Option = 13,
    /// A file cannot be read.
    File = 14,
    /// An entry or a cut is named that the log doesn't have.
    NotInLog = 15,
    /// A report is given that isn't one of the log with these options.
    NotReport = 16,
}

impl RequestCause {
    /// The number under which a refusal prints this cause.
    pub fn number(self) -> u8
        ensures { result ≡ request_number self }
    {
        self as u8
    }
}

/// Why bytes are no program (docs/MACHINE.md, Encoding).
#[derive(Clone, Copy, Debug, PartialEq, Eq, Error)]
pub enum CodeCause {
    #[error("a program has whole slots of 8 bytes (docs/MACHINE.md, Faults of decoding)")]
    Length = 20,
    #[error("a program has 1 to 4096 slots (docs/MACHINE.md, Faults of decoding)")]
    SlotCount = 21,
    #[error("there is no such opcode (docs/MACHINE.md, Faults of decoding)")]
    Opcode = 22,
    #[error("there is no such register, or a call is neither of a helper nor of a local function (docs/MACHINE.md, Faults of decoding)")]
    Register = 23,
    #[error("a field isn't zero that has to be, or has no meaning there (docs/MACHINE.md, Faults of decoding)")]
    Field = 24,
    #[error("the second half of a 64-bit immediate is missing or has another form (docs/MACHINE.md, Faults of decoding)")]
    SecondHalf = 25,
    #[error("there is no memory for the program")]
    Memory = 26,
}

impl CodeCause {
    /// The number under which a refusal prints this cause.
    pub fn number(self) -> u8
        ensures { result ≡ code_number self }
    {
        self as u8
    }
}

/// Why a source text is no program (docs/ASSEMBLY.md, Refusals).
#[derive(Clone, Copy, Debug, PartialEq, Eq, Error)]
pub enum AsmCause {
    #[error("the line begins with no instruction and no label (docs/ASSEMBLY.md, Instructions)")]
    Word = 30,
    #[error("these aren't the operands of the instruction, or something follows a label (docs/ASSEMBLY.md, Operands)")]
    Operand = 31,
    #[error("a number is out of its range, or the text has no instruction or more than 4096 slots (docs/ASSEMBLY.md, Refusals)")]
    Range = 32,
    #[error("there is no such label (docs/ASSEMBLY.md, Labels)")]
    UnknownLabel = 33,
    #[error("the label stands on an earlier line too (docs/ASSEMBLY.md, Labels)")]
    RepeatedLabel = 34,
    #[error("there is no memory for the program")]
    Memory = 35,
}

impl AsmCause {
    /// The number under which a refusal prints this cause.
    pub fn number(self) -> u8
        ensures { result ≡ asm_number self }
    {
        self as u8
    }
}

/// The form of `again`. (It stands apart, since a word in it would make its attribute look like that of a unit test.)
const AGAIN_FORM: &str =
    "call 3 stands after mov64 r1, K, with K from 1 to 1048576, and before a test of r0 against 0, and no jump or local call leads between them (docs/VERIFIER.md, The form of `again`)";

/// Why a program is refused by the verifier (docs/VERIFIER.md, Refusals).
#[derive(Clone, Copy, Debug, PartialEq, Eq, Error)]
pub enum VerifierCause {
    #[error("the jump leads to no slot in which an instruction begins (docs/VERIFIER.md, Shape rules)")]
    Target = 40,
    #[error("the program ends after this instruction, without an exit (docs/VERIFIER.md, Shape rules)")]
    End = 41,
    #[error("a loop has a way round without a call of again, helper 3 (docs/VERIFIER.md, Shape rules)")]
    Loop = 42,
    #[error("{}", AGAIN_FORM)]
    AgainForm = 43,
    #[error("a function calls itself, or it is the last of four calls within each other (docs/VERIFIER.md, Calls within calls)")]
    CallDepth = 44,
    #[error("a run could take more than 1000000000 steps: the longest path, times 1 and all turns (docs/VERIFIER.md, Budget)")]
    Budget = 45,
    #[error("a register that is read may be unset (docs/VERIFIER.md, Rules at a slot)")]
    UnsetRegister = 50,
    #[error("a byte of the stack that is read may be unwritten (docs/VERIFIER.md, Rules at a slot)")]
    UnsetByte = 51,
    #[error("the bytes may lie outside of the 512 of a sector or the stack, or the 32 of the context, or the address may be 0 or a number (docs/VERIFIER.md, Rules at a slot)")]
    OutsideRegion = 52,
    #[error("a sector or the context is written (docs/VERIFIER.md, Rules at a slot)")]
    ReadOnly = 53,
    #[error("this arithmetic isn't allowed with a pointer, or leaves its range (docs/VERIFIER.md, Rules at a slot)")]
    PointerArithmetic = 54,
    #[error("a pointer is compared, answered, stored in part or read as a number (docs/VERIFIER.md, Rules at a slot)")]
    PointerAsNumber = 55,
    #[error("an argument of the helper isn't of its kind (docs/VERIFIER.md, Rules at a slot)")]
    HelperArgument = 56,
    #[error("register 10 is written (docs/VERIFIER.md, Shape rules)")]
    FramePointer = 57,
    #[error("there is no helper of that number, only 1 to 7, and with --guards 8 to 11 (docs/MACHINE.md, Helpers)")]
    UnknownHelper = 58,
    #[error("a table isn't settled: what is passed to a slot isn't contained in what the table has there (docs/VERIFIER.md, Good table)")]
    Unsettled = 59,
    #[error("there is no memory to verify the program")]
    Memory = 60,
}

impl VerifierCause {
    /// The number under which a refusal prints this cause.
    pub fn number(self) -> u8
        ensures { result ≡ verifier_number self }
    {
        self as u8
    }
}

/// Why texts are no parts of one run in a row (docs/COMMANDS.md, Joining parts).
#[derive(Clone, Copy, Debug, PartialEq, Eq, Error)]
pub enum JoinCause {
    #[error("the file isn't the text of a part, as 'explore --images', 'explore --bound any' and 'join --part' print it (docs/OUTPUT.md, The text of a part)")]
    NotPart = 61,
    #[error("the file is a part of another run than the first one: of other options, or of another log or other programs (docs/COMMANDS.md, Joining parts)")]
    OtherRun = 62,
    #[error("images or cuts are missing between the file and the part before it (docs/COMMANDS.md, Joining parts)")]
    Gap = 63,
    #[error("the file has images or cuts that are in the part before it too (docs/COMMANDS.md, Joining parts)")]
    Overlap = 64,
    #[error("there are more than 4096 files, or with this one they have more than 1073741824 bytes (docs/COMMANDS.md, Joining parts)")]
    TooLong = 65,
    #[error("there is no memory for the join")]
    Memory = 66,
}

impl JoinCause {
    /// The number under which a refusal prints this cause.
    pub fn number(self) -> u8
        ensures { result ≡ join_number self }
    {
        self as u8
    }
}

/// Why the work on a log was given up (docs/REFUSALS.md, All refusals).
#[derive(Clone, Copy, Debug, PartialEq, Eq)]
pub enum WorkCause {
    /// A block was handed over twice.
    PieceTwice = 70,
    /// A block was not handed over.
    PieceMissing = 71,
    /// There is no memory for the work.
    Memory = 72,
    /// A seat was not given back.
    SeatsMissing = 73,
}

impl WorkCause {
    /// The number under which a refusal prints this cause.
    pub fn number(self) -> u8
        ensures { result ≡ work_number self }
    {
        self as u8
    }
}

/// Why the machine stops at an instruction (docs/MACHINE.md, Faults).
#[derive(Clone, Copy)]
pub enum MachineFault {
    /// There is no instruction at the next slot.
    NoInstruction = 80,
    /// A register that is read is unset.
    UnsetRegister = 81,
    /// A byte of the stack that is read is unset.
    UnsetByte = 82,
    /// No byte stands at the address.
    Unmapped = 83,
    /// The byte that is written is no byte of a stack.
    ReadOnly = 84,
    /// There is no helper of that number.
    UnknownHelper = 85,
    /// An argument of the helper is out of its range.
    HelperArgument = 86,
    /// There is no room for a fifth frame.
    FrameLimit = 87,
    /// Register 10 would be written.
    FramePointer = 88,
}

impl MachineFault {
    /// The number under which the report prints this fault.
    pub fn number(self) -> u8
        ensures { result ≡ fault_number self }
    {
        self as u8
    }
}
