//! Instructions, each form with its operands. The fields keep their ranges by their types.

ghost use Rattle.std.specs.Prelude.{◌≡◌, None, [], ◌∷◌, if◌then◌else◌};
ghost use Rattle.bpf_isa.specs.Program.{halves};

use crate::register::Register;

/// The width in which an arithmetic instruction computes or a branch compares.
#[derive(Clone, Copy, Debug, PartialEq, Eq)]
pub enum Width {
    W32,
    W64,
}

/// What an arithmetic instruction with two operands computes (RFC 9669, section 4.1).
#[derive(Clone, Copy, Debug, PartialEq, Eq)]
pub enum Operator {
    Add,
    Sub,
    Mul,
    Div,
    SignedDiv,
    Or,
    And,
    Lsh,
    Rsh,
    Mod,
    SignedMod,
    Xor,
    Mov,
    Arsh,
}

/// The second operand: a constant of the instruction or a register.
#[derive(Clone, Copy, Debug, PartialEq, Eq)]
pub enum Source {
    Immediate(i32),
    Register(Register),
}

/// A move that keeps the low bits, as a signed number, in a wider one (RFC 9669, section 4.1, MOVSX).
#[derive(Clone, Copy, Debug, PartialEq, Eq)]
pub enum SignExtension {
    From8To64,
    From16To64,
    From32To64,
    From8To32,
    From16To32,
}

impl SignExtension {
    ghost use Rattle.bpf_isa.specs.Spelling.{extension_width};

    /// The width in which it leaves the number.
    pub fn width(self) -> Width
        ensures { result ≡ extension_width self }
    {
        match self {
            SignExtension::From8To64 | SignExtension::From16To64 | SignExtension::From32To64 =>
                Width::W64,
            SignExtension::From8To32 | SignExtension::From16To32 => Width::W32,
        }
    }
}

/// The byte order that a byte swap instruction makes (RFC 9669, section 4.2).
#[derive(Clone, Copy, Debug, PartialEq, Eq)]
pub enum Order {
    Little,
    Big,
    Swap,
}

/// How many low bits of a register a byte swap instruction takes.
#[derive(Clone, Copy, Debug, PartialEq, Eq)]
pub enum OrderSize {
    Bits16,
    Bits32,
    Bits64,
}

/// What a branch tests (RFC 9669, section 4.3). Without `Signed` the comparison is of unsigned numbers.
#[derive(Clone, Copy, Debug, PartialEq, Eq)]
pub enum Condition {
    Eq,
    Gt,
    Ge,
    Set,
    Ne,
    SignedGt,
    SignedGe,
    Lt,
    Le,
    SignedLt,
    SignedLe,
}

/// How many bytes a load or a store moves: 1, 2, 4 or 8 (RFC 9669, section 5).
#[derive(Clone, Copy, Debug, PartialEq, Eq)]
pub enum Size {
    Byte,
    Half,
    Word,
    Double,
}

/// How many bytes a load moves that extends the sign: 1, 2 or 4 (RFC 9669, section 5.2).
#[derive(Clone, Copy, Debug, PartialEq, Eq)]
pub enum SignedSize {
    Byte,
    Half,
    Word,
}

/// One instruction. Distances count slots from the one after the instruction.
#[derive(Clone, Copy, Debug, PartialEq, Eq)]
pub enum Instr {
    /// `dst = dst operator source`.
    Arithmetic {
        width: Width,
        operator: Operator,
        dst: Register,
        source: Source,
    },
    /// `dst = -dst`.
    Negate {
        width: Width,
        dst: Register,
    },
    /// `dst = src`, its low bits as a signed number.
    SignExtend {
        extension: SignExtension,
        dst: Register,
        src: Register,
    },
    /// The low bytes of `dst` in this order.
    ByteOrder {
        order: Order,
        size: OrderSize,
        dst: Register,
    },
    /// Goes on at a distance of 16 bits.
    Jump {
        offset: i16,
    },
    /// Goes on at a distance of 32 bits.
    LongJump {
        offset: i32,
    },
    /// Goes on at that distance where the condition holds for `dst` and `source`.
    Branch {
        width: Width,
        condition: Condition,
        dst: Register,
        source: Source,
        offset: i16,
    },
    /// Calls the helper of this number.
    CallHelper {
        number: i32,
    },
    /// Calls the local function at that distance from the next slot.
    CallLocal {
        offset: i32,
    },
    /// Returns from a local function, or ends the program.
    Exit,
    /// `dst` is the number in the bytes at `base + offset`.
    Load {
        size: Size,
        dst: Register,
        base: Register,
        offset: i16,
    },
    /// `dst` is the signed number in the bytes at `base + offset`.
    LoadSigned {
        size: SignedSize,
        dst: Register,
        base: Register,
        offset: i16,
    },
    /// Writes the low bytes of the immediate at `base + offset`.
    StoreImmediate {
        size: Size,
        base: Register,
        offset: i16,
        immediate: i32,
    },
    /// Writes the low bytes of `src` at `base + offset`.
    Store {
        size: Size,
        base: Register,
        offset: i16,
        src: Register,
    },
    /// `dst = value`; takes two slots.
    LoadImmediate {
        dst: Register,
        value: u64,
    },
}

impl Instr {
    /// Whether it takes two slots.
    pub fn is_wide(&self) -> bool
        ensures { halves self.now ≡ (if result then None ∷ [] else []) }
    {
        matches!(self, Instr::LoadImmediate { .. })
    }
}
