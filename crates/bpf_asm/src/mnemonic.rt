//! The names of instructions.
#![tactic(auto, unfolding(crate::specs::Mnemonics::name_of))]

ghost use Rattle.std.specs.Prelude.{◌≡◌, bytes_eq};
ghost use Rattle.std.specs.List.{find};
ghost use Rattle.bpf_asm.specs.Mnemonics.{name_of, mnemonics, mnemonic_of, mnemonic};
ghost use Rattle.bpf_asm.specs.declared.mnemonic.Mnemonic.TheVariants as kind;

use bpf_isa::instr::{
    Condition, Instr, Operator, Order, OrderSize, SignExtension, SignedSize, Size, Width,
};

/// What the name of an instruction tells: its form, and what is done in which width.
#[derive(Clone, Copy)]
pub(crate) enum Mnemonic {
    Arithmetic(Width, Operator),
    Negate(Width),
    SignExtend(SignExtension),
    ByteOrder(Order, OrderSize),
    Jump,
    LongJump,
    Branch(Width, Condition),
    CallHelper,
    CallLocal,
    Exit,
    Load(Size),
    LoadSigned(SignedSize),
    StoreImmediate(Size),
    Store(Size),
    LoadImmediate,
}

/// The instructions of the language.
const MNEMONICS: [Mnemonic; 87] = [
    Mnemonic::Arithmetic(Width::W64, Operator::Add),
    Mnemonic::Arithmetic(Width::W64, Operator::Sub),
    Mnemonic::Arithmetic(Width::W64, Operator::Mul),
    Mnemonic::Arithmetic(Width::W64, Operator::Div),
    Mnemonic::Arithmetic(Width::W64, Operator::SignedDiv),
    Mnemonic::Arithmetic(Width::W64, Operator::Or),
    Mnemonic::Arithmetic(Width::W64, Operator::And),
    Mnemonic::Arithmetic(Width::W64, Operator::Lsh),
    Mnemonic::Arithmetic(Width::W64, Operator::Rsh),
    Mnemonic::Arithmetic(Width::W64, Operator::Mod),
    Mnemonic::Arithmetic(Width::W64, Operator::SignedMod),
    Mnemonic::Arithmetic(Width::W64, Operator::Xor),
    Mnemonic::Arithmetic(Width::W64, Operator::Mov),
    Mnemonic::Arithmetic(Width::W64, Operator::Arsh),
    Mnemonic::Arithmetic(Width::W32, Operator::Add),
    Mnemonic::Arithmetic(Width::W32, Operator::Sub),
    Mnemonic::Arithmetic(Width::W32, Operator::Mul),
    Mnemonic::Arithmetic(Width::W32, Operator::Div),
    Mnemonic::Arithmetic(Width::W32, Operator::SignedDiv),
    Mnemonic::Arithmetic(Width::W32, Operator::Or),
    Mnemonic::Arithmetic(Width::W32, Operator::And),
    Mnemonic::Arithmetic(Width::W32, Operator::Lsh),
    Mnemonic::Arithmetic(Width::W32, Operator::Rsh),
    Mnemonic::Arithmetic(Width::W32, Operator::Mod),
    Mnemonic::Arithmetic(Width::W32, Operator::SignedMod),
    Mnemonic::Arithmetic(Width::W32, Operator::Xor),
    Mnemonic::Arithmetic(Width::W32, Operator::Mov),
    Mnemonic::Arithmetic(Width::W32, Operator::Arsh),
    Mnemonic::Negate(Width::W64),
    Mnemonic::Negate(Width::W32),
    Mnemonic::SignExtend(SignExtension::From8To64),
    Mnemonic::SignExtend(SignExtension::From16To64),
    Mnemonic::SignExtend(SignExtension::From32To64),
    Mnemonic::SignExtend(SignExtension::From8To32),
    Mnemonic::SignExtend(SignExtension::From16To32),
    Mnemonic::ByteOrder(Order::Little, OrderSize::Bits16),
    Mnemonic::ByteOrder(Order::Little, OrderSize::Bits32),
    Mnemonic::ByteOrder(Order::Little, OrderSize::Bits64),
    Mnemonic::ByteOrder(Order::Big, OrderSize::Bits16),
    Mnemonic::ByteOrder(Order::Big, OrderSize::Bits32),
    Mnemonic::ByteOrder(Order::Big, OrderSize::Bits64),
    Mnemonic::ByteOrder(Order::Swap, OrderSize::Bits16),
    Mnemonic::ByteOrder(Order::Swap, OrderSize::Bits32),
    Mnemonic::ByteOrder(Order::Swap, OrderSize::Bits64),
    Mnemonic::Jump,
    Mnemonic::LongJump,
    Mnemonic::Branch(Width::W64, Condition::Eq),
    Mnemonic::Branch(Width::W64, Condition::Gt),
    Mnemonic::Branch(Width::W64, Condition::Ge),
    Mnemonic::Branch(Width::W64, Condition::Set),
    Mnemonic::Branch(Width::W64, Condition::Ne),
    Mnemonic::Branch(Width::W64, Condition::SignedGt),
    Mnemonic::Branch(Width::W64, Condition::SignedGe),
    Mnemonic::Branch(Width::W64, Condition::Lt),
    Mnemonic::Branch(Width::W64, Condition::Le),
    Mnemonic::Branch(Width::W64, Condition::SignedLt),
    Mnemonic::Branch(Width::W64, Condition::SignedLe),
    Mnemonic::Branch(Width::W32, Condition::Eq),
    Mnemonic::Branch(Width::W32, Condition::Gt),
    Mnemonic::Branch(Width::W32, Condition::Ge),
    Mnemonic::Branch(Width::W32, Condition::Set),
    Mnemonic::Branch(Width::W32, Condition::Ne),
    Mnemonic::Branch(Width::W32, Condition::SignedGt),
    Mnemonic::Branch(Width::W32, Condition::SignedGe),
    Mnemonic::Branch(Width::W32, Condition::Lt),
    Mnemonic::Branch(Width::W32, Condition::Le),
    Mnemonic::Branch(Width::W32, Condition::SignedLt),
    Mnemonic::Branch(Width::W32, Condition::SignedLe),
    Mnemonic::CallHelper,
    Mnemonic::CallLocal,
    Mnemonic::Exit,
    Mnemonic::Load(Size::Byte),
    Mnemonic::Load(Size::Half),
    Mnemonic::Load(Size::Word),
    Mnemonic::Load(Size::Double),
    Mnemonic::LoadSigned(SignedSize::Byte),
    Mnemonic::LoadSigned(SignedSize::Half),
    Mnemonic::LoadSigned(SignedSize::Word),
    Mnemonic::StoreImmediate(Size::Byte),
    Mnemonic::StoreImmediate(Size::Half),
    Mnemonic::StoreImmediate(Size::Word),
    Mnemonic::StoreImmediate(Size::Double),
    Mnemonic::Store(Size::Byte),
    Mnemonic::Store(Size::Half),
    Mnemonic::Store(Size::Word),
    Mnemonic::Store(Size::Double),
    Mnemonic::LoadImmediate,
];

/// The name of arithmetic.
fn arithmetic_name(width: Width, operator: Operator) -> &'static str
    ensures { result.now ≡ name_of (kind.Arithmetic width operator) }
{
    match (width, operator) {
        (Width::W64, Operator::Add) => "add64",
        (Width::W64, Operator::Sub) => "sub64",
        (Width::W64, Operator::Mul) => "mul64",
        (Width::W64, Operator::Div) => "div64",
        (Width::W64, Operator::SignedDiv) => "sdiv64",
        (Width::W64, Operator::Or) => "or64",
        (Width::W64, Operator::And) => "and64",
        (Width::W64, Operator::Lsh) => "lsh64",
        (Width::W64, Operator::Rsh) => "rsh64",
        (Width::W64, Operator::Mod) => "mod64",
        (Width::W64, Operator::SignedMod) => "smod64",
        (Width::W64, Operator::Xor) => "xor64",
        (Width::W64, Operator::Mov) => "mov64",
        (Width::W64, Operator::Arsh) => "arsh64",
        (Width::W32, Operator::Add) => "add32",
        (Width::W32, Operator::Sub) => "sub32",
        (Width::W32, Operator::Mul) => "mul32",
        (Width::W32, Operator::Div) => "div32",
        (Width::W32, Operator::SignedDiv) => "sdiv32",
        (Width::W32, Operator::Or) => "or32",
        (Width::W32, Operator::And) => "and32",
        (Width::W32, Operator::Lsh) => "lsh32",
        (Width::W32, Operator::Rsh) => "rsh32",
        (Width::W32, Operator::Mod) => "mod32",
        (Width::W32, Operator::SignedMod) => "smod32",
        (Width::W32, Operator::Xor) => "xor32",
        (Width::W32, Operator::Mov) => "mov32",
        (Width::W32, Operator::Arsh) => "arsh32",
    }
}

/// The name of a branch.
fn branch_name(width: Width, condition: Condition) -> &'static str
    ensures { result.now ≡ name_of (kind.Branch width condition) }
{
    match (width, condition) {
        (Width::W64, Condition::Eq) => "jeq",
        (Width::W64, Condition::Gt) => "jgt",
        (Width::W64, Condition::Ge) => "jge",
        (Width::W64, Condition::Set) => "jset",
        (Width::W64, Condition::Ne) => "jne",
        (Width::W64, Condition::SignedGt) => "jsgt",
        (Width::W64, Condition::SignedGe) => "jsge",
        (Width::W64, Condition::Lt) => "jlt",
        (Width::W64, Condition::Le) => "jle",
        (Width::W64, Condition::SignedLt) => "jslt",
        (Width::W64, Condition::SignedLe) => "jsle",
        (Width::W32, Condition::Eq) => "jeq32",
        (Width::W32, Condition::Gt) => "jgt32",
        (Width::W32, Condition::Ge) => "jge32",
        (Width::W32, Condition::Set) => "jset32",
        (Width::W32, Condition::Ne) => "jne32",
        (Width::W32, Condition::SignedGt) => "jsgt32",
        (Width::W32, Condition::SignedGe) => "jsge32",
        (Width::W32, Condition::Lt) => "jlt32",
        (Width::W32, Condition::Le) => "jle32",
        (Width::W32, Condition::SignedLt) => "jslt32",
        (Width::W32, Condition::SignedLe) => "jsle32",
    }
}

/// The name of a move that extends the sign.
fn extension_name(extension: SignExtension) -> &'static str
    ensures { result.now ≡ name_of (kind.SignExtend extension) }
{
    match extension {
        SignExtension::From8To64 => "movsx8to64",
        SignExtension::From16To64 => "movsx16to64",
        SignExtension::From32To64 => "movsx32to64",
        SignExtension::From8To32 => "movsx8to32",
        SignExtension::From16To32 => "movsx16to32",
    }
}

/// The name of a byte swap.
fn byte_order_name(order: Order, size: OrderSize) -> &'static str
    ensures { result.now ≡ name_of (kind.ByteOrder order size) }
{
    match (order, size) {
        (Order::Little, OrderSize::Bits16) => "le16",
        (Order::Little, OrderSize::Bits32) => "le32",
        (Order::Little, OrderSize::Bits64) => "le64",
        (Order::Big, OrderSize::Bits16) => "be16",
        (Order::Big, OrderSize::Bits32) => "be32",
        (Order::Big, OrderSize::Bits64) => "be64",
        (Order::Swap, OrderSize::Bits16) => "swap16",
        (Order::Swap, OrderSize::Bits32) => "swap32",
        (Order::Swap, OrderSize::Bits64) => "swap64",
    }
}

/// The name of a load.
fn load_name(size: Size) -> &'static str
    ensures { result.now ≡ name_of (kind.Load size) }
{
    match size {
        Size::Byte => "ldxb",
        Size::Half => "ldxh",
        Size::Word => "ldxw",
        Size::Double => "ldxdw",
    }
}

/// The name of a load that extends the sign.
fn load_signed_name(size: SignedSize) -> &'static str
    ensures { result.now ≡ name_of (kind.LoadSigned size) }
{
    match size {
        SignedSize::Byte => "ldxsb",
        SignedSize::Half => "ldxsh",
        SignedSize::Word => "ldxsw",
    }
}

/// The name of a store of an immediate.
fn store_immediate_name(size: Size) -> &'static str
    ensures { result.now ≡ name_of (kind.StoreImmediate size) }
{
    match size {
        Size::Byte => "stb",
        Size::Half => "sth",
        Size::Word => "stw",
        Size::Double => "stdw",
    }
}

/// The name of a store of a register.
fn store_name(size: Size) -> &'static str
    ensures { result.now ≡ name_of (kind.Store size) }
{
    match size {
        Size::Byte => "stxb",
        Size::Half => "stxh",
        Size::Word => "stxw",
        Size::Double => "stxdw",
    }
}

impl Mnemonic {
    /// What names an instruction.
    pub(crate) fn of(instr: &Instr) -> Mnemonic
        ensures { result ≡ mnemonic instr.now }
    {
        match instr {
            Instr::Arithmetic {
                width,
                operator,
                ..
            } => Mnemonic::Arithmetic(*width, *operator),
            Instr::Negate { width, .. } => Mnemonic::Negate(*width),
            Instr::SignExtend { extension, .. } => Mnemonic::SignExtend(*extension),
            Instr::ByteOrder { order, size, .. } => Mnemonic::ByteOrder(*order, *size),
            Instr::Jump { .. } => Mnemonic::Jump,
            Instr::LongJump { .. } => Mnemonic::LongJump,
            Instr::Branch {
                width,
                condition,
                ..
            } => Mnemonic::Branch(*width, *condition),
            Instr::CallHelper { .. } => Mnemonic::CallHelper,
            Instr::CallLocal { .. } => Mnemonic::CallLocal,
            Instr::Exit => Mnemonic::Exit,
            Instr::Load { size, .. } => Mnemonic::Load(*size),
            Instr::LoadSigned { size, .. } => Mnemonic::LoadSigned(*size),
            Instr::StoreImmediate { size, .. } => Mnemonic::StoreImmediate(*size),
            Instr::Store { size, .. } => Mnemonic::Store(*size),
            Instr::LoadImmediate { .. } => Mnemonic::LoadImmediate,
        }
    }

    /// The name in a text.
    pub(crate) fn name(self) -> &'static str
        ensures { result.now ≡ name_of self }
    {
        match self {
            Mnemonic::Arithmetic(width, operator) => arithmetic_name(width, operator),
            Mnemonic::Negate(Width::W64) => "neg64",
            Mnemonic::Negate(Width::W32) => "neg32",
            Mnemonic::SignExtend(extension) => extension_name(extension),
            Mnemonic::ByteOrder(order, size) => byte_order_name(order, size),
            Mnemonic::Jump => "ja",
            Mnemonic::LongJump => "ja32",
            Mnemonic::Branch(width, condition) => branch_name(width, condition),
            Mnemonic::CallHelper => "call",
            Mnemonic::CallLocal => "callf",
            Mnemonic::Exit => "exit",
            Mnemonic::Load(size) => load_name(size),
            Mnemonic::LoadSigned(size) => load_signed_name(size),
            Mnemonic::StoreImmediate(size) => store_immediate_name(size),
            Mnemonic::Store(size) => store_name(size),
            Mnemonic::LoadImmediate => "lddw",
        }
    }
}

/// The first of these that the word names.
#[tactic(auto)]
fn first_named(word: &[u8], table: &[Mnemonic]) -> Option<Mnemonic>
    ensures { result ≡ find (λ m. bytes_eq (name_of m) word.now) table.now }
{
    for mnemonic in table {
        if mnemonic.name().as_bytes() == word {
            return Some(*mnemonic);
        }
    }
    None
}

/// The instruction that a word names.
#[tactic(auto, unfolding(crate::specs::Mnemonics::mnemonics, crate::specs::Mnemonics::mnemonic_of))]
pub(crate) fn mnemonic_of(word: &[u8]) -> Option<Mnemonic>
    ensures { result ≡ mnemonic_of word.now }
{
    first_named(word, &MNEMONICS)
}
