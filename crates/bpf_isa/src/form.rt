//! The forms that the opcode byte tells apart.

ghost use Rattle.std.specs.Prelude.{◌≡◌, IfSome};
ghost use Rattle.bpf_isa.specs.Table.{arithmetic_form, operator_of, condition_of, jump_form, other_jump, size_of, signed_size_of, memory_form, form_of, opcode_of};

use crate::instr::{Condition, Operator, Order, SignedSize, Size, Width};

/// What the opcode byte says: the form of the instruction and whether its source is a register.
/// Signed division and modulo share the opcode of the unsigned ones, and are not met here.
#[derive(Clone, Copy)]
pub enum OpcodeForm {
    Arithmetic {
        width: Width,
        operator: Operator,
        register: bool,
    },
    Negate {
        width: Width,
    },
    ByteOrder {
        order: Order,
    },
    Jump,
    LongJump,
    Branch {
        width: Width,
        condition: Condition,
        register: bool,
    },
    Call,
    Exit,
    Load {
        size: Size,
    },
    LoadSigned {
        size: SignedSize,
    },
    StoreImmediate {
        size: Size,
    },
    Store {
        size: Size,
    },
    LoadImmediate,
}

/// The operator of this code, the high four bits of an opcode.
#[tactic(auto, unfolding(crate::specs::Table::operator_of))]
fn operator(code: u8) -> Option<Operator>
    ensures { result ≡ operator_of code }
{
    match code {
        0 => Some(Operator::Add),
        1 => Some(Operator::Sub),
        2 => Some(Operator::Mul),
        3 => Some(Operator::Div),
        4 => Some(Operator::Or),
        5 => Some(Operator::And),
        6 => Some(Operator::Lsh),
        7 => Some(Operator::Rsh),
        9 => Some(Operator::Mod),
        10 => Some(Operator::Xor),
        11 => Some(Operator::Mov),
        12 => Some(Operator::Arsh),
        _ => None,
    }
}

/// The condition of this code, the high four bits of an opcode.
#[tactic(auto, unfolding(crate::specs::Table::condition_of))]
fn condition(code: u8) -> Option<Condition>
    ensures { result ≡ condition_of code }
{
    match code {
        1 => Some(Condition::Eq),
        2 => Some(Condition::Gt),
        3 => Some(Condition::Ge),
        4 => Some(Condition::Set),
        5 => Some(Condition::Ne),
        6 => Some(Condition::SignedGt),
        7 => Some(Condition::SignedGe),
        10 => Some(Condition::Lt),
        11 => Some(Condition::Le),
        12 => Some(Condition::SignedLt),
        13 => Some(Condition::SignedLe),
        _ => None,
    }
}

/// The form of an arithmetic opcode.
#[tactic(auto, unfolding(crate::specs::Table::arithmetic_form))]
fn arithmetic(width: Width, code: u8, register: bool) -> Option<OpcodeForm>
    ensures { result ≡ arithmetic_form width code register }
{
    match (code, width, register) {
        (8, _, false) => Some(OpcodeForm::Negate { width }),
        (8, _, true) => None,
        (13, Width::W32, false) => Some(OpcodeForm::ByteOrder {
            order: Order::Little,
        }),
        (13, Width::W32, true) => Some(OpcodeForm::ByteOrder { order: Order::Big }),
        (13, Width::W64, false) => Some(OpcodeForm::ByteOrder { order: Order::Swap }),
        (13, Width::W64, true) => None,
        _ => Some(OpcodeForm::Arithmetic {
            width,
            operator: operator(code)?,
            register,
        }),
    }
}

/// The form of an opcode of class JMP (64 bits) or JMP32.
#[tactic(auto, unfolding(crate::specs::Table::jump_form))]
fn jump(width: Width, code: u8, register: bool) -> Option<OpcodeForm>
    ensures { result ≡ jump_form width code register }
{
    match condition(code) {
        Some(condition) => Some(OpcodeForm::Branch {
            width,
            condition,
            register,
        }),
        None if register => None,
        None => other_jump(width, code),
    }
}

/// The form of a jump that is no branch.
fn other_jump(width: Width, code: u8) -> Option<OpcodeForm>
    ensures { result ≡ other_jump width code }
{
    match (width, code) {
        (Width::W64, 0) => Some(OpcodeForm::Jump),
        (Width::W64, 8) => Some(OpcodeForm::Call),
        (Width::W64, 9) => Some(OpcodeForm::Exit),
        (Width::W32, 0) => Some(OpcodeForm::LongJump),
        _ => None,
    }
}

/// The size of this code.
#[tactic(auto, unfolding(crate::specs::Table::size_of))]
fn size(code: u8) -> Option<Size>
    ensures { result ≡ size_of code }
{
    match code {
        0 => Some(Size::Word),
        1 => Some(Size::Half),
        2 => Some(Size::Byte),
        3 => Some(Size::Double),
        _ => None,
    }
}

/// The size of this code, of a load that extends the sign.
#[tactic(auto, unfolding(crate::specs::Table::signed_size_of))]
fn signed_size(code: u8) -> Option<SignedSize>
    ensures { result ≡ signed_size_of code }
{
    match code {
        0 => Some(SignedSize::Word),
        1 => Some(SignedSize::Half),
        2 => Some(SignedSize::Byte),
        _ => None,
    }
}

/// The form of a load, a store or a load of an immediate.
#[tactic(auto, unfolding(crate::specs::Table::memory_form))]
fn memory(class: u8, mode: u8, code: u8) -> Option<OpcodeForm>
    ensures { result ≡ memory_form class mode code }
{
    match (class, mode) {
        (0, 0) if code == 3 => Some(OpcodeForm::LoadImmediate),
        (0, _) => None,
        (1, 3) => Some(OpcodeForm::Load { size: size(code)? }),
        (2, 3) => Some(OpcodeForm::StoreImmediate { size: size(code)? }),
        (_, 3) => Some(OpcodeForm::Store { size: size(code)? }),
        (1, 4) => Some(OpcodeForm::LoadSigned {
            size: signed_size(code)?,
        }),
        _ => None,
    }
}

/// The form that this opcode tells.
#[tactic(auto, unfolding(crate::specs::Table::form_of))]
fn told_form(opcode: u8) -> Option<OpcodeForm>
    ensures { result ≡ form_of opcode }
{
    let register = opcode / 8 % 2 == 1;
    match opcode % 8 {
        7 => arithmetic(Width::W64, opcode / 16, register),
        4 => arithmetic(Width::W32, opcode / 16, register),
        5 => jump(Width::W64, opcode / 16, register),
        6 => jump(Width::W32, opcode / 16, register),
        class => memory(class, opcode / 32, opcode / 8 % 4),
    }
}

/// The form that this opcode tells, if the standard has the opcode.
#[tactic(auto, using(crate::proofs::Table::known))]
pub fn known_form(opcode: u8) -> Option<OpcodeForm>
    ensures exact { result ≡ form_of opcode }
    ensures sound { IfSome result (λ f. opcode_of f ≡ opcode) }
{
    told_form(opcode)
}
