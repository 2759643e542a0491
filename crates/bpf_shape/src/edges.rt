//! Control edges: where control goes from an instruction.

ghost use Rattle.std.specs.Prelude.{◌≡◌, ◌<◌, ◌≤ℤ◌, pos, negsuc};
ghost use Rattle.bpf_isa.specs.Slots.{target_slot};
ghost use Rattle.bpf_shape.specs.Edges.{edges_of, control};

use bpf_isa::instr::Instr;
use bpf_isa::program::Program;

/// The control edges of a slot: one to the next slot, one to the target of a jump. Both may lead to
/// the same slot. A local call has one to the next slot alone. The target of a jump past either end of the program is a number of which the
/// program has no slot.
#[derive(Clone, Copy, Debug, PartialEq, Eq)]
pub struct Edges {
    pub next: Option<usize>,
    pub target: Option<usize>,
}

impl Edges {
    /// Control ends here.
    pub const NONE: Edges = Edges {
        next: None,
        target: None,
    };
}

/// Where control goes from an instruction at a slot.
#[tactic(auto, unfolding(crate::specs::Edges::edges_of))]
pub fn edges_of(slot: usize, instr: &Instr) -> Edges
    requires { slot < 4096 }
    ensures { result ≡ edges_of slot instr.now }
{
    match instr {
        Instr::Exit => Edges::NONE,
        Instr::Jump { offset } => Edges {
            next: None,
            target: Some(target_slot(slot, i64::from(*offset))),
        },
        Instr::LongJump { offset } => Edges {
            next: None,
            target: Some(target_slot(slot, i64::from(*offset))),
        },
        Instr::Branch { offset, .. } => Edges {
            next: Some(slot + 1),
            target: Some(target_slot(slot, i64::from(*offset))),
        },
        Instr::LoadImmediate { .. } => Edges {
            next: Some(slot + 2),
            target: None,
        },
        Instr::Arithmetic { .. }
        | Instr::Negate { .. }
        | Instr::SignExtend { .. }
        | Instr::ByteOrder { .. }
        | Instr::CallHelper { .. }
        | Instr::CallLocal { .. }
        | Instr::Load { .. }
        | Instr::LoadSigned { .. }
        | Instr::StoreImmediate { .. }
        | Instr::Store { .. } => Edges {
            next: Some(slot + 1),
            target: None,
        },
    }
}

/// The slot at a distance from the one after a jump or a local call.
pub(crate) fn target_slot(slot: usize, distance: i64) -> usize
    requires slot { slot < 4096 }
    requires low { negsuc 2147483647 ≤ℤ distance }
    requires high { distance ≤ℤ pos 2147483647 }
    ensures { result ≡ target_slot slot distance }
{
    (slot as i64 + 1 + distance).cast_unsigned() as usize
}

/// Where control goes from a slot; nowhere, where no instruction begins.
#[tactic(auto, unfolding(crate::specs::Edges::control))]
pub fn control(program: &Program, slot: usize) -> Edges
    ensures { result ≡ control program.now slot }
{
    match program.at(slot) {
        Some(instr) => edges_of(slot, &instr),
        None => Edges::NONE,
    }
}
