//! Parts of a state: some of its registers, and some of the groups of its stack.
//!
//! Nothing that is proved rests on which parts are named: a table that is found with them is tested.

ghost use Rattle.std.specs.Prelude.{◌<◌, IfSome};

use bpf_isa::instr::{Instr, Source};
use bpf_isa::register::Register;
use ranges::{Change, Stretch};

/// A bit for each register, and one for each group of the stack.
#[derive(Clone, Copy)]
pub(crate) struct Parts {
    values: u16,
    groups: u64,
}

impl Parts {
    pub(crate) const NONE: Parts = Parts {
        values: 0,
        groups: 0,
    };

    pub(crate) const ALL: Parts = Parts {
        values: 0x7ff,
        groups: u64::MAX,
    };
    /// All groups of the stack.
    const STACK: Parts = Parts {
        values: 0,
        groups: u64::MAX,
    };

    /// The registers that a call may look at.
    const ARGUMENTS: Parts = Parts {
        values: 0x3e,
        groups: 0,
    };

    /// The registers that a call answers in or unsets.
    const CALLED: Parts = Parts {
        values: 0x3f,
        groups: 0,
    };

    /// A register alone.
    fn of(of: Register) -> Parts {
        register(of.number())
    }

    /// The parts of both.
    pub(crate) fn and(self, other: Parts) -> Parts {
        Parts {
            values: self.values | other.values,
            groups: self.groups | other.groups,
        }
    }

    /// The parts that are in both.
    pub(crate) fn common(self, other: Parts) -> Parts {
        Parts {
            values: self.values & other.values,
            groups: self.groups & other.groups,
        }
    }

    /// The parts that aren't in the other.
    pub(crate) fn without(self, other: Parts) -> Parts {
        Parts {
            values: self.values & !other.values,
            groups: self.groups & !other.groups,
        }
    }

    /// Whether a part is in both.
    pub(crate) fn meets(self, other: Parts) -> bool {
        self.values & other.values != 0 || self.groups & other.groups != 0
    }

    /// Whether there is a part.
    pub(crate) fn is_some(self) -> bool {
        self.values != 0 || self.groups != 0
    }

    /// Whether register n is a part.
    pub(crate) fn has_value(self, n: usize) -> bool
        requires { n < 11 }
    {
        self.values >> n & 1 == 1
    }

    /// The groups alone.
    pub(crate) fn stack(self) -> Parts {
        self.common(Parts::STACK)
    }

    /// Whether group n is a part.
    pub(crate) fn has_group(self, n: usize) -> bool
        requires { n < 64 }
    {
        self.groups >> n & 1 == 1
    }

    /// Takes away the first register, if there is one, and says which it was.
    pub(crate) fn take_value(&mut self) -> Option<usize>
        ensures { IfSome result (λ n. n < 11) }
    {
        let n = self.values.trailing_zeros() as usize;
        if 11 <= n {
            return None;
        }
        self.values &= self.values.wrapping_sub(1);
        Some(n)
    }

    /// Takes away the first group, if there is one, and says which it was.
    pub(crate) fn take_group(&mut self) -> Option<usize>
        ensures { IfSome result (λ n. n < 64) }
    {
        let n = self.groups.trailing_zeros() as usize;
        if 64 <= n {
            return None;
        }
        self.groups &= self.groups.wrapping_sub(1);
        Some(n)
    }

    /// Adds register n.
    pub(crate) fn add_value(&mut self, n: usize)
        requires { n < 11 }
    {
        self.values |= 1 << n;
    }

    /// Adds group n.
    pub(crate) fn add_group(&mut self, n: usize)
        requires { n < 64 }
    {
        self.groups |= 1 << n;
    }
}

/// Register n alone.
fn register(n: usize) -> Parts {
    Parts {
        values: 1 << (n % 16),
        groups: 0,
    }
}

/// The register of a second operand, if it is one.
fn second(source: &Source) -> Parts {
    match source {
        Source::Register(register) => Parts::of(*register),
        Source::Immediate(_) => Parts::NONE,
    }
}

/// The group in which a byte lies, by its distance from the end of the stack.
fn group_at(distance: u16) -> Parts {
    Parts {
        values: 0,
        groups: 1 << (distance / 8 % 64),
    }
}

/// The groups that a store may change: of the eight bytes at most that it writes. Register 10 is the end of the stack.
fn parts_of_store(base: Register, offset: i16) -> Parts {
    if base.number() != 10 {
        return Parts::STACK;
    }
    let distance = offset.cast_unsigned();
    group_at(distance).and(group_at(distance.wrapping_add(7)))
}

/// The parts at which an instruction looks: what it breaks and what changes after it hangs on no others.
pub(crate) fn looked_at(instr: &Instr) -> Parts {
    match instr {
        Instr::Arithmetic { dst, source, .. } | Instr::Branch { dst, source, .. } => {
            Parts::of(*dst).and(second(source))
        }
        Instr::Negate { dst, .. } | Instr::ByteOrder { dst, .. } => Parts::of(*dst),
        Instr::SignExtend { src, .. } => Parts::of(*src),
        Instr::Load { base, offset, .. }
        | Instr::LoadSigned { base, offset, .. }
        | Instr::StoreImmediate { base, offset, .. } => Parts::of(*base).and(parts_of_store(
            *base, *offset,
        )),
        Instr::Store {
            base,
            offset,
            src,
            ..
        } => Parts::of(*base)
            .and(Parts::of(*src))
            .and(parts_of_store(*base, *offset)),
        Instr::CallHelper { .. } | Instr::CallLocal { .. } => Parts::ARGUMENTS,
        Instr::Exit => register(0),
        Instr::Jump { .. } | Instr::LongJump { .. } | Instr::LoadImmediate { .. } => Parts::NONE,
    }
}

/// The groups in which bytes are written.
fn parts_of_bytes(bytes: Stretch) -> Parts {
    let last = (bytes.at + bytes.n).saturating_sub(1) / 8;
    Parts {
        values: 0,
        groups: u64::MAX << (bytes.at / 8 % 64) & u64::MAX >> (63 - last % 64),
    }
}

/// The parts that change.
pub(crate) fn parts_of(change: &Change) -> Parts {
    match change {
        Change::Stays => Parts::NONE,
        Change::Register(r, _) => Parts::of(*r),
        Change::Registers(r, _, q, _) => Parts::of(*r).and(Parts::of(*q)),
        Change::Answer(_) => Parts::CALLED,
        Change::Group(n, _) => Parts {
            values: 0,
            groups: 1 << (n.number % 64),
        },
        Change::Bytes(bytes) => parts_of_bytes(*bytes),
        Change::Copied(bytes, _) => Parts::CALLED.and(parts_of_bytes(*bytes)),
    }
}

/// The parts of a state that an instruction may change, on one of its edges.
pub(crate) fn changed_by(instr: &Instr) -> Parts {
    match instr {
        Instr::Arithmetic { dst, .. }
        | Instr::Negate { dst, .. }
        | Instr::SignExtend { dst, .. }
        | Instr::ByteOrder { dst, .. }
        | Instr::Load { dst, .. }
        | Instr::LoadSigned { dst, .. }
        | Instr::LoadImmediate { dst, .. } => Parts::of(*dst),
        Instr::Branch { dst, source, .. } => Parts::of(*dst).and(second(source)),
        Instr::Jump { .. } | Instr::LongJump { .. } | Instr::Exit => Parts::NONE,
        Instr::StoreImmediate { base, offset, .. } | Instr::Store { base, offset, .. } => {
            parts_of_store(*base, *offset)
        }
        Instr::CallHelper { .. } | Instr::CallLocal { .. } => Parts::ALL,
    }
}

/// The parts in front of an instruction on which these parts after it hang.
pub(crate) fn needed_before(instr: &Instr, beyond: Parts) -> Parts {
    let changed = changed_by(instr);
    match instr {
        Instr::CallHelper { .. } | Instr::CallLocal { .. } => beyond,
        _ => if beyond.meets(changed) {
            beyond.without(changed).and(looked_at(instr))
        } else {
            beyond
        },
    }
}
