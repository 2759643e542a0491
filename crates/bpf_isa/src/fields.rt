//! The five fields of a slot of eight bytes.

ghost use Rattle.std.specs.Prelude.{◌≡◌, ◌≤◌, ◌<◌, ◌+◌, ◌*◌, ◌++◌, length, OnOk, None};
ghost use Rattle.bpf_isa.specs.Fields.{fields_at, field_bytes, slot_at};

use base::numbers::{put_u16, put_u32, u16_at, u32_at};
use std::alloc::AllocError;

/// The fields of a slot (RFC 9669, section 3.1); the offset and the immediate as their bits.
#[derive(Clone, Copy)]
pub struct Fields {
    pub opcode: u8,
    pub dst: u8,
    pub src: u8,
    pub offset: u16,
    pub immediate: u32,
}

/// The fields of this slot.
#[tactic(auto, unfolding(crate::specs::Fields::fields_at))]
pub fn read_fields(bytes: &[u8], slot: usize) -> Fields
    requires { 8 * slot + 8 ≤ length bytes.now }
    ensures { result ≡ fields_at bytes.now slot }
{
    let place = 8 * slot;
    let registers = bytes[place + 1];
    Fields {
        opcode: bytes[place],
        dst: registers % 16,
        src: registers / 16,
        offset: u16_at(bytes, place + 2),
        immediate: u32_at(bytes, place + 4),
    }
}

/// The fields of this slot, if the bytes reach that far.
#[tactic(auto, unfolding(crate::specs::Fields::slot_at))]
pub fn read_slot(bytes: &[u8], slot: usize) -> Option<Fields>
    ensures { result ≡ slot_at bytes.now slot }
{
    if slot < bytes.len() / 8 {
        Some(read_fields(bytes, slot))
    } else {
        None
    }
}

/// Appends the eight bytes of a slot.
#[tactic(auto, unfolding(crate::specs::Fields::field_bytes))]
pub fn put_fields(out: &mut Vec<u8>, fields: Fields) -> Result<(), AllocError>
    requires dst { fields.dst < 16 }
    requires src { fields.src < 16 }
    ensures appended { OnOk result (out.new.items ≡ out.old.items ++ field_bytes fields) }
{
    out.push(fields.opcode)?;
    out.push(fields.dst + 16 * fields.src)?;
    put_u16(out, fields.offset)?;
    put_u32(out, fields.immediate)
}
