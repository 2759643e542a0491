//! Little-endian numbers in bytes.

ghost use Rattle.std.specs.Prelude.{◌≡◌, ◌≤◌, ◌+◌, ◌++◌, length, OnOk, OnErr};
ghost use Rattle.base.specs.Numbers.{number_at, number_bytes, zeros};

use byteorder::{ByteOrder, LittleEndian};
use std::alloc::AllocError;

/// The number in the two bytes from place `at`.
#[tactic(auto, unfolding(crate::specs::Numbers::number_at))]
pub fn u16_at(bytes: &[u8], at: usize) -> u16
    requires { at + 2 ≤ length bytes.now }
    ensures { result ≡ number_at 2 at bytes.now }
{
    LittleEndian::read_u16(&bytes[at..])
}

/// The number in the four bytes from place `at`.
#[tactic(auto, unfolding(crate::specs::Numbers::number_at))]
pub fn u32_at(bytes: &[u8], at: usize) -> u32
    requires { at + 4 ≤ length bytes.now }
    ensures { result ≡ number_at 4 at bytes.now }
{
    LittleEndian::read_u32(&bytes[at..])
}

/// The number in the eight bytes from place `at`.
#[tactic(auto, unfolding(crate::specs::Numbers::number_at))]
pub fn u64_at(bytes: &[u8], at: usize) -> u64
    requires { at + 8 ≤ length bytes.now }
    ensures { result ≡ number_at 8 at bytes.now }
{
    LittleEndian::read_u64(&bytes[at..])
}

/// Appends the two bytes of a number.
#[tactic(auto, unfolding(crate::specs::Numbers::number_bytes))]
pub fn put_u16(out: &mut Vec<u8>, number: u16) -> Result<(), AllocError>
    ensures appended { OnOk result (out.new.items ≡ out.old.items ++ number_bytes 2 number) }
    ensures kept { OnErr result (out.new.items ≡ out.old.items) }
{
    let mut bytes = [0u8; 2];
    LittleEndian::write_u16(&mut bytes, number);
    out.extend_from_slice(&bytes)
}

/// Appends the four bytes of a number.
#[tactic(auto, unfolding(crate::specs::Numbers::number_bytes))]
pub fn put_u32(out: &mut Vec<u8>, number: u32) -> Result<(), AllocError>
    ensures appended { OnOk result (out.new.items ≡ out.old.items ++ number_bytes 4 number) }
    ensures kept { OnErr result (out.new.items ≡ out.old.items) }
{
    let mut bytes = [0u8; 4];
    LittleEndian::write_u32(&mut bytes, number);
    out.extend_from_slice(&bytes)
}

/// Appends the eight bytes of a number.
#[tactic(auto, unfolding(crate::specs::Numbers::number_bytes))]
pub fn put_u64(out: &mut Vec<u8>, number: u64) -> Result<(), AllocError>
    ensures appended { OnOk result (out.new.items ≡ out.old.items ++ number_bytes 8 number) }
    ensures kept { OnErr result (out.new.items ≡ out.old.items) }
{
    let mut bytes = [0u8; 8];
    LittleEndian::write_u64(&mut bytes, number);
    out.extend_from_slice(&bytes)
}

/// Appends `count` zeros.
#[tactic(auto, unfolding(crate::specs::Numbers::zeros))]
pub fn put_zeros(out: &mut Vec<u8>, count: usize) -> Result<(), AllocError>
    ensures appended { OnOk result (out.new.items ≡ out.old.items ++ zeros count) }
    ensures kept { OnErr result (out.new.items ≡ out.old.items) }
{
    match out.len().checked_add(count) {
        Some(length) => out.resize(length, 0),
        None => Err(AllocError),
    }
}
