//! Checksums of bytes.

ghost use Rattle.std.specs.Prelude.{◌≡◌, ◌≤◌, ◌+◌, ◌*◌, true, length, take, drop};
ghost use Rattle.checksums.specs.Checksum.{checksum, coefficients};
ghost use Rattle.checksums.specs.Tables.{is_table};

use crate::polynomial::Polynomial;
use crate::tables::{Rows, rows_of, take_byte, take_word};
use base::numbers::u32_at;

/// Sixteen bytes are taken at a time.
const BLOCK: usize = 16;

/// The register after sixteen bytes from a place on.
#[inline(always)]
fn take_block(polynomial: Polynomial, rows: &Rows, register: u32, bytes: &[u8], at: usize) -> u32
    requires table { is_table (coefficients polynomial) rows.now ≡ true }
    requires inside { at + 16 ≤ length bytes.now }
    ensures { result ≡ checksum (coefficients polynomial) register (take 16 (drop at bytes.now)) }
{
    take_word(polynomial, rows, 12, register ^ u32_at(bytes, at))
        ^ take_word(polynomial, rows, 8, u32_at(bytes, at + 4))
        ^ take_word(polynomial, rows, 4, u32_at(bytes, at + 8))
        ^ take_word(polynomial, rows, 0, u32_at(bytes, at + 12))
}

/// The register after that many blocks.
#[inline(always)]
fn take_blocks(
    polynomial: Polynomial,
    rows: &Rows,
    register: u32,
    bytes: &[u8],
    blocks: usize,
) -> u32
    requires table { is_table (coefficients polynomial) rows.now ≡ true }
    requires inside { 16 * blocks ≤ length bytes.now }
    ensures { result ≡ checksum (coefficients polynomial) register (take (16 * blocks) bytes.now) }
{
    let mut sum = register;
    for block in 0..blocks {
        sum = take_block(polynomial, rows, sum, bytes, BLOCK * block);
    }
    sum
}

/// The register after some bytes.
#[inline(always)]
fn take_bytes(polynomial: Polynomial, rows: &Rows, register: u32, bytes: &[u8]) -> u32
    requires table { is_table (coefficients polynomial) rows.now ≡ true }
    ensures { result ≡ checksum (coefficients polynomial) register bytes.now }
{
    let mut sum = register;
    for byte in bytes {
        sum = take_byte(polynomial, rows, sum, *byte);
    }
    sum
}

/// The checksum of some bytes: what they leave of a register. The register isn't inverted, neither before nor after. That of
/// bytes that follow goes on with the answer.
pub fn checksum(polynomial: Polynomial, register: u32, bytes: &[u8]) -> u32
    ensures { result ≡ checksum (coefficients polynomial) register bytes.now }
{
    let rows = rows_of(polynomial);
    let blocks = bytes.len() / BLOCK;
    let sum = take_blocks(polynomial, rows, register, bytes, blocks);
    take_bytes(polynomial, rows, sum, &bytes[BLOCK * blocks..])
}
