//! The mix of a sector (docs/MACHINE.md, "Mixing a sector"): eight sums side by side in the eight
//! lanes of a vector of words, which wrap as the mix is a number modulo 2^64.
ghost use Rattle.std.specs.Prelude.{◌≡◌, ◌+◌, ◌*◌, ◌%◌, ◌^◌, ◌≤◌, length, replicate, slice_index};
ghost use Rattle.lanes.specs.Sector.{mix, horner, column, word, column_factor, one_word};
ghost use Rattle.lanes.specs.Rows.{HasLanes};

use crate::rows::{ROWS, load_row};
use std::simd::prelude::*;

/// By which the rows of a column count.
const COLUMN_FACTOR: u64 = 1_000_003;

/// By which the columns count.
const JOIN_FACTOR: u64 = 16_777_619;

/// The mix of a sector, from its 64 little-endian words (docs/MACHINE.md, "Mixing a sector"). Sectors
/// that differ can have the same mix.
pub fn mix(sector: &[u8; 512]) -> u64
    ensures { result ≡ mix sector.now }
{
    join(columns(sector))
}

/// The sum of each column, one a lane.
fn columns(sector: &[u8]) -> u64x8
    requires { length sector.now ≡ 512 }
    ensures { HasLanes result (λ lane. column sector.now lane 8 % 2 ^ 64) }
{
    let mut sums = u64x8::splat(0);
    for row in 0..ROWS {
        sums = add_row(sums, words(sector, row));
    }
    sums
}

/// Each lane's sum, times the factor, and plus the lane's word.
fn add_row(sums: u64x8, words: u64x8) -> u64x8
    ensures { HasLanes result
        (λ lane. (slice_index sums lane * column_factor + slice_index words lane) % 2 ^ 64) }
{
    sums * u64x8::splat(COLUMN_FACTOR) + words
}

/// The eight words of a row, one a lane.
fn words(sector: &[u8], row: usize) -> u64x8
    requires { 64 * row + 64 ≤ length sector.now }
    ensures { HasLanes result (λ lane. word sector.now (8 * row + lane)) }
{
    u64x8::from_le_bytes(load_row(sector, row))
}

/// The eight sums joined into one number, lane 0 first.
fn join(sums: u64x8) -> u64
    ensures { result ≡ horner (λ lane. slice_index sums lane) 8 % 2 ^ 64 }
{
    let mut mixed: u64 = 0;
    for sum in sums.to_array() {
        mixed = mixed.wrapping_mul(JOIN_FACTOR).wrapping_add(sum);
    }
    mixed
}

/// A law, and no code to call: the values of the mix that docs/MACHINE.md works out.
pub fn worked_mixes()
    ensures zeros { mix (replicate 512 0) ≡ 0 }
    ensures word_63 { mix (one_word 63) ≡ 1 }
    ensures word_55 { mix (one_word 55) ≡ 1000003 }
    ensures word_62 { mix (one_word 62) ≡ 16777619 }
    ensures word_54 { mix (one_word 54) ≡ 16777669332857 }
{}
