//! Tests of whole sectors, which end at the first row that settles the answer.
ghost use Rattle.std.specs.Prelude.{◌≡◌, ◌↔◌, IsTrue};
ghost use Rattle.lanes.specs.Sector.{IsZero};

use crate::rows::{ROWS, load_row};
use std::simd::prelude::*;

/// Whether the two sectors hold the same bytes.
pub fn same(left: &[u8; 512], right: &[u8; 512]) -> bool
    ensures { IsTrue result ↔ (left.now ≡ right.now) }
{
    for row in 0..ROWS {
        if !same_lanes(load_row(left, row), load_row(right, row)) {
            return false;
        }
    }
    true
}

/// Whether each byte of the sector is 0.
pub fn is_zero(sector: &[u8; 512]) -> bool
    ensures { IsTrue result ↔ IsZero sector.now }
{
    for row in 0..ROWS {
        if !same_lanes(load_row(sector, row), u8x64::splat(0)) {
            return false;
        }
    }
    true
}

/// Whether two vectors are equal in each lane.
fn same_lanes(left: u8x64, right: u8x64) -> bool
    ensures { IsTrue result ↔ (left ≡ right) }
{
    left.simd_ne(right).to_bitmask() == 0
}
