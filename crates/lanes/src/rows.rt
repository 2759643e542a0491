//! The eight rows of a sector, each 64 bytes and one vector.
ghost use Rattle.std.specs.Prelude.{◌≡◌, ◌+◌, ◌*◌, ◌≤◌, ◌++◌, length, take, drop};
ghost use Rattle.lanes.specs.Rows.{row_of};

use std::simd::prelude::*;

/// The rows of a sector.
pub(crate) const ROWS: usize = 8;

/// The 64 bytes of a row.
#[tactic(auto, unfolding(crate::specs::Rows::row_of))]
pub(crate) fn load_row(bytes: &[u8], row: usize) -> u8x64
    requires { 64 * row + 64 ≤ length bytes.now }
    ensures { result ≡ row_of bytes.now row }
{
    u8x64::from_slice(&bytes[64 * row..])
}

/// Writes the 64 bytes of a row.
pub(crate) fn store_row(bytes: &mut [u8], row: usize, lanes: u8x64)
    requires { 64 * row + 64 ≤ length bytes.old }
    ensures { bytes.new ≡ take (64 * row) bytes.old ++ lanes ++ drop (64 * row + 64) bytes.old }
{
    lanes.copy_to_slice(&mut bytes[64 * row..]);
}
