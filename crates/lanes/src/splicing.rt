//! A torn sector: the head of one and the tail of another.
ghost use Rattle.std.specs.Prelude.{◌≡◌, ◌*◌, ◌≤◌, ◌++◌, take, drop};

use crate::rows::{load_row, store_row};

/// The sector that a torn write leaves: the first `pieces` times 64 bytes of `new`, and then those
/// of `old`. With 0 pieces it is `old`, and with 8 it is `new`.
pub fn splice(new: &[u8; 512], old: &[u8; 512], pieces: u8) -> [u8; 512]
    requires { pieces ≤ 8 }
    ensures { result ≡ take (64 * pieces) new.now ++ drop (64 * pieces) old.now }
{
    let mut spliced = *old;
    for row in 0..usize::from(pieces) {
        store_row(&mut spliced, row, load_row(new, row));
    }
    spliced
}
