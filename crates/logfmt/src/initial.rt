//! What a device held before entry 0 of a log.

ghost use Rattle.std.specs.Prelude.{◌≡◌, ◌+◌, ◌*◌, ◌≤◌, ◌<◌, [], length};
ghost use Rattle.std.specs.List.{slice_range};
ghost use Rattle.logfmt.specs.Bounds.{AreBytes};
ghost use Rattle.logfmt.specs.Initial.{initial_sector};

use crate::entry::SECTOR;
use std::marker::Model;

/// A sector after the end of the initial content.
static ZEROS: [u8; SECTOR] = [0; SECTOR];

/// What a device held before entry 0 of a log: its bytes from sector 0 on; after their end there are zeros.
///
/// Contracts see these bytes.
#[derive(Drop)]
pub struct InitialContent<'x> {
    /// The bytes.
    bytes: &'x [u8],
    /// The sector that the last of them begin but don't fill, where there is one.
    begun: [u8; 512],
}

impl<'x> Model for InitialContent<'x> {
    ghost use Rattle.std.specs.Prelude.{ℕ, List};
    ghost use Rattle.logfmt.specs.Initial.{AreKept};

    ghost Value = { List ℕ };

    ghost view = { λ c. c.bytes.now };

    ghost invariant = { λ c. AreKept c.bytes.now c.begun };
}

impl<'x> InitialContent<'x> {
    /// That of a device of which nothing is known to have been written.
    pub fn none() -> InitialContent<'static>
        ensures { result ≡ [] }
    {
        InitialContent {
            bytes: &[],
            begun: [0; SECTOR],
        }
    }

    /// These bytes. It takes no memory.
    pub fn of(bytes: &'x [u8]) -> InitialContent<'x>
        ensures { result ≡ bytes.now }
    {
        let whole = bytes.len() / SECTOR * SECTOR;
        InitialContent {
            bytes,
            begun: filled(&bytes[whole..]),
        }
    }

    /// How many bytes there are.
    pub fn len(&self) -> usize
        ensures value { result ≡ length self.now }
        ensures bytes { AreBytes self.now }
    {
        self.bytes.len()
    }

    /// What a sector of the device held.
    #[inline]
    pub fn sector(&self, number: u32) -> &[u8; 512]
        ensures { result.now ≡ initial_sector self.now number }
    {
        let start = SECTOR * number as usize;
        let length = self.bytes.len();
        if start + SECTOR <= length {
            sector_at(self.bytes, start)
        } else if start < length {
            &self.begun
        } else {
            &ZEROS
        }
    }
}

/// A sector of these bytes, fewer than it has, and zeros after them.
fn filled(bytes: &[u8]) -> [u8; 512]
    requires { length bytes.now < 512 }
    ensures { result ≡ initial_sector bytes.now 0 }
{
    let mut sector = [0; SECTOR];
    sector[..bytes.len()].copy_from_slice(bytes);
    sector
}

/// The sector that begins at a place of some bytes.
fn sector_at(bytes: &[u8], start: usize) -> &[u8; 512]
    requires { start + 512 ≤ length bytes.now }
    ensures { result.now ≡ slice_range bytes.now start (start + 512) }
{
    match <&[u8; 512]>::try_from(&bytes[start..start + SECTOR]) {
        Ok(sector) => sector,
        Err(_) => unreachable!(),
    }
}
