//! The checksums of bytes of a device.

ghost use Rattle.std.specs.Prelude.{◌≡◌, ◌≤◌};
ghost use Rattle.checksums.specs.Checksum.{checksum, coefficients};
ghost use Rattle.helpers.specs.Answers.{device_bytes};
ghost use Rattle.helpers.specs.Sums.{checksum_of, polynomial_of, sum_answer, taken};

use crate::copying::bytes_from;
use crate::device::Device;
use checksums::{Polynomial, checksum};

/// A checksum that a program with guards may ask for (docs/MACHINE.md, Checksums).
#[derive(Clone, Copy, Debug, PartialEq, Eq)]
pub enum Checksum {
    /// Numbers 8 and 9: of bytes of the device.
    OfDevice(Polynomial),
    /// Numbers 10 and 11: of bytes of the program's memory, or of a stack.
    OfMemory(Polynomial),
}

impl Checksum {
    /// That of this number, if there is one.
    pub fn of(number: u32) -> Option<Checksum>
        ensures { result ≡ checksum_of number }
    {
        match number {
            8 => Some(Checksum::OfDevice(Polynomial::Castagnoli)),
            9 => Some(Checksum::OfDevice(Polynomial::Iso3309)),
            10 => Some(Checksum::OfMemory(Polynomial::Castagnoli)),
            11 => Some(Checksum::OfMemory(Polynomial::Iso3309)),
            _ => None,
        }
    }

    /// Its polynomial.
    pub fn polynomial(self) -> Polynomial
        ensures { result ≡ polynomial_of self }
    {
        match self {
            Checksum::OfDevice(polynomial) => polynomial,
            Checksum::OfMemory(polynomial) => polynomial,
        }
    }
}

/// The most bytes that a call takes.
pub const MOST_TAKEN: u64 = 4096;

/// How many bytes a call takes, of a length.
pub fn taken(count: u64) -> u64
    ensures is { result ≡ taken count }
    ensures few { result ≤ 4096 }
{
    if count > MOST_TAKEN {
        MOST_TAKEN
    } else {
        count
    }
}

/// The checksum of some bytes, where the low half of a word is the register.
#[tactic(auto, unfolding(crate::specs::Sums::sum_answer))]
pub fn of_bytes(polynomial: Polynomial, seed: u64, bytes: &[u8]) -> u64
    ensures { result ≡ sum_answer polynomial seed bytes.now }
{
    u64::from(checksum(polynomial, (seed % 0x1_0000_0000) as u32, bytes))
}

/// The register after that many bytes of the device, from a position on. Past its end they are zeros.
fn sum_of<D: Device>(
    device: &D,
    polynomial: Polynomial,
    register: u32,
    position: u64,
    count: u64,
) -> u32
    requires few { count ≤ 4096 }
    ensures { result ≡ checksum (coefficients polynomial) register (device_bytes (D.content device.now) position count) }
{
    let mut done = 0;
    let mut sum = register;
    'pieces: while done < count {
        let bytes = bytes_from(device, position, done, count - done);
        sum = checksum(polynomial, sum, bytes);
        done += bytes.len() as u64;
    }
    sum
}

/// The checksum of the bytes of the device that a call takes of a length, from a position on.
#[tactic(auto, unfolding(crate::specs::Sums::sum_answer))]
pub fn of_device<D: Device>(
    device: &D,
    polynomial: Polynomial,
    seed: u64,
    position: u64,
    count: u64,
) -> u64
    ensures { result ≡ sum_answer polynomial seed (device_bytes (D.content device.now) position (taken count)) }
{
    let register = (seed % 0x1_0000_0000) as u32;
    u64::from(sum_of(device, polynomial, register, position, taken(count)))
}
