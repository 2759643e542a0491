//! Checksums of 32 bits by a polynomial: CRC32C and CRC-32.
//!
//! Formats keep a checksum beside what they wrote, so that a reader sees what is torn. Of the many in use two are offered to a
//! checker (docs/MACHINE.md, Checksums): CRC32C, whose polynomial RFC 3720 names after Castagnoli, and the CRC-32 of ISO 3309,
//! Ethernet and zip files. Both keep a register of 32 bits, which begins as the caller says, and which each byte changes. Most
//! formats begin with a register of ones and keep its inverse. That is left to the caller: `checksum` inverts nothing, so that
//! the answer for some bytes is the register with which those after them begin.
//!
//! # Place
//!
//! A low layer, on the numbers of `base` alone. The helpers of a checker are this call at bytes of a device, or of its memory.
//! Nothing here knows of either.
//!
//! # What is proved
//!
//! - `checksum` gives exactly the register that the definition in `specs/Checksum.antt` has. It is stated bit by bit: a register
//!   is a polynomial over bits, and each bit raises its powers by one and takes the polynomial off where that has the 32nd.
//! - `one_number`: the checksum of some bytes is that of the one number that they are, all bits at once.
//! - `worked_checksums`: the definition has the check values of both, and those that RFC 3720 works out.
//!
//! No call takes memory, and none refuses.
//!
//! # How it is written
//!
//! Sixteen bytes are taken at a time, by sixteen rows of a table for each polynomial (`tables`): row k has what each byte leaves
//! in the register after k zero bytes more. What bytes leave adds up, so the rows of sixteen bytes do. The tables are constants
//! (`castagnoli`, `iso3309`), and the check computes each of their entries by the definition.
//!
//! # Example
//!
//! ```
//! use checksums::{Polynomial, checksum};
//!
//! let register = checksum(Polynomial::Castagnoli, 0xFFFF_FFFF, b"123456789");
//! // register ^ 0xFFFF_FFFF is 0xE306_9283
//! ```
#![tactic(auto)]

mod castagnoli;
mod iso3309;
mod laws;
mod polynomial;
mod tables;
mod taking;

pub use laws::{one_number, worked_checksums};
pub use polynomial::Polynomial;
pub use taking::checksum;
