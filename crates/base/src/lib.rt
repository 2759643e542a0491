//! The words that several crates of crashbpf share.
//!
//! This crate stands at the bottom, on `byteorder` and `thiserror`, and does nothing by itself. It has:
//!
//! - `numbers`: little-endian numbers in a list of bytes, read at a place and appended to a list.
//!   Logs and BPF programs are both made of such numbers. A contract names the number in `n` bytes
//!   from place `i` by `number_at n i bytes`, and the bytes of a number by `number_bytes n x`.
//! - `bytes`: `Bytes`, an owned list of bytes that contracts see as that list.
//! - `causes`: for each kind of input the causes of a refusal, each an enum, and the number under
//!   which the program prints it. The numbers stand in `causes` for the code and in
//!   `specs/Causes.antt` for contracts, and nowhere else.
//! - `refusal`: `Refusal`, a cause with its place and, where a program is at fault, the program. Every
//!   refusal of the product, from a log that is cut short to memory that ran out in the midst of the
//!   work, reaches the user as one, printed as a single line.
//! - `limits`: `Limits`, how large logs and devices may be: usually, and with `--large`.
//! - `specs/Check.antt`: an ordered list of checks and the first of them that fails. Where a refusal is
//!   the first of some tests that fails (of a log's super block and entries, of options, of a slot's
//!   fields, of an instruction's rules, of the machine's faults), the definition lists the tests in
//!   their order, and a contract says that the cause is that of the first that doesn't pass.
//!
//! Its contract, in words: what is read at a place is the little-endian number of the bytes there,
//! what is appended are the little-endian bytes of the number and nothing else, and a cause has the
//! number that docs/REFUSALS.md lists.
//!
//! ```text
//! let version = u64_at(log, 8);            // the number in bytes 8 to 15
//! put_u64(&mut out, version)?;             // appends its eight bytes
//! LogCause::Version.number()               // 3
//! ```
//!
//! The contract of `Limits`:
//!
//! Each call gives the number of its limits (`byte_limit`, `unit_limit`, `raw_limit`, `sector_limit`), which is no more than the
//! larger one.
//!
//! # Example
//!
//! ```
//! use base::causes::LogCause;
//! use base::numbers::{put_u64, u64_at};
//!
//! let version = u64_at(bytes, 8);             // the number in bytes 8 to 15
//! let mut out = Vec::new(alloc);
//! put_u64(&mut out, version)?;                // appends its eight bytes
//! let number = LogCause::Version.number();    // 3
//! ```
//!
//! How large a log and its device may be:
//!
//! ```
//! use base::limits::Limits;
//!
//! // 64 MiB and 8 MiB
//! let bytes = Limits::Usual.bytes();
//! let sectors = Limits::Usual.sectors();
//! // bytes is 67_108_864, and sectors is 16_384
//! ```
//!
//! # Choices
//!
//! - The type of a refusal, `Refusal`, stands in `base`: any layer can answer a refusal, and one that does needn't
//!   stand on the board of blocks for that.
//! - The limits are an enum of two, `Limits`, in the module `limits` of `base`: a test can't be given a limit that no
//!   option has.
#![tactic(auto)]

pub mod bytes;
pub mod causes;
pub mod limits;
pub mod numbers;
pub mod refusal;
