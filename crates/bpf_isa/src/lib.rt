//! BPF instructions and programs, and their encoding both ways (RFC 9669).
//!
//! This crate stands on `base`. The assembler, the verifier and the machine stand on
//! it: they take instructions and programs from here and never look at bytes.
//!
//! - `register`, `instr`: `Register`, which holds 0 to 10, and `Instr`, an enum by form whose fields
//!   keep their ranges by their types. There is no instruction that cannot be encoded.
//! - `program`: `Program`, 1 to 4,096 slots. Contracts see it as the list of its slots, each with the
//!   instruction that begins there, or none in the second half of an instruction of two slots.
//! - `codec`: `decode` and `encode`.
//! - `ready`: the record that a program keeps for each slot, of one shape, with one fieldless `Code`,
//!   the registers, the absolute target and the constant. The machine runs over these. The record of a call
//!   of `again` has its number among such calls. A program knows how many of them it has, and whether it calls
//!   a local function.
//! - `form`, `fields`, `from_fields`, `to_fields`: the table of opcodes, the five fields of a slot, and each
//!   form from its fields and back. Only this crate calls them.
//! - `laws`: what holds of the encoding as a whole.
//!
//! The encoding is stated once, in `specs/`: `Table` has the opcode of each form, `Spelling` the fields
//! of each instruction and so its bytes, `Faults` which values each form takes in which field. A
//! refusal is the first test that fails, of an ordered list.
//!
//! The contract, in words:
//!
//! - `decode` answers a program exactly where the bytes are its instructions, one after the other, and
//!   else, want of memory aside, the first fault: a slot that is cut, the number of slots, then slot by
//!   slot an unknown opcode, an unknown register or kind of source, another field with a value that it
//!   may not have, a second half that is missing or has another form. A fault names its slot.
//! - `encode` answers the bytes that spell the program.
//! - `Program::of` answers the program of these instructions, and refuses exactly where they take no
//!   slot or more than 4,096, want of memory aside.
//! - Bytes spell one program at most, have one first fault at most, and never both. So what `encode`
//!   answers is decoded to the same program.
//!
//! ```text
//! let program = decode(alloc, &[0xb7, 0, 0, 0, 7, 0, 0, 0, 0x95, 0, 0, 0, 0, 0, 0, 0])?;
//! program.slots()                      // 2: mov64 r0, 7; exit
//! program.at(1)                        // Some(Instr::Exit)
//! encode(alloc, &program)?             // the same sixteen bytes
//! decode(alloc, &[0xb7, 11, 0, 0, 0, 0, 0, 0])     // refused: register, slot 0
//! ```
//!
//! # Example
//!
//! ```
//! use bpf_isa::codec::{decode, encode};
//!
//! let program = decode(alloc, &[0xb7, 0, 0, 0, 7, 0, 0, 0, 0x95, 0, 0, 0, 0, 0, 0, 0])?;
//! // mov64 r0, 7; exit
//! let slots = program.slots();            // 2
//! let instr = program.at(1);              // Some(Instr::Exit)
//! let bytes = encode(alloc, &program)?;   // the same sixteen bytes
//! let fault = decode(alloc, &[0xb7, 11, 0, 0, 0, 0, 0, 0]).err();
//! // there is no register 11: CodeCause::Register, slot 0
//! ```
//!
//! # More that is promised
//!
//! - **Checkers are decoded by RFC 9669,** in one way, or refused with their first fault. What is encoded is decoded
//!   to the same program: `no_fault_in_spelled`, `one_fault`, `one_table`.
//!
//! # How it is proved
//!
//! - A first fault is best a relation over what stands before it (`FirstFault` in `bpf_isa/specs/Program.antt`: after
//!   slots that are spelled, a test fails). The loop meets it easily; that there is only one (`one_fault`) costs a
//!   lemma, since two readings of the slots before have to be compared.
//! - A claim over all 256 bytes is one `refl`: a recursion to `Bool` over the numbers, with every word of the table
//!   in `unfolding` (`table` in `bpf_isa/proofs/Table.antt`). A lemma takes one number out of it.
//! - `Vec<Instr>::push` outside `bpf_isa` mostly fails, and `extend_from_slice(&[instr])` proves; `?` on a type with
//!   a `Register` and a reference is refused, and `let Some(..) = .. else { return None; }` is not.
#![tactic(auto)]

pub mod codec;
mod fields;
mod form;
mod from_fields;
pub mod instr;
pub mod laws;
pub mod program;
pub mod ready;
pub mod register;
mod to_fields;
