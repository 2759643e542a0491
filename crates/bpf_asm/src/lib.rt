//! Assembly texts of BPF programs, and the listings of programs (docs/ASSEMBLY.md).
//!
//! This crate stands on `bpf_isa`, from which it takes instructions and programs, and on `indexmap`.
//! The commands that read and print programs stand on it, and call `assemble`, `list` and `put_instr` alone.
//!
//! - `part`: the words and marks of a line, taken from its front one by one.
//! - `number`: numbers with their sign, and the ranges that they have to keep.
//! - `mnemonic`: the names of the instructions, both ways, over one table.
//! - `operand`: registers, numbers, memory places and targets, and the lists of operands that
//!   instructions have.
//! - `instruction`, `statement`: what a line says: nothing, a label, or an instruction. An
//!   instruction that names a label is kept with the distance 0 and that name.
//! - `outline`: the lines of a text in turn: the slot of each label, in the order in which the labels
//!   stand, and the instructions with the labels that they name.
//! - `assembler`: the second pass, which gives each instruction its distance, and `assemble`.
//! - `listing`: `list` and `put_instr`.
//! - `fault`: why a text is refused, with the number under which the refusal is printed and its line.
//!
//! The grammar is stated once, in `specs/`: `Parts` has the lines and the parts of a line, `Words` what
//! a word stands for, `Mnemonics` the name of each instruction, `Operands` the operands of each, and
//! `Statements` what a line says. `Says` has the relation between a text and a program: each line says
//! something, no name is a label on two lines, and the program is that of the instructions in order,
//! each label replaced by its distance. `Listing` has the text of a program.
//!
//! The contract, in words:
//!
//! - `assemble` answers a program only where the text says it.
//! - `assemble` refuses, want of memory aside, only where the text says no program. Want of memory
//!   names no line, and a text in order but without instructions is refused for its range at no line.
//!   Which number and line another refusal has is held to the table of docs/ASSEMBLY.md by tests.
//! - `list` answers the listing of the program, to the byte, and the listing says the program. `put_instr`
//!   appends the line of one instruction, without its end.
//! - A text says at most one program. So assembling the listing of a program gives that program, or
//!   want of memory (`laws::round_trip`).
//!
//! Each line is read once. A label is looked up in a map, so a text takes time linear in its length.
//!
//! ```text
//! let program = assemble(alloc, "again:\n    mov64 r0, 7 ; comment\n    ja again\n")?;
//! program.slots()                      // 2
//! list(alloc, &program)?               // "mov64 r0, 7\nja -2\n"
//! assemble(alloc, "exit\nja x\n")      // refused: unknown label, line 2
//! ```
//!
//! # Example
//!
//! ```
//! use bpf_asm::{assemble, list};
//!
//! let program = assemble(alloc, "again:\n    mov64 r0, 7 ; comment\n    ja again\n")?;
//! // two slots
//! let text = list(alloc, &program)?;                      // "mov64 r0, 7\nja -2\n"
//! let fault = assemble(alloc, "exit\nja x\n").err();      // unknown label, line 2
//! ```
//!
//! # More that is promised
//!
//! - **An assembly text** is accepted only for the program that it says. A listing says its program, so it assembles
//!   to it. A refusal's number and line are tested, but for a text without instructions: `one_program`.
//!
//! # Choices
//!
//! - Parts are words and each of `,` `[` `]` `+` `-` `:`. Spaces and tabs may stand between any two, and none is
//!   needed where two parts can be told apart (`ja+1` is accepted, `call3` isn't): one rule for where a part ends.
//! - Only the newline ends a line, and a carriage return is no space, so text with CRLF ends is refused: the rule for
//!   what stands between parts names spaces and tabs alone.
//! - Hexadecimal digits in either case, prefix `0x` only, leading zeros are decimal; `+5` is no immediate; `-0` is 0
//!   where a minus is allowed; `lddw` takes no minus: numbers are decimal or hexadecimal alone, and the one sign is
//!   the minus.
//! - The target of `ja32` and `callf` has the range of the immediate, that of other jumps the range of the offset; a
//!   label is always in range: as the instruction has it in its fields.
//! - A label may have the name of an instruction or a register; `name: exit` on one line is refused: a word is a
//!   label where a line has it before `:` and nothing else, so no instruction can be meant.
//! - A label after the last instruction stands for the number of slots: it is a slot number like the others, and
//!   whether it may be jumped to is tested by the verifier.
//! - 32 at 0, for a text without instructions, comes only after all lines were tested: the line at fault is the
//!   better answer, and place 0 is that of the whole text.
//! - Which number and line a refused text gets is shown by tests: only that texts are accepted exactly is promised.
//!
//! # How it is proved
//!
//! - A reader that answers `Option<(X, &[u8])>` with a clause by cases against a `do` chain of the definition is
//!   mostly auto (`bpf_asm/src/operand.rt`).
//! - Read back what was printed with a record that says 'is read as x, whatever follows that ends the word', one for
//!   each kind of operand (`bpf_asm/proofs/Printed.antt`). Each instruction is then one `rw`.
#![tactic(auto)]

mod assembler;
pub mod fault;
mod instruction;
pub mod laws;
mod listing;
mod mnemonic;
mod number;
mod operand;
mod outline;
mod part;
mod statement;

pub use assembler::assemble;
pub use listing::{list, put_instr};
