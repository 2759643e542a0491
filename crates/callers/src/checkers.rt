//! Callers of what is asked of programs, states and tables.

use base::causes::VerifierCause;
use bpf_asm::fault::AsmFault;
use bpf_asm::laws::round_trip as text_and_back;
use bpf_isa::instr::{Condition, Instr, Source, Width};
use bpf_isa::laws::round_trip as bytes_and_back;
use bpf_isa::program::{CodeFault, Program};
use bpf_isa::register::Register;
use bpf_shape::{Fault, shape};
use intervals::{Range, refine};
use ranges::{State, check};
use std::alloc::{AllocError, Global};
use verifier::{Table, UnsignedTable, Verified, check_table, raise, verify};

/// What is left of two ranges where a register is above 0.
pub fn above_zero(first: Range, second: Range) -> Option<(Range, Range)> {
    let instr = Instr::Branch {
        width: Width::W64,
        condition: Condition::Gt,
        dst: Register::FIRST,
        source: Source::Immediate(0),
        offset: 1,
    };
    refine(&instr, true, first, second)
}

/// Whether the rules of an instruction hold at the start of a program, or the first that is broken.
pub fn checked_at_start(instr: &Instr) -> Result<(), VerifierCause> {
    check(instr, &State::start())
}

/// The verified program, for a device of one sector.
pub fn verified<'x>(alloc: Global, program: &'x Program) -> Result<Verified<'x>, Fault> {
    verify(alloc, program, 1)
}

/// Whether a table is good for a program on a device of one sector, or its first breach, or why the program has no shape.
pub fn checked_table(alloc: Global, program: &Program, table: &Table) -> Result<(), Fault> {
    match shape(alloc, program, false) {
        Ok(shape) => check_table(program, &shape, 1, table),
        Err(fault) => Err(fault),
    }
}

/// The states of a table under the rules with signed bounds.
pub fn raised_states(
    alloc: Global,
    table: &UnsignedTable,
) -> Result<Vec<Option<State>>, AllocError> {
    Ok(raise(alloc, table)?.into_states())
}

/// The program that its own bytes spell.
pub fn decoded_again(alloc: Global, program: &Program) -> Result<Program, CodeFault> {
    bytes_and_back(alloc, program)
}

/// The program that its own listing says.
pub fn assembled_again(alloc: Global, program: &Program) -> Result<Program, AsmFault> {
    text_and_back(alloc, program)
}
