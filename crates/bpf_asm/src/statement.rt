//! What a line says.
#![tactic(auto, unfolding(crate::specs::Statements::statement))]

ghost use Rattle.std.specs.Prelude.{◌≡◌};
ghost use Rattle.bpf_asm.specs.Parts.{parts};
ghost use Rattle.bpf_asm.specs.Reads.{Gives};
ghost use Rattle.bpf_asm.specs.Statements.{statement_of, label_line, instruction_line, statement_value};

use crate::fault::LineCause;
use crate::instruction::{Draft, read_instruction};
use crate::mnemonic::mnemonic_of;
use crate::operand::{is_name, mark};
use crate::part::{is_end, word};

/// What a line says: nothing, a label or an instruction.
#[derive(Clone, Copy)]
pub(crate) enum Statement<'t> {
    Empty,
    Label(&'t [u8]),
    Instruction(Draft<'t>),
}

/// A label, with the line after its colon.
fn read_label<'t>(name: &'t [u8], line: &[u8]) -> Result<Statement<'t>, LineCause>
    ensures { Gives statement_value result (label_line name.now (parts line.now)) }
{
    if !is_name(name) {
        Err(LineCause::Word)
    } else if !is_end(line) {
        Err(LineCause::Operand)
    } else {
        Ok(Statement::Label(name))
    }
}

/// An instruction, with the line after its name.
fn read_named<'t>(name: &[u8], line: &'t [u8]) -> Result<Statement<'t>, LineCause>
    ensures { Gives statement_value result (instruction_line name.now (parts line.now)) }
{
    let Some(mnemonic) = mnemonic_of(name) else {
        return Err(LineCause::Word);
    };
    match read_instruction(mnemonic, line) {
        Ok(draft) => Ok(Statement::Instruction(draft)),
        Err(cause) => Err(cause),
    }
}

/// What a line says.
pub(crate) fn read_statement(line: &[u8]) -> Result<Statement<'_>, LineCause>
    ensures { Gives statement_value result (statement_of line.now) }
{
    if is_end(line) {
        return Ok(Statement::Empty);
    }
    let Some((name, rest)) = word(line) else {
        return Err(LineCause::Word);
    };
    match mark(rest, b':') {
        Some(after) => read_label(name, after),
        None => read_named(name, rest),
    }
}
