//! The labels and the instructions of a text, line by line.

ghost use Rattle.std.specs.Prelude.{◌≡◌, ◌⊎◌, ◌++◌, ◌∷◌, ◌<◌, [], List, length, map, OnOk, IfOk, IfErr, IfSome, IfNone, option_map, Some, None};
ghost use Rattle.bpf_asm.specs.Parts.{lines};
ghost use Rattle.bpf_asm.specs.Statements.{Statement as Said, statement_value, name_value, Label, Instruction};
ghost use Rattle.base.specs.declared.causes.AsmCause.TheVariants.{Memory};
ghost use Rattle.bpf_asm.specs.Says.{memory_fault};
ghost use Rattle.bpf_asm.specs.Outlines.{IsOutline, Fails, Adds, Breaks, IsUnread, Outlines};

use crate::fault::{AsmCause, AsmFault};
use crate::statement::{Statement, read_statement};
use bpf_isa::instr::Instr;
use bpf_isa::program::MOST_SLOTS;
use indexmap::IndexMap;
use std::alloc::Global;

/// The label that is to tell the distance of an instruction, and the line of the instruction.
#[derive(Clone, Copy)]
pub(crate) struct WantedLabel<'t> {
    pub label: Option<&'t [u8]>,
    pub line: u64,
}

/// What the lines so far say: the slot of each label, in the order in which the labels stand, and
/// the instructions, each with the label that it names at the same index of `wanted`.
#[derive(Drop)]
pub(crate) struct Outline<'t> {
    pub labels: IndexMap<&'t [u8], usize>,
    pub instrs: Vec<Instr>,
    pub wanted: Vec<WantedLabel<'t>>,
    /// The slots that the instructions take.
    pub slots: usize,
}

impl<'t> Outline<'t> {
    /// A label that stands for the slot of the next instruction.
    fn add_label(&mut self, name: &'t [u8], line: u64) -> Result<(), AsmFault>
        ensures added { OnOk result ((said : List Said) → IsOutline self.old said → IsOutline self.new (said ++ Label name.now ∷ [])) }
        ensures fault { IfErr result (λ f. (f ≡ memory_fault) ⊎ ((said : List Said) → IsOutline self.old said → Fails (said ++ Label name.now ∷ []))) }
        ensures memory { IfErr result (λ f. f.code ≡ Memory → f ≡ memory_fault) }
    {
        if self.labels.contains_key(name) {
            return Err(AsmFault {
                code: AsmCause::RepeatedLabel,
                line,
            });
        }
        self.labels.insert(name, self.slots)?;
        Ok(())
    }

    /// An instruction, and the label that it names.
    fn add_instruction(
        &mut self,
        instr: Instr,
        label: Option<&'t [u8]>,
        line: u64,
    ) -> Result<(), AsmFault>
        ensures added { OnOk result ((said : List Said) → IsOutline self.old said → IsOutline self.new (said ++ Instruction (record { instr = instr; label = name_value label.entry }) ∷ [])) }
        ensures fault { IfErr result (λ f. (f ≡ memory_fault) ⊎ ((said : List Said) → IsOutline self.old said → Fails (said ++ Instruction (record { instr = instr; label = name_value label.entry }) ∷ []))) }
        ensures memory { IfErr result (λ f. f.code ≡ Memory → f ≡ memory_fault) }
    {
        let more = if instr.is_wide() { 2 } else { 1 };
        if self.slots >= MOST_SLOTS || self.slots + more > MOST_SLOTS {
            return Err(AsmFault {
                code: AsmCause::Range,
                line,
            });
        }
        self.instrs.extend_from_slice(&[instr])?;
        self.wanted.push(WantedLabel { label, line })?;
        self.slots += more;
        Ok(())
    }

    /// A line.
    fn add_line(&mut self, text: &'t [u8], line: u64) -> Result<(), AsmFault>
        ensures added { OnOk result ((said : List Said) → IsOutline self.old said → Adds text.now self.old self.new said) }
        ensures fault { IfErr result (λ f. (f ≡ memory_fault) ⊎ ((said : List Said) → IsOutline self.old said → Breaks text.now said)) }
        ensures memory { IfErr result (λ f. f.code ≡ Memory → f ≡ memory_fault) }
    {
        match read_statement(text) {
            Err(cause) => Err(cause.at(line)),
            Ok(Statement::Empty) => Ok(()),
            Ok(Statement::Label(name)) => self.add_label(name, line),
            Ok(Statement::Instruction(draft)) => {
                self.add_instruction(draft.instr, draft.label, line)
            },
        }
    }
}

/// The first line of a text, and the text after it.
fn split_line(text: &[u8]) -> (&[u8], Option<&[u8]>)
    ensures first { IfNone result.1 (lines text.now ≡ result.0.now ∷ []) }
    ensures more { IfSome result.1 (λ rest. lines text.now ≡ result.0.now ∷ lines rest.now) }
    ensures shorter { IfSome result.1 (λ rest. length rest.now < length text.now) }
{
    for (i, c) in text.iter().enumerate() {
        if *c == b'\n' {
            let (line, rest) = text.split_at(i);
            return (line, Some(rest.split_at(1).1));
        }
    }
    (text, None)
}

/// What all lines of a text say.
pub(crate) fn read_outline(alloc: Global, text: &[u8]) -> Result<Outline<'_>, AsmFault>
    ensures read { IfOk result (λ o. Outlines text.now o) }
    ensures fault { IfErr result (λ f. (f ≡ memory_fault) ⊎ IsUnread text.now) }
    ensures memory { IfErr result (λ f. f.code ≡ Memory → f ≡ memory_fault) }
{
    let mut outline = Outline {
        labels: IndexMap::new(alloc),
        instrs: Vec::new(alloc),
        wanted: Vec::new(alloc),
        slots: 0,
    };
    let mut left = Some(text);
    let mut line = 0;
    while let Some(text) = left {
        let (first, beyond) = split_line(text);
        line += 1;
        outline.add_line(first, line)?;
        left = beyond;
    }
    Ok(outline)
}
