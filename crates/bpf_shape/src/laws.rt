//! Laws of shapes. The functions do nothing; each contract is a theorem.

ghost use Rattle.bpf_shape.specs.Laws.{OneShape, OneFault, NoFaultInShaped, ShapedWithGuards, EdgesAreSplit, HeadsAreTargets, HeadsBySlot, EdgesLeadToInstructions, EntriesAreInstructions, CallsAreNested, DeeperIsTheSame, AgainHasForm};

/// A program has one shape at most.
pub fn one_shape()
    ensures { OneShape }
{}

/// The first rule that a program breaks is one, and so is its lowest slot.
pub fn one_fault()
    ensures { OneFault }
{}

/// A program that has a shape breaks no rule.
pub fn no_fault_in_shaped()
    ensures { NoFaultInShaped }
{}

/// A program that has right shape without guards has it with guards.
pub fn shaped_with_guards()
    ensures { ShapedWithGuards }
{}

/// A control edge is the again edge of its slot, or an edge of paths; and each of these is a control
/// edge.
pub fn edges_are_split()
    ensures { EdgesAreSplit }
{}

/// A head is a slot to which an again edge leads.
pub fn heads_are_targets()
    ensures { HeadsAreTargets }
{}

/// The list of heads tells of each slot of the program whether it is one.
pub fn heads_by_slot()
    ensures { HeadsBySlot }
{}

/// In a program of right shape each control edge leads to a slot in which an instruction begins.
pub fn edges_lead_to_instructions()
    ensures { EdgesLeadToInstructions }
{}

/// And so does each local call.
pub fn entries_are_instructions()
    ensures { EntriesAreInstructions }
{}

/// In a program of right shape no local call is within itself, and none is the last of four in a chain
/// from slot 0.
pub fn calls_are_nested()
    ensures { CallsAreNested }
{}

/// In a program of right shape no local call is left out where calls are followed three deep.
pub fn deeper_is_the_same()
    ensures { DeeperIsTheSame }
{}

/// In a program of right shape each call of `again` has the form.
pub fn again_has_form()
    ensures { AgainHasForm }
{}
