//! Laws of the states that the verifier passes on. The functions do nothing; each contract is a theorem.

ghost use Rattle.soundness.specs.GuardedTables.{GuardedStepIsCovered, GuardedTableCovers};
ghost use Rattle.soundness.specs.Laws.{OrderKeepsMeaning, StepIsCovered, StepIsSafe, TableCovers};

/// A state that knows less covers all that a state covers which knows more.
pub fn order_keeps_meaning()
    ensures { OrderKeepsMeaning }
{}

/// Where a slot breaks no rule, the step of a machine that its state covers is no fault, and what the
/// slot sends covers the machine after it.
pub fn step_is_covered()
    ensures { StepIsCovered }
{}

/// Over a good table the step of a covered machine is no fault, and leads along a control edge to a
/// machine that the table covers again.
pub fn step_is_safe()
    ensures { StepIsSafe }
{}

/// A good table covers each machine that is reached from the start, and none of their steps is a fault.
pub fn table_covers()
    ensures { TableCovers }
{}

/// Where a slot breaks no rule with guards, the step with guards of a machine that its state covers strays only at a guarded
/// slot. Else it is no fault, and what the slot sends covers the machine after it.
pub fn guarded_step_is_covered()
    ensures { GuardedStepIsCovered }
{}

/// A table that is good with guards covers each machine that is reached with guards from the start. None of their steps is a
/// fault, and none strays but at a guarded slot.
pub fn guarded_table_covers()
    ensures { GuardedTableCovers }
{}
