//! Laws of abstract values. The functions do nothing; each contract is a theorem.

ghost use Rattle.ranges.specs.Guards.{GuardedRulesAreWeaker, GuardedRulesAreMonotone, GuardedPassesAreMonotone, GuardedPassesFit, GuardsAreProved};
ghost use Rattle.ranges.specs.Laws.{JoinIsLeast, RoundContains, StatesJoin, StatesRound, StartFits, StatesFit, EdgesAreMonotone, StatesAreOrdered, RulesAreMonotone, AfterIsMonotone, PassesAreMonotone};

/// The join of two values is the least that holds all that either does.
pub fn join_is_least()
    ensures { JoinIsLeast }
{}

/// A rounded value holds all that the value does, and rounding keeps the order of values.
pub fn round_contains()
    ensures { RoundContains }
{}

/// The join of two states is the least that covers both.
pub fn states_join()
    ensures { StatesJoin }
{}

/// A rounded state covers all that the state does, and rounding keeps the order of states.
pub fn states_round()
    ensures { StatesRound }
{}

/// The state at the start is within the bounds, and rounding leaves it as it is.
pub fn start_fits()
    ensures { StartFits }
{}

/// What is made of states is within the bounds of states.
pub fn states_fit()
    ensures { StatesFit }
{}

/// A smaller state passes smaller states along the edges of a conditional jump.
pub fn edges_are_monotone()
    ensures { EdgesAreMonotone }
{}

/// Each state is under itself, the order leads on from state to state, and two states that are under each other are
/// the same.
pub fn states_are_ordered()
    ensures { StatesAreOrdered }
{}

/// A smaller state breaks no rule where a larger one breaks none.
pub fn rules_are_monotone()
    ensures { RulesAreMonotone }
{}

/// Where a larger state breaks no rule, a smaller one is left with a smaller state after an instruction, or with none.
pub fn after_is_monotone()
    ensures { AfterIsMonotone }
{}

/// Where a larger state breaks no rule, a smaller one passes smaller states to the same slots, or passes nothing.
pub fn passes_are_monotone()
    ensures { PassesAreMonotone }
{}

/// The rules with guards are weaker than those without.
pub fn guarded_rules_are_weaker()
    ensures { GuardedRulesAreWeaker }
{}

/// A smaller state breaks no rule with guards where a larger one breaks none.
pub fn guarded_rules_are_monotone()
    ensures { GuardedRulesAreMonotone }
{}

/// Nothing is guarded where the rules without guards hold, nor at a smaller state where it isn't at a larger one.
pub fn guards_are_proved()
    ensures { GuardsAreProved }
{}

/// Where a larger state breaks no rule with guards, a smaller one passes smaller states to the same slots, or nothing.
pub fn guarded_passes_are_monotone()
    ensures { GuardedPassesAreMonotone }
{}

/// What is passed on with guards is within the bounds of states.
pub fn guarded_passes_fit()
    ensures { GuardedPassesFit }
{}
