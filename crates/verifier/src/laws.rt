//! Laws of tables. The functions do nothing; each contract is a theorem.

ghost use Rattle.verifier.specs.Guards.{GoodNeedsNoGuards, AcceptedHasNoGuards};
ghost use Rattle.verifier.specs.Laws.{GoodHasNoBreach, OneBreach, SettledIsGood, AcceptanceIsExact, RoundsEnd, UnsignedStaysGood, OneVerdict};

use bpf_shape::laws::{no_fault_in_shaped, one_fault};

/// A good table has no first breach.
pub fn good_has_no_breach()
    ensures { GoodHasNoBreach }
{}

/// A table has one first breach at most.
pub fn one_breach()
    ensures { OneBreach }
{}

/// A settled table on which each slot keeps its rules is good.
pub fn settled_is_good()
    ensures { SettledIsGood }
{}

/// A table that is good without signed bounds stays good with them.
pub fn unsigned_stays_good()
    ensures { UnsignedStaysGood }
{}

/// Where a good table exists there is a least one, which is the only one; no program is refused for a table that isn't
/// settled; and the least table without guards is the least one with them.
pub fn acceptance_is_exact()
    ensures { AcceptanceIsExact }
{}

/// The rounds end: each that changes the table raises its sum, which stays below 2^96.
pub fn rounds_end()
    ensures { RoundsEnd }
{}

/// A program has one verdict at most: one budget and one table, with guards and without, or by each kind one refusal.
pub fn one_verdict()
    ensures { OneVerdict }
{
    one_fault();
    no_fault_in_shaped();
}

/// A table that is good without guards is good with them, and guards no slot.
pub fn good_needs_no_guards()
    ensures { GoodNeedsNoGuards }
{}

/// A program that is accepted without guards is accepted with them, by the same table, in which no slot is guarded.
pub fn accepted_has_no_guards()
    ensures { AcceptedHasNoGuards }
{}
