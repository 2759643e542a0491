//! A run, as contracts name it.

use std::marker::Brand;

/// A run, as contracts name it: the plan whose crash images are judged, the checkers that judge them,
/// and how many entries its cache may have.
///
/// Only contracts read it, so that a shard of one run can't be taken for that of another. A caller
/// picks it at one call, which passes `std::marker::Brand`.
pub trait Run {
    ghost use Rattle.std.specs.Prelude.{ℕ, List};
    ghost use Rattle.epochs.specs.Plan.{PlanValue};
    ghost use Rattle.checker.specs.Checker.{CheckerValue};

    ghost plan: { PlanValue };

    ghost checkers: { List CheckerValue };

    ghost size: { ℕ };
}

impl Run for Brand {
    ghost use Rattle.std.specs.Prelude.{[]};
    ghost use Rattle.epochs.specs.Cuts.{all_cuts};
    ghost use Rattle.epochs.specs.declared.part.By.TheVariants.{Sector};

    ghost plan = { record { log = record { sectors = 0; entries = []; initial = [] }; kind = all_cuts; by = Sector } };

    ghost checkers = { [] };

    ghost size = { 0 };
}
