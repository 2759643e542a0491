//! A checker as a judge of cases.

ghost use Rattle.std.specs.Prelude.{◌≡◌, [], map, length, IfOk};
ghost use Rattle.losses.specs.FoundCases.{failing_value};
ghost use Rattle.case_runs.specs.Leaves.{failing_from, IsFit};

use crate::image::Formed;
use crate::leaves::{ToldLeaf, put_leaf};
use crate::runs::{Looked, run_on, split_looked};
use cases::{Cut, Judge, KnownRows, Parted};
use checker::{Checker, RunMemory};
use helpers::Context;
use interp::Outcome;
use losses::found::FailingCase;
use std::alloc::{AllocError, Global};
use std::marker::Model;

/// A checker as a judge of the cases of a cut: it is run on the images of their representatives, in the context of the cut, and keeps
/// the leaves on which it fails.
#[derive(Drop)]
pub struct CaseJudge<'c, 'p> {
    checker: &'c Checker<'p>,
    /// The memory of its program's runs, if it has guards.
    memory: RunMemory,
    context: Context,
    /// What its last run ended in.
    outcome: Outcome,
    /// The sectors at which it looked there.
    looked: Looked,
    /// The formed sectors of the last image.
    formed: Vec<Formed>,
    /// A place for the sets of a leaf.
    place: Vec<u16>,
    told: Vec<ToldLeaf>,
    failing: Vec<FailingCase>,
}

impl<'c, 'p> Model for CaseJudge<'c, 'p> {
    ghost use Rattle.std.specs.Prelude.{map};
    ghost use Rattle.interp.specs.Ending.{ending_of};
    ghost use Rattle.losses.specs.FoundCases.{failing_value};
    ghost use Rattle.case_runs.specs.Leaves.{JudgeValue, IsJudge, leaf_of};
    ghost use Rattle.case_runs.specs.Judges.{looked_in};

    ghost Value = { JudgeValue };

    ghost view = { λ j. record {
      checker = j.checker.now;
      context = j.context;
      ending = ending_of j.outcome;
      looked = looked_in j.context.sectors j.looked;
      leaves = map leaf_of j.told.items;
      failing = map failing_value j.failing.items;
    } };

    ghost invariant = { λ j. IsJudge j.checker.now j.memory j.context (map leaf_of j.told.items) (map failing_value j.failing.items) };
}

impl<'c, 'p> CaseJudge<'c, 'p> {
    /// Returns a judge that has had no leaf. It takes memory where the checker has guards.
    ///
    /// # Errors
    ///
    /// Memory was refused.
    pub fn new(
        alloc: Global,
        checker: &'c Checker<'p>,
        context: Context,
    ) -> Result<CaseJudge<'c, 'p>, AllocError>
        requires { IsFit checker.now context }
        ensures checker { IfOk result (λ judge. judge.checker ≡ checker.now) }
        ensures context { IfOk result (λ judge. judge.context ≡ context) }
        ensures leaves { IfOk result (λ judge. judge.leaves ≡ []) }
    {
        let memory = RunMemory::of(alloc, checker)?;
        Ok(CaseJudge {
            checker,
            memory,
            context,
            outcome: Outcome::OutOfSteps,
            looked: Looked {
                sectors: Vec::new(alloc),
                all: false,
            },
            formed: Vec::new(alloc),
            place: Vec::new(alloc),
            told: Vec::new(alloc),
            failing: Vec::new(alloc),
        })
    }

    /// Returns how many leaves it has had.
    pub fn cases(&self) -> usize
        ensures { result ≡ length self.now.leaves }
    {
        self.told.len()
    }

    /// How many of these fail.
    pub(crate) fn failures(&self) -> usize
        ensures count { result ≡ length self.now.failing }
        ensures those { self.now.failing ≡ failing_from 0 self.now.leaves }
    {
        self.failing.len()
    }

    /// The leaves that fail, in order.
    pub fn into_failing(self) -> Vec<FailingCase>
        ensures { map failing_value result.items ≡ failing_from 0 self.entry.leaves }
    {
        self.failing
    }
}

impl<'c, 'p> Judge for CaseJudge<'c, 'p> {
    ghost use Rattle.case_runs.specs.Judges.{program_of};

    ghost program = { λ j. program_of j.checker j.context };

    ghost ending = { λ j. j.ending };

    ghost looked = { λ j. j.looked };

    ghost leaves = { λ j. j.leaves };

    fn look(&mut self, rows: &KnownRows<'_>, tears: bool, sets: &[u16]) -> Result<(), AllocError> {
        self.outcome = run_on(
            &mut self.memory,
            self.checker,
            &self.context,
            &mut self.formed,
            &mut self.looked,
            rows,
            tears,
            sets,
        )?;
        Ok(())
    }

    fn split(&self, rows: &mut KnownRows<'_>, sets: &[u16]) -> Result<Option<Parted>, AllocError> {
        split_looked(&self.looked, self.context.sectors, rows, sets)
    }

    fn tell(&mut self, _cut: &Cut<'_>, sets: &[u16]) -> Result<(), AllocError> {
        let added = put_leaf(
            &mut self.told,
            &mut self.place,
            &mut self.failing,
            &self.outcome,
            sets,
        );
        match added {
            Ok(()) => Ok(()),
            Err(error) => {
                // The judge is of no more use.
                self.told.clear();
                self.failing.clear();
                Err(error)
            }
        }
    }
}
