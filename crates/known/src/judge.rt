//! Records as a judge of cases.

ghost use Rattle.std.specs.Prelude.{◌≡◌, ◌==◌, not, [], length, map};
ghost use Rattle.known.specs.Leaves.{told_of, open_of, has_stopped, failing_value, open_sets, sets_of_leaf};
ghost use Rattle.case_runs.specs.Leaves.{failing_from};

use crate::found::{KnownAt, Stops, stops_after};
use crate::leaves::{MetLeaves, put_leaf, told_count};
use crate::records::KnownRecords;
use case_runs::{CaseImage, Formed};
use cases::{Cut, Judge, KnownRows, Parted};
use std::alloc::{AllocError, Global};
use std::marker::Model;

/// Records as a judge of the cases of a cut: the image of a case's representative is looked up in place of a run.
#[derive(Drop)]
pub(crate) struct KnownJudge<'x> {
    records: &'x KnownRecords<'x>,
    marks: u32,
    /// Where the record stands that told the last image.
    place: usize,
    /// The formed sectors of that image.
    formed: Vec<Formed>,
    met: MetLeaves,
}

impl<'x> Model for KnownJudge<'x> {
    ghost use Rattle.std.specs.Prelude.{map, slice_get};
    ghost use Rattle.known.specs.Leaves.{JudgeValue, leaf_of, failing_value, AreMet};

    ghost Value = { JudgeValue };

    ghost view = { λ j. record {
      records = j.records.now;
      marks = j.marks;
      last = slice_get j.records.now.runs j.place;
      leaves = map (leaf_of j.records.now.runs) j.met.all.items;
      failing = map failing_value j.met.failing.items;
    } };

    ghost invariant = { λ j. AreMet (map (leaf_of j.records.now.runs) j.met.all.items) j.met.failing.items j.met.open_cases.items };
}

impl<'x> KnownJudge<'x> {
    /// Returns a judge that has had no leaf yet, with how many marks stand before the cut.
    pub(crate) fn new(alloc: Global, records: &'x KnownRecords<'x>, marks: u32) -> KnownJudge<'x>
        ensures records { result.records ≡ records.now }
        ensures marks { result.marks ≡ marks }
        ensures leaves { result.leaves ≡ [] }
    {
        KnownJudge {
            records,
            marks,
            place: 0,
            formed: Vec::new(alloc),
            met: MetLeaves {
                all: Vec::new(alloc),
                failing: Vec::new(alloc),
                open_cases: Vec::new(alloc),
                room: Vec::new(alloc),
            },
        }
    }

    /// Returns how many leaves it has had.
    pub(crate) fn count(&self) -> usize
        ensures { result ≡ length self.now.leaves }
    {
        self.met.all.len()
    }

    /// How many of these are told and fail.
    fn failures(&self) -> usize
        ensures count { result ≡ length self.now.failing }
        ensures those { self.now.failing ≡ failing_from 0 (told_of self.now.leaves) }
    {
        self.met.failing.len()
    }

    /// Whether the search is to end after these.
    pub(crate) fn has_stopped(&self, stops: Stops) -> bool
        ensures { result ≡ has_stopped stops self.now.leaves }
    {
        let count = self.count();
        let failures = self.failures();
        stops_after(stops, count, failures)
    }

    /// How many of these are told.
    fn told(&self) -> usize
        ensures { result ≡ length (told_of self.now.leaves) }
    {
        told_count(self.met.all.len(), self.met.open_cases.len())
    }

    /// Returns what the search of a cut found, with how many cases it left out, and how many are pending.
    pub(crate) fn into_found(self, cut: u32, torn: u64, lost: u64, pending: usize) -> KnownAt
        ensures is { (result.cut ≡ cut) × (result.torn_beyond ≡ torn) × (result.lost_beyond ≡ lost) × (result.stopped ≡ not (pending == 0)) }
        ensures told { result.told ≡ length (told_of self.entry.leaves) }
        ensures failing { map failing_value result.failing.items ≡ failing_from 0 (told_of self.entry.leaves) }
        ensures those { map open_sets result.open_cases.items ≡ map sets_of_leaf (open_of self.entry.leaves) }
    {
        let told = self.told();
        let met = self.met;
        KnownAt {
            cut,
            told,
            failing: met.failing,
            open_cases: met.open_cases,
            torn_beyond: torn,
            lost_beyond: lost,
            stopped: pending != 0,
        }
    }
}

impl<'x> Judge for KnownJudge<'x> {
    ghost use Rattle.known.specs.Records.{program_of, told_ending, told_looks};

    ghost program = { λ j. program_of j.records j.marks };

    ghost ending = { λ j. told_ending j.last };

    ghost looked = { λ j. told_looks j.last };

    ghost leaves = { λ j. j.leaves };

    fn look(&mut self, rows: &KnownRows<'_>, tears: bool, sets: &[u16]) -> Result<(), AllocError> {
        let image = CaseImage::new(&mut self.formed, rows, tears, sets)?;
        self.place = self.records.first_telling(self.marks, &image);
        Ok(())
    }

    fn split(&self, rows: &mut KnownRows<'_>, sets: &[u16]) -> Result<Option<Parted>, AllocError> {
        rows.first_split(sets, self.records.looked(self.place))
    }

    fn tell(&mut self, _cut: &Cut<'_>, sets: &[u16]) -> Result<(), AllocError> {
        match put_leaf(&mut self.met, self.records, self.place, sets) {
            Ok(()) => Ok(()),
            Err(error) => {
                // The judge is of no more use.
                self.met.all.clear();
                self.met.failing.clear();
                self.met.open_cases.clear();
                Err(error)
            }
        }
    }
}
