//! Records with the bytes of the sectors at which the program looked.

ghost use Rattle.std.specs.Prelude.{◌≡◌, ◌<◌, ◌≤◌, ◌==◌, ◌&&◌, ◌++◌, ◌∷◌, ℕ, List, [], true, length, map, take, slice_get, option_map, All, IfOk, OnOk};
ghost use Rattle.cases.specs.AtCut.{parts_of, case_of, image_of};
ghost use Rattle.known.specs.Contradictions.{contradict_at};
ghost use Rattle.known.specs.declared.records.Looked.{Looked as Sector};
ghost use Rattle.known.specs.Records.{IsRun, is_there, tells_at, first_telling, looked_at, sectors_of_run, kept_value, kept_of_run, told_looks};
ghost use Rattle.known.specs.Linked.{same_looked, sectors_before, AreLinked, count_there, there_at, there_before};

use crate::contradict::{are_contrary, common_after};
use crate::run::{KnownRun, RunEnd};
use cases::Cut;
use epochs::By;
use helpers::Device;
use logfmt::Log;
use std::alloc::{AllocError, Global};
use std::marker::Model;

/// A sector at which the program looked, with its bytes.
#[derive(Drop)]
pub(crate) struct Looked {
    pub(crate) number: u32,
    pub(crate) bytes: [u8; 512],
}

/// What is kept of a record.
#[derive(Drop)]
pub(crate) struct KeptRun {
    pub(crate) marks: u32,
    pub(crate) end: RunEnd,
    /// The sectors at which the program looked, in the order of the first looks.
    pub(crate) sectors: Vec<Looked>,
    /// How many of them, from the first one on, are those of the record before it.
    pub(crate) shared: usize,
}

/// A sector of the image of a case's representative.
fn sector_at(cut: &Cut<'_>, sets: &[u16], number: u32) -> Looked
    requires each { length sets.now ≡ length (parts_of cut.now) }
    requires device { number < cut.now.log.sectors }
    ensures { result ≡ looked_at (image_of cut.now (case_of true (parts_of cut.now) sets.now)) number }
{
    let bytes = cut.sector(sets, number);
    Looked { number, bytes }
}

/// Some sectors of the image of a case's representative.
fn sectors_at(
    alloc: Global,
    cut: &Cut<'_>,
    sets: &[u16],
    looked: &[u32],
) -> Result<Vec<Looked>, AllocError>
    requires each { length sets.now ≡ length (parts_of cut.now) }
    requires device { All (λ s. s < cut.now.log.sectors) looked.now }
    ensures { IfOk result (λ out. out.items ≡ map (looked_at (image_of cut.now (case_of true (parts_of cut.now) sets.now))) looked.now) }
{
    let mut out = Vec::new(alloc);
    for number in looked {
        out.push(sector_at(cut, sets, *number))?;
    }
    Ok(out)
}

/// What is kept of a record.
fn kept_run(alloc: Global, log: &Log<'_>, way: By, run: &KnownRun) -> Result<KeptRun, AllocError>
    requires { IsRun log.now way run.now }
    ensures { IfOk result (λ kept. kept_value kept ≡ kept_of_run log.now way run.now) }
{
    let cut = Cut::new(alloc, log, way, run.cut)?;
    let sectors = sectors_at(alloc, &cut, run.sets.as_slice(), run.looked.as_slice())?;
    Ok(KeptRun {
        marks: run.marks,
        end: run.end,
        sectors,
        shared: 0,
    })
}

/// Whether two sectors have one number and the same bytes.
#[tactic(auto, using(lanes::proofs::CallerLemmas::same_test))]
fn is_same(one: &Looked, other: &Looked) -> bool
    ensures { result ≡ same_looked one.now other.now }
{
    one.number == other.number && lanes::same(&one.bytes, &other.bytes)
}

/// How many sectors two lists have in common, from the first one on, where the first `from` are known to be so.
pub(crate) fn common_from(one: &[Looked], other: &[Looked], from: usize) -> usize
    ensures { take from one.now ≡ take from other.now → take result one.now ≡ take result other.now }
{
    let mut place = from;
    while place < one.len() {
        if place >= other.len() {
            return place;
        }
        if !is_same(&one[place], &other[place]) {
            return place;
        }
        place += 1;
    }
    place
}

/// How many sectors of a record are those of the last one of some records.
fn shared_of(kept: &[KeptRun], sectors: &[Looked]) -> usize
    ensures { take result sectors.now ≡ take result (sectors_before kept.now (length kept.now)) }
{
    let count = kept.len();
    if count == 0 {
        return 0;
    }
    let place = count - 1;
    let last = &kept[place];
    let others = last.sectors.as_slice();
    common_from(sectors, others, 0)
}

/// Appends what is kept of a record.
fn put_kept(kept: &mut Vec<KeptRun>, one: KeptRun) -> Result<(), AllocError>
    requires { AreLinked kept.old.items }
    ensures linked { OnOk result (AreLinked kept.new.items) }
    ensures put { OnOk result (map kept_value kept.new.items ≡ map kept_value kept.old.items ++ kept_value one ∷ []) }
{
    let before = kept.as_slice();
    let sectors = one.sectors.as_slice();
    let shared = shared_of(before, sectors);
    let mut one = one;
    one.shared = shared;
    kept.push(one)?;
    Ok(())
}

/// What is kept of each record.
fn kept_runs(
    alloc: Global,
    log: &Log<'_>,
    way: By,
    runs: &[KnownRun],
) -> Result<Vec<KeptRun>, AllocError>
    requires { All (IsRun log.now way) runs.now }
    ensures those { IfOk result (λ kept. map kept_value kept.items ≡ map (kept_of_run log.now way) runs.now) }
    ensures linked { IfOk result (λ kept. AreLinked kept.items) }
{
    let mut kept = Vec::new(alloc);
    for run in runs {
        let one = kept_run(alloc, log, way, run)?;
        put_kept(&mut kept, one)?;
    }
    Ok(kept)
}

/// Whether a device has the bytes of a sector.
#[tactic(auto, using(lanes::proofs::CallerLemmas::same_test))]
fn is_there<D: Device>(device: &D, looked: &Looked) -> bool
    ensures { result ≡ is_there (D.content device.now) looked.now }
{
    match device.sector(looked.number) {
        Some(sector) => lanes::same(&looked.bytes, sector),
        None => false,
    }
}

/// How many of some sectors are on a device, up to the first that isn't, where the first `from` are known to be there.
fn there_from<D: Device>(device: &D, sectors: &[Looked], from: usize) -> usize
    ensures { from ≤ count_there (D.content device.now) sectors.now → result ≡ count_there (D.content device.now) sectors.now }
{
    for place in from..sectors.len() {
        if !is_there(device, &sectors[place]) {
            return place;
        }
    }
    sectors.len()
}

/// How many sectors of a record are on a device, up to the first that isn't, where `before` is that of the record before it.
fn there_after<D: Device>(device: &D, kept: &KeptRun, before: usize) -> usize
    ensures { (others : List Sector) → before ≡ count_there (D.content device.now) others → take kept.now.shared kept.now.sectors.items ≡ take kept.now.shared others
        → result ≡ count_there (D.content device.now) kept.now.sectors.items }
{
    if before < kept.shared {
        before
    } else {
        there_from(device, kept.sectors.as_slice(), kept.shared)
    }
}

/// Whether a record tells a device, by how many marks came before, of which `there` sectors are on it, up to the first that isn't.
fn tells(kept: &KeptRun, marks: u32, there: usize) -> bool
    ensures { result ≡ ((kept.now.marks == marks) && (there == length kept.now.sectors.items)) }
{
    kept.marks == marks && there == kept.sectors.len()
}

/// What is kept of the record at a place, if one stands there.
fn kept_at(kept: &[KeptRun], place: usize) -> Option<&KeptRun>
    ensures { option_map (λ k. k.now) result ≡ slice_get kept.now place }
{
    kept.get(place)
}

/// Records of a log, with the bytes of the sectors of their images at which the program looked. They are those of the log without flushes
/// that are added.
///
/// Contracts see the log, what departs as one, and the records.
#[derive(Drop)]
pub struct KnownRecords<'x> {
    log: &'x Log<'x>,
    way: By,
    runs: &'x [KnownRun],
    kept: Vec<KeptRun>,
}

impl<'x> Model for KnownRecords<'x> {
    ghost use Rattle.known.specs.Records.{RecordsValue, AreRecords};
    ghost use Rattle.known.specs.Linked.{AreLinked};

    ghost Value = { RecordsValue };

    ghost view = { λ r. record { log = r.log.now; way = r.way; runs = r.runs.now } };

    ghost invariant = { λ r. AreRecords (record { log = r.log.now; way = r.way; runs = r.runs.now }) r.kept.items × AreLinked r.kept.items };
}

impl<'x> KnownRecords<'x> {
    /// Some records of a log. It takes memory for the sectors of each.
    ///
    /// # Errors
    ///
    /// Memory was refused.
    pub fn new(
        alloc: Global,
        log: &'x Log<'x>,
        way: By,
        runs: &'x [KnownRun],
    ) -> Result<KnownRecords<'x>, AllocError>
        requires { All (IsRun log.now way) runs.now }
        ensures { IfOk result (λ records. records ≡ record { log = log.now; way = way; runs = runs.now }) }
    {
        let kept = kept_runs(alloc, log, way, runs)?;
        Ok(KnownRecords {
            log,
            way,
            runs,
            kept,
        })
    }

    /// The records.
    pub fn runs(&self) -> &'x [KnownRun]
        ensures { result.now ≡ self.now.runs }
    {
        self.runs
    }

    /// The record at a place, if one stands there.
    pub(crate) fn run(&self, place: usize) -> Option<&'x KnownRun>
        ensures { option_map (λ r. r.now) result ≡ slice_get self.now.runs place }
    {
        self.runs().get(place)
    }

    /// The sectors at which the program looked by the record at a place, or none where no record stands there.
    pub(crate) fn looked(&self, place: usize) -> &'x [u32]
        ensures { result.now ≡ told_looks (slice_get self.now.runs place) }
    {
        match self.run(place) {
            Some(run) => run.looked.as_slice(),
            None => &[],
        }
    }

    /// How many sectors of the record at a place are on a device, up to the first that isn't, where `before` is that of the record before it.
    fn there_at<D: Device>(&self, device: &D, place: usize, before: usize) -> usize
        requires { before ≡ there_before self.now (D.content device.now) place }
        ensures { result ≡ there_at self.now (D.content device.now) place }
    {
        let all = self.kept.as_slice();
        match kept_at(all, place) {
            Some(kept) => there_after(device, kept, before),
            None => 0,
        }
    }

    /// Whether a record stands at a place that tells an image, by how many marks came before, of which `there` sectors are on it.
    fn tells_at(&self, marks: u32, place: usize, there: usize) -> bool
        ensures { (device : List (List ℕ)) → there ≡ there_at self.now device place → result ≡ tells_at self.now marks device place }
    {
        let all = self.kept.as_slice();
        match kept_at(all, place) {
            Some(kept) => tells(kept, marks, there),
            None => false,
        }
    }

    /// Where the first record stands that tells an image, by how many marks came before. Where none does, no record stands there.
    pub(crate) fn first_telling<D: Device>(&self, marks: u32, device: &D) -> usize
        ensures { slice_get self.now.runs result ≡ first_telling self.now.log self.now.way marks (D.content device.now) self.now.runs }
    {
        let runs = self.runs();
        let mut there = 0;
        for place in 0..runs.len() {
            there = self.there_at(device, place, there);
            if self.tells_at(marks, place, there) {
                return place;
            }
        }
        runs.len()
    }

    /// How many sectors two records have in common, where `before` is that of the record before the first one. No contract says so, and who
    /// asks has to look.
    pub(crate) fn common_at(&self, earlier: usize, later: usize, before: usize) -> usize {
        let all = self.kept.as_slice();
        common_after(kept_at(all, earlier), kept_at(all, later), before)
    }

    /// Whether records stand at two places that contradict each other. It begins to look for a difference at a sector.
    pub(crate) fn contradict_at(&self, earlier: usize, later: usize, sector: usize) -> bool
        ensures { result ≡ contradict_at self.now earlier later }
    {
        let all = self.kept.as_slice();
        let one = kept_at(all, earlier);
        let other = kept_at(all, later);
        are_contrary(one, other, sector)
    }
}
