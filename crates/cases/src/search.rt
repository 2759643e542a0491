//! The search for the leaves of a cut.

ghost use Rattle.std.specs.Prelude.{◌≡◌, ◌<◌, ◌≤◌, ◌++◌, ◌∷◌, [], ℕ, Bool, List, Option, true, false, not, nat_le, ◌+◌, MatchOption, ◌&&◌, map, reverse, set, length, replicate, slice_get, Some, None, All, IfOk, OnOk, IsTrue, IsFalse, if◌then◌else◌};
ghost use Rattle.std.specs.Option.{option_map_or};
ghost use Rattle.machine.specs.Outcome.{Ending};
ghost use Rattle.epochs.specs.declared.part.Part.{Part as LogPart};
ghost use Rattle.cases.specs.declared.search.Frame.{Frame as Framed};
ghost use Rattle.cases.specs.Cases.{representative, whole_case, first_split};
ghost use Rattle.cases.specs.Sets.{all_torn, all_lost, fates_in};
ghost use Rattle.cases.specs.Choices.{all_fates};
ghost use Rattle.cases.specs.Trees.{Program, ending_of};
ghost use Rattle.cases.specs.AtCut.{parts_of, case_of, image_of, IsFound};
ghost use Rattle.cases.specs.Search.{case_in, others, pending, subject_of, SameSearch, OnlyCounts, Counted, Descends, Took, Went, LeafValue, Ran, FoundCases, BegunCases, count_torn, count_lost};

use crate::bits::has;
use crate::cut::Cut;
use crate::known::KnownRows;
use crate::split::Parted;
use arrayvec::ArrayVec;
use std::alloc::{AllocError, Global};
use std::marker::Model;

/// A split on the way to a case: which part, the set of its fates before, and the groups that weren't taken yet.
#[derive(Drop)]
pub(crate) struct Frame {
    pub(crate) part: usize,
    pub(crate) old: u16,
    pub(crate) groups: ArrayVec<u16, 16>,
}

/// A program that is run on the representatives of cases, and is told which of them are leaves.
pub trait Judge {
    /// What it ends in on a device, and at which sectors it looks there, in their order.
    ghost program: { Self → Program };

    /// What its last run ended in.
    ghost ending: { Self → Ending };

    /// At which sectors it looked in its last run, in their order.
    ghost looked: { Self → List ℕ };

    /// The leaves that it was told of, in order.
    ghost leaves: { Self → List LeafValue };

    /// Runs it on the image of the representative of a case.
    fn look(&mut self, rows: &KnownRows<'_>, tears: bool, sets: &[u16]) -> Result<(), AllocError>
        requires { length sets.now ≡ length (parts_of rows.now) }
        ensures same { program self.new ≡ program self.old }
        ensures kept { leaves self.new ≡ leaves self.old }
        ensures ending { OnOk result (ending self.new ≡ (program self.old).ending (image_of rows.now (case_of tears (parts_of rows.now) sets.now))) }
        ensures looked { OnOk result (looked self.new ≡ (program self.old).footprint (image_of rows.now (case_of tears (parts_of rows.now) sets.now))) };

    /// Which part splits a case: the first one of the sectors at which the program looked in its last run, however many these are.
    fn split(&self, rows: &mut KnownRows<'_>, sets: &[u16]) -> Result<Option<Parted>, AllocError>
        requires { length sets.now ≡ length (parts_of rows.old) }
        ensures rows { rows.new ≡ rows.old }
        ensures found { (tears : Bool) → IfOk result (λ found. IsFound (parts_of rows.old) found (first_split rows.old.log rows.old.way rows.old.cut (case_of tears (parts_of rows.old) sets.now) (looked self.now))) };

    /// Is told that a case is a leaf. Its last run was on the representative of it.
    fn tell(&mut self, cut: &Cut<'_>, sets: &[u16]) -> Result<(), AllocError>
        requires { length sets.now ≡ length (parts_of cut.now) }
        ensures same { program self.new ≡ program self.old }
        ensures told { OnOk result (leaves self.new ≡ leaves self.old ++ record { sets = sets.now; ending = ending self.old } ∷ []) };
}

/// All that may become of a part, as a set.
fn all_of(tears: bool) -> u16
    ensures { fates_in result ≡ all_fates tears }
{
    if tears { 65535 } else { 3 }
}

/// A set for each of some parts, all alike.
fn sets_of(alloc: Global, count: usize, set: u16) -> Result<Vec<u16>, AllocError>
    ensures { IfOk result (λ sets. sets.items ≡ replicate count set) }
{
    let mut sets = Vec::new(alloc);
    sets.resize(count, set)?;
    Ok(sets)
}

/// A copy of the sets of a case.
fn copy_of_sets(alloc: Global, sets: &[u16]) -> Result<Vec<u16>, AllocError>
    ensures { IfOk result (λ copy. copy.items ≡ sets.now) }
{
    let mut copy = Vec::new(alloc);
    copy.extend_from_slice(sets)?;
    Ok(copy)
}

/// Takes the next group of the last split that has one, and goes back to what stood before each split that has none.
fn take_group(sets: &mut Vec<u16>, frames: &mut Vec<Frame>) -> Result<bool, AllocError>
    requires { All (λ (f : Framed). f.part < length sets.old.items) frames.old.items }
    ensures sets { length sets.new.items ≡ length sets.old.items }
    ensures frames { All (λ (f : Framed). f.part < length sets.new.items) frames.new.items }
    ensures found { (tears : Bool) (parts : List LogPart) → IfOk result (λ found. others tears parts sets.old.items (reverse frames.old.items) ≡ (if found then case_of tears parts sets.new.items ∷ others tears parts sets.new.items (reverse frames.new.items) else [])) }
    ensures ended { IfOk result (λ found. IsFalse found → frames.new.items ≡ []) }
{
    'frames: while let Some(frame) = frames.pop() {
        let Frame {
            part,
            old,
            mut groups,
        } = frame;
        if let Some(group) = groups.pop_at(0) {
            sets[part] = group;
            frames.push(Frame { part, old, groups })?;
            return Ok(true);
        }
        sets[part] = old;
    }
    Ok(false)
}

/// Splits a case: its first group becomes the case, and the others are to be taken after what comes of it.
fn put_split(sets: &mut Vec<u16>, frames: &mut Vec<Frame>, it: Parted) -> Result<(), AllocError>
    requires part { it.part < length sets.old.items }
    requires frames { All (λ (f : Framed). f.part < length sets.old.items) frames.old.items }
    ensures sets { length sets.new.items ≡ length sets.old.items }
    ensures frames { All (λ (f : Framed). f.part < length sets.new.items) frames.new.items }
    ensures first { (g : ℕ) (gs : List ℕ) → it.groups.items ≡ g ∷ gs → OnOk result (sets.new.items ≡ set sets.old.items it.part g) }
    ensures split { (tears : Bool) (parts : List LogPart) (g : ℕ) (gs : List ℕ) → it.groups.items ≡ g ∷ gs
        → OnOk result (map (λ (bits : ℕ). case_of tears parts (set sets.old.items it.part bits)) it.groups.items ++ others tears parts sets.old.items (reverse frames.old.items)
        ≡ case_of tears parts sets.new.items ∷ others tears parts sets.new.items (reverse frames.new.items)) }
{
    let Parted { part, mut groups } = it;
    if let Some(group) = groups.pop_at(0) {
        let old = sets[part];
        frames.push(Frame { part, old, groups })?;
        sets[part] = group;
    }
    Ok(())
}

/// Whether a set has neither whole nor the drop.
fn is_torn(set: u16) -> bool
    ensures { result ≡ all_torn set }
{
    let whole = has(set, 0);
    let drop = has(set, 1);
    !whole && !drop
}

/// Whether a set doesn't have whole.
fn is_lost(set: u16) -> bool
    ensures { result ≡ all_lost set }
{
    !has(set, 0)
}

/// How many sets have neither whole nor the drop.
fn count_torn(sets: &[u16]) -> usize
    ensures { result ≡ count_torn sets.now }
{
    let mut count = 0;
    for set in sets {
        if is_torn(*set) {
            count += 1;
        }
    }
    count
}

/// How many sets don't have whole.
fn count_lost(sets: &[u16]) -> usize
    ensures { result ≡ count_lost sets.now }
{
    let mut count = 0;
    for set in sets {
        if is_lost(*set) {
            count += 1;
        }
    }
    count
}

/// Goes on from a case to the first group of each split, until a case isn't split. The first group has the same representative, so the
/// judge's last run tells of all these cases.
fn narrow<J: Judge>(
    rows: &mut KnownRows<'_>,
    tears: bool,
    sets: &mut Vec<u16>,
    frames: &mut Vec<Frame>,
    judge: &J,
) -> Result<(), AllocError>
    requires sets { length sets.old.items ≡ length (parts_of rows.old) }
    requires frames { All (λ (f : Framed). f.part < length sets.old.items) frames.old.items }
    requires looked { J.looked judge.now ≡ (J.program judge.now).footprint (image_of rows.old (case_of tears (parts_of rows.old) sets.old.items)) }
    ensures rows { rows.new ≡ rows.old }
    ensures sets { length sets.new.items ≡ length sets.old.items }
    ensures frames { All (λ (f : Framed). f.part < length sets.new.items) frames.new.items }
    ensures image { OnOk result (image_of rows.old (case_of tears (parts_of rows.old) sets.new.items) ≡ image_of rows.old (case_of tears (parts_of rows.old) sets.old.items)) }
    ensures leads { (torn : ℕ) (lost : Option ℕ) → OnOk result (Descends (record { at = rows.old; torn = torn; lost = lost }) (J.program judge.now) tears sets.old.items (reverse frames.old.items) sets.new.items (reverse frames.new.items)) }
{
    let _cut = rows.cut();
    'deeper: while let Some(it) = judge.split(rows, sets.as_slice())? {
        put_split(sets, frames, it)?;
    }
    Ok(())
}

/// Runs a program on a case, and goes down to a leaf.
fn descend<J: Judge>(
    rows: &mut KnownRows<'_>,
    tears: bool,
    sets: &mut Vec<u16>,
    frames: &mut Vec<Frame>,
    judge: &mut J,
) -> Result<(), AllocError>
    requires sets { length sets.old.items ≡ length (parts_of rows.old) }
    requires frames { All (λ (f : Framed). f.part < length sets.old.items) frames.old.items }
    ensures rows { rows.new ≡ rows.old }
    ensures sets { length sets.new.items ≡ length sets.old.items }
    ensures frames { All (λ (f : Framed). f.part < length sets.new.items) frames.new.items }
    ensures same { J.program judge.new ≡ J.program judge.old }
    ensures kept { J.leaves judge.new ≡ J.leaves judge.old }
    ensures ending { OnOk result (J.ending judge.new ≡ (J.program judge.old).ending (image_of rows.old (case_of tears (parts_of rows.old) sets.new.items))) }
    ensures leads { (torn : ℕ) (lost : Option ℕ) → OnOk result (Descends (record { at = rows.old; torn = torn; lost = lost }) (J.program judge.old) tears sets.old.items (reverse frames.old.items) sets.new.items (reverse frames.new.items)) }
{
    judge.look(rows, tears, sets.as_slice())?;
    narrow(rows, tears, sets, frames, judge)?;
    Ok(())
}

/// The search for the leaves of a cut, with what is asked: how many parts may be torn, and how many may be lost, if that is bounded.
/// It is a walk through the tree from leaf to leaf.
///
/// It keeps the case at which it stands, as a set of fates for each part at risk, and the splits that led there, each with the groups
/// that weren't taken yet: at most fifteen for each part. What it keeps of a leaf is let go at the next, so after the first leaves it
/// takes no more memory.
#[derive(Drop)]
pub struct Search<'a> {
    rows: KnownRows<'a>,
    tears: bool,
    torn: u32,
    lost: Option<u32>,
    sets: Vec<u16>,
    fresh: bool,
    frames: Vec<Frame>,
    torn_beyond: u64,
    lost_beyond: u64,
}

impl<'a> Model for Search<'a> {
    ghost use Rattle.cases.specs.Search.{SearchValue, IsSearch};

    ghost Value = { SearchValue };

    ghost view = { λ s. record {
      asked = record { at = s.rows; torn = s.torn; lost = s.lost };
      tears = s.tears;
      sets = s.sets.items;
      fresh = s.fresh;
      frames = s.frames.items;
      torn_beyond = s.torn_beyond;
      lost_beyond = s.lost_beyond;
    } };

    ghost invariant = { λ s. IsSearch s.rows s.sets.items s.frames.items };
}

impl<'a> Search<'a> {
    /// A search that hasn't begun.
    pub fn new(
        alloc: Global,
        cut: &'a Cut<'a>,
        tears: bool,
        torn: u32,
        lost: Option<u32>,
    ) -> Result<Search<'a>, AllocError>
        ensures asked { IfOk result (λ search. search.asked ≡ record { at = cut.now; torn = torn; lost = lost }) }
        ensures tears { IfOk result (λ search. search.tears ≡ tears) }
        ensures pending { IfOk result (λ search. pending search ≡ whole_case tears ∷ []) }
        ensures none { IfOk result (λ search. (search.torn_beyond ≡ 0) × (search.lost_beyond ≡ 0)) }
    {
        let sets = sets_of(alloc, cut.parts().len(), all_of(tears))?;
        let _log = cut.log();
        let rows = KnownRows::new(alloc, cut);
        Ok(Search {
            rows,
            tears,
            torn,
            lost,
            sets,
            fresh: true,
            frames: Vec::new(alloc),
            torn_beyond: 0,
            lost_beyond: 0,
        })
    }

    /// Begins anew, at all choices of the cut. It keeps the rows that are known.
    ///
    /// # Errors
    ///
    /// Memory was refused, and nothing is changed.
    pub fn begin(&mut self, alloc: Global) -> Result<(), AllocError>
        ensures same { SameSearch self.old self.new }
        ensures pending { OnOk result (pending self.new ≡ whole_case self.old.tears ∷ []) }
        ensures none { OnOk result ((self.new.torn_beyond ≡ 0) × (self.new.lost_beyond ≡ 0)) }
    {
        let count = self.rows.cut().parts().len();
        let sets = sets_of(alloc, count, all_of(self.tears))?;
        self.sets = sets;
        self.fresh = true;
        self.frames.clear();
        self.torn_beyond = 0;
        self.lost_beyond = 0;
        Ok(())
    }

    /// Begins anew, at a case: a set for each part at risk. It keeps the rows that are known.
    pub fn begin_at(&mut self, sets: Vec<u16>)
        requires { length sets.items ≡ length (parts_of self.old.asked.at) }
        ensures same { SameSearch self.old self.new }
        ensures pending { pending self.new ≡ case_of self.old.tears (parts_of self.old.asked.at) sets.items ∷ [] }
        ensures none { (self.new.torn_beyond ≡ 0) × (self.new.lost_beyond ≡ 0) }
    {
        self.sets = sets;
        self.fresh = true;
        self.frames.clear();
        self.torn_beyond = 0;
        self.lost_beyond = 0;
    }

    /// Takes all cases that are still to be explored, in order, each as a set for each part at risk.
    ///
    /// # Errors
    ///
    /// Memory was refused. The search is of no more use then.
    pub fn take_all(&mut self, alloc: Global) -> Result<Vec<Vec<u16>>, AllocError>
        ensures same { SameSearch self.old self.new }
        ensures all { IfOk result (λ all. map (λ sets. case_of self.old.tears (parts_of self.old.asked.at) sets.items) all.items ≡ pending self.old) }
        ensures each { IfOk result (λ all. All (λ sets. length sets.items ≡ length (parts_of self.old.asked.at)) all.items) }
    {
        let mut out = Vec::new(alloc);
        'taking: while self.take()? {
            out.push(copy_of_sets(alloc, self.sets())?)?;
        }
        Ok(out)
    }

    /// The cut.
    pub fn cut(&self) -> &'a Cut<'a>
        ensures { result.now ≡ self.now.asked.at }
    {
        self.rows.cut()
    }

    /// The case of the last leaf: what may become of each part at risk.
    pub fn sets(&self) -> &[u16]
        ensures value { result.now ≡ self.now.sets }
        ensures each { length result.now ≡ length (parts_of self.now.asked.at) }
    {
        self.sets.as_slice()
    }

    /// How many cases were left out since more parts are torn in them than is asked, up to what the number holds.
    pub fn torn_beyond(&self) -> u64
        ensures { result ≡ self.now.torn_beyond }
    {
        self.torn_beyond
    }

    /// How many other cases were left out, since more parts are lost in them than is asked.
    pub fn lost_beyond(&self) -> u64
        ensures { result ≡ self.now.lost_beyond }
    {
        self.lost_beyond
    }

    /// Takes the next case that is to be explored, if there is one.
    fn take(&mut self) -> Result<bool, AllocError>
        ensures same { SameSearch self.old self.new }
        ensures counts { (self.new.torn_beyond ≡ self.old.torn_beyond) × (self.new.lost_beyond ≡ self.old.lost_beyond) }
        ensures taken { IfOk result (λ found. pending self.old ≡ (if found then case_in self.new ∷ pending self.new else [])) }
        ensures ended { IfOk result (λ found. IsFalse found → pending self.new ≡ []) }
        ensures old { OnOk result (self.new.fresh ≡ false) }
    {
        if self.fresh {
            self.fresh = false;
            return Ok(true);
        }
        take_group(&mut self.sets, &mut self.frames)
    }

    /// Whether more parts are torn in the case at hand than is asked.
    fn is_torn_beyond(&self) -> bool
        ensures { result ≡ not (nat_le (count_torn self.now.sets) self.now.asked.torn) }
    {
        count_torn(self.sets.as_slice()) as u64 > u64::from(self.torn)
    }

    /// Whether more parts are lost in it than is asked.
    fn is_lost_beyond(&self) -> bool
        ensures { result ≡ not (option_map_or (λ n. nat_le (count_lost self.now.sets) n) self.now.asked.lost true) }
    {
        is_more(count_lost(self.sets.as_slice()), self.lost)
    }

    /// Counts the case at hand, if it is beyond what is asked, and answers whether it is.
    fn count_beyond(&mut self) -> bool
        ensures only { OnlyCounts self.old self.new }
        ensures counted { (program : Program) → Counted (subject_of self.old.asked program) self.old self.new result }
    {
        if self.is_torn_beyond() {
            self.torn_beyond = self.torn_beyond.saturating_add(1);
            return true;
        }
        if self.is_lost_beyond() {
            self.lost_beyond = self.lost_beyond.saturating_add(1);
            return true;
        }
        false
    }

    /// Takes the next case that isn't beyond what is asked, and counts those that are.
    fn take_within(&mut self) -> Result<bool, AllocError>
        ensures same { SameSearch self.old self.new }
        ensures old { OnOk result (self.new.fresh ≡ false) }
        ensures went { (program : Program) → IfOk result (Took (subject_of self.old.asked program) self.old self.new) }
    {
        'taking: while self.take()? {
            if !self.count_beyond() {
                return Ok(true);
            }
        }
        Ok(false)
    }

    /// Goes on to the next leaf, if there is one. The judge's last run was on its representative.
    ///
    /// # Errors
    ///
    /// Memory was refused. The search is of no more use then.
    pub fn next<J: Judge>(&mut self, judge: &mut J) -> Result<bool, AllocError>
        ensures same { SameSearch self.old self.new }
        ensures program { J.program judge.new ≡ J.program judge.old }
        ensures kept { J.leaves judge.new ≡ J.leaves judge.old }
        ensures went { IfOk result (Went (subject_of self.old.asked (J.program judge.old)) self.old self.new) }
        ensures ending { IfOk result (λ found. IsTrue found → J.ending judge.new ≡ ending_of (subject_of self.old.asked (J.program judge.old)) (representative (case_in self.new))) }
    {
        if !self.take_within()? {
            return Ok(false);
        }
        descend(
            &mut self.rows,
            self.tears,
            &mut self.sets,
            &mut self.frames,
            judge,
        )?;
        Ok(true)
    }

    /// Tells a judge that the case of the last leaf is one.
    fn tell<J: Judge>(&self, judge: &mut J) -> Result<(), AllocError>
        ensures program { J.program judge.new ≡ J.program judge.old }
        ensures told { OnOk result (J.leaves judge.new ≡ J.leaves judge.old ++ record { sets = self.now.sets; ending = J.ending judge.old } ∷ []) }
    {
        let cut = self.rows.cut();
        let _parts = cut.parts();
        judge.tell(cut, self.sets.as_slice())
    }

    /// Goes on from leaf to leaf, to at most `most` of them, and tells a judge of each. Answers `true` where there is no other leaf, and
    /// `false` where it told of `most`, of which the last may be the last of all.
    pub fn run<J: Judge>(&mut self, judge: &mut J, most: u32) -> Result<bool, AllocError>
        ensures same { SameSearch self.old self.new }
        ensures program { J.program judge.new ≡ J.program judge.old }
        ensures ran { OnOk result (Ran (subject_of self.old.asked (J.program judge.old)) self.old self.new (J.leaves judge.old) (J.leaves judge.new)) }
        ensures ended { IfOk result (λ ended. IsTrue ended → pending self.new ≡ []) }
        ensures many { IfOk result (λ ended. IsFalse ended → length (J.leaves judge.new) ≡ length (J.leaves judge.old) + most) }
    {
        for count in 0..most {
            if !self.next(judge)? {
                return Ok(true);
            }
            self.tell(judge)?;
        }
        Ok(false)
    }
}

/// How many cases were left out, since more parts are torn in them than is asked, or else since more are lost, each up to what the
/// number holds.
#[derive(Clone, Copy)]
pub struct Beyond {
    /// How many are torn in more parts.
    pub torn: u64,
    /// How many others are lost in more parts.
    pub lost: u64,
}

/// Tells a judge of the leaves of a cut, of `most` at most, and answers how many cases were left out: none where it is complete.
/// Answers `None` where it told of `most` leaves, and there may be others.
///
/// # Errors
///
/// Memory was refused.
pub fn find_cases<J: Judge>(
    alloc: Global,
    cut: &Cut<'_>,
    tears: bool,
    torn: u32,
    lost: Option<u32>,
    most: u32,
    judge: &mut J,
) -> Result<Option<Beyond>, AllocError>
    ensures program { J.program judge.new ≡ J.program judge.old }
    ensures found { IfOk result (λ found. MatchOption found
        (BegunCases (subject_of (record { at = cut.now; torn = torn; lost = lost }) (J.program judge.old)) tears cut.now (J.leaves judge.old) (J.leaves judge.new) most)
        (λ beyond. FoundCases (subject_of (record { at = cut.now; torn = torn; lost = lost }) (J.program judge.old)) tears cut.now (J.leaves judge.old) (J.leaves judge.new) beyond.torn beyond.lost)) }
{
    let mut search = Search::new(alloc, cut, tears, torn, lost)?;
    if !search.run(judge, most)? {
        return Ok(None);
    }
    Ok(Some(Beyond {
        torn: search.torn_beyond(),
        lost: search.lost_beyond(),
    }))
}

/// Whether a number is more than a bound, if there is one.
fn is_more(count: usize, most: Option<u32>) -> bool
    ensures { result ≡ not (option_map_or (λ n. nat_le count n) most true) }
{
    match most {
        None => false,
        Some(most) => count as u64 > u64::from(most),
    }
}
