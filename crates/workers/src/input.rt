//! What the work is given.

ghost use Rattle.std.specs.Prelude.{◌≡◌, ◌≤◌, ◌<◌, length, slice_get, min, Some, ◌+◌, ◌-◌, ◌*◌, ◌^◌, ℕ};
ghost use Rattle.epochs.specs.Cuts.{cuts_of};
ghost use Rattle.choices.specs.Choices.{limit, ranked_choices};
ghost use Rattle.choices.specs.Picked.{IsRanked};
ghost use Rattle.checker.specs.Checker.{AreFor};
ghost use Rattle.workers.specs.Failing.{choices_of, image_count, judged_count};
ghost use Rattle.workers.specs.Pieces.{block_count};
ghost use Rattle.workers.specs.Exploring.{passes_over};
ghost use Rattle.workers.specs.Local.{Reaches};

use crate::piece::BLOCK;
use checker::Checker;
use choices::{Choice, Pick, Picked, Starts, fates, next};
use epochs::{By, Plan};
use images::History;
use std::marker::Model;

/// What is judged: of the crash images of a plan with at most `bound` departures, torn writes or none, those from
/// one on to before another, by checkers in their order; and whether the first failing image is all that is asked for.
/// Contracts see this much; how many workers judge, and how many entries their cache has, changes no answer.
#[derive(Drop)]
pub struct Input<'a> {
    starts: &'a Starts<'a>,
    pub(crate) plan: &'a Plan<'a>,
    pub(crate) history: &'a History<'a>,
    pub(crate) checkers: &'a [Checker<'a>],
    pub(crate) by: By,
    pub(crate) asked: AskedRun,
}

/// What is asked of a run, by names: at most `bound` departures, and torn writes or none; with `first` the first
/// failing image alone. Image `from` is the first that is judged, and `to` the one after the last. The whole run is
/// from 0 to the number of its images, as `choices::count` gives it. It is judged by 1 to 64 workers, who keep at most
/// `cache` outcomes, 0 to 65,536.
#[derive(Clone, Copy)]
pub struct AskedRun {
    pub bound: u8,
    pub tears: bool,
    pub from: u64,
    pub to: u64,
    pub first: bool,
    pub workers: u8,
    pub cache: u32,
}

impl<'a> Model for Input<'a> {
    ghost use Rattle.workers.specs.Failing.{Subject};
    ghost use Rattle.workers.specs.Input.{IsInput};

    ghost Value = { Subject };

    ghost view = { λ i. record { plan = i.plan.now; checkers = i.checkers.now; bound = i.asked.bound; tears = i.asked.tears; from = i.asked.from; to = i.asked.to; first = i.asked.first } };

    ghost invariant = { λ i. IsInput (record { plan = i.plan.now; checkers = i.checkers.now; bound = i.asked.bound; tears = i.asked.tears; from = i.asked.from; to = i.asked.to; first = i.asked.first }) i.history.now i.starts.now i.by i.asked.workers i.asked.cache };
}

impl<'a> Input<'a> {
    /// What is judged by a run. The history, the table of choices and what departs as one are those of the plan, and the images
    /// that are judged are some of those that there are. A checker that was verified is one that was for devices of the log's size.
    pub fn new(
        plan: &'a Plan<'a>,
        starts: &'a Starts<'a>,
        history: &'a History<'a>,
        checkers: &'a [Checker<'a>],
        by: By,
        asked: AskedRun,
    ) -> Input<'a>
        requires starts { starts.now ≡ record { plan = plan.now; bound = asked.bound; tears = asked.tears } }
        requires history { history.now ≡ plan.now }
        requires checkers { length checkers.now ≤ 8 }
        requires device { AreFor plan.now.log.sectors checkers.now }
        requires by { by ≡ plan.now.by }
        requires bound { asked.bound ≤ 3 }
        requires workers { (1 ≤ asked.workers) × (asked.workers ≤ 64) }
        requires cache { asked.cache ≤ 65536 }
        requires order { asked.from ≤ asked.to }
        requires images { asked.to ≤ length (ranked_choices plan.now asked.bound asked.tears) }
        requires few { asked.to - asked.from ≤ limit }
        requires counted { length (ranked_choices plan.now asked.bound asked.tears) < 2 ^ 63 }
        ensures { result ≡ record { plan = plan.now; checkers = checkers.now; bound = asked.bound; tears = asked.tears; from = asked.from; to = asked.to; first = asked.first } }
    {
        Input {
            starts,
            plan,
            history,
            checkers,
            by,
            asked,
        }
    }

    /// The number of the first image that is judged.
    pub fn first_image(&self) -> u64
        ensures { result ≡ self.now.from }
    {
        self.asked.from
    }

    /// How many images are judged.
    pub fn judged_count(&self) -> u64
        ensures value { result ≡ judged_count self.now }
        ensures few { result ≤ limit }
    {
        self.asked.to - self.asked.from
    }

    /// How many blocks there are, of 64 images in a row each; the last may be shorter.
    pub fn block_count(&self) -> u32
        ensures value { result ≡ block_count self.now }
        ensures few { result ≤ 262144 }
    {
        self.judged_count().div_ceil(BLOCK) as u32
    }

    /// The images of a block: the first, and the one after the last.
    pub(crate) fn images_of(&self, block: u32) -> (u64, u64)
        requires { block < block_count self.now }
        ensures first { result.0 ≡ self.now.from + 64 * block }
        ensures some { result.0 < result.1 }
        ensures count { result.1 - result.0 ≡ min 64 (judged_count self.now - 64 * block) }
        ensures within { result.1 ≤ image_count self.now }
    {
        let first = self.asked.from + BLOCK * u64::from(block);
        (first, self.asked.to.min(first + BLOCK))
    }

    /// How many workers judge its images: as many as were asked for, but no more than there are blocks,
    /// and one at least.
    pub(crate) fn crew(&self) -> u8
        ensures { (0 < result) × (result ≤ 64) }
    {
        u32::from(self.asked.workers).min(self.block_count()).max(1) as u8
    }

    /// The choice of the image of that number.
    pub(crate) fn choice(&self, image: u64) -> Choice
        requires { image < image_count self.now }
        ensures { slice_get (choices_of self.now) image ≡ Some result }
    {
        self.starts.nth(image)
    }

    /// Goes on from the choice of an image to that of the next one, if there is one.
    pub(crate) fn go_on(&self, choice: &mut Choice)
        requires { (image : ℕ) × (slice_get (choices_of self.now) image ≡ Some choice.old) }
        ensures { (image : ℕ) → slice_get (choices_of self.now) image ≡ Some choice.old → image + 1 < image_count self.now
            → slice_get (choices_of self.now) (image + 1) ≡ Some choice.new }
    {
        let _moved = next(self.plan, self.asked.bound, self.asked.tears, choice);
    }

    /// The picks of the choice of an image.
    pub(crate) fn picked(&self, image: u64) -> Picked
        requires { image < image_count self.now }
        ensures { IsRanked self.now.plan self.now.bound self.now.tears image result }
    {
        Picked::of(&self.choice(image))
    }

    /// Goes on from the picks of an image to those of the next one, if there is one.
    #[inline(always)]
    pub(crate) fn pick_next(&self, picked: &mut Picked)
        requires { (image : ℕ) × IsRanked self.now.plan self.now.bound self.now.tears image picked.old }
        ensures { (image : ℕ) → IsRanked self.now.plan self.now.bound self.now.tears image picked.old → image + 1 < image_count self.now
            → IsRanked self.now.plan self.now.bound self.now.tears (image + 1) picked.new }
    {
        let _moved = picked.next(self.plan, self.asked.bound, self.asked.tears);
    }

    /// Returns how many images in a row, from that of a choice on and at most `most`, differ from it in its last departure alone.
    #[inline(always)]
    pub(crate) fn reach(&self, picked: &Picked, most: u64) -> u64
        requires member { (image : ℕ) × IsRanked self.now.plan self.now.bound self.now.tears image picked.now }
        requires some { 1 ≤ most }
        ensures some { 1 ≤ result }
        ensures most { result ≤ most }
        ensures reach { Reaches self.now picked.now result }
    {
        let picks = picked.picks();
        if picks.is_empty() {
            return 1;
        }
        let at = picks.len() - 1;
        let parts = self.plan.volatile(picked.cut());
        stretch(fates(self.asked.tears), picks[at], parts).min(most)
    }

    /// Goes on from the picks of an image to those of the one that is `count` after it, if there is one. Up to that one the last
    /// departure alone changes.
    #[inline(always)]
    pub(crate) fn go_over(&self, picked: &mut Picked, count: u64)
        requires member { (image : ℕ) × IsRanked self.now.plan self.now.bound self.now.tears image picked.old }
        requires some { 1 ≤ count }
        requires reach { Reaches self.now picked.old count }
        ensures { (image : ℕ) → IsRanked self.now.plan self.now.bound self.now.tears image picked.old → image + count < image_count self.now
            → IsRanked self.now.plan self.now.bound self.now.tears (image + count) picked.new }
    {
        if count == 1 {
            self.pick_next(picked);
            return;
        }
        picked.pass(self.asked.tears, count - 1);
        self.pick_next(picked);
    }

    /// How many images the wanted cut of that place has.
    pub(crate) fn images_at(&self, place: usize) -> u64
        requires { place < length (cuts_of self.now.plan.kind self.now.plan.log.entries) }
    {
        let (first, end) = self.starts.range_of(place);
        end.saturating_sub(first)
    }

    /// The history of its plan.
    pub(crate) fn history(&self) -> &'a History<'a>
        ensures { result.now ≡ self.now.plan }
    {
        self.history
    }

    /// Its checkers.
    pub(crate) fn checkers(&self) -> &[Checker<'a>]
        ensures { result.now ≡ self.now.checkers }
    {
        self.checkers
    }

    /// How many outcomes its workers may keep.
    pub(crate) fn cache(&self) -> u32
        ensures { result ≤ 65536 }
    {
        self.asked.cache
    }

    /// Whether the first failing image is all that is asked for.
    pub(crate) fn first(&self) -> bool
        ensures { result ≡ self.now.first }
    {
        self.asked.first
    }

    /// How far an image that is judged lies after the first one.
    pub(crate) fn beyond_first(&self, image: u64) -> u64
        requires { (self.now.from ≤ image) × (image < self.now.to) }
        ensures value { self.now.from + result ≡ image }
        ensures few { result < 16777216 }
    {
        image - self.asked.from
    }

    /// Whether a block is passed over after that failing image, less the first one that is judged: where the first failing
    /// image is all that is asked for, and all of the block lies after it.
    pub(crate) fn passes_over(&self, block: u32, image: u64) -> bool
        ensures { result ≡ passes_over self.now block image }
    {
        self.asked.first && image < BLOCK * u64::from(block)
    }
}

/// How many choices, from one with that last departure on, have the last departure alone changed, and no part from `next` on.
pub(crate) fn stretch(fates: u8, last: Pick, next: u32) -> u64
    requires part { last.part < next }
    requires fate { last.fate < fates }
    ensures some { 1 ≤ result }
    ensures value { last.part * fates + last.fate + result ≡ next * fates }
{
    let fates = u64::from(fates);
    u64::from(next) * fates - (u64::from(last.part) * fates + u64::from(last.fate))
}
