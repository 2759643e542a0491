//! The walk over a range of images.

ghost use Rattle.std.specs.Prelude.{◌≡◌, ◌+◌, ◌-◌, ◌++◌, ◌<◌, ◌≤◌, ℕ, nat_eq, slice_get, Some, IfOk, OnOk, OnErr, IsTrue, filter, length, map, [], false, string_bytes};
ghost use Rattle.std.specs.HashMap.{get};
ghost use Rattle.std.specs.List.{flat_map, range_with_len};
ghost use Rattle.choices.specs.Choices.{ranked_choices};
ghost use Rattle.images.specs.Keys.{differs, with_content};
ghost use Rattle.images.specs.Views.{sectors_of};
ghost use Rattle.export.specs.Export.{device_at, marks_before, is_same, first_same, new_count, image_text, record_text, export_text};
ghost use Rattle.std.specs.Io.KnownBytes.{Appends};
ghost use Rattle.export.specs.Streaming.{stream_of, Puts, PutsAll, PutsPart, TakesPart};
ghost use Rattle.export.specs.Kept.{OfOneLog, sum_of, firsts, IsHeld, IsNext, IsFree, IsFound, IsKept, PutsImages};

use crate::asked::PlannedImages;
use crate::differing::put_differing;
use crate::image::ExportedImage;
use crate::stream::{Stream, StreamFault};
use crate::sums::{key_of, sum_of, sum_over};
use crate::text::{end_new, end_same, put_head, put_new, total_line};
use crate::writing::Output;
use choices::{Choice, Starts, next};
use images::History;
use std::alloc::{AllocError, Global};
use std::collections::HashMap;
use std::io::Write;
use std::marker::Model;

/// What images are made of.
#[derive(Drop)]
struct ImageSource<'a> {
    asked: &'a PlannedImages<'a>,
    history: &'a History<'a>,
    starts: &'a Starts<'a>,
}

/// An image, and what it is found by.
#[derive(Drop)]
struct FoundImage<'a> {
    image: ExportedImage<'a>,
    /// How many marks stand before its cut.
    marks: u32,
    /// Its sum.
    sum: u64,
}

/// Where an image belongs: a free key, or the key and the place of the first image that is the same.
#[derive(Clone, Copy)]
pub(crate) enum KeyPlace {
    Free(u64),
    Same(u64, u32),
}

/// A new image that is kept: its place, and that of the last one that is the same.
#[derive(Clone, Copy)]
pub(crate) struct KeptImage {
    pub(crate) first: u32,
    pub(crate) last: u32,
}

/// What is kept of the images so far.
#[derive(Drop)]
struct KeptImages<'a> {
    /// The last new image.
    shown: ExportedImage<'a>,
    /// The last image, from which the next one differs little.
    near: ExportedImage<'a>,
    /// The sum of the last image.
    sum: u64,
    /// How many were new.
    fresh: u64,
    /// Each new image, by the first key from its own on that was free.
    places: HashMap<u64, KeptImage>,
}

/// What is written over for each image.
#[derive(Drop)]
struct Scratch {
    line: String,
    differing: Vec<u32>,
    compared: Vec<u32>,
}

impl<'a> Model for ImageSource<'a> {
    ghost use Rattle.std.specs.Prelude.{◌≡◌};
    ghost use Rattle.export.specs.Export.{AskedValue};

    ghost Value = { AskedValue };

    ghost view = { λ s. s.asked.now };

    ghost invariant = { λ s. (s.history.now ≡ s.asked.now.plan)
        × (s.starts.now ≡ record { plan = s.asked.now.plan; bound = s.asked.now.bound; tears = s.asked.now.tears }) };
}

impl<'a> KeptImages<'a> {
    /// What is kept before the first image.
    fn new(alloc: Global, asked: &PlannedImages<'a>) -> KeptImages<'a>
        ensures { IsKept asked.now 0 result.shown result.near result.sum result.fresh (get nat_eq result.places) }
    {
        let shown = ExportedImage::initial(asked.log());
        let near = ExportedImage::initial(asked.log());
        let sum = sum_of(&near);
        KeptImages {
            shown,
            near,
            sum,
            fresh: 0,
            places: HashMap::new(alloc),
        }
    }

    /// The sum of an image that differs from the last one in these sectors.
    fn sum_with(&self, image: &ExportedImage<'a>, differing: &[u32]) -> u64
        requires log { OfOneLog self.now.near image.now }
        requires differing { differing.now ≡ filter (differs (sectors_of self.now.near) (sectors_of image.now)) (range_with_len 0 self.now.near.log.sectors) }
        requires sum { self.now.sum ≡ sum_of (sectors_of self.now.near) }
        ensures { result ≡ sum_of (sectors_of image.now) }
    {
        let _sectors = self.near.log().sectors();
        let old = sum_over(&self.near, differing);
        let new = sum_over(image, differing);
        self.sum + new - old
    }
}

impl<'a> ImageSource<'a> {
    /// The choice of the image at a place.
    fn choice(&self, place: u32) -> Choice
        requires { self.now.from + place < self.now.to }
        ensures { slice_get (ranked_choices self.now.plan self.now.bound self.now.tears) (self.now.from + place) ≡ Some result }
    {
        self.starts.nth(self.asked.from() + u64::from(place))
    }

    /// The image of a choice.
    fn image(
        &self,
        alloc: Global,
        place: u32,
        choice: &Choice,
    ) -> Result<ExportedImage<'a>, AllocError>
        requires { slice_get (ranked_choices self.now.plan self.now.bound self.now.tears) (self.now.from + place) ≡ Some choice.now }
        ensures log { IfOk result (λ image. image.log ≡ self.now.plan.log) }
        ensures device { IfOk result (λ image. sectors_of image ≡ device_at self.now place) }
    {
        let image = ExportedImage::of(alloc, self.asked.log(), self.history, choice)?;
        Ok(image)
    }

    /// How many marks stand before the cut of a choice.
    fn marks(&self, place: u32, choice: &Choice) -> u32
        requires { slice_get (ranked_choices self.now.plan self.now.bound self.now.tears) (self.now.from + place) ≡ Some choice.now }
        ensures { result ≡ marks_before self.now place }
    {
        self.asked.plan().marks(choice.cut())
    }

    /// Whether the image of a later place is the same as that of another, with as many marks before it.
    fn is_same(
        &self,
        alloc: Global,
        compared: &mut Vec<u32>,
        later: u32,
        next: &FoundImage<'a>,
        place: u32,
    ) -> Result<bool, AllocError>
        requires place { self.now.from + place < self.now.to }
        requires next { IsNext self.now later next.now.image next.now.marks next.now.sum }
        ensures { IfOk result (λ same. same ≡ is_same self.now later place) }
    {
        let _later = later;
        let choice = self.choice(place);
        if self.marks(place, &choice) != next.marks {
            return Ok(false);
        }
        let other = self.image(alloc, place, &choice)?;
        put_differing(compared, &other, &next.image)?;
        Ok(compared.as_slice().is_empty())
    }

    /// The image that is the same as that of a place, or the key that is free for it. It is compared with the last one that is the
    /// same as each that is met: that is near it in the log more often than the first.
    ///
    /// # Errors
    ///
    /// Want of memory. Where 2^64 - 1 keys were taken there would be no memory for them.
    fn find(
        &self,
        alloc: Global,
        places: &HashMap<u64, KeptImage>,
        compared: &mut Vec<u32>,
        place: u32,
        next: &FoundImage<'a>,
    ) -> Result<KeyPlace, AllocError>
        requires place { self.now.from + place < self.now.to }
        requires next { IsNext self.now place next.now.image next.now.marks next.now.sum }
        requires held { IsHeld self.now place (get nat_eq places.now) }
        ensures { IfOk result (λ found. IsFound self.now place (get nat_eq places.now) found) }
    {
        let key = key_of(next.sum, next.marks);
        for step in 0..u64::MAX {
            let at = key.wrapping_add(step);
            let Some(held) = places.get(&at) else {
                return Ok(KeyPlace::Free(at));
            };
            if self.is_same(alloc, compared, place, next, held.last)? {
                return Ok(KeyPlace::Same(at, held.first));
            }
        }
        Err(AllocError)
    }

    /// The image of a choice, with its marks and its sum.
    fn next(
        &self,
        alloc: Global,
        kept: &KeptImages<'a>,
        differing: &mut Vec<u32>,
        place: u32,
        choice: &Choice,
    ) -> Result<FoundImage<'a>, AllocError>
        requires choice { slice_get (ranked_choices self.now.plan self.now.bound self.now.tears) (self.now.from + place) ≡ Some choice.now }
        requires kept { IsKept self.now place kept.now.shown kept.now.near kept.now.sum kept.now.fresh (get nat_eq kept.now.places) }
        ensures { IfOk result (λ next. IsNext self.now place next.image next.marks next.sum) }
    {
        let image = self.image(alloc, place, choice)?;
        put_differing(differing, &kept.near, &image)?;
        let sum = kept.sum_with(&image, differing.as_slice());
        let marks = self.marks(place, choice);
        Ok(FoundImage { image, marks, sum })
    }

    /// Keeps an image that isn't new, as the last one that is the same as the new one at a key.
    fn keep_same(
        &self,
        kept: &mut KeptImages<'a>,
        place: u32,
        next: FoundImage<'a>,
        key: u64,
        first: u32,
    ) -> Result<(), AllocError>
        requires kept { IsKept self.now place kept.old.shown kept.old.near kept.old.sum kept.old.fresh (get nat_eq kept.old.places) }
        requires next { IsNext self.now place next.image next.marks next.sum }
        requires same { first_same self.now place ≡ Some first }
        requires there { firsts (get nat_eq kept.old.places) key ≡ Some first }
        ensures { OnOk result (IsKept self.now (place + 1) kept.new.shown kept.new.near kept.new.sum kept.new.fresh (get nat_eq kept.new.places)) }
    {
        kept.places.insert(key, KeptImage { first, last: place })?;
        kept.near = next.image;
        kept.sum = next.sum;
        Ok(())
    }

    /// Keeps an image that is new, at a key that is free for it.
    fn keep_new(
        &self,
        alloc: Global,
        kept: &mut KeptImages<'a>,
        place: u32,
        choice: &Choice,
        next: FoundImage<'a>,
        key: u64,
    ) -> Result<(), AllocError>
        requires choice { slice_get (ranked_choices self.now.plan self.now.bound self.now.tears) (self.now.from + place) ≡ Some choice.now }
        requires kept { IsKept self.now place kept.old.shown kept.old.near kept.old.sum kept.old.fresh (get nat_eq kept.old.places) }
        requires next { IsNext self.now place next.image next.marks next.sum }
        requires free { IsFree self.now place (firsts (get nat_eq kept.old.places)) key }
        ensures kept { OnOk result (IsKept self.now (place + 1) kept.new.shown kept.new.near kept.new.sum kept.new.fresh (get nat_eq kept.new.places)) }
        ensures near { OnOk result (kept.new.near ≡ next.entry.image) }
    {
        let shown = self.image(alloc, place, choice)?;
        kept.places.insert(
            key,
            KeptImage {
                first: place,
                last: place,
            },
        )?;
        kept.shown = shown;
        kept.near = next.image;
        kept.sum = next.sum;
        kept.fresh += 1;
        Ok(())
    }

    /// Tells of the image at a place, by a line and by the sectors that stand after it, and keeps what the next ones need.
    fn tell(
        &self,
        alloc: Global,
        kept: &mut KeptImages<'a>,
        scratch: &mut Scratch,
        place: u32,
        choice: &Choice,
    ) -> Result<(), AllocError>
        requires place { self.now.from + place < self.now.to }
        requires choice { slice_get (ranked_choices self.now.plan self.now.bound self.now.tears) (self.now.from + place) ≡ Some choice.now }
        requires kept { IsKept self.now place kept.old.shown kept.old.near kept.old.sum kept.old.fresh (get nat_eq kept.old.places) }
        ensures text { OnOk result (string_bytes scratch.new.line ++ flat_map record_text (map (with_content (sectors_of kept.new.near)) scratch.new.differing.items) ≡ image_text self.now place) }
        ensures inside { OnOk result ((i n : ℕ) → slice_get scratch.new.differing.items i ≡ Some n → n < kept.new.near.log.sectors) }
        ensures kept { OnOk result (IsKept self.now (place + 1) kept.new.shown kept.new.near kept.new.sum kept.new.fresh (get nat_eq kept.new.places)) }
    {
        let next = self.next(alloc, kept, &mut scratch.compared, place, choice)?;
        scratch.line.clear();
        scratch.differing.clear();
        put_head(&mut scratch.line, self.asked, place, choice)?;
        let found = self.find(alloc, &kept.places, &mut scratch.compared, place, &next)?;
        match found {
            KeyPlace::Same(key, first) => {
                let number = self.asked.from() + u64::from(first);
                end_same(&mut scratch.line, number)?;
                self.keep_same(kept, place, next, key, first)?;
                Ok(())
            }
            KeyPlace::Free(key) => {
                put_differing(&mut scratch.differing, &kept.shown, &next.image)?;
                end_new(&mut scratch.line, scratch.differing.len())?;
                self.keep_new(alloc, kept, place, choice, next, key)?;
                Ok(())
            }
        }
    }

    /// Puts the text of each image, and answers how many are new.
    #[tactic(auto, using(crate::proofs::Streaming::puts_nothing))]
    fn put_each<W: Write>(&self, alloc: Global, out: &mut Stream<W>) -> Result<u64, StreamFault>
        ensures text { OnOk result (Puts (stream_of (W.contents out.old.output.writer) out.old.waiting.items out.old.output.has_failed) (stream_of (W.contents out.new.output.writer) out.new.waiting.items out.new.output.has_failed) (flat_map (image_text self.now) (range_with_len 0 (self.now.to - self.now.from)))) }
        ensures fresh { IfOk result (λ fresh. fresh ≡ new_count self.now (self.now.to - self.now.from)) }
        ensures part { OnErr result (PutsImages self.now (stream_of (W.contents out.old.output.writer) out.old.waiting.items out.old.output.has_failed) (stream_of (W.contents out.new.output.writer) out.new.waiting.items out.new.output.has_failed)) }
    {
        let asked = self.asked;
        let mut kept = KeptImages::new(alloc, asked);
        let count = asked.count();
        if count == 0 {
            return Ok(0);
        }
        let mut scratch = Scratch {
            line: String::new(alloc),
            differing: Vec::new(alloc),
            compared: Vec::new(alloc),
        };
        let mut choice = self.choice(0);
        for place in 0..count {
            if out.is_closed() {
                return Err(out.fault());
            }
            match self.tell(alloc, &mut kept, &mut scratch, place, &choice) {
                Ok(()) => {}
                Err(_error) => return Err(StreamFault::Memory),
            }
            let line = scratch.line.as_bytes();
            put_new(out, line, &kept.near, scratch.differing.as_slice());
            let _moved = next(asked.plan(), asked.bound(), asked.tears(), &mut choice);
        }
        Ok(kept.fresh)
    }

    /// Puts the text of all images.
    fn put_all<W: Write>(&self, alloc: Global, out: &mut Stream<W>) -> Result<(), StreamFault>
        ensures all { OnOk result (Puts (stream_of (W.contents out.old.output.writer) out.old.waiting.items out.old.output.has_failed) (stream_of (W.contents out.new.output.writer) out.new.waiting.items out.new.output.has_failed) (export_text self.now)) }
        ensures part { OnErr result (PutsPart (stream_of (W.contents out.old.output.writer) out.old.waiting.items out.old.output.has_failed) (stream_of (W.contents out.new.output.writer) out.new.waiting.items out.new.output.has_failed) (export_text self.now)) }
    {
        let fresh = match self.put_each(alloc, out) {
            Ok(fresh) => fresh,
            Err(fault) => return Err(fault),
        };
        match total_line(alloc, u64::from(self.asked.count()), fresh) {
            Ok(line) => {
                out.put(line.as_bytes());
                Ok(())
            }
            Err(_error) => Err(StreamFault::Memory),
        }
    }

    /// Writes the text of all images.
    fn write_all<W: Write>(&self, alloc: Global, out: &mut Stream<W>) -> Result<(), StreamFault>
        ensures all { OnOk result (PutsAll (stream_of (W.contents out.old.output.writer) out.old.waiting.items out.old.output.has_failed) (stream_of (W.contents out.new.output.writer) out.new.waiting.items out.new.output.has_failed) (export_text self.now)) }
        ensures part { OnErr result (PutsPart (stream_of (W.contents out.old.output.writer) out.old.waiting.items out.old.output.has_failed) (stream_of (W.contents out.new.output.writer) out.new.waiting.items out.new.output.has_failed) (export_text self.now)) }
    {
        match self.put_all(alloc, out) {
            Ok(()) => out.finish(),
            Err(fault) => Err(fault),
        }
    }
}

/// Writes the text of the images that are asked for.
fn write_images<W: Write>(
    alloc: Global,
    asked: &PlannedImages<'_>,
    out: &mut Stream<W>,
) -> Result<(), StreamFault>
    ensures all { OnOk result (PutsAll (stream_of (W.contents out.old.output.writer) out.old.waiting.items out.old.output.has_failed) (stream_of (W.contents out.new.output.writer) out.new.waiting.items out.new.output.has_failed) (export_text asked.now)) }
    ensures part { OnErr result (PutsPart (stream_of (W.contents out.old.output.writer) out.old.waiting.items out.old.output.has_failed) (stream_of (W.contents out.new.output.writer) out.new.waiting.items out.new.output.has_failed) (export_text asked.now)) }
{
    let history = match History::new(alloc, asked.plan(), asked.log()) {
        Ok(history) => history,
        Err(_error) => return Err(StreamFault::Memory),
    };
    let starts = match Starts::new(alloc, asked.plan(), asked.bound(), asked.tears()) {
        Ok(starts) => starts,
        Err(_error) => return Err(StreamFault::Memory),
    };
    let source = ImageSource {
        asked,
        history: &history,
        starts: &starts,
    };
    source.write_all(alloc, out)
}

/// Writes a head, and the text of the images that are asked for (docs/OUTPUT.md, The text of `export`) as it is made. It keeps a piece of it of at
/// most 64 KiB and a record, and at most some 60 bytes for each new image: a key and two places, in a map.
///
/// # Errors
///
/// Want of memory, or that the writer takes no more: of the text the first bytes were written, and not all.
pub fn export<W: Write>(
    alloc: Global,
    head: &[u8],
    asked: &PlannedImages<'_>,
    output: Output<W>,
) -> (Result<(), StreamFault>, Output<W>)
    requires going { output.has_failed ≡ false }
    ensures all { OnOk result.0 (Appends (W.contents output.writer) (W.contents result.1.writer) (head.now ++ export_text asked.now)) }
    ensures part { OnErr result.0 (TakesPart (W.contents output.writer) (W.contents result.1.writer) (head.now ++ export_text asked.now)) }
{
    let mut out = Stream::new(alloc, output);
    out.put(head);
    let written = write_images(alloc, asked, &mut out);
    (written, out.into_output())
}
