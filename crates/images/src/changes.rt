//! The sectors of an image that differ from the base of its cut.

ghost use Rattle.std.specs.Prelude.{◌≡◌, ◌+◌, ◌<◌, ◌≤◌, ◌++◌, ◌∷◌, [], ℕ, List, length, slice_get, sum_by, Some, IfOk, OnOk, MatchOption};
ghost use Rattle.base.specs.Sizes.{most_sectors};
ghost use Rattle.choices.specs.declared.choice.Departure.{Departure as LogDeparture};
ghost use Rattle.logfmt.specs.Bounds.{LogValue};
ghost use Rattle.epochs.specs.declared.unit.Unit.{Unit as LogUnit};
ghost use Rattle.epochs.specs.Laws.{last_flush};
ghost use Rattle.epochs.specs.Plan.{IsUnit};
ghost use Rattle.epochs.specs.Units.{epoch_at};
ghost use Rattle.images.specs.Keys.{changed_of, most_changed};
ghost use Rattle.images.specs.Changes.{changes, changes_between, changes_by, whole_image, image_of, with_sectors, IsKnown};

use crate::changed::ChangedSector;
use crate::history::History;
use crate::image::content_of;
use crate::key::Key;
use crate::listing::{change_of, copy_sectors, put};
use crate::versions::Versions;
use crate::view::View;
use choices::Departure;
use epochs::{Part, Unit, last_flush};
use std::alloc::{AllocError, Global};
use std::marker::Model;
use std::mem;

/// How many sectors a key has at most.
const MOST_CHANGED: usize = 64;

/// What the images of a cut have in common: the sectors in which the image where nothing departs
/// differs from the base.
#[derive(Drop)]
struct SharedChanges<'a> {
    epoch: u32,
    /// The last flush entry before the cut, or 0.
    flush: u32,
    cut: u32,
    sectors: Vec<ChangedSector<'a>>,
}

/// Makes the keys of images, one after the other. It keeps what the images of a cut have in common,
/// and carries it on to later cuts, so that a key costs what its choice changes.
///
/// Contracts see it as the log.
#[derive(Drop)]
pub struct Changes<'a> {
    versions: Versions<'a>,
    known: SharedChanges<'a>,
}

impl<'a> Model for Changes<'a> {
    ghost use Rattle.logfmt.specs.Bounds.{LogValue};
    ghost use Rattle.images.specs.Changes.{IsKnown};

    ghost Value = { LogValue };

    ghost view = { λ c. c.versions };

    ghost invariant = { λ c. IsKnown c.versions c.known.epoch c.known.flush c.known.cut c.known.sectors.items };
}

impl<'a> Changes<'a> {
    ghost use Rattle.images.specs.Keys.{key_of};

    /// Nothing is known yet. It takes no memory.
    pub fn new(alloc: Global, history: &'a History<'_>) -> Changes<'a>
        ensures { result ≡ history.now.log }
    {
        Changes::over(alloc, history.versions())
    }

    /// Nothing is known yet, of a version table. It takes no memory.
    pub(crate) fn over(alloc: Global, versions: Versions<'a>) -> Changes<'a>
        ensures { result ≡ versions.entry }
    {
        let known = nothing(alloc, &versions);
        Changes { versions, known }
    }

    /// The key of an image and of program 0: `None` where more than 64 sectors differ from the base of
    /// the cut.
    ///
    /// From one cut to a later one of the same epoch it looks at the sectors that the entries between
    /// them cover, and from any other at those that were covered after the last flush. At a cut that is
    /// known it looks at the sectors of the departures alone.
    ///
    /// # Errors
    ///
    /// Memory was refused. It may be asked again.
    pub fn key(&mut self, alloc: Global, view: &View<'a>) -> Result<Option<Key<'a>>, AllocError>
        requires { view.now.log ≡ self.old }
        ensures value { IfOk result (λ key. key ≡ key_of view.now 0) }
        ensures log { self.new ≡ self.old }
    {
        let context = view.context();
        let none = nothing(alloc, &self.versions);
        let known = mem::replace(&mut self.known, none);
        self.known = known_at(alloc, &self.versions, known, view.cut(), context.epoch)?;
        match changes_of_image(alloc, view, self.known.flush, self.known.sectors.as_slice())? {
            Some(changed) => Ok(Some(Key::of(0, context, changed))),
            None => Ok(None),
        }
    }
}

/// What is known of cut 0 of a log: no sector differs.
fn nothing<'a>(alloc: Global, versions: &Versions<'a>) -> SharedChanges<'a>
    ensures { IsKnown versions.now result.epoch result.flush result.cut result.sectors.items }
{
    let _versions = versions;
    SharedChanges {
        epoch: 0,
        flush: 0,
        cut: 0,
        sectors: Vec::new(alloc),
    }
}

/// What there is to know of a cut, from what is known of another.
fn known_at<'a>(
    alloc: Global,
    versions: &Versions<'a>,
    known: SharedChanges<'a>,
    cut: u32,
    epoch: u32,
) -> Result<SharedChanges<'a>, AllocError>
    requires known { IsKnown versions.now known.epoch known.flush known.cut known.sectors.items }
    requires cut { cut ≤ length versions.now.entries }
    requires epoch { epoch ≡ epoch_at versions.now.entries cut }
    ensures { IfOk result (λ more. (more.cut ≡ cut) × IsKnown versions.now more.epoch more.flush more.cut more.sectors.items) }
{
    let SharedChanges {
        epoch: old,
        flush,
        cut: first,
        sectors,
    } = known;
    if old == epoch && first <= cut {
        let sectors = changes_of_cut(versions, sectors, flush, first, cut)?;
        return Ok(SharedChanges {
            epoch,
            flush,
            cut,
            sectors,
        });
    }
    let flush = last_flush(versions.log().entries(), cut);
    let sectors = changes_of_cut(versions, Vec::new(alloc), flush, flush, cut)?;
    Ok(SharedChanges {
        epoch,
        flush,
        cut,
        sectors,
    })
}

/// The sectors in which the image of a cut differs from that of entry `flush`, from those of an earlier
/// cut.
fn changes_of_cut<'a>(
    versions: &Versions<'a>,
    mut sectors: Vec<ChangedSector<'a>>,
    flush: u32,
    first: u32,
    cut: u32,
) -> Result<Vec<ChangedSector<'a>>, AllocError>
    requires order { first ≤ cut }
    requires cut { cut ≤ length versions.now.entries }
    requires flush { flush ≤ length versions.now.entries }
    requires known { sectors.items ≡ changes_between versions.now flush first }
    ensures { IfOk result (λ more. more.items ≡ changes_between versions.now flush cut) }
{
    for number in first..cut {
        put_entry(&mut sectors, versions, flush, number)?;
    }
    Ok(sectors)
}

/// Adds what an entry writes.
fn put_entry<'a>(
    sectors: &mut Vec<ChangedSector<'a>>,
    versions: &Versions<'a>,
    flush: u32,
    number: u32,
) -> Result<(), AllocError>
    requires entry { number < length versions.now.entries }
    requires flush { flush ≤ length versions.now.entries }
    requires known { sectors.old.items ≡ changes_between versions.now flush number }
    ensures { OnOk result (sectors.new.items ≡ changes_between versions.now flush (number + 1)) }
{
    let entry = &versions.log().entries()[number as usize];
    for place in 0..entry.count {
        let unit = Unit {
            entry: number,
            place: place as u32,
            sector: (entry.sector + place) as u32,
        };
        put_unit(sectors, versions, flush, unit)?;
    }
    Ok(())
}

/// Adds what a unit writes.
fn put_unit<'a>(
    sectors: &mut Vec<ChangedSector<'a>>,
    versions: &Versions<'a>,
    flush: u32,
    unit: Unit,
) -> Result<(), AllocError>
    requires unit { IsUnit versions.now unit }
    requires flush { flush ≤ length versions.now.entries }
    requires known { (us : List LogUnit) × (sectors.old.items ≡ changes_by versions.now flush us) }
    ensures { (us : List LogUnit) → sectors.old.items ≡ changes_by versions.now flush us
        → OnOk result (sectors.new.items ≡ changes_by versions.now flush (us ++ unit ∷ [])) }
{
    let base = versions.durable(unit.sector, flush);
    let change = change_of(unit.sector, base, content_of(versions.log(), unit));
    put(sectors, unit.sector, change)
}

/// How many sectors the parts of departures have.
fn sectors_of(departures: &[Departure]) -> usize
    requires few { length departures.now ≤ 3 }
    requires device { (i : ℕ) (d : LogDeparture) → slice_get departures.now i ≡ Some d → d.part.count ≤ most_sectors }
    ensures { result ≡ sum_by (λ (d : LogDeparture). d.part.count) departures.now }
{
    let mut sum = 0;
    for departure in departures {
        sum += departure.part.count as usize;
    }
    sum
}

/// Lists the sectors of a part anew, as an image has them.
fn put_part<'a>(
    alloc: Global,
    sectors: &mut Vec<ChangedSector<'a>>,
    view: &View<'a>,
    flush: u32,
    part: Part,
) -> Result<(), AllocError>
    requires flush { flush ≤ length view.now.log.entries }
    requires device { part.sector + part.count ≤ view.now.log.sectors }
    requires small { view.now.log.sectors ≤ most_sectors }
    requires known { (image : ℕ → List ℕ) × (sectors.old.items ≡ changes (whole_image view.now.log flush) image 0 view.now.log.sectors) }
    ensures { (image : ℕ → List ℕ) → sectors.old.items ≡ changes (whole_image view.now.log flush) image 0 view.now.log.sectors
        → OnOk result (sectors.new.items ≡ changes (whole_image view.now.log flush) (with_sectors image part.sector part.count (image_of view.now)) 0 view.now.log.sectors) }
{
    for place in 0..part.count {
        let number = part.sector + place;
        let change = view.change(alloc, number, flush)?;
        put(sectors, number, change)?;
    }
    Ok(())
}

/// The sectors in which an image differs from the base, rising, or `None` where there are more than a
/// key has: those of the image where nothing departs, but for the sectors of the departures.
fn changes_of_image<'a>(
    alloc: Global,
    view: &View<'a>,
    flush: u32,
    whole: &[ChangedSector<'a>],
) -> Result<Option<Vec<ChangedSector<'a>>>, AllocError>
    requires flush { flush ≡ last_flush view.now.log.entries view.now.cut }
    requires whole { whole.now ≡ changes_between view.now.log flush view.now.cut }
    ensures { IfOk result (λ found. MatchOption found (most_changed < length (changed_of view.now))
        (λ sectors. (sectors.items ≡ changed_of view.now) × (length sectors.items ≤ most_changed))) }
{
    let departures = view.departures();
    if whole.len() > MOST_CHANGED + sectors_of(departures) {
        return Ok(None);
    }
    let mut sectors = copy_sectors(alloc, whole, departures.len())?;
    for departure in departures {
        put_part(alloc, &mut sectors, view, flush, departure.part)?;
    }
    if sectors.len() > MOST_CHANGED {
        return Ok(None);
    }
    Ok(Some(sectors))
}
