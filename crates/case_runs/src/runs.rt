//! Runs of a checker on the images of cases, with the sectors at which it looked.

ghost use Rattle.std.specs.Prelude.{◌≡◌, ◌≤◌, Bool, length, None, IfOk, MatchOption};
ghost use Rattle.std.specs.List.{range_with_len};
ghost use Rattle.checker.specs.Checker.{Suits};
ghost use Rattle.checker.specs.Footprints.{kept_footprint};
ghost use Rattle.checker.specs.Memory.{IsServed};
ghost use Rattle.cases.specs.AtCut.{parts_of};
ghost use Rattle.case_runs.specs.Images.{sectors_in};
ghost use Rattle.case_runs.specs.Judges.{program_of, IsSplitAt, RunsSo, JudgesSo, looked_in};
ghost use Rattle.case_runs.specs.Leaves.{IsFit};

use crate::image::{CaseImage, Formed};
use cases::{Cut, KnownRows, Parted};
use checker::{Checker, RunMemory};
use helpers::Context;
use interp::{Noted, Outcome};
use std::alloc::AllocError;

/// The sectors at which a checker looked in its last run.
#[derive(Drop)]
pub(crate) struct Looked {
    /// The sectors, in the order of the first looks.
    pub(crate) sectors: Vec<u32>,
    /// Whether it is taken to look at all of the device, in place of these.
    pub(crate) all: bool,
}

/// A run whose footprint is kept in so much room, if there is room for it.
fn run_within<const ROOM: usize>(
    memory: &mut RunMemory,
    checker: &Checker<'_>,
    context: &Context,
    image: &CaseImage<'_, '_>,
    looked: &mut Looked,
) -> Result<Option<Outcome>, AllocError>
    requires suits { Suits checker.now.verified (sectors_in image.now) context.now }
    requires room { ROOM ≤ 16384 }
    requires served { IsServed memory.old checker.now.guards }
    ensures memory { memory.new ≡ memory.old }
    ensures found { IfOk result (λ found. MatchOption found ((kept_footprint ROOM checker.now (sectors_in image.now) context.now).sectors ≡ None)
        (λ outcome. RunsSo checker.now context.now image.now outcome looked.new)) }
{
    let Noted { outcome, footprint } = checker.judge_noted::<_, ROOM>(memory, context, image);
    match footprint.sectors() {
        Some(sectors) => {
            looked.all = false;
            looked.sectors.clear();
            looked.sectors.extend_from_slice(sectors)?;
            Ok(Some(outcome))
        }
        None => Ok(None),
    }
}

/// A run on an image. Most checkers look at few sectors; where there was no room for their footprint it is run again.
fn run(
    memory: &mut RunMemory,
    checker: &Checker<'_>,
    context: &Context,
    image: &CaseImage<'_, '_>,
    looked: &mut Looked,
) -> Result<Outcome, AllocError>
    requires suits { Suits checker.now.verified (sectors_in image.now) context.now }
    requires served { IsServed memory.old checker.now.guards }
    ensures memory { memory.new ≡ memory.old }
    ensures runs { IfOk result (λ outcome. RunsSo checker.now context.now image.now outcome looked.new) }
{
    if let Some(outcome) = run_within::<64>(memory, checker, context, image, looked)? {
        return Ok(outcome);
    }
    if let Some(outcome) = run_within::<1024>(memory, checker, context, image, looked)? {
        return Ok(outcome);
    }
    if let Some(outcome) = run_within::<16384>(memory, checker, context, image, looked)? {
        return Ok(outcome);
    }
    looked.all = true;
    Ok(checker.judge(memory, context, image))
}

/// A run on the image of a case's representative, if the device has the size of which the context tells.
pub(crate) fn run_on(
    memory: &mut RunMemory,
    checker: &Checker<'_>,
    context: &Context,
    formed: &mut Vec<Formed>,
    looked: &mut Looked,
    rows: &KnownRows<'_>,
    tears: bool,
    sets: &[u16],
) -> Result<Outcome, AllocError>
    requires each { length sets.now ≡ length (parts_of rows.now) }
    requires fit { IsFit checker.now context.now }
    requires served { IsServed memory.old checker.now.guards }
    ensures memory { memory.new ≡ memory.old }
    ensures judges { IfOk result (λ outcome. JudgesSo (program_of checker.now context.now) rows.now tears sets.now outcome (looked_in context.now.sectors looked.new)) }
{
    if rows.sectors() != context.sectors {
        looked.all = false;
        looked.sectors.clear();
        return Ok(Outcome::OutOfSteps);
    }
    let image = CaseImage::new(formed, rows, tears, sets)?;
    run(memory, checker, context, &image, looked)
}

/// The part that splits a case, by all sectors of a device of `count`. It makes no row known.
fn split_anywhere(cut: &Cut<'_>, sets: &[u16], count: u32) -> Option<Parted>
    requires { length sets.now ≡ length (parts_of cut.now) }
    ensures { (tears : Bool) → IsSplitAt cut.now tears sets.now result (range_with_len 0 count) }
{
    for sector in 0..count {
        if let Some(found) = cut.first_split(sets, &[sector]) {
            return Some(found);
        }
    }
    None
}

/// The part that splits a case, of the sectors at which a checker looked.
pub(crate) fn split_looked(
    looked: &Looked,
    count: u32,
    rows: &mut KnownRows<'_>,
    sets: &[u16],
) -> Result<Option<Parted>, AllocError>
    requires { length sets.now ≡ length (parts_of rows.old) }
    ensures same { rows.new ≡ rows.old }
    ensures found { (tears : Bool) → IfOk result (λ found. IsSplitAt rows.old tears sets.now found (looked_in count looked.now)) }
{
    if looked.all {
        Ok(split_anywhere(rows.cut(), sets, count))
    } else {
        rows.first_split(sets, looked.sectors.as_slice())
    }
}
