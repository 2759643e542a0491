//! One crash image: as bytes, and what both forms have in common.

ghost use Rattle.std.specs.Prelude.{◌≡◌, ◌<◌, ◌++◌, length, map, IfOk, IfErr, OnOk, Some, slice_get, slice_index_or, []};
ghost use Rattle.logfmt.specs.Bounds.{IsLog};
ghost use Rattle.images.specs.Views.{view_of, sectors_of, IsMember};
ghost use Rattle.request.specs.Source.{plan_of};
ghost use Rattle.inspect.specs.Image.{sector_bytes, text_in, IsImageIn, IsImage, RefusesImage};

use crate::looks::show_command::text_of;
use crate::looks::which::choice_meant;
use base::refusal::Refusal;
use choices::Choice;
use epochs::Plan;
use helpers::Device;
use images::History;
use logfmt::Log;
use request::facts::Recording;
use request::{Options, Which, plan_of};
use std::alloc::{AllocError, Global};

/// Appends a sector of a device.
fn put_sector<D: Device>(bytes: &mut Vec<u8>, device: &D, number: u32) -> Result<(), AllocError>
    requires { number < length (D.content device.now) }
    ensures { OnOk result (bytes.new.items ≡ bytes.old.items ++ slice_index_or (D.content device.now) number []) }
{
    match device.sector(number) {
        Some(sector) => bytes.extend_from_slice(sector.as_slice()),
        None => Ok(()),
    }
}

/// The sectors of a device one after the other.
fn bytes_of<D: Device>(alloc: Global, device: &D) -> Result<Vec<u8>, AllocError>
    ensures { IfOk result (λ bytes. bytes.items ≡ sector_bytes (D.content device.now)) }
{
    let mut bytes = Vec::new(alloc);
    for number in 0..device.sectors() {
        put_sector(&mut bytes, device, number)?;
    }
    Ok(bytes)
}

/// The bytes of the crash image of a choice of a plan.
fn image_bytes<'x>(
    alloc: Global,
    log: &'x Log<'x>,
    plan: &'x Plan<'x>,
    choice: &Choice,
) -> Result<Vec<u8>, AllocError>
    requires plan { plan.now.log ≡ log.now }
    requires member { IsMember plan.now choice.now }
    ensures { IfOk result (λ bytes. bytes.items ≡ sector_bytes (sectors_of (view_of plan.now choice.now))) }
{
    let history = History::new(alloc, plan, log)?;
    let view = history.view(alloc, choice)?;
    bytes_of(alloc, &view)
}

/// The form in which a crash image is printed.
#[derive(Clone, Copy)]
pub enum ImageForm {
    /// The bytes of its sectors.
    Bytes,
    /// A text in words.
    Words,
}

/// The image of a choice in that form.
fn told(
    alloc: Global,
    form: ImageForm,
    log: &Log<'_>,
    plan: &Plan<'_>,
    options: &Options,
    choice: &Choice,
) -> Result<Vec<u8>, AllocError>
    requires bounds { IsLog log.now }
    requires plan { plan.now ≡ plan_of options.now log.now }
    requires member { IsMember plan.now choice.now }
    ensures { IfOk result (λ bytes. bytes.items ≡ text_in form options.now plan.now choice.now) }
{
    match form {
        ImageForm::Bytes => image_bytes(alloc, log, plan, choice),
        ImageForm::Words => text_of(alloc, log, plan, options, choice),
    }
}

/// The crash image that is meant, in that form.
pub(crate) fn image_in(
    alloc: Global,
    form: ImageForm,
    recording: &Recording<'_>,
    which: Which,
    options: &Options,
) -> Result<Vec<u8>, Refusal>
    ensures shown { IfOk result (λ bytes. IsImageIn form recording.now options.now which bytes.items) }
    ensures refused { IfErr result (RefusesImage recording.now options.now which) }
{
    let log = recording.read(alloc, options)?;
    let (plan, images) = plan_of(alloc, &log, options)?;
    let choice = choice_meant(alloc, &plan, images, options, which)?;
    match told(alloc, form, &log, &plan, options, &choice) {
        Ok(bytes) => Ok(bytes),
        Err(_error) => Err(Refusal::of_memory()),
    }
}

/// The bytes of the crash image that is meant: its sectors one after the other (docs/COMMANDS.md, Commands). The
/// programs' options are not asked for.
///
/// # Errors
///
/// The first refusal in the order of docs/REFUSALS.md: the log, the number of its images, then a number that no
/// image has, 13 at 9, or a cut and a choice that none has, 13 at 11; or want of memory.
pub fn image(
    alloc: Global,
    recording: &Recording<'_>,
    which: Which,
    options: &Options,
) -> Result<Vec<u8>, Refusal>
    ensures shown { IfOk result (λ bytes. IsImage recording.now options.now which bytes.items) }
    ensures refused { IfErr result (RefusesImage recording.now options.now which) }
{
    image_in(alloc, ImageForm::Bytes, recording, which, options)
}
