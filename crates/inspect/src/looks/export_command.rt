//! The crash images of a log as bytes, each by what differs.

ghost use Rattle.std.specs.Prelude.{◌≡◌, ◌≤◌, ◌++◌, length, string_bytes, IfOk, IfErr, OnOk, OnErr, true, false};
ghost use Rattle.std.specs.Io.KnownBytes.{Appends};
ghost use Rattle.request.specs.Extents.{most_images, has_extent, is_at_once};
ghost use Rattle.request.specs.Source.{plan_of, images_of};
ghost use Rattle.export.specs.Export.{export_text};
ghost use Rattle.export.specs.Streaming.{TakesPart};
ghost use Rattle.inspect.specs.Export.{export_head, exported, IsExport, RefusesExport, WritesExport, StopsExport, RefusesInstead};

use base::refusal::Refusal;
use epochs::Plan;
use export::{Output, PlannedImages, StreamFault, WantedImages, export};
use logfmt::Log;
use request::facts::Recording;
use request::{
    OptionPlace, Options, number_line, number_of_report, option_refusal_of, plan_of, report_options,
};
use std::alloc::{AllocError, Global};
use std::io::Write;

/// Why the text of the images isn't written, or not all of it.
#[derive(Clone, Copy)]
pub enum Stopped {
    /// It is refused, and none of it is written.
    Refused(Refusal),
    /// The first bytes are written, and not all.
    Cut(StreamFault),
}

/// The line that says of which log and options the images are.
fn head_of(
    alloc: Global,
    recording: &Recording<'_>,
    log: &Log,
    options: &Options,
    images: u64,
) -> Result<String, AllocError>
    requires { images ≡ length (images_of options.now log.now) }
    ensures { IfOk result (λ head. string_bytes head ≡ export_head recording.now.text options.now log.now) }
{
    let line = report_options(alloc, log, options, images)?;
    number_line(alloc, number_of_report(recording.log(), line.as_bytes()))
}

/// Writes a head and the text of the images that are meant, of a plan of a log that has that many.
fn write_meant<W: Write>(
    alloc: Global,
    head: &str,
    log: &Log,
    plan: &Plan<'_>,
    options: &Options,
    images: u64,
    output: Output<W>,
) -> (Result<(), StreamFault>, Output<W>)
    requires going { output.has_failed ≡ false }
    requires plan { plan.now ≡ plan_of options.now log.now }
    requires count { images ≡ length (images_of options.now log.now) }
    requires few { images ≤ most_images options.now.extent }
    requires within { has_extent options.now.extent images ≡ true }
    requires at_once { is_at_once options.now.extent ≡ true }
    ensures all { OnOk result.0 (Appends (W.contents output.writer) (W.contents result.1.writer) (head.now ++ export_text (exported options.now log.now))) }
    ensures part { OnErr result.0 (TakesPart (W.contents output.writer) (W.contents result.1.writer) (head.now ++ export_text (exported options.now log.now))) }
{
    let extent = options.extent();
    let wanted = WantedImages {
        by: options.by(),
        bound: options.bound(),
        tears: options.tears(),
        from: extent.first(),
        to: extent.end(images),
    };
    let planned = PlannedImages::of(log, plan, wanted);
    export(alloc, head.as_bytes(), &planned, output)
}

/// Writes the crash images of a log that are meant, one after the other, as they are made: a line for each, and of a new one the
/// sectors in which it differs from the last that was new (docs/OUTPUT.md, The text of `export`).
///
/// # Errors
///
/// The first refusal in the order of docs/REFUSALS.md: the log, then the number of its images; or want of memory. Before these, that
/// more than 16,777,216 images may be meant. After these, that memory is wanted on the way, or that the writer takes no more.
pub fn write_images<W: Write>(
    alloc: Global,
    recording: &Recording<'_>,
    options: &Options,
    output: Output<W>,
) -> (Result<(), Stopped>, Output<W>)
    requires going { output.has_failed ≡ false }
    ensures told { OnOk result.0 (WritesExport recording.now options.now (W.contents output.writer) (W.contents result.1.writer)) }
    ensures stopped { IfErr result.0 (StopsExport recording.now options.now (W.contents output.writer) (W.contents result.1.writer)) }
{
    if !options.extent().is_at_once() {
        let refusal = option_refusal_of(OptionPlace::Images);
        return (Err(Stopped::Refused(refusal)), output);
    }
    let log = match recording.read(alloc, options) {
        Ok(log) => log,
        Err(refusal) => return (Err(Stopped::Refused(refusal)), output),
    };
    let (plan, images) = match plan_of(alloc, &log, options) {
        Ok(planned) => planned,
        Err(refusal) => return (Err(Stopped::Refused(refusal)), output),
    };
    let head = match head_of(alloc, recording, &log, options, images) {
        Ok(head) => head,
        Err(_error) => return (Err(Stopped::Refused(Refusal::of_memory())), output),
    };
    let (written, output) = write_meant(alloc, head.as_str(), &log, &plan, options, images, output);
    match written {
        Ok(()) => (Ok(()), output),
        Err(fault) => (Err(Stopped::Cut(fault)), output),
    }
}

/// The refusal by which a text that is wanted as bytes ends, where it stops so.
fn refusal_of(why: Stopped) -> Refusal
    ensures { RefusesInstead why result }
{
    match why {
        Stopped::Refused(refusal) => refusal,
        Stopped::Cut(_fault) => Refusal::of_memory(),
    }
}

/// The text of `write_images`, as bytes.
///
/// # Errors
///
/// As those of `write_images`; want of memory on the way is one more.
pub fn export_images(
    alloc: Global,
    recording: &Recording<'_>,
    options: &Options,
) -> Result<Vec<u8>, Refusal>
    ensures told { IfOk result (λ bytes. IsExport recording.now options.now bytes.items) }
    ensures refused { IfErr result (RefusesExport recording.now options.now) }
{
    let output = Output::new(Vec::new(alloc));
    let (written, output) = write_images(alloc, recording, options, output);
    match written {
        Ok(()) => Ok(output.into_writer()),
        Err(why) => Err(refusal_of(why)),
    }
}
