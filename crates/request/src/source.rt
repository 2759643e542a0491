//! What every command reads of a log: the log itself, and the number of the crash images that are
//! asked for of it.

ghost use Rattle.std.specs.Prelude.{◌≡◌, ◌≤◌, true, ◌*◌, ◌⊎◌, length, filter, nat_le, slice_get, IfOk, IfErr};
ghost use Rattle.base.specs.declared.causes.LogCause.TheVariants as cause;
ghost use Rattle.logfmt.specs.Faults.{FirstFault};
ghost use Rattle.choices.specs.Choices.{ranked_choices};
ghost use Rattle.request.specs.Extents.{most_images, has_extent};
ghost use Rattle.request.specs.Source.{log_refusal, images_refusal, lacking_refusal, cut_past, either, lacking, plan_of, images_of, IsRecorded, IsLogOf, RefusesLog, RefusesPlan};

use crate::options::Options;
use crate::refusals::option_refusal_of;
use crate::settings::OptionPlace;
use base::causes::RequestCause;
use base::refusal::{Cause, Refusal};
use choices::{TooMany, count_up_to};
use epochs::{Cuts, Plan};
use logfmt::{InitialContent, Log, LogFault, SECTOR, read};
use std::alloc::Global;

/// The refusal that says a fault of the log.
pub fn log_refusal_of(fault: LogFault) -> Refusal
    ensures { result ≡ log_refusal fault.code fault.at }
{
    Refusal {
        code: Cause::Log(fault.code),
        at: u64::from(fault.at),
        program: None,
    }
}

/// The refusal of a log with too many crash images.
fn images_refusal_of(fault: TooMany) -> Refusal
    ensures { result ≡ images_refusal fault.at }
{
    Refusal {
        code: Cause::Request(RequestCause::TooManyImages),
        at: u64::from(fault.at),
        program: None,
    }
}

/// The refusal that says an entry or a cut that the log doesn't have.
fn lacking_refusal_of(place: u64) -> Refusal
    ensures { result ≡ lacking_refusal place }
{
    Refusal {
        code: Cause::Request(RequestCause::NotInLog),
        at: place,
        program: None,
    }
}

/// The first of some entries that a log of `count` entries doesn't have.
fn entry_past(entries: &[u32], count: usize) -> Option<u64>
    ensures { result ≡ slice_get (filter (λ entry. nat_le count entry) entries.now) 0 }
{
    match entries {
        [] => None,
        [first, rest @ ..] => {
            if count <= *first as usize {
                Some(u64::from(*first))
            } else {
                entry_past(rest, count)
            }
        }
    }
}

/// A cut that is given, where a log of `count` entries doesn't have it.
fn cut_past(cut: Option<u64>, count: usize) -> Option<u64>
    ensures { result ≡ slice_get (cut_past count cut) 0 }
{
    match cut {
        Some(cut) if cut > count as u64 => Some(cut),
        _ => None,
    }
}

/// The first of two, where there is one, and else the second.
fn either(first: Option<u64>, second: Option<u64>) -> Option<u64>
    ensures { result ≡ either first second }
{
    match first {
        Some(place) => Some(place),
        None => second,
    }
}

/// The first entry or cut that is named and that a log of `count` entries doesn't have.
fn first_lacking(cuts: &Cuts, count: usize) -> Option<u64>
    ensures { result ≡ slice_get (lacking cuts.now count) 0 }
{
    let entry = entry_past(cuts.flushes.places(), count);
    let first = cut_past(cuts.from, count);
    let last = cut_past(cuts.to, count);
    either(entry, either(first, last))
}

/// The log of these bytes, for a device of the options' size, over what it held before entry 0.
fn log_over_base<'x>(
    alloc: Global,
    bytes: &'x [u8],
    initial: &'x [u8],
    options: &Options,
) -> Result<Log<'x>, LogFault>
    requires { length initial.now ≤ 512 * options.now.sectors }
    ensures log { IfOk result (IsRecorded (record { text = bytes.now; initial = initial.now }) options.now) }
    ensures fault { IfErr result (λ f. (f ≡ record { code = cause.Memory; at = 0 }) ⊎ FirstFault bytes.now options.now.sectors options.now.limits f.code f.at) }
{
    match read(alloc, bytes, options.sectors(), options.limits()) {
        Ok(log) => Ok(log.over(InitialContent::of(initial))),
        Err(fault) => Err(fault),
    }
}

/// The log of these bytes as it is recorded, without flushes that are added: for a device of the options' size, over what it held before
/// entry 0, zeros after the bytes of `initial`.
///
/// # Errors
///
/// 13 at 14 where `initial` has more bytes than the device; the first fault of the log; or want of memory.
pub fn read_recorded<'x>(
    alloc: Global,
    bytes: &'x [u8],
    initial: &'x [u8],
    options: &Options,
) -> Result<Log<'x>, Refusal>
    ensures log { IfOk result (IsRecorded (record { text = bytes.now; initial = initial.now }) options.now) }
    ensures refused { IfErr result (RefusesLog (record { text = bytes.now; initial = initial.now }) options.now) }
{
    if initial.len() > SECTOR * options.sectors() as usize {
        return Err(option_refusal_of(OptionPlace::Base));
    }
    match log_over_base(alloc, bytes, initial, options) {
        Ok(log) => Ok(log),
        Err(fault) => Err(log_refusal_of(fault)),
    }
}

/// The log of these bytes by the options, as `read_recorded` reads it, with the flushes that are added.
///
/// # Errors
///
/// Those of `read_recorded`; or 15 at the first entry or cut that is named and that the log doesn't have.
pub fn read_log<'x>(
    alloc: Global,
    bytes: &'x [u8],
    initial: &'x [u8],
    options: &Options,
) -> Result<Log<'x>, Refusal>
    ensures log { IfOk result (IsLogOf (record { text = bytes.now; initial = initial.now }) options.now) }
    ensures refused { IfErr result (RefusesLog (record { text = bytes.now; initial = initial.now }) options.now) }
{
    let log = match read_recorded(alloc, bytes, initial, options) {
        Ok(log) => log,
        Err(refusal) => return Err(refusal),
    };
    let cuts = options.cuts();
    match first_lacking(&cuts, log.entries().len()) {
        Some(place) => Err(lacking_refusal_of(place)),
        None => Ok(log.with_flushes(cuts.flushes.places())),
    }
}

/// The plan of a log by the options, and how many crash images it has.
///
/// # Errors
///
/// 12 at the first cut with which there are too many images; 13 at 17 where there are fewer than are meant; or want of memory.
pub fn plan_of<'a>(
    alloc: Global,
    log: &'a Log<'_>,
    options: &Options,
) -> Result<(Plan<'a>, u64), Refusal>
    ensures plan { IfOk result (λ p. p.0 ≡ plan_of options.now log.now) }
    ensures count { IfOk result (λ p. p.1 ≡ length (images_of options.now log.now)) }
    ensures few { IfOk result (λ p. p.1 ≤ most_images options.now.extent) }
    ensures within { IfOk result (λ p. has_extent options.now.extent p.1 ≡ true) }
    ensures refused { IfErr result (RefusesPlan options.now log.now) }
{
    let plan = match Plan::new(alloc, log, options.cuts(), options.by()) {
        Ok(plan) => plan,
        Err(_error) => return Err(Refusal::of_memory()),
    };
    let extent = options.extent();
    let images = match count_up_to(&plan, options.bound(), options.tears(), extent.most()) {
        Ok(images) => images,
        Err(fault) => return Err(images_refusal_of(fault)),
    };
    if !extent.is_within(images) {
        return Err(option_refusal_of(OptionPlace::Images));
    }
    Ok((plan, images))
}
