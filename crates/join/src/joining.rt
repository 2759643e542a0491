//! The join of the texts of parts.

ghost use Rattle.std.specs.Prelude.{ℕ, ◌≡◌, ◌<◌, ◌≤◌, ◌+◌, ◌^◌, ◌⊎◌, ◌++◌, ◌∷◌, [], All, false, IfErr, IfOk, MatchOption, OnOk, length, map, string_bytes};
ghost use Rattle.base.specs.declared.causes.JoinCause.TheVariants as cause;
ghost use Rattle.join.specs.Reading.{last_text, IsPartText, NoPartText, none_read};
ghost use Rattle.join.specs.Joining.{ArePartTexts, IsFirstOther, IsFirstLong, IsJoin, RefusesJoin, opening_text, size_of, totalled, added, earlier, first_some, shown_bytes};
ghost use Rattle.join.specs.Rows.{IsRowText, IsSpanOfRow, IsWritten, NoneIsStrange, IsSortedText, IsSortedApart, WhyNoRow, WhyNotJoined};

use crate::fault::{JoinFault, MEMORY_FAULT};
use crate::part::{RunPart, put_last, read_text};
use crate::row::{first_strange, put_in_order, row_fault};
use crate::tally::Tally;
use base::causes::JoinCause;
use report::{Span, put_span};
use std::alloc::{AllocError, Global};
use std::str;

/// What texts of parts come to.
#[derive(Drop)]
pub struct JoinedText {
    /// The text of their images.
    pub bytes: Vec<u8>,
    /// Whether there is a failing line.
    pub failing: bool,
}

/// How many bytes the texts may have that are joined.
const MOST_BYTES: usize = 1_073_741_824;

/// The first file with which the texts have more bytes than can be joined.
#[tactic(auto, using(crate::proofs::Joins::left_more, crate::proofs::Joins::long_found, crate::proofs::Joins::none_long))]
pub(crate) fn first_long(files: &[Vec<u8>]) -> Option<usize>
    ensures { MatchOption result (size_of (map (λ f. f.items) files.now) ≤ 2 ^ 30) (λ file. IsFirstLong (map (λ f. f.items) files.now) file) }
{
    let mut left = MOST_BYTES;
    for (number, file) in files.iter().enumerate() {
        let long = file.len();
        if long > left {
            return Some(number);
        }
        left -= long;
    }
    None
}

/// The part of a file, of whose bytes it is the text.
#[tactic(auto, using(crate::proofs::Utf8::no_text_no_part))]
fn part_of<'t>(alloc: Global, file: u32, bytes: &'t [u8]) -> Result<RunPart<'t>, JoinFault>
    requires { length bytes.now ≤ 2 ^ 30 }
    ensures part { IfOk result (λ part. IsPartText bytes.now part × (part.file ≡ file)) }
    ensures refused { IfErr result (λ f. (f ≡ record { cause = cause.Memory; file = 0 }) ⊎ ((f ≡ record { cause = cause.NotPart; file = file }) × NoPartText bytes.now)) }
{
    let other = JoinFault {
        cause: JoinCause::NotPart,
        file,
    };
    let Ok(text) = str::from_utf8(bytes) else {
        return Err(other);
    };
    match read_text(alloc, file, text) {
        Ok(Some(part)) => Ok(part),
        Ok(None) => Err(other),
        Err(_error) => Err(MEMORY_FAULT),
    }
}

/// The parts of all files, in their order.
fn parts_of<'t>(alloc: Global, files: &'t [Vec<u8>]) -> Result<Vec<RunPart<'t>>, JoinFault>
    requires few { length files.now ≤ 4096 }
    requires small { All (λ f. length f.items ≤ 2 ^ 30) files.now }
    ensures parts { IfOk result (λ parts. ArePartTexts 0 (map (λ f. f.items) files.now) parts.items) }
    ensures refused { IfErr result (λ f. (f ≡ record { cause = cause.Memory; file = 0 }) ⊎ ((f.cause ≡ cause.NotPart) × IsFirstOther (map (λ f. f.items) files.now) f.file)) }
{
    let mut parts = Vec::new(alloc);
    for (number, file) in files.iter().enumerate() {
        let part = part_of(alloc, number as u32, file.as_slice())?;
        match parts.push(part) {
            Ok(()) => (),
            Err(_failed) => return Err(MEMORY_FAULT),
        }
    }
    Ok(parts)
}

/// What is counted of two parts together.
fn sum_of(tally: Tally, other: Tally) -> Tally
    requires lines { tally.lines + other.lines < 2 ^ 64 }
    requires images { tally.images + other.images < 2 ^ 64 }
    ensures { result ≡ added tally other }
{
    Tally {
        last: other.last,
        first: tally.first.or(other.first),
        lines: tally.lines + other.lines,
        images: tally.images + other.images,
        ordered: tally.ordered && other.ordered,
    }
}

/// What is counted of all parts together.
fn total_of(parts: &[RunPart<'_>]) -> Tally
    requires few { length parts.now ≤ 4096 }
    requires lines { All (λ r. r.tally.lines ≤ 2 ^ 30) parts.now }
    requires images { All (λ r. r.tally.images ≤ 2 ^ 30) parts.now }
    ensures { result ≡ totalled none_read parts.now }
{
    let mut tally = Tally::none();
    for part in parts {
        tally = sum_of(tally, part.tally);
    }
    tally
}

/// Appends the lines of all parts.
fn put_all(out: &mut Vec<u8>, parts: &[RunPart<'_>]) -> Result<(), AllocError>
    ensures { OnOk result (out.new.items ≡ out.old.items ++ shown_bytes false parts.now) }
{
    for part in parts {
        out.extend_from_slice(part.lines)?;
    }
    Ok(())
}

/// Appends the lines of the first part that has some.
#[tactic(auto, using(crate::proofs::Joins::some_next, crate::proofs::Joins::some_found, crate::proofs::Joins::none_found))]
fn put_first_some(out: &mut Vec<u8>, parts: &[RunPart<'_>]) -> Result<(), AllocError>
    ensures { OnOk result (out.new.items ≡ out.old.items ++ first_some parts.now) }
{
    for part in parts {
        if !part.lines.is_empty() {
            return out.extend_from_slice(part.lines);
        }
    }
    Ok(())
}

/// Appends the lines that are shown.
fn put_shown(out: &mut Vec<u8>, first: bool, parts: &[RunPart<'_>]) -> Result<(), AllocError>
    ensures { OnOk result (out.new.items ≡ out.old.items ++ shown_bytes first parts.now) }
{
    if first {
        put_first_some(out, parts)
    } else {
        put_all(out, parts)
    }
}

/// The first lines of a report, or of a part of one.
fn opening(alloc: Global, span: Span) -> Result<String, AllocError>
    ensures { IfOk result (λ out. string_bytes out ≡ opening_text span) }
{
    let mut out = String::new(alloc);
    if span.from == 0 && span.to == span.images {
        write!(out, "crash report 2\n")?;
    } else {
        put_span(&mut out, span)?;
    }
    Ok(out)
}

/// The last line of parts together.
fn last_line(alloc: Global, first: bool, images: u64, tally: Tally) -> Result<String, AllocError>
    ensures { IfOk result (λ out. string_bytes out ≡ last_text first images tally) }
{
    let mut out = String::new(alloc);
    put_last(&mut out, first, images, tally)?;
    Ok(out)
}

/// The text of the images of a span, of parts in a row.
#[tactic(auto, using(crate::proofs::Joins::written_found, crate::proofs::Joins::there))]
fn row_text(alloc: Global, span: Span, parts: &[RunPart<'_>]) -> Result<Vec<u8>, AllocError>
    requires some { 0 < length parts.now }
    requires few { length parts.now ≤ 4096 }
    requires lines { All (λ r. r.tally.lines ≤ 2 ^ 30) parts.now }
    requires images { All (λ r. r.tally.images ≤ 2 ^ 30) parts.now }
    ensures { IfOk result (λ bytes. IsWritten span parts.now bytes.items) }
{
    let run = &parts[0];
    let images = span.to.saturating_sub(span.from);
    let last = last_line(alloc, run.first, images, total_of(parts))?;
    let mut out = opening(alloc, span)?.into_bytes();
    out.extend_from_slice(run.head)?;
    put_shown(&mut out, run.first, parts)?;
    out.extend_from_slice(last.as_bytes())?;
    Ok(out)
}

/// The span of parts in a row.
fn span_of(parts: &[RunPart<'_>]) -> Span
    requires { 0 < length parts.now }
    ensures { IsSpanOfRow parts.now result }
{
    let run = &parts[0];
    let last = &parts[parts.len() - 1];
    Span {
        from: run.span.from,
        to: last.span.to,
        images: run.span.images,
        inputs: run.span.inputs,
    }
}

/// The text of parts of one run, in the order of their images, if they stand in a row and are the whole run, or may be a part of it.
fn join_row(alloc: Global, part: bool, parts: &[RunPart<'_>]) -> Result<JoinedText, JoinFault>
    requires some { 0 < length parts.now }
    requires few { length parts.now ≤ 4096 }
    requires lines { All (λ r. r.tally.lines ≤ 2 ^ 30) parts.now }
    requires images { All (λ r. r.tally.images ≤ 2 ^ 30) parts.now }
    ensures joined { IfOk result (λ j. IsRowText part parts.now j.bytes.items j.failing) }
    ensures refused { IfErr result (λ f. (f ≡ record { cause = cause.Memory; file = 0 }) ⊎ WhyNoRow part parts.now f) }
{
    if let Some(fault) = row_fault(part, parts) {
        return Err(fault);
    }
    let tally = total_of(parts);
    match row_text(alloc, span_of(parts), parts) {
        Ok(bytes) => Ok(JoinedText {
            bytes,
            failing: tally.lines > 0,
        }),
        Err(_error) => Err(MEMORY_FAULT),
    }
}

/// The text of parts of one run, if they stand in a row once they are in the order of their images, and are the whole run, or may be a
/// part of it.
fn join_run(
    alloc: Global,
    part: bool,
    parts: &mut Vec<RunPart<'_>>,
) -> Result<JoinedText, JoinFault>
    requires some { 0 < length parts.old.items }
    requires few { length parts.old.items ≤ 4096 }
    requires lines { All (λ r. r.tally.lines ≤ 2 ^ 30) parts.old.items }
    requires images { All (λ r. r.tally.images ≤ 2 ^ 30) parts.old.items }
    ensures joined { IfOk result (λ j. IsSortedText part parts.old.items j.bytes.items j.failing) }
    ensures refused { IfErr result (λ f. (f ≡ record { cause = cause.Memory; file = 0 }) ⊎ IsSortedApart part parts.old.items f) }
{
    match put_in_order(parts) {
        Ok(()) => join_row(alloc, part, parts.as_slice()),
        Err(_error) => Err(MEMORY_FAULT),
    }
}

/// The text of parts, if they are of one run and stand in a row, and are the whole run, or may be a part of it.
fn join_parts(
    alloc: Global,
    part: bool,
    parts: &mut Vec<RunPart<'_>>,
) -> Result<JoinedText, JoinFault>
    requires some { 0 < length parts.old.items }
    requires few { length parts.old.items ≤ 4096 }
    requires lines { All (λ r. r.tally.lines ≤ 2 ^ 30) parts.old.items }
    requires images { All (λ r. r.tally.images ≤ 2 ^ 30) parts.old.items }
    ensures joined { IfOk result (λ j. NoneIsStrange parts.old.items × IsSortedText part parts.old.items j.bytes.items j.failing) }
    ensures refused { IfErr result (WhyNotJoined part parts.old.items) }
{
    match first_strange(parts.as_slice()) {
        Some(place) => Err(JoinFault {
            cause: JoinCause::OtherRun,
            file: place as u32,
        }),
        None => join_run(alloc, part, parts),
    }
}

/// The text of the images of the parts of files that aren't too long.
fn join_short(alloc: Global, part: bool, files: &[Vec<u8>]) -> Result<JoinedText, JoinFault>
    requires some { 0 < length files.now }
    requires few { length files.now ≤ 4096 }
    requires short { size_of (map (λ f. f.items) files.now) ≤ 2 ^ 30 }
    ensures joined { IfOk result (λ j. IsJoin part (map (λ f. f.items) files.now) j.bytes.items j.failing) }
    ensures refused { IfErr result (RefusesJoin part (map (λ f. f.items) files.now)) }
{
    match parts_of(alloc, files) {
        Ok(mut parts) => join_parts(alloc, part, &mut parts),
        Err(fault) => Err(fault),
    }
}

/// The report of a run, of the texts of all its parts. Where `part` says so they may be some of the parts, in a row: then it is again
/// the text of a part, or the report where they are all. The files come in any order; there are 1 to 4,096 of them.
///
/// # Errors
///
/// In this order: the file with which they have more than 1 GiB; the first that isn't the text of a part, to the byte; the first that is
/// a part of another run than the first file; of the parts by their images, and those that begin alike by their files, the first that
/// begins after the end of the one before it, or before that; without `part`, the first of them where it doesn't begin at image 0, and
/// else a file after all others, where the last one doesn't end at the number of all images. Or want of memory.
pub fn join(alloc: Global, part: bool, files: &[Vec<u8>]) -> Result<JoinedText, JoinFault>
    requires some { 0 < length files.now }
    requires few { length files.now ≤ 4096 }
    ensures joined { IfOk result (λ j. IsJoin part (map (λ f. f.items) files.now) j.bytes.items j.failing) }
    ensures refused { IfErr result (RefusesJoin part (map (λ f. f.items) files.now)) }
    ensures short { IfOk result (λ _joined. size_of (map (λ f. f.items) files.now) ≤ 2 ^ 30) }
    ensures first { IfErr result (λ f. (f.cause ≡ cause.TooLong) ⊎ (size_of (map (λ f. f.items) files.now) ≤ 2 ^ 30)) }
{
    match first_long(files) {
        Some(file) => Err(JoinFault {
            cause: JoinCause::TooLong,
            file: file as u32,
        }),
        None => join_short(alloc, part, files),
    }
}
