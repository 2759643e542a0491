//! Why a case fails, in words.

ghost use Rattle.std.specs.Prelude.{◌≡◌, ◌++◌, ◌+◌, ◌<◌, ◌^◌, ℕ, length, IfOk, OnOk, string_bytes};
ghost use Rattle.case_text.specs.Causes.{if_lost, if_torn, lost_parts, torn_parts, lost_said, torn_said, and_said, gone_text, if_from, parts_from, kept_word, kept_said, while_text, nothing_text, if_at, parts_at, after_text, only_text, is_entry, left_text, uncured_text, cause_text};

use crate::fates::is_gone;
use crate::known::KnownParts;
use crate::said::put_parts;
use choices::Departure;
use epochs::{By, Part};
use losses::flushes::Window;
use std::alloc::{AllocError, Global};

/// Appends the part of a departure, if it is lost.
fn push_lost(parts: &mut Vec<Part>, departure: Departure) -> Result<(), AllocError>
    ensures { OnOk result (parts.new.items ≡ parts.old.items ++ if_lost departure) }
{
    if is_gone(Some(departure.fate)) {
        parts.push(departure.part)?;
    }
    Ok(())
}

/// Appends the part of a departure, if it is torn.
fn push_torn(parts: &mut Vec<Part>, departure: Departure) -> Result<(), AllocError>
    ensures { OnOk result (parts.new.items ≡ parts.old.items ++ if_torn departure) }
{
    if !is_gone(Some(departure.fate)) {
        parts.push(departure.part)?;
    }
    Ok(())
}

/// The parts that are lost.
fn lost_parts(alloc: Global, departures: &[Departure]) -> Result<Vec<Part>, AllocError>
    ensures { IfOk result (λ parts. parts.items ≡ lost_parts departures.now) }
{
    let mut parts = Vec::new(alloc);
    for departure in departures {
        push_lost(&mut parts, *departure)?;
    }
    Ok(parts)
}

/// The parts that are torn.
fn torn_parts(alloc: Global, departures: &[Departure]) -> Result<Vec<Part>, AllocError>
    ensures { IfOk result (λ parts. parts.items ≡ torn_parts departures.now) }
{
    let mut parts = Vec::new(alloc);
    for departure in departures {
        push_torn(&mut parts, *departure)?;
    }
    Ok(parts)
}

/// Appends the parts that are lost, where there are some.
fn put_lost(out: &mut String, by: By, parts: &[Part]) -> Result<(), AllocError>
    ensures { OnOk result (string_bytes out.new ≡ string_bytes out.old ++ lost_said by parts.now) }
{
    if parts.len() == 0 {
        return Ok(());
    }
    write!(out, "lost ")?;
    put_parts(out, by, parts)
}

/// Appends the parts that are torn, where there are some.
fn put_torn(out: &mut String, by: By, parts: &[Part]) -> Result<(), AllocError>
    ensures { OnOk result (string_bytes out.new ≡ string_bytes out.old ++ torn_said by parts.now) }
{
    if parts.len() == 0 {
        return Ok(());
    }
    write!(out, "torn ")?;
    put_parts(out, by, parts)
}

/// Appends a word between both, where there are some of each.
fn put_and(out: &mut String, lost: &[Part], torn: &[Part]) -> Result<(), AllocError>
    ensures { OnOk result (string_bytes out.new ≡ string_bytes out.old ++ and_said lost.now torn.now) }
{
    if lost.len() == 0 || torn.len() == 0 {
        return Ok(());
    }
    write!(out, " and ")
}

/// Appends what is gone: parts that are lost, and parts that are torn.
#[tactic(auto, unfolding(crate::specs::Causes::gone_text))]
fn put_gone(out: &mut String, by: By, lost: &[Part], torn: &[Part]) -> Result<(), AllocError>
    ensures { OnOk result (string_bytes out.new ≡ string_bytes out.old ++ gone_text by lost.now torn.now) }
{
    put_lost(out, by, lost)?;
    put_and(out, lost, torn)?;
    put_torn(out, by, torn)
}

/// Appends a part, if it is of an entry from that one on.
fn push_from(parts: &mut Vec<Part>, start: u32, part: Part) -> Result<(), AllocError>
    ensures { OnOk result (parts.new.items ≡ parts.old.items ++ if_from start part) }
{
    if start <= part.entry {
        parts.push(part)?;
    }
    Ok(())
}

/// Returns the parts that are of an entry from `start` on.
fn parts_from(alloc: Global, start: u32, parts: &[Part]) -> Result<Vec<Part>, AllocError>
    ensures { IfOk result (λ found. found.items ≡ parts_from start parts.now) }
{
    let mut found = Vec::new(alloc);
    for part in parts {
        push_from(&mut found, start, *part)?;
    }
    Ok(found)
}

/// Appends that parts were kept, by the number of them.
fn put_kept_word(out: &mut String, count: usize) -> Result<(), AllocError>
    ensures { OnOk result (string_bytes out.new ≡ string_bytes out.old ++ kept_word count) }
{
    if count == 1 {
        return write!(out, " was kept");
    }
    write!(out, " were kept")
}

/// Appends the parts that are kept, or where there is none the last entry of which something is there.
#[tactic(auto, unfolding(crate::specs::Causes::kept_said))]
fn put_kept(out: &mut String, by: By, parts: &[Part], end: u32) -> Result<(), AllocError>
    ensures { OnOk result (string_bytes out.new ≡ string_bytes out.old ++ kept_said by parts.now end) }
{
    if parts.len() == 0 {
        return write!(out, "entry {end} was there");
    }
    put_parts(out, by, parts)?;
    put_kept_word(out, parts.len())
}

/// Appends that something is gone while something later is there.
#[tactic(auto, unfolding(crate::specs::Causes::while_text))]
fn put_while(
    out: &mut String,
    alloc: Global,
    by: By,
    known: &KnownParts,
    window: Window,
) -> Result<(), AllocError>
    ensures { OnOk result (string_bytes out.new ≡ string_bytes out.old ++ while_text by known.now window) }
{
    let lost = lost_parts(alloc, known.lost.as_slice())?;
    let torn = torn_parts(alloc, known.lost.as_slice())?;
    let kept = parts_from(alloc, window.start, known.kept.as_slice())?;
    put_gone(out, by, lost.as_slice(), torn.as_slice())?;
    write!(out, " while ")?;
    put_kept(out, by, kept.as_slice(), window.end)
}

/// Appends an image in which nothing is lost.
#[tactic(auto, unfolding(crate::specs::Causes::nothing_text))]
fn put_nothing(out: &mut String, cut: u32) -> Result<(), AllocError>
    ensures { OnOk result (string_bytes out.new ≡ string_bytes out.old ++ nothing_text cut) }
{
    write!(out, "at cut {cut}, with nothing lost")
}

/// Appends a part, if it is of that entry.
fn push_at(parts: &mut Vec<Part>, entry: u32, part: Part) -> Result<(), AllocError>
    ensures { OnOk result (parts.new.items ≡ parts.old.items ++ if_at entry part) }
{
    if part.entry == entry {
        parts.push(part)?;
    }
    Ok(())
}

/// Returns the parts that are of one entry.
fn parts_at(alloc: Global, entry: u32, parts: &[Part]) -> Result<Vec<Part>, AllocError>
    ensures { IfOk result (λ found. found.items ≡ parts_at entry parts.now) }
{
    let mut found = Vec::new(alloc);
    for part in parts {
        push_at(&mut found, entry, *part)?;
    }
    Ok(found)
}

/// The parts of an entry that are lost.
fn lost_at(alloc: Global, entry: u32, departures: &[Departure]) -> Result<Vec<Part>, AllocError>
    ensures { IfOk result (λ found. found.items ≡ parts_at entry (lost_parts departures.now)) }
{
    let lost = lost_parts(alloc, departures)?;
    parts_at(alloc, entry, lost.as_slice())
}

/// The parts of an entry that are torn.
fn torn_at(alloc: Global, entry: u32, departures: &[Departure]) -> Result<Vec<Part>, AllocError>
    ensures { IfOk result (λ found. found.items ≡ parts_at entry (torn_parts departures.now)) }
{
    let torn = torn_parts(alloc, departures)?;
    parts_at(alloc, entry, torn.as_slice())
}

/// Appends the cut after an entry.
#[tactic(auto, unfolding(crate::specs::Causes::after_text))]
fn put_after(out: &mut String, entry: u32) -> Result<(), AllocError>
    ensures { OnOk result (string_bytes out.new ≡ string_bytes out.old ++ after_text entry) }
{
    write!(out, "at cut {}, ", u64::from(entry) + 1)
}

/// Appends its image in which only what departs of that entry is lost or torn.
#[tactic(auto, unfolding(crate::specs::Causes::only_text))]
fn put_only(
    out: &mut String,
    alloc: Global,
    by: By,
    entry: u32,
    departures: &[Departure],
) -> Result<(), AllocError>
    ensures { OnOk result (string_bytes out.new ≡ string_bytes out.old ++ only_text by entry departures.now) }
{
    put_after(out, entry)?;
    let lost = lost_at(alloc, entry, departures)?;
    let torn = torn_at(alloc, entry, departures)?;
    put_gone(out, by, lost.as_slice(), torn.as_slice())
}

/// Whether that entry is it.
fn is_entry(found: Option<u32>, entry: u32) -> bool
    ensures { result ≡ is_entry found entry }
{
    match found {
        Some(number) => number == entry,
        None => false,
    }
}

/// Appends an image of a case without a window, by the first entry of which a part isn't whole on any of its images.
fn put_left(
    out: &mut String,
    alloc: Global,
    by: By,
    known: &KnownParts,
    entry: u32,
) -> Result<(), AllocError>
    ensures { OnOk result (string_bytes out.new ≡ string_bytes out.old ++ left_text by known.now entry) }
{
    if is_entry(known.last_arrived, entry) {
        return put_only(out, alloc, by, entry, known.lost.as_slice());
    }
    put_nothing(out, entry)
}

/// Appends an image of a case without a window, by the first entry of which a part isn't whole, if there is one.
fn put_uncured(
    out: &mut String,
    alloc: Global,
    by: By,
    cut: u32,
    known: &KnownParts,
    first: Option<u32>,
) -> Result<(), AllocError>
    ensures { OnOk result (string_bytes out.new ≡ string_bytes out.old ++ uncured_text by cut known.now first) }
{
    match first {
        Some(entry) => put_left(out, alloc, by, known, entry),
        None => put_nothing(out, cut),
    }
}

/// Appends why a case fails.
pub(crate) fn put_cause(
    out: &mut String,
    alloc: Global,
    by: By,
    cut: u32,
    known: &KnownParts,
    window: Option<Window>,
) -> Result<(), AllocError>
    ensures { OnOk result (string_bytes out.new ≡ string_bytes out.old ++ cause_text by cut known.now window) }
{
    match window {
        Some(window) => put_while(out, alloc, by, known, window),
        None => put_uncured(out, alloc, by, cut, known, known.first_lost),
    }
}
