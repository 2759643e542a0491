//! What stands at a cut.

ghost use Rattle.std.specs.Prelude.{ℕ, ◌⊎◌, ◌≡◌, ◌+◌, ◌*◌, ◌<◌, ◌≤◌, ◌++◌, [], ◌∷◌, Bool, codes, if◌then◌else◌, length, slice_get, Some, IfSome, OnOk, string_bytes};
ghost use Rattle.std.specs.Option.{option_map_or};
ghost use Rattle.crash_text.specs.LogTable.{line_at};
ghost use Rattle.crash_text.specs.Cut.{place_text, arrived_text, departed_line, volatile_line, parts_text, volatile_text, told_word, is_told_at, last_before, last_text, before_line, before_text};
ghost use Rattle.crash_text.specs.AnyShown.{any_cut_shown, any_departed_line, entry_part, flight_text, flight_word, has_forced_data, in_flight, is_in_flight, place_at};
ghost use Rattle.crash_text.specs.Shown.{cut_shown};

use crate::numbering::Numbering;
use crate::table::put_entry_line;
use choices::{Departure, Fate};
use epochs::{Part, Plan};
use logfmt::Entry;
use std::alloc::AllocError;

/// Appends a part: its entry, and the sectors that it covers.
#[tactic(auto, unfolding(crate::specs::Cut::place_text))]
fn put_place(out: &mut String, part: Part) -> Result<(), AllocError>
    ensures { OnOk result (string_bytes out.new ≡ string_bytes out.old ++ place_text part) }
{
    write!(out, "entry {}", part.entry)?;
    if part.count == 1 {
        write!(out, ", sector {}", part.sector)
    } else {
        write!(out, ", {} sectors from {} on", part.count, part.sector)
    }
}

/// Appends what arrived of a part of `count` sectors.
fn put_arrived(out: &mut String, count: u32, fate: Fate) -> Result<(), AllocError>
    ensures { OnOk result (string_bytes out.new ≡ string_bytes out.old ++ arrived_text count fate) }
{
    match fate {
        Fate::Drop => write!(out, "nothing of it arrived"),
        Fate::Head(eighths) => {
            let bytes = 64 * (u64::from(eighths.count()) * u64::from(count));
            write!(out, "only its first {bytes} bytes arrived")
        }
        Fate::Tail(eighths) => {
            let bytes = 64 * (u64::from(eighths.count()) * u64::from(count));
            write!(out, "only its last {bytes} bytes arrived")
        }
    }
}

/// Appends a line for a departure.
#[tactic(auto, unfolding(crate::specs::Cut::departed_line))]
pub(crate) fn put_departed(out: &mut String, departure: Departure) -> Result<(), AllocError>
    ensures { OnOk result (string_bytes out.new ≡ string_bytes out.old ++ departed_line departure) }
{
    out.push_str("departed: ")?;
    put_place(out, departure.part)?;
    out.push_str(": ")?;
    put_arrived(out, departure.part.count, departure.fate)?;
    out.push_str("\n")
}

/// Whether an entry is in flight at a cut: it is the last before it, and forced to the device with its data.
pub fn is_in_flight(entries: &[Entry], cut: u32, number: u32) -> bool
    ensures { result ≡ is_in_flight entries.now cut number }
{
    match entries.get(number as usize) {
        Some(entry) => entry.flags.fua && u64::from(number) + 1 == u64::from(cut),
        None => false,
    }
}

/// Appends that an entry is in flight, where it is.
fn put_flight_word(
    out: &mut String,
    entries: &[Entry],
    cut: u32,
    number: u32,
) -> Result<(), AllocError>
    ensures { OnOk result (string_bytes out.new ≡ string_bytes out.old ++ flight_word entries.now cut number) }
{
    if is_in_flight(entries, cut, number) {
        out.push_str(", in flight")
    } else {
        Ok(())
    }
}

/// Appends a line for a departure at a cut, which says where its entry is in flight.
#[tactic(auto, unfolding(crate::specs::AnyShown::any_departed_line))]
pub(crate) fn put_any_departed(
    out: &mut String,
    entries: &[Entry],
    cut: u32,
    departure: Departure,
) -> Result<(), AllocError>
    ensures { OnOk result (string_bytes out.new ≡ string_bytes out.old ++ any_departed_line entries.now cut departure) }
{
    out.push_str("departed: ")?;
    put_place(out, departure.part)?;
    put_flight_word(out, entries, cut, departure.part.entry)?;
    out.push_str(": ")?;
    put_arrived(out, departure.part.count, departure.fate)?;
    out.push_str("\n")
}

/// Appends a line for a volatile part.
#[tactic(auto, unfolding(crate::specs::Cut::volatile_line))]
fn put_volatile_part(out: &mut String, part: Part) -> Result<(), AllocError>
    ensures { OnOk result (string_bytes out.new ≡ string_bytes out.old ++ volatile_line part) }
{
    out.push_str("volatile: ")?;
    put_place(out, part)?;
    out.push_str("\n")
}

/// Returns how many volatile parts are shown: 32 at most.
fn shown_parts(parts: u32) -> u32
    ensures { ((parts < 32) × (result ≡ parts)) ⊎ ((32 ≤ parts) × (result ≡ 32)) }
{
    if parts < 32 { parts } else { 32 }
}

/// Appends a line for each of the first volatile parts of a cut.
fn put_parts(out: &mut String, plan: &Plan<'_>, cut: u32) -> Result<(), AllocError>
    requires { cut ≤ length plan.now.log.entries }
    ensures { OnOk result (string_bytes out.new ≡ string_bytes out.old ++ parts_text plan.now cut) }
{
    let parts = shown_parts(plan.volatile(cut));
    for number in 0..parts {
        put_volatile_part(out, plan.part(cut, number))?;
    }
    Ok(())
}

/// Appends the first volatile parts of a cut, and how many there are.
#[tactic(auto, unfolding(crate::specs::Cut::volatile_text))]
fn put_volatile(out: &mut String, plan: &Plan<'_>, cut: u32) -> Result<(), AllocError>
    requires { cut ≤ length plan.now.log.entries }
    ensures { OnOk result (string_bytes out.new ≡ string_bytes out.old ++ volatile_text plan.now cut) }
{
    let parts = plan.volatile(cut);
    write!(out, "volatile parts: {parts}\n")?;
    put_parts(out, plan, cut)
}

/// Whether an entry is forced to the device, and has data.
fn has_forced_data(entries: &[Entry], number: u32) -> bool
    requires { number < length entries.now }
    ensures { result ≡ has_forced_data entries.now number }
{
    let entry = &entries[number as usize];
    entry.flags.fua && 0 < entry.count
}

/// The entry in flight at a cut, if it has data.
fn in_flight(entries: &[Entry], cut: u32) -> Option<u32>
    requires { cut ≤ length entries.now }
    ensures value { result ≡ in_flight entries.now cut }
    ensures there { IfSome result (λ e. e < length entries.now) }
{
    if cut == 0 {
        return None;
    }
    let last = cut - 1;
    if has_forced_data(entries, last) {
        Some(last)
    } else {
        None
    }
}

/// Appends the place of all of an entry.
#[tactic(auto, unfolding(crate::specs::Cut::place_text))]
fn put_entry_place(out: &mut String, number: u32, entry: &Entry) -> Result<(), AllocError>
    ensures { OnOk result (string_bytes out.new ≡ string_bytes out.old ++ place_text (entry_part number entry.now)) }
{
    write!(out, "entry {number}")?;
    if entry.count == 1 {
        write!(out, ", sector {}", entry.sector)
    } else {
        write!(out, ", {} sectors from {} on", entry.count, entry.sector)
    }
}

/// Appends the place of the entry in flight, if there is one.
fn put_flying(out: &mut String, entries: &[Entry], number: Option<u32>) -> Result<(), AllocError>
    requires { IfSome number (λ e. e < length entries.now) }
    ensures { OnOk result (string_bytes out.new ≡ string_bytes out.old ++ option_map_or (place_at entries.now) number (codes "none")) }
{
    match number {
        Some(number) => put_entry_place(out, number, &entries[number as usize]),
        None => out.push_str("none"),
    }
}

/// Appends the entry in flight at a cut: of it a crash may take something, though it isn't volatile.
#[tactic(auto, unfolding(crate::specs::AnyShown::flight_text))]
fn put_flight(out: &mut String, entries: &[Entry], cut: u32) -> Result<(), AllocError>
    requires { cut ≤ length entries.now }
    ensures { OnOk result (string_bytes out.new ≡ string_bytes out.old ++ flight_text entries.now cut) }
{
    out.push_str("in flight: ")?;
    put_flying(out, entries, in_flight(entries, cut))?;
    out.push_str("\n")
}

/// Appends the line of an entry.
fn put_entry(out: &mut String, numbering: &Numbering<'_>, entry: u32) -> Result<(), AllocError>
    requires there { entry < length numbering.now.log.now.entries }
    ensures { OnOk result (string_bytes out.new ≡ string_bytes out.old ++ line_at numbering.now.log.now.entries entry) }
{
    put_entry_line(
        out,
        entry as usize,
        numbering.plan.epoch(entry),
        &numbering.log.entries()[entry as usize],
    )
}

/// The kinds of entries of which the last one before a cut is told.
#[derive(Clone, Copy)]
pub(crate) enum ToldKind {
    Flush,
    Mark,
}

/// What an entry of a kind is called.
fn told_word(kind: ToldKind) -> &'static str
    ensures { result.now ≡ told_word kind }
{
    match kind {
        ToldKind::Flush => "flush",
        ToldKind::Mark => "mark",
    }
}

/// Whether an entry is of a kind.
fn is_told(kind: ToldKind, entries: &[Entry], number: u32) -> bool
    requires { number < length entries.now }
    ensures { result ≡ is_told_at kind entries.now number }
{
    let flags = entries[number as usize].flags;
    match kind {
        ToldKind::Flush => flags.flush,
        ToldKind::Mark => flags.mark,
    }
}

/// The last entry of a kind, of those before an entry and of that.
fn later(kind: ToldKind, entries: &[Entry], last: Option<u32>, number: u32) -> Option<u32>
    requires { number < length entries.now }
    ensures { result ≡ if is_told_at kind entries.now number then Some number else last }
{
    if is_told(kind, entries, number) {
        Some(number)
    } else {
        last
    }
}

/// The last entry of a kind before a cut.
fn last_told(kind: ToldKind, entries: &[Entry], cut: u32) -> Option<u32>
    requires { cut ≤ length entries.now }
    ensures value { result ≡ last_before (is_told_at kind entries.now) cut }
    ensures before { IfSome result (λ entry. entry < cut) }
{
    let mut last = None;
    for entry in 0..cut {
        last = later(kind, entries, last, entry);
    }
    last
}

/// Appends the line of the last entry of a kind before a cut, if there is one.
#[tactic(auto, unfolding(crate::specs::Cut::last_text))]
fn put_last(
    out: &mut String,
    numbering: &Numbering<'_>,
    kind: ToldKind,
    cut: u32,
) -> Result<(), AllocError>
    requires cut { cut ≤ length numbering.now.log.now.entries }
    ensures { OnOk result (string_bytes out.new ≡ string_bytes out.old ++ last_text kind numbering.now.log.now.entries cut) }
{
    let word = told_word(kind);
    write!(out, "last {word}: ")?;
    match last_told(kind, numbering.log.entries(), cut) {
        Some(entry) => put_entry(out, numbering, entry),
        None => out.push_str("none\n"),
    }
}

/// Appends a line for an entry before a cut.
fn put_before_line(
    out: &mut String,
    numbering: &Numbering<'_>,
    entry: u32,
) -> Result<(), AllocError>
    requires there { entry < length numbering.now.log.now.entries }
    ensures { OnOk result (string_bytes out.new ≡ string_bytes out.old ++ before_line numbering.now.log.now.entries entry) }
{
    out.push_str("before the cut: ")?;
    put_entry(out, numbering, entry)
}

/// Appends the last entries before a cut, at most four.
#[tactic(auto, using(crate::proofs::Steps::text_more), unfolding(crate::specs::Cut::before_text))]
fn put_before(out: &mut String, numbering: &Numbering<'_>, cut: u32) -> Result<(), AllocError>
    requires cut { cut ≤ length numbering.now.log.now.entries }
    ensures { OnOk result (string_bytes out.new ≡ string_bytes out.old ++ before_text numbering.now.log.now.entries cut) }
{
    let first = cut.saturating_sub(4);
    for step in 0..cut - first {
        put_before_line(out, numbering, first + step)?;
    }
    Ok(())
}

/// Appends what stands at a cut: what is volatile, the last entries before it, its last flush and its last mark.
///
/// # Errors
///
/// Memory was refused.
#[tactic(auto, unfolding(crate::specs::Shown::cut_shown))]
pub fn put_cut(out: &mut String, numbering: &Numbering<'_>, cut: u32) -> Result<(), AllocError>
    requires cut { cut ≤ length numbering.now.plan.now.log.entries }
    ensures { OnOk result (string_bytes out.new ≡ string_bytes out.old ++ cut_shown numbering.now.plan.now cut) }
{
    put_volatile(out, numbering.plan, cut)?;
    put_before(out, numbering, cut)?;
    put_last(out, numbering, ToldKind::Flush, cut)?;
    put_last(out, numbering, ToldKind::Mark, cut)
}

/// Appends the same of a cut where any number of parts may be lost, and which entry is in flight.
#[tactic(auto, unfolding(crate::specs::AnyShown::any_cut_shown))]
pub(crate) fn put_any_cut(
    out: &mut String,
    numbering: &Numbering<'_>,
    cut: u32,
) -> Result<(), AllocError>
    requires cut { cut ≤ length numbering.now.plan.now.log.entries }
    ensures { OnOk result (string_bytes out.new ≡ string_bytes out.old ++ any_cut_shown numbering.now.plan.now cut) }
{
    put_volatile(out, numbering.plan, cut)?;
    put_flight(out, numbering.log.entries(), cut)?;
    put_before(out, numbering, cut)?;
    put_last(out, numbering, ToldKind::Flush, cut)?;
    put_last(out, numbering, ToldKind::Mark, cut)
}
