//! What units leave on a sector of a crash image.

ghost use Rattle.std.specs.Prelude.{◌≡◌, ◌+◌, ◌-◌, ◌*◌, ◌<◌, ◌≤◌, ◌^◌, ℕ, if◌then◌else◌, length, slice_get, Some};
ghost use Rattle.std.specs.List.{slice_index, slice_range};
ghost use Rattle.logfmt.specs.Initial.{initial_sector};
ghost use Rattle.epochs.specs.declared.unit.Unit.{Unit as LogUnit};
ghost use Rattle.epochs.specs.Plan.{IsUnit};
ghost use Rattle.epochs.specs.Units.{unit_content};
ghost use Rattle.images.specs.Images.{is_in, keeps, sector_after};
ghost use Rattle.images.specs.Table.{DepartOnce, head_of, tail_of, share_of, share, fate_at, reaches, showing};

use choices::{Departure, Eighths, Fate};
use epochs::{Part, Unit};
use logfmt::Log;

/// The bytes of a sector.
pub(crate) type Sector = [u8; 512];

/// The content of each unit of a discard.
static ZEROS: Sector = [0; 512];

/// How many eighths a sector has.
const EIGHTHS: u8 = 8;

/// Whether a unit is one of a part.
fn is_in(part: Part, unit: Unit) -> bool
    ensures { result ≡ is_in part unit }
{
    part.entry == unit.entry
        && (part.place <= unit.place
            && u64::from(unit.place) < u64::from(part.place) + u64::from(part.count))
}

/// A unit of which the first that many eighths are of what a torn part keeps; `None` where it is whole.
fn head_of(kept: u64) -> Option<Fate>
    ensures { result ≡ head_of kept }
{
    if kept == 0 {
        Some(Fate::Drop)
    } else if kept < 8 {
        Some(Fate::Head(Eighths::new(kept as u8)))
    } else {
        None
    }
}

/// A unit of which the last that many eighths are of what a torn part keeps; `None` where it is whole.
fn tail_of(kept: u64) -> Option<Fate>
    ensures { result ≡ tail_of kept }
{
    if kept == 0 {
        Some(Fate::Drop)
    } else if kept < 8 {
        Some(Fate::Tail(Eighths::new(kept as u8)))
    } else {
        None
    }
}

/// What becomes of a sector of a part of that many sectors, before which that many others stand, by the fate of the part.
#[tactic(auto, using(crate::proofs::Shares::one_head, crate::proofs::Shares::one_tail))]
fn share_of(fate: Fate, count: u64, before: u64) -> Option<Fate>
    requires count { count < 2 ^ 32 }
    requires before { before < count }
    ensures { result ≡ share_of fate count before }
{
    match fate {
        Fate::Drop => Some(Fate::Drop),
        Fate::Head(eighths) => {
            let kept = eighths.count();
            if count == 1 {
                Some(Fate::Head(eighths))
            } else {
                head_of((u64::from(kept) * count).saturating_sub(8 * before))
            }
        }
        Fate::Tail(eighths) => {
            let kept = eighths.count();
            if count == 1 {
                Some(Fate::Tail(eighths))
            } else {
                let beyond = count - 1 - before;
                tail_of((u64::from(kept) * count).saturating_sub(8 * beyond))
            }
        }
    }
}

/// What a departure makes of a unit; `None` where it takes nothing of it.
#[tactic(auto, unfolding(crate::specs::Table::share), using(crate::proofs::Shares::lies_in))]
fn share(departure: Departure, unit: Unit) -> Option<Fate>
    ensures { result ≡ share departure unit }
{
    let part = departure.part;
    if !is_in(part, unit) {
        return None;
    }
    let before = u64::from(unit.place - part.place);
    share_of(departure.fate, u64::from(part.count), before)
}

/// The fate of a unit of which something departs; `None` where it is whole.
pub(crate) fn fate_at(departures: &[Departure], unit: Unit) -> Option<Fate>
    ensures { result ≡ fate_at departures.now unit }
{
    match departures {
        [] => None,
        [first, rest @ ..] => match share(*first, unit) {
            Some(fate) => Some(fate),
            None => fate_at(rest, unit),
        },
    }
}

/// Whether something of a unit reaches the device: it is not dropped.
#[tactic(auto, unfolding(crate::specs::Table::reaches))]
fn reaches(departures: &[Departure], unit: Unit) -> bool
    ensures { result ≡ reaches departures.now unit }
{
    match fate_at(departures, unit) {
        Some(Fate::Drop) => false,
        Some(Fate::Head(_)) => true,
        Some(Fate::Tail(_)) => true,
        None => true,
    }
}

/// Sector `place` of an entry's data.
fn sector_at(content: &[u8], place: usize) -> &Sector
    requires { 512 * place + 512 ≤ length content.now }
    ensures { result.now ≡ slice_range content.now (512 * place) (512 * place + 512) }
{
    match <&Sector>::try_from(&content[512 * place..512 * place + 512]) {
        Ok(sector) => sector,
        Err(_) => unreachable!(),
    }
}

/// The content of a unit: its sector of the data of its entry, zeros for a discard.
pub(crate) fn content_of<'x>(log: &'x Log<'_>, unit: Unit) -> &'x Sector
    requires { IsUnit log.now unit }
    ensures value { result.now ≡ unit_content log.now.entries unit }
    ensures size { length result.now ≡ 512 }
{
    let entry = &log.entries()[unit.entry as usize];
    if entry.flags.discard {
        &ZEROS
    } else {
        sector_at(entry.content.as_slice(), unit.place as usize)
    }
}

/// What a sector held before entry 0. After the end of the initial content, and so for each sector of a
/// log without any, it is one comparison more than to lend a sector of zeros.
#[inline(always)]
pub(crate) fn initial_of<'x>(log: &'x Log<'_>, number: u32) -> &'x Sector
    ensures { result.now ≡ initial_sector log.now.initial number }
{
    log.initial().sector(number)
}

/// The unit that shows, of units that cover one sector: the last that is not dropped.
pub(crate) fn showing(row: &[Unit], departures: &[Departure]) -> Option<Unit>
    ensures { result ≡ showing departures.now row.now }
{
    let mut left = row.len();
    while left > 0 {
        left -= 1;
        let unit = row[left];
        if reaches(departures, unit) {
            return Some(unit);
        }
    }
    None
}

/// A unit with that fate over what the units before it left: each byte is that of the unit where the
/// fate keeps it.
fn lay_over(content: &Sector, earlier: &Sector, fate: Fate) -> Sector
    ensures size { length result ≡ 512 }
    ensures bytes { (i : ℕ) → i < 512 → slice_index result i ≡ (if keeps fate 1 i then slice_index content.now i else slice_index earlier.now i) }
{
    match fate {
        Fate::Drop => *earlier,
        Fate::Head(eighths) => lanes::splice(content, earlier, eighths.count()),
        Fate::Tail(eighths) => lanes::splice(earlier, content, EIGHTHS - eighths.count()),
    }
}

/// What units that cover one sector, of that number, leave on it, formed anew. It goes back to the last
/// whole unit, or to the initial content.
pub(crate) fn form_sector(log: &Log, number: u32, row: &[Unit], departures: &[Departure]) -> Sector
    requires units { (i : ℕ) (u : LogUnit) → slice_get row.now i ≡ Some u → IsUnit log.now u }
    requires once { DepartOnce departures.now }
    ensures { ((i : ℕ) (u : LogUnit) → slice_get row.now i ≡ Some u → u.sector ≡ number)
        → result ≡ sector_after log.now row.now departures.now number }
{
    if row.is_empty() {
        return *initial_of(log, number);
    }
    let last = row.len() - 1;
    let unit = row[last];
    let content = content_of(log, unit);
    let Some(fate) = fate_at(departures, unit) else {
        return *content;
    };
    let earlier = form_sector(log, number, &row[..last], departures);
    lay_over(content, &earlier, fate)
}
