//! The parts at risk in a failing case, a cell for each.

ghost use Rattle.std.specs.Prelude.{◌≡◌, ◌==◌, ◌&&◌, ◌-◌, ◌++◌, nat_le, length, OnOk, string_bytes};
ghost use Rattle.std.specs.Option.{option_map_or};
ghost use Rattle.cases.specs.Sets.{fates_in};
ghost use Rattle.cases.specs.AtCut.{Apart, case_of};
ghost use Rattle.case_page.specs.CaseRows.{state_of, state_word, full_room, room_of, less_room, room_left, is_inside, part_class, part_cell, part_shown, hidden_text, parts_from, all_parts};

use case_text::{fates_of, is_free, is_kept, is_never_whole, put_fates, set_at};
use choices::Fate;
use crash_text::put_word;
use epochs::{By, Part};
use losses::flushes::Window;
use page_parts::{PagePart, put, put_number};
use report::choice_text::put_part;
use std::alloc::AllocError;

/// How many parts of a case are shown of each state.
const MOST_OF_STATE: u8 = 32;

/// What becomes of a part: anything, it is whole, it isn't, or either.
#[derive(Clone, Copy)]
pub(crate) enum PartState {
    Free,
    Kept,
    Lost,
    Mixed,
}

/// How many more parts of each state may be shown.
#[derive(Clone, Copy)]
pub(crate) struct Room {
    pub(crate) free: u8,
    pub(crate) kept: u8,
    pub(crate) lost: u8,
    pub(crate) mixed: u8,
}

/// What is the same of each part of a case.
#[derive(Clone, Copy)]
pub(crate) struct CaseRow {
    /// What departs as one.
    pub(crate) by: By,
    /// Whether parts may be torn.
    pub(crate) tears: bool,
    /// Where a flush takes the case away.
    pub(crate) window: Option<Window>,
}

/// What becomes of a part.
fn state_of(tears: bool, fates: &[Option<Fate>]) -> PartState
    ensures { result ≡ state_of tears fates.now }
{
    if is_free(tears, fates) {
        PartState::Free
    } else if is_kept(fates) {
        PartState::Kept
    } else if is_never_whole(fates) {
        PartState::Lost
    } else {
        PartState::Mixed
    }
}

/// Appends the class of a state.
#[tactic(auto, unfolding(crate::specs::CaseRows::state_word))]
fn put_state(out: &mut String, state: PartState) -> Result<(), AllocError>
    ensures { OnOk result (string_bytes out.new ≡ string_bytes out.old ++ state_word state) }
{
    match state {
        PartState::Free => out.push_str("free"),
        PartState::Kept => out.push_str("kept"),
        PartState::Lost => out.push_str("lost"),
        PartState::Mixed => out.push_str("some"),
    }
}

/// Room for the first parts of each state.
fn full_room() -> Room
    ensures { result ≡ full_room }
{
    Room {
        free: MOST_OF_STATE,
        kept: MOST_OF_STATE,
        lost: MOST_OF_STATE,
        mixed: MOST_OF_STATE,
    }
}

/// How many more parts of a state may be shown.
fn room_of(room: &Room, state: PartState) -> u8
    ensures { result ≡ room_of room.now state }
{
    match state {
        PartState::Free => room.free,
        PartState::Kept => room.kept,
        PartState::Lost => room.lost,
        PartState::Mixed => room.mixed,
    }
}

/// Takes room for a part of a state, if there is some.
fn take_room(room: &mut Room, state: PartState)
    ensures { room.new ≡ less_room room.old state }
{
    match state {
        PartState::Free => room.free = room.free.saturating_sub(1),
        PartState::Kept => room.kept = room.kept.saturating_sub(1),
        PartState::Lost => room.lost = room.lost.saturating_sub(1),
        PartState::Mixed => room.mixed = room.mixed.saturating_sub(1),
    }
}

/// How many more parts may be shown.
fn room_left(room: &Room) -> usize
    ensures { result ≡ room_left room.now }
{
    usize::from(room.free)
        + usize::from(room.kept)
        + usize::from(room.lost)
        + usize::from(room.mixed)
}

/// Whether a flush before an entry takes all images of a case away.
fn is_inside(window: Option<Window>, entry: u32) -> bool
    ensures { result ≡ is_inside window entry }
{
    match window {
        Some(window) => window.start <= entry && entry <= window.end,
        None => false,
    }
}

/// Appends the classes of a part.
#[tactic(auto, unfolding(crate::specs::CaseRows::part_class))]
fn put_class(
    out: &mut String,
    row: &CaseRow,
    state: PartState,
    part: Part,
) -> Result<(), AllocError>
    ensures { OnOk result (string_bytes out.new ≡ string_bytes out.old ++ part_class row.now state part) }
{
    put(out, PagePart::PartOpen)?;
    put_state(out, state)?;
    put_word(out, is_inside(row.window, part.entry), "in")
}

/// Appends the cell of a part.
#[tactic(auto, unfolding(crate::specs::CaseRows::part_cell))]
fn put_cell(
    out: &mut String,
    row: &CaseRow,
    part: Part,
    fates: &[Option<Fate>],
) -> Result<(), AllocError>
    ensures { OnOk result (string_bytes out.new ≡ string_bytes out.old ++ part_cell row.now part fates.now) }
{
    put_class(out, row, state_of(row.tears, fates), part)?;
    put(out, PagePart::PartTitle)?;
    put_fates(out, fates)?;
    put(out, PagePart::LinkEnd)?;
    put_part(out, row.by, part.entry, part.place)?;
    put(out, PagePart::PartClose)
}

/// Appends the cell of a part, if there is room.
fn put_shown(
    out: &mut String,
    row: &CaseRow,
    room: &Room,
    part: Part,
    fates: &[Option<Fate>],
) -> Result<(), AllocError>
    ensures { OnOk result (string_bytes out.new ≡ string_bytes out.old ++ part_shown row.now room.now part fates.now) }
{
    if room_of(room, state_of(row.tears, fates)) == 0 {
        return Ok(());
    }
    put_cell(out, row, part, fates)
}

/// Appends the cell of a part with the set of its fates, if there is room, and takes that.
fn put_next(
    out: &mut String,
    row: &CaseRow,
    room: &mut Room,
    part: Part,
    set: u16,
) -> Result<(), AllocError>
    ensures text { OnOk result (string_bytes out.new ≡ string_bytes out.old ++ part_shown row.now room.old part (fates_in set)) }
    ensures room { OnOk result (room.new ≡ less_room room.old (state_of row.now.tears (fates_in set))) }
{
    let fates = fates_of(set);
    put_shown(out, row, room, part, fates.as_slice())?;
    take_room(room, state_of(row.tears, fates.as_slice()));
    Ok(())
}

/// Appends how many parts aren't shown, if there are some.
#[tactic(auto, unfolding(crate::specs::CaseRows::hidden_text))]
fn put_hidden(out: &mut String, count: usize) -> Result<(), AllocError>
    ensures { OnOk result (string_bytes out.new ≡ string_bytes out.old ++ hidden_text count) }
{
    if count == 0 {
        return Ok(());
    }
    put(out, PagePart::PartsOpen)?;
    put_number(out, count as u64)?;
    put(out, PagePart::PartsClose)
}

/// How many parts of a case aren't shown, with that room left.
fn hidden_of(parts: usize, room: &Room) -> usize
    ensures { result ≡ parts - (room_left full_room - room_left room.now) }
{
    let shown = room_left(&full_room()).saturating_sub(room_left(room));
    parts.saturating_sub(shown)
}

/// Appends the parts at risk of a case, which has a set for each of them.
#[tactic(auto, using(crate::proofs::CaseTexts::parts_end))]
pub(crate) fn put_parts(
    out: &mut String,
    row: &CaseRow,
    parts: &[Part],
    sets: &[u16],
) -> Result<(), AllocError>
    requires { Apart parts.now }
    ensures { OnOk result (string_bytes out.new ≡ string_bytes out.old ++ all_parts row.now (case_of row.now.tears parts.now sets.now) parts.now) }
{
    let mut room = full_room();
    for (number, part) in parts.iter().enumerate() {
        put_next(out, row, &mut room, *part, set_at(sets, row.tears, number))?;
    }
    put_hidden(out, hidden_of(parts.len(), &room))
}
