//! The footprint of a run.

ghost use Rattle.std.specs.Prelude.{◌≡◌, ◌<◌, ◌≤◌, ◌∷◌, [], IsFalse, MatchOption, None};
ghost use Rattle.helpers.specs.Footprint.{lists, footprint_with, footprint_after, on_device, sector_at, sectors_at, sectors_of, helper_sectors, unread};
ghost use Rattle.helpers.specs.Queries.{query_sectors};
ghost use Rattle.helpers.specs.Sums.{summed_sectors};

use crate::answers::SECTOR_START;
use crate::device::Device;
use crate::helper::{Helper, Query};
use crate::sums::taken;
use arrayvec::ArrayVec;
use std::marker::Model;

/// The sectors at which a run looked (docs/MACHINE.md, Footprint), each once, up to `ROOM` of them; or none of them
/// where they were more, and each sector may be one. Without room nothing is kept, and nothing is done.
#[derive(Drop)]
pub struct Footprint<const ROOM: usize> {
    sectors: ArrayVec<u32, ROOM>,
    all: bool,
}

impl<const ROOM: usize> Model for Footprint<ROOM> {
    ghost use Rattle.std.specs.Prelude.{◌≡◌, true, if◌then◌else◌, None, Some};
    ghost use Rattle.helpers.specs.Footprint.{FootprintValue};

    ghost Value = { FootprintValue };

    ghost view = { λ f. record { room = ROOM; sectors = if f.all then None else Some f.sectors.items } };

    ghost invariant = { λ f. ROOM ≡ 0 → f.all ≡ true };
}

/// Whether a number is one of those.
#[inline(always)]
fn lists(numbers: &[u32], number: u32) -> bool
    ensures { result ≡ lists numbers.now number }
{
    numbers.iter().any(|own| *own == number)
}

impl<const ROOM: usize> Footprint<ROOM> {
    /// That of a run that hasn't looked at any.
    #[inline(always)]
    pub fn new() -> Footprint<ROOM>
        ensures { result ≡ unread ROOM }
    {
        Footprint {
            sectors: ArrayVec::new(),
            all: ROOM == 0,
        }
    }

    /// The run looks at that sector.
    #[inline(always)]
    #[tactic(auto, unfolding(crate::specs::Footprint::footprint_with))]
    pub fn note(&mut self, number: u32)
        ensures { self.new ≡ footprint_with self.old number }
    {
        if ROOM == 0 || self.all || lists(self.sectors.as_slice(), number) {
            return;
        }
        if self.sectors.len() < ROOM {
            self.sectors.push(number);
        } else {
            self.all = true;
        }
    }

    /// It looks at a sector, if the device has it.
    #[inline(always)]
    pub fn look<D: Device>(&mut self, device: &D, number: u64)
        ensures { self.new ≡ footprint_after self.old (on_device (D.content device.now) (number ∷ [])) }
    {
        if number < u64::from(device.sectors()) {
            self.note(number as u32);
        }
    }

    /// It looks at the sector that has its byte at an address, if one has.
    #[inline(always)]
    fn look_at<D: Device>(&mut self, device: &D, address: u64)
        ensures { self.new ≡ footprint_after self.old (on_device (D.content device.now) (sector_at address)) }
    {
        if address >= SECTOR_START {
            self.look(device, (address - SECTOR_START) / 1024);
        }
    }

    /// It looks at that many bytes from an address on.
    #[inline(always)]
    #[tactic(auto, using(crate::proofs::CallerLemmas::looked_both))]
    pub fn look_from<D: Device>(&mut self, device: &D, address: u64, count: u8)
        requires { 0 < count }
        ensures { self.new ≡ footprint_after self.old (on_device (D.content device.now) (sectors_at address count)) }
    {
        self.look_at(device, address);
        self.look_at(device, address.wrapping_add(u64::from(count) - 1));
    }

    /// It looks at that many bytes of the device, from a position on.
    #[inline(always)]
    #[tactic(auto, using(crate::proofs::CallerLemmas::looked_both, crate::proofs::CallerLemmas::nothing_over))]
    pub fn look_over<D: Device>(&mut self, device: &D, position: u64, count: u64)
        ensures { self.new ≡ footprint_after self.old (on_device (D.content device.now) (sectors_of position count)) }
    {
        let _sectors = device.sectors();
        self.look(device, position / 512);
        if let Some(end) = position.checked_add(count) {
            self.look(device, end.saturating_sub(1) / 512);
        }
    }

    /// It looks for a query of the numbers in registers 1 to 3.
    #[inline(always)]
    #[tactic(auto, unfolding(crate::specs::Queries::query_sectors), using(crate::proofs::CallerLemmas::looked_both))]
    pub fn look_for<D: Device>(
        &mut self,
        device: &D,
        query: Query,
        first: u64,
        second: u64,
        third: u64,
    )
        ensures { self.new ≡ footprint_after self.old (on_device (D.content device.now) (query_sectors query first second third)) }
    {
        match query {
            Query::Sector => {}
            Query::Same => {
                self.look(device, first);
                self.look(device, second);
            }
            Query::Crc32c => note_summed(self, device, second, taken(third)),
            Query::Crc32 => note_summed(self, device, second, taken(third)),
            _ => self.look(device, first),
        }
    }

    /// It looks at what a call of a helper asks for, by the words of registers 1 to 3.
    #[tactic(auto, unfolding(crate::specs::Footprint::helper_sectors))]
    pub fn look_with<D: Device>(
        &mut self,
        device: &D,
        helper: Helper,
        first: u64,
        second: u64,
        third: u64,
    )
        ensures { self.new ≡ footprint_after self.old (on_device (D.content device.now) (helper_sectors helper first second third)) }
    {
        match helper {
            Helper::Copy => self.look_over(device, first, third),
            Helper::Query(query) => self.look_for(device, query, first, second, third),
            Helper::Again => {}
            Helper::Report => {}
        }
    }

    /// Whether something more may be kept.
    #[inline(always)]
    pub fn keeps(&self) -> bool
        ensures { IsFalse result → self.now.sectors ≡ None }
    {
        ROOM > 0 && !self.all
    }

    /// The sectors, or `None` where each may be one.
    pub fn sectors(&self) -> Option<&[u32]>
        ensures { MatchOption result (self.now.sectors ≡ None) (λ sectors. self.now.sectors ≡ Some sectors.now) }
    {
        if self.all {
            None
        } else {
            Some(self.sectors.as_slice())
        }
    }
}

/// Notes each sector that has one of that many bytes of the device, from a position on.
fn note_summed<D: Device, const ROOM: usize>(
    footprint: &mut Footprint<ROOM>,
    device: &D,
    position: u64,
    count: u64,
)
    requires few { count ≤ 4096 }
    ensures { footprint.new ≡ footprint_after footprint.old (on_device (D.content device.now) (summed_sectors position count)) }
{
    if count == 0 {
        return;
    }
    let first = position / 512;
    let many = (position % 512 + count + 511) / 512;
    'sectors: for sector in 0..many {
        footprint.look(device, first + sector);
    }
}
