//! At which sectors a step looks (docs/MACHINE.md, Footprint). A load and a call of a helper note it, before they are made, and
//! no other step does.

ghost use Rattle.std.specs.Prelude.{◌≡◌, ◌<◌, ◌≤◌, []};
ghost use Rattle.std.specs.Option.{option_map_or};
ghost use Rattle.helpers.specs.Footprint.{footprint_after, footprint_with, on_device, sectors_at};
ghost use Rattle.machine.specs.Memory.{byte_count};
ghost use Rattle.helpers.specs.Sums.{checksum_of};
ghost use Rattle.machine.specs.Looks.{look_of};
ghost use Rattle.plain.specs.Reads.{plain_number_reads, plain_sum_reads, record_reads};
ghost use Rattle.plain.specs.Steps.{plain_address};

use crate::state::Machine;
use arithmetic::{bytes_of, look_of};
use bpf_isa::instr::Size;
use bpf_isa::ready::Ready;
use helpers::{Checksum, Device, Footprint, Helper, Query};
use machine::Look;

/// Notes a sector, as a function of its own.
#[inline(never)]
fn note_number<const ROOM: usize>(footprint: &mut Footprint<ROOM>, number: u32)
    ensures { footprint.new ≡ footprint_with footprint.old number }
{
    footprint.note(number);
}

/// Notes a sector, if the footprint still keeps any.
#[inline(always)]
#[tactic(auto, using(crate::proofs::Noted::none_with))]
pub(crate) fn note_sector<const ROOM: usize>(footprint: &mut Footprint<ROOM>, number: u32)
    ensures { footprint.new ≡ footprint_with footprint.old number }
{
    if footprint.keeps() {
        note_number(footprint, number);
    }
}

/// No access from an address below this one has a byte in a sector: it has at most eight.
const FIRST_NEAR: u64 = 0x2_FFFF_FFF8;

/// Notes at which sectors that many bytes from an address on lie, as a function of its own.
#[inline(never)]
fn note_bytes<D: Device, const ROOM: usize>(
    footprint: &mut Footprint<ROOM>,
    device: &D,
    address: u64,
    count: u8,
)
    requires { 0 < count }
    ensures { footprint.new ≡ footprint_after footprint.old (on_device (D.content device.now) (sectors_at address count)) }
{
    footprint.look_from(device, address, count);
}

/// Notes at which sectors that many bytes from an address on lie, if the footprint still keeps any.
#[inline(always)]
#[tactic(auto, using(helpers::proofs::CallerLemmas::nothing_noted))]
fn note_kept<D: Device, const ROOM: usize>(
    footprint: &mut Footprint<ROOM>,
    device: &D,
    address: u64,
    count: u8,
)
    requires { 0 < count }
    ensures { footprint.new ≡ footprint_after footprint.old (on_device (D.content device.now) (sectors_at address count)) }
{
    if footprint.keeps() {
        note_bytes(footprint, device, address, count);
    }
}

/// Notes at which sectors an access of at most eight bytes lies. One to the context or a stack is one test.
#[inline(always)]
#[tactic(auto, using(crate::proofs::Noted::none_near))]
pub(crate) fn note_from<D: Device, const ROOM: usize>(
    footprint: &mut Footprint<ROOM>,
    device: &D,
    address: u64,
    count: u8,
)
    requires some { 0 < count }
    requires few { count ≤ 8 }
    ensures { footprint.new ≡ footprint_after footprint.old (on_device (D.content device.now) (sectors_at address count)) }
{
    if address >= FIRST_NEAR {
        note_kept(footprint, device, address, count);
    }
}

impl<const COUNTS: usize, const CALLED: usize, const PIECES: usize> Machine<
    COUNTS,
    CALLED,
    PIECES,
> {
    /// Notes at which sectors a checksum looks.
    #[tactic(auto, unfolding(crate::specs::Reads::plain_sum_reads))]
    fn note_sum<D: Device, const ROOM: usize>(
        &self,
        footprint: &mut Footprint<ROOM>,
        device: &D,
        checksum: Checksum,
    )
        ensures { footprint.new ≡ footprint_after footprint.old (plain_sum_reads (D.content device.now) self.now checksum) }
    {
        let [_, first, second, third, ..] = self.registers;
        match checksum {
            Checksum::OfDevice(polynomial) => {
                footprint.look_for(device, Query::summing(polynomial), first, second, third);
            }
            Checksum::OfMemory(_polynomial) => {}
        }
    }

    /// Notes at which sectors the checksum of a number looks.
    fn note_checksum<D: Device, const ROOM: usize>(
        &self,
        footprint: &mut Footprint<ROOM>,
        device: &D,
        number: u32,
    )
        ensures { footprint.new ≡ footprint_after footprint.old (option_map_or (plain_sum_reads (D.content device.now) self.now) (checksum_of number) []) }
    {
        if let Some(checksum) = Checksum::of(number) {
            self.note_sum(footprint, device, checksum);
        }
    }

    /// Notes at which sectors the helper, or the checksum, of a number looks, as a function of its own.
    #[inline(never)]
    fn note_helper<D: Device, const ROOM: usize>(
        &self,
        footprint: &mut Footprint<ROOM>,
        device: &D,
        number: u32,
    )
        ensures { footprint.new ≡ footprint_after footprint.old (plain_number_reads (D.content device.now) self.now number) }
    {
        let [_, first, second, third, ..] = self.registers;
        match Helper::of(number) {
            Some(helper) => footprint.look_with(device, helper, first, second, third),
            None => self.note_checksum(footprint, device, number),
        }
    }

    /// Notes at which sectors the helper of a number looks, if the footprint still keeps any.
    #[inline(always)]
    #[tactic(auto, using(helpers::proofs::CallerLemmas::nothing_noted))]
    pub(crate) fn note_numbered<D: Device, const ROOM: usize>(
        &self,
        footprint: &mut Footprint<ROOM>,
        device: &D,
        number: u32,
    )
        ensures { footprint.new ≡ footprint_after footprint.old (plain_number_reads (D.content device.now) self.now number) }
    {
        if footprint.keeps() {
            self.note_helper(footprint, device, number);
        }
    }

    /// Notes at which sectors a load looks.
    #[inline(always)]
    pub(crate) fn note_load<D: Device, const ROOM: usize>(
        &self,
        footprint: &mut Footprint<ROOM>,
        device: &D,
        ready: &Ready,
        size: Size,
    )
        ensures { footprint.new ≡ footprint_after footprint.old (on_device (D.content device.now) (sectors_at (plain_address self.now ready.now.src ready.now.offset) (byte_count size))) }
    {
        let address = self.address(ready.src, ready.offset);
        note_from(footprint, device, address, bytes_of(size));
    }

    /// Notes at which sectors the step of a record looks, which isn't made.
    #[inline(never)]
    #[tactic(auto, unfolding(crate::specs::Reads::plain_looks))]
    pub(crate) fn note<D: Device, const ROOM: usize>(
        &self,
        footprint: &mut Footprint<ROOM>,
        device: &D,
        ready: &Ready,
    )
        ensures { footprint.new ≡ footprint_after footprint.old (record_reads (D.content device.now) self.now ready.now) }
    {
        match look_of(ready.code) {
            Look::Nothing => {}
            Look::Load(size) => self.note_load(footprint, device, ready, size),
            Look::Call => {
                let number = (ready.immediate % 0x1_0000_0000) as u32;
                self.note_helper(footprint, device, number);
            }
        }
    }
}
