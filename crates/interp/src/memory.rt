//! The memory of a program (docs/MACHINE.md, Address space). An access lies in one block, the context,
//! the stack or a sector, or some address of it has no byte; so its block is found once.

ghost use Rattle.std.specs.Prelude.{◌≡◌, ◌≤◌, ◌<◌, ◌+◌, ◌-◌, ◌*◌, ◌/◌, ◌^◌, ◌⊎◌, ℕ, List, Ok, Err, length, nat_le, slice_get, IfNone, IfSome, IfOk, Some, if◌then◌else◌};
ghost use Rattle.base.specs.declared.causes.MachineFault.TheVariants.{ReadOnly, Unmapped};
ghost use Rattle.std.specs.Option.{option_map};
ghost use Rattle.machine.specs.Memory.{byte_count, byte_at, change_at, frames_with};
ghost use Rattle.machine.specs.State.{context_start, stack_start};
ghost use Rattle.machine.specs.Step.{memory};
ghost use Rattle.helpers.specs.Answers.{sector_start};
ghost use Rattle.interp.specs.Cells.{stack_with};
ghost use Rattle.interp.specs.Frames.{AreLong, BeginsAt, LieAt, frames_above};
ghost use Rattle.interp.specs.Reading.{reading, fault_of, write_fault};

use crate::frames::Frames;
use crate::stack::{Stack, read_plain};
use crate::state::{CONTEXT_START, CheckedMachine, STACK_START};
use crate::step::CheckedWorld;
use base::causes::MachineFault;
use bpf_isa::instr::Size;
use helpers::Device;
use helpers::answers::SECTOR_START;

/// The bytes of a stack and of a sector. Blocks begin 1,024 addresses apart.
const BLOCK: u64 = 512;

/// The bytes of the context.
const CONTEXT: u64 = 32;

/// The sector at an address, where there is one.
fn sector_at<'w, D: Device>(world: &CheckedWorld<'w, D>, address: u64) -> Option<&'w [u8; 512]>
    requires { sector_start ≤ address }
    ensures sector { option_map (λ s. s.now) result ≡ slice_get (D.content world.now.device.now) ((address - sector_start) / 1024) }
    ensures number { IfSome result (λ _. (address - sector_start) / 1024 < 2 ^ 32) }
{
    let number = (address - SECTOR_START) / 1024;
    if number >= u64::from(world.device.sectors()) {
        return None;
    }
    world.device.sector(number as u32)
}

/// A place in the stack of an open frame.
#[derive(Clone, Copy)]
pub(crate) struct Spot {
    pub(crate) frame: usize,
    pub(crate) place: usize,
}

/// A place in a stack, if that many bytes fit after it.
#[inline(always)]
fn spot_within(spot: Spot, count: u64) -> Result<Spot, MachineFault>
    requires place { spot.place < 512 }
    requires few { count ≤ 512 }
    ensures { result ≡ (if nat_le (spot.place + count) 512 then Ok spot else Err Unmapped) }
{
    if spot.place as u64 + count <= BLOCK {
        Ok(spot)
    } else {
        Err(MachineFault::Unmapped)
    }
}

/// Reads an access that begins at the sectors or after them.
fn read_sector<D: Device, const COUNTS: usize, const FRAMES: usize>(
    machine: &CheckedMachine<COUNTS, FRAMES>,
    world: &CheckedWorld<D>,
    address: u64,
    size: Size,
) -> Result<u64, MachineFault>
    requires { sector_start ≤ address }
    ensures { result ≡ reading (memory world.now.context (D.content world.now.device.now) machine.now) address (byte_count size) }
{
    let place = (address - SECTOR_START) % 1024;
    match sector_at(world, address) {
        Some(sector) if place < BLOCK => read_plain(sector, place, size),
        _ => Err(MachineFault::Unmapped),
    }
}

/// The fault of bytes that are written to a block that is no stack, and stand in it or not.
fn plain_fault(within: bool) -> MachineFault
    ensures { result ≡ (if within then ReadOnly else Unmapped) }
{
    if within {
        MachineFault::ReadOnly
    } else {
        MachineFault::Unmapped
    }
}

/// The fault of bytes that are written from the sectors or after them on.
fn sector_fault<D: Device, const COUNTS: usize, const FRAMES: usize>(
    machine: &CheckedMachine<COUNTS, FRAMES>,
    world: &CheckedWorld<D>,
    address: u64,
    count: u64,
) -> MachineFault
    requires from { sector_start ≤ address }
    requires some { 0 < count }
    requires few { count ≤ 512 }
    ensures { Some result ≡ write_fault (memory world.now.context (D.content world.now.device.now) machine.now) address count }
{
    let place = (address - SECTOR_START) % 1024;
    match sector_at(world, address) {
        Some(_) => plain_fault(place + count <= BLOCK),
        None => MachineFault::Unmapped,
    }
}

/// The fault of bytes that are written to the context, or from the sectors or after them on.
fn block_fault<D: Device, const COUNTS: usize, const FRAMES: usize>(
    machine: &CheckedMachine<COUNTS, FRAMES>,
    world: &CheckedWorld<D>,
    address: u64,
    count: u64,
) -> Option<MachineFault>
    requires some { 0 < count }
    requires few { count ≤ 512 }
    ensures fault { IfSome result (λ f. Some f ≡ write_fault (memory world.now.context (D.content world.now.device.now) machine.now) address count) }
    ensures context { IfNone result ((address < context_start) ⊎ (context_start + 32 ≤ address)) }
    ensures below { IfNone result (address < sector_start) }
{
    let place = address.wrapping_sub(CONTEXT_START);
    if place < CONTEXT {
        return Some(plain_fault(place + count <= CONTEXT));
    }
    if address < SECTOR_START {
        return None;
    }
    Some(sector_fault(machine, world, address, count))
}

/// Where an access lies among the frames above the first, if it begins in the stack of an open one.
fn spot_above(frames: &Frames, address: u64) -> Option<Spot>
    requires { address < sector_start }
    ensures found { IfSome result (λ s. BeginsAt frames.now address s.frame s.place) }
    ensures long { AreLong frames.now }
    ensures none { IfNone result ((q p : ℕ) → address ≡ stack_start + (1024 * (q + 1) + p) → q < length frames.now → p < 512 → ⊥) }
{
    let place = address.wrapping_sub(STACK_START);
    let (frame, place) = (place / 1024, place % 1024);
    let last = frames.count() as u64;
    if frame == 0 || frame > last || place >= BLOCK {
        return None;
    }
    Some(Spot {
        frame: frame as usize,
        place: place as usize,
    })
}

/// The frames above the first, where there are places for them.
fn above(called: &[Frames]) -> &Frames
    requires { 0 < length called.now }
    ensures { result.now ≡ frames_above called.now }
{
    &called[0]
}

/// Writes bytes from a place of the stack of an open frame above the first on.
fn write_above(called: &mut [Frames], number: usize, place: usize, bytes: &[u8])
    requires number { number < length (frames_above called.old) }
    requires few { number < 3 }
    requires fits { place + length bytes.now ≤ 512 }
    ensures { frames_above called.new ≡ change_at number (λ f. record f { stack = stack_with f.stack place bytes.now }) (frames_above called.old) }
{
    called[0].write(number, place, bytes);
}

impl<const COUNTS: usize, const FRAMES: usize> CheckedMachine<COUNTS, FRAMES> {
    /// Reads an access.
    #[inline(always)]
    pub(crate) fn read<D: Device>(
        &self,
        world: &CheckedWorld<D>,
        address: u64,
        size: Size,
    ) -> Result<u64, MachineFault>
        ensures { result ≡ reading (memory world.now.context (D.content world.now.device.now) self.now) address (byte_count size) }
    {
        let stack = &self.stack;
        let place = address.wrapping_sub(STACK_START);
        if place < BLOCK {
            return stack.read(place, size);
        }
        let place = address.wrapping_sub(CONTEXT_START);
        if place < CONTEXT {
            return read_plain(&world.context, place, size);
        }
        self.read_outside(world, address, size)
    }

    /// Reads an access that begins neither in the context nor in the first stack.
    #[inline(never)]
    fn read_outside<D: Device>(
        &self,
        world: &CheckedWorld<D>,
        address: u64,
        size: Size,
    ) -> Result<u64, MachineFault>
        requires context { (address < context_start) ⊎ (context_start + 32 ≤ address) }
        requires first { (address < stack_start) ⊎ (stack_start + 512 ≤ address) }
        ensures { result ≡ reading (memory world.now.context (D.content world.now.device.now) self.now) address (byte_count size) }
    {
        if address < SECTOR_START {
            return self.read_above(address, size);
        }
        read_sector(self, world, address, size)
    }

    /// Reads an access that begins below the sectors, and neither in the context nor in the first stack.
    #[inline(never)]
    fn read_above(&self, address: u64, size: Size) -> Result<u64, MachineFault>
        requires below { address < sector_start }
        requires context { (address < context_start) ⊎ (context_start + 32 ≤ address) }
        requires first { (address < stack_start) ⊎ (stack_start + 512 ≤ address) }
        ensures { (context : List ℕ) (device : List (List ℕ)) → length context ≡ 32 → result ≡ reading (byte_at context device self.now.frames) address (byte_count size) }
    {
        let (_stack, _called) = (&self.stack, &self.called);
        if FRAMES == 0 {
            return Err(MachineFault::Unmapped);
        }
        let frames = above(&self.called);
        match spot_above(frames, address) {
            Some(spot) => frames.stack(spot.frame - 1).read(spot.place as u64, size),
            None => Err(MachineFault::Unmapped),
        }
    }

    /// Where bytes that are written stand in a stack, or their fault.
    #[inline(always)]
    pub(crate) fn writable<D: Device>(
        &self,
        world: &CheckedWorld<D>,
        address: u64,
        count: u64,
    ) -> Result<Spot, MachineFault>
        requires some { 0 < count }
        requires few { count ≤ 512 }
        ensures fault { fault_of result ≡ write_fault (memory world.now.context (D.content world.now.device.now) self.now) address count }
        ensures spot { IfOk result (λ s. LieAt self.now.frames address count s.frame s.place) }
    {
        let (_stack, _called) = (&self.stack, &self.called);
        let place = address.wrapping_sub(STACK_START);
        if place < BLOCK {
            return spot_within(
                Spot {
                    frame: 0,
                    place: place as usize,
                },
                count,
            );
        }
        if FRAMES == 0 {
            return Err(self.fault_outside(world, address, count));
        }
        self.writable_outside(world, address, count)
    }

    /// Where bytes may be written that don't begin in the first stack, where there are places for frames above it.
    #[inline(never)]
    fn writable_outside<D: Device>(
        &self,
        world: &CheckedWorld<D>,
        address: u64,
        count: u64,
    ) -> Result<Spot, MachineFault>
        requires some { 0 < count }
        requires few { count ≤ 512 }
        requires first { (address < stack_start) ⊎ (stack_start + 512 ≤ address) }
        ensures fault { fault_of result ≡ write_fault (memory world.now.context (D.content world.now.device.now) self.now) address count }
        ensures spot { IfOk result (λ s. LieAt self.now.frames address count s.frame s.place) }
    {
        match block_fault(self, world, address, count) {
            Some(cause) => Err(cause),
            None => self.writable_above(address, count),
        }
    }

    /// The fault of bytes that are written and don't begin in the first stack, where it is the only one.
    #[inline(never)]
    fn fault_outside<D: Device>(
        &self,
        world: &CheckedWorld<D>,
        address: u64,
        count: u64,
    ) -> MachineFault
        requires some { 0 < count }
        requires few { count ≤ 512 }
        requires first { (address < stack_start) ⊎ (stack_start + 512 ≤ address) }
        requires only { FRAMES ≡ 0 }
        ensures { Some result ≡ write_fault (memory world.now.context (D.content world.now.device.now) self.now) address count }
    {
        let (_stack, _called) = (&self.stack, &self.called);
        match block_fault(self, world, address, count) {
            Some(cause) => cause,
            None => MachineFault::Unmapped,
        }
    }

    /// Where bytes may be written that begin below the sectors, and neither in the context nor in the first stack.
    #[inline(never)]
    fn writable_above(&self, address: u64, count: u64) -> Result<Spot, MachineFault>
        requires some { 0 < count }
        requires few { count ≤ 512 }
        requires below { address < sector_start }
        requires context { (address < context_start) ⊎ (context_start + 32 ≤ address) }
        requires first { (address < stack_start) ⊎ (stack_start + 512 ≤ address) }
        ensures fault { (context : List ℕ) (device : List (List ℕ)) → length context ≡ 32 → fault_of result ≡ write_fault (byte_at context device self.now.frames) address count }
        ensures spot { IfOk result (λ s. LieAt self.now.frames address count s.frame s.place) }
    {
        let (_stack, _called) = (&self.stack, &self.called);
        if FRAMES == 0 {
            return Err(MachineFault::Unmapped);
        }
        let frames = above(&self.called);
        match spot_above(frames, address) {
            Some(spot) => spot_within(spot, count),
            None => Err(MachineFault::Unmapped),
        }
    }

    /// Stores bytes in a stack.
    #[inline(always)]
    pub(crate) fn store(&mut self, spot: Spot, bytes: &[u8])
        requires frame { spot.frame < length self.old.frames }
        requires few { spot.frame < 4 }
        requires fits { spot.place + length bytes.now ≤ 512 }
        ensures { (a : ℕ) → LieAt self.old.frames a (length bytes.now) spot.frame spot.place → self.new ≡ record self.old { frames = frames_with self.old.frames a bytes.now } }
    {
        if spot.frame == 0 {
            self.stack.write(spot.place, bytes);
        } else {
            write_above(&mut self.called, spot.frame - 1, spot.place, bytes);
        }
    }
}
