//! The memory that a program with guards has of its own (docs/MACHINE.md, Memory).

ghost use Rattle.std.specs.Prelude.{◌≡◌, ◌≤◌, ◌<◌, ◌+◌, ◌-◌, ◌*◌, [], false, length, replicate, IfOk};
ghost use Rattle.base.specs.Numbers.{number_bytes};
ghost use Rattle.machine.specs.Memory.{byte_count};
ghost use Rattle.machine.specs.OwnMemory.{memory_start, zero_memory};
ghost use Rattle.machine.specs.OwnMemory.{overwritten};
ghost use Rattle.plain.specs.Blocks.{is_in_own};
ghost use Rattle.plain.specs.Kept.{AreZeros, IsKept};

use crate::called::write_at;
use bpf_isa::instr::Size;
use std::alloc::{AllocError, Global};
use std::marker::Model;

/// Where it begins.
pub(crate) const MEMORY_START: u64 = 0x100_0000_0000;

/// How many bytes it has.
const SIZE: usize = 65536;

/// The bytes of a piece of it.
const PIECE: usize = 1024;

/// Its pieces.
pub(crate) const PIECES: usize = 64;

/// The most sectors of a device beside which there is such a memory.
const MOST_BESIDE: u32 = 1_061_158_912;

/// That memory in a run, of that many pieces: a program without guards has none. Contracts see its bytes.
#[derive(Drop)]
pub(crate) struct Own<const COUNT: usize> {
    bytes: Option<Vec<u8>>,
    /// Which pieces were written since they were cleared. All others are zeros.
    written: [bool; COUNT],
    /// All pieces from this one on are zeros.
    end: usize,
}

impl<const COUNT: usize> Model for Own<COUNT> {
    ghost use Rattle.std.specs.Prelude.{◌≡◌, ◌*◌, ℕ, List, [], length};
    ghost use Rattle.std.specs.Option.{option_map_or};
    ghost use Rattle.plain.specs.Kept.{IsKept};

    ghost Value = { List ℕ };

    ghost view = { λ o. option_map_or (λ bytes. bytes.items) o.bytes [] };

    ghost invariant = { λ o. IsKept (option_map_or (λ bytes. bytes.items) o.bytes []) o.written o.end × (length (option_map_or (λ bytes. bytes.items) o.bytes []) ≡ 1024 * COUNT) };
}

/// The memory of programs with guards, for one run after the other: a run clears what the one before it wrote.
#[derive(Drop)]
pub struct OwnMemory {
    pub(crate) own: Option<Own<PIECES>>,
}

/// Clears a piece.
#[inline(always)]
fn clear_piece(bytes: &mut [u8], written: &mut [bool], end: usize, piece: usize)
    requires inside { piece < 64 }
    requires pieces { length written.old ≡ 64 }
    requires whole { length bytes.old ≡ 65536 }
    requires kept { IsKept bytes.old written.old end }
    ensures pieces { length written.new ≡ 64 }
    ensures whole { length bytes.new ≡ 65536 }
    ensures cleared { bytes.new ≡ overwritten (1024 * piece) (replicate 1024 0) bytes.old }
    ensures kept { IsKept bytes.new written.new end }
{
    let _end = end;
    write_at(bytes, PIECE * piece, &[0; PIECE]);
    written[piece] = false;
}

/// Clears a piece, if it was written.
#[inline(always)]
fn clear_noted(bytes: &mut [u8], written: &mut [bool], end: usize, piece: usize)
    requires inside { piece < 64 }
    requires pieces { length written.old ≡ 64 }
    requires whole { length bytes.old ≡ 65536 }
    requires kept { IsKept bytes.old written.old end }
    requires before { AreZeros bytes.old (1024 * piece) }
    ensures pieces { length written.new ≡ 64 }
    ensures whole { length bytes.new ≡ 65536 }
    ensures kept { IsKept bytes.new written.new end }
    ensures zeros { AreZeros bytes.new (1024 * (piece + 1)) }
{
    if !written[piece] {
        return;
    }
    clear_piece(bytes, written, end, piece);
}

/// Clears the pieces that were written, of those before `end`.
fn clear_written(bytes: &mut [u8], written: &mut [bool], end: usize)
    requires pieces { length written.old ≡ 64 }
    requires whole { length bytes.old ≡ 65536 }
    requires kept { IsKept bytes.old written.old end }
    ensures pieces { length written.new ≡ 64 }
    ensures whole { length bytes.new ≡ 65536 }
    ensures cleared { bytes.new ≡ zero_memory }
    ensures kept { IsKept bytes.new written.new 0 }
{
    'pieces: for piece in 0..end {
        clear_noted(bytes, written, end, piece);
    }
}

/// Writes bytes from a place on, and notes in which pieces. They are in two at most.
#[inline(always)]
fn write_noted(bytes: &mut [u8], written: &mut [bool], end: &mut usize, place: usize, from: &[u8])
    requires pieces { length bytes.old ≡ 1024 * length written.old }
    requires some { 0 < length from.now }
    requires few { length from.now ≤ 1024 }
    requires inside { place + length from.now ≤ length bytes.old }
    requires kept { IsKept bytes.old written.old end.old }
    ensures whole { length bytes.new ≡ length bytes.old }
    ensures stored { bytes.new ≡ overwritten place from.now bytes.old }
    ensures kept { IsKept bytes.new written.new end.new }
{
    let last = (place + from.len() - 1) / PIECE;
    written[place / PIECE] = true;
    written[last] = true;
    *end = (*end).max(last + 1);
    write_at(bytes, place, from);
}

impl Own<0> {
    /// None.
    #[inline(always)]
    #[tactic(auto, using(crate::proofs::Kept::kept_none))]
    pub(crate) fn none() -> Own<0>
        ensures { result ≡ [] }
    {
        Own {
            bytes: None,
            written: [],
            end: 0,
        }
    }
}

/// No piece that was written.
fn unwritten() -> [bool; PIECES]
    ensures { result ≡ replicate 64 false }
{
    [false; PIECES]
}

/// That many zeros.
fn zeros(alloc: Global, count: usize) -> Result<Vec<u8>, AllocError>
    ensures { IfOk result (λ bytes. bytes.items ≡ replicate count 0) }
{
    let mut bytes = Vec::new(alloc);
    bytes.resize(count, 0)?;
    Ok(bytes)
}

/// The bytes of a memory of zeros.
#[tactic(auto, unfolding(machine::specs::OwnMemory::zero_memory))]
fn zero_bytes(alloc: Global) -> Result<Vec<u8>, AllocError>
    ensures { IfOk result (λ bytes. bytes.items ≡ zero_memory) }
{
    zeros(alloc, SIZE)
}

impl Own<PIECES> {
    /// One that nothing was written to.
    #[tactic(auto, using(crate::proofs::Kept::kept_start))]
    fn new(alloc: Global) -> Result<Own<PIECES>, AllocError>
        ensures { IfOk result (λ own. own ≡ zero_memory) }
    {
        let bytes = zero_bytes(alloc)?;
        Ok(Own {
            bytes: Some(bytes),
            written: unwritten(),
            end: 0,
        })
    }

    /// Makes it zeros again.
    pub(crate) fn clear(&mut self)
        ensures { self.new ≡ zero_memory }
    {
        match &mut self.bytes {
            Some(bytes) => clear_written(bytes.as_mut_slice(), &mut self.written, self.end),
            None => unreachable!(),
        }
        self.end = 0;
    }
}

impl<const COUNT: usize> Own<COUNT> {
    /// Its bytes.
    #[inline(always)]
    pub(crate) fn bytes(&self) -> &[u8]
        ensures bytes { result.now ≡ self.now }
        ensures few { length self.now ≤ 65536 }
    {
        match &self.bytes {
            Some(bytes) => bytes.as_slice(),
            None => &[],
        }
    }

    /// Whether bytes lie in it, on a device of that many sectors.
    pub(crate) fn has(&self, sectors: u32, address: u64, count: u64) -> bool
        ensures { result ≡ is_in_own sectors self.now address count }
    {
        if sectors > MOST_BESIDE || address < MEMORY_START {
            return false;
        }
        let place = address - MEMORY_START;
        let size = self.bytes().len() as u64;
        count <= size && place <= size - count
    }

    /// Writes bytes from an address on.
    #[inline(never)]
    pub(crate) fn write(&mut self, address: u64, from: &[u8])
        requires some { 0 < length from.now }
        requires few { length from.now ≤ 1024 }
        requires above { memory_start ≤ address }
        requires inside { address + length from.now ≤ memory_start + length self.old }
        ensures { self.new ≡ overwritten (address - memory_start) from.now self.old }
    {
        let place = (address - MEMORY_START) as usize;
        match &mut self.bytes {
            Some(bytes) => write_noted(
                bytes.as_mut_slice(),
                &mut self.written,
                &mut self.end,
                place,
                from,
            ),
            None => unreachable!(),
        }
    }

    /// Writes the low bytes of a word from an address on.
    #[inline(never)]
    #[tactic(auto, unfolding(base::specs::Numbers::number_bytes))]
    pub(crate) fn write_low(&mut self, address: u64, size: Size, word: u64)
        requires above { memory_start ≤ address }
        requires inside { address + byte_count size ≤ memory_start + length self.old }
        ensures { self.new ≡ overwritten (address - memory_start) (number_bytes (byte_count size) word) self.old }
    {
        let bytes = word.to_le_bytes();
        match size {
            Size::Byte => self.write(address, &bytes[..1]),
            Size::Half => self.write(address, &bytes[..2]),
            Size::Word => self.write(address, &bytes[..4]),
            Size::Double => self.write(address, &bytes),
        }
    }
}

impl Model for OwnMemory {
    ghost use Rattle.std.specs.Prelude.{IsSome};

    ghost Value = { Unit {0} };

    ghost view = { λ m. tt };

    ghost invariant = { λ m. IsSome m.own };
}

impl OwnMemory {
    /// A memory, of which no run has written anything.
    pub fn new(alloc: Global) -> Result<OwnMemory, AllocError> {
        let own = Own::new(alloc)?;
        Ok(OwnMemory { own: Some(own) })
    }
}
