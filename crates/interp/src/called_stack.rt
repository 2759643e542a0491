//! The stack of a frame that is entered again and again: its bytes, and apart from them when they were
//! written.

ghost use Rattle.std.specs.Prelude.{◌≡◌, ◌≤◌, ◌<◌, ◌+◌, length, map, replicate, unwrap_or};
ghost use Rattle.machine.specs.Memory.{byte_count};
ghost use Rattle.machine.specs.State.{unset_stack};
ghost use Rattle.interp.specs.Cells.{filled_stack, stack_with};
ghost use Rattle.interp.specs.Reading.{reading, stack_byte};

use crate::stack::{is_marked, known_bytes, number};
use arithmetic::byte_count;
use base::causes::MachineFault;
use bpf_isa::instr::Size;
use std::marker::Model;

/// A stack of 512 bytes, each a number or unset. Entering its frame unsets all of them by one more mark,
/// and clears the marks at one time in 255.
#[derive(Drop)]
pub(crate) struct CalledStack {
    bytes: [u8; 512],
    /// For each byte the mark with which it was written last, or 0.
    marks: [u8; 512],
    /// The mark of the bytes that are set.
    mark: u8,
}

impl Model for CalledStack {
    ghost use Rattle.std.specs.Prelude.{◌≡◌, ◌<◌, ℕ, List, Option, length};
    ghost use Rattle.interp.specs.Cells.{cells, AreUpTo};

    ghost Value = { List (Option ℕ) };

    ghost view = { λ s. cells s.mark s.bytes s.marks };

    ghost invariant = { λ s. (length s.bytes ≡ 512) × (length s.marks ≡ 512) × (0 < s.mark) × AreUpTo s.mark s.marks };
}

impl CalledStack {
    /// A stack that nothing was written to.
    pub(crate) fn new() -> CalledStack
        ensures unset { result ≡ unset_stack }
        ensures long { length result ≡ 512 }
    {
        CalledStack {
            bytes: [0; 512],
            marks: [0; 512],
            mark: 1,
        }
    }

    /// Unsets every byte.
    pub(crate) fn clear(&mut self)
        ensures unset { self.new ≡ unset_stack }
        ensures long { length self.new ≡ 512 }
    {
        if self.mark == u8::MAX {
            self.marks = [0; 512];
            self.mark = 1;
            return;
        }
        self.mark += 1;
    }

    /// Reads an access that begins at a place of the stack.
    pub(crate) fn read(&self, place: u64, size: Size) -> Result<u64, MachineFault>
        requires { place < 512 }
        ensures { result ≡ reading (stack_byte self.now) place (byte_count size) }
    {
        let (bytes, marks) = (&self.bytes, &self.marks);
        if place + byte_count(size) > 512 {
            return Err(MachineFault::Unmapped);
        }
        if !is_marked(marks, place as usize, size, self.mark) {
            return Err(MachineFault::UnsetByte);
        }
        Ok(number(bytes, place as usize, size))
    }

    /// Writes bytes from a place of the stack on.
    pub(crate) fn write(&mut self, place: usize, bytes: &[u8])
        requires { place + length bytes.now ≤ 512 }
        ensures written { self.new ≡ stack_with self.old place bytes.now }
        ensures long { length self.new ≡ 512 }
    {
        let end = place + bytes.len();
        self.bytes[place..end].copy_from_slice(bytes);
        let mark = self.mark;
        give_all(&mut self.marks[place..end], mark);
    }

    /// Sets each unset byte to 0.
    pub(crate) fn fill(&mut self)
        ensures filled { self.new ≡ filled_stack self.old }
        ensures long { length self.new ≡ 512 }
    {
        let mark = self.mark;
        let known = known_bytes(&self.bytes, &self.marks, mark);
        self.bytes = known;
        self.marks = [mark; 512];
    }

    /// Its bytes, where an unset byte is 0.
    pub(crate) fn known(&self) -> [u8; 512]
        ensures known { result ≡ map (λ c. unwrap_or c 0) self.now }
        ensures long { length result ≡ 512 }
    {
        known_bytes(&self.bytes, &self.marks, self.mark)
    }
}

/// Gives all of these bytes one mark.
fn give_all(marks: &mut [u8], mark: u8)
    ensures { marks.new ≡ replicate (length marks.old) mark }
{
    marks.fill(mark);
}
