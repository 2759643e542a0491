//! Slots, or places of slots in an order, of which the lowest is taken first.
//!
//! Nothing that is proved rests on the order, nor on what is marked: a table that is found with it is tested.

ghost use Rattle.std.specs.Prelude.{◌<◌};

/// How many slots a block has, and how many blocks a program has at most.
const BLOCK: usize = 64;

/// Slots with marks: a bit for each slot, in blocks of 64, and a bit for each block that has a marked slot.
#[derive(Drop)]
pub(crate) struct Worklist {
    blocks: u64,
    slots: [u64; BLOCK],
}

impl Worklist {
    /// No slot has a mark.
    pub(crate) fn new() -> Worklist {
        Worklist {
            blocks: 0,
            slots: [0; BLOCK],
        }
    }

    /// Marks a slot.
    pub(crate) fn put(&mut self, slot: usize)
        requires { slot < 4096 }
    {
        let block = slot / BLOCK;
        self.slots[block] |= 1 << (slot % BLOCK);
        self.blocks |= 1 << block;
    }

    /// Takes the mark off the lowest slot that has one; None where no slot has.
    pub(crate) fn take(&mut self) -> Option<usize> {
        self.take_in(self.blocks)
    }

    /// Takes the mark off the lowest slot from `slot` on that has one; None where none has.
    pub(crate) fn take_from(&mut self, slot: usize) -> Option<usize>
        requires { slot < 4096 }
    {
        let (block, bit) = (slot / BLOCK, slot % BLOCK);
        let here = self.slots[block] & u64::MAX << bit;
        if here != 0 {
            return self.take_of(block, here);
        }
        self.take_in(self.blocks & (u64::MAX << block).wrapping_shl(1))
    }

    /// Takes the mark off the lowest slot of the first of these blocks.
    fn take_in(&mut self, blocks: u64) -> Option<usize> {
        let block = blocks.trailing_zeros() as usize;
        if BLOCK <= block {
            return None;
        }
        self.take_of(block, self.slots[block])
    }

    /// Takes the mark off the first of some slots of a block, if there is one.
    fn take_of(&mut self, block: usize, slots: u64) -> Option<usize>
        requires { block < 64 }
    {
        let bit = slots.trailing_zeros() as usize;
        if BLOCK <= bit {
            return None;
        }
        self.slots[block] &= !(1 << bit);
        if self.slots[block] == 0 {
            self.blocks &= !(1 << block);
        }
        Some(BLOCK * block + bit)
    }
}
