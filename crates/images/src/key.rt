//! Keys of images, by which equal work is known.

ghost use Rattle.std.specs.Prelude.{◌≡◌, ◌≤◌, ◌<◌, length, IfOk, ℕ, Some};
ghost use Rattle.helpers.specs.declared.device.Context.{Context as ContextValue};
ghost use Rattle.images.specs.Equal.{same_key, key_input, key_equivalence, key_alike};
ghost use Rattle.images.specs.Keys.{shard_of, with_program, key_of};
ghost use Rattle.images.specs.Views.{ViewValue};
ghost use Rattle.std.specs.Cmp.{partial_equiv_from_equiv};

use crate::changed::ChangedSector;
use crate::listing::copy_sectors;
use helpers::Context;
use std::alloc::{AllocError, Global};
use std::hash::{Hash, Hasher};
use std::marker::Model;

/// Among how many shards keys are spread.
const SHARDS: u64 = 16;

/// What tells an image and the program that is run on it apart from the others of a log: the program,
/// the context, and the sectors of the image that differ from the base of its cut
/// (docs/CRASH-MODEL.md, Keys of images). At most 64 sectors differ. It borrows their bytes from the
/// log, but those of at most three in which a torn unit shows.
#[derive(Drop)]
pub struct Key<'a> {
    program: u8,
    epoch: u32,
    marks: u32,
    changed: Vec<ChangedSector<'a>>,
}

impl<'a> Model for Key<'a> {
    ghost use Rattle.std.specs.Prelude.{◌≤◌, length};
    ghost use Rattle.images.specs.Keys.{KeyValue};

    ghost Value = { KeyValue };

    ghost view = { λ k. record { program = k.program; epoch = k.epoch; marks = k.marks; changed = k.changed.items } };

    ghost invariant = { λ k. length k.changed.items ≤ 64 };
}

impl<'a> Key<'a> {
    /// The key of these parts.
    pub(crate) fn of(program: u8, context: Context, changed: Vec<ChangedSector<'a>>) -> Key<'a>
        requires { length changed.items ≤ 64 }
        ensures { result ≡ record { program = program; epoch = context.epoch; marks = context.marks; changed = changed.entry.items } }
    {
        Key {
            program,
            epoch: context.epoch,
            marks: context.marks,
            changed,
        }
    }

    /// The number of the program.
    pub fn program(&self) -> u8
        ensures { result ≡ self.now.program }
    {
        self.program
    }

    /// Makes it the key of the same image and of another program.
    pub fn set_program(&mut self, program: u8)
        ensures value { self.new ≡ with_program self.old program }
        ensures told { (view : ViewValue) (old : ℕ) → key_of view old ≡ Some self.old → key_of view program ≡ Some self.new }
    {
        self.program = program;
    }

    /// The epoch of the cut.
    pub fn epoch(&self) -> u32
        ensures { result ≡ self.now.epoch }
    {
        self.epoch
    }

    /// How many marks stand before the cut.
    pub fn marks(&self) -> u32
        ensures { result ≡ self.now.marks }
    {
        self.marks
    }

    /// The sectors that differ from the base, rising.
    pub fn changed_sectors(&self) -> &[ChangedSector<'a>]
        ensures value { result.now ≡ self.now.changed }
        ensures few { length result.now ≤ 64 }
    {
        self.changed.as_slice()
    }

    /// A copy of the key, for those who put one into a cache and keep one.
    ///
    /// # Errors
    ///
    /// Memory was refused.
    pub fn copy(&self, alloc: Global) -> Result<Key<'a>, AllocError>
        ensures { IfOk result (λ copy. copy ≡ self.now) }
    {
        Ok(Key {
            program: self.program,
            epoch: self.epoch,
            marks: self.marks,
            changed: copy_sectors(alloc, self.changed.as_slice(), 0)?,
        })
    }

    /// The shard of the key, below 16. Keys of equal shards may differ.
    pub fn shard(&self) -> u8
        ensures value { result ≡ shard_of self.now }
        ensures bound { result < 16 }
    {
        let mut sum = u64::from(self.program);
        for sector in self.changed.as_slice() {
            sum = sum.wrapping_add(sector.mix());
            sum = sum.wrapping_add(u64::from(sector.number()));
        }
        (sum % SHARDS) as u8
    }
}

impl<'a> PartialEq for Key<'a> {
    ghost eq = { same_key };

    ghost laws = { partial_equiv_from_equiv key_equivalence };

    #[tactic(auto, unfolding(crate::specs::Equal::same_key))]
    fn eq(&self, other: &Key<'a>) -> bool {
        self.program == other.program
            && self.epoch == other.epoch
            && self.marks == other.marks
            && self.changed == other.changed
    }
}

impl<'a> Eq for Key<'a> {
    ghost laws = { key_equivalence };
}

impl<'a> Hash for Key<'a> {
    ghost hash_input = { key_input };

    ghost respects_eq = { key_alike };

    #[tactic(auto, unfolding(crate::specs::Equal::key_input))]
    fn hash<H: Hasher>(&self, state: &mut H) {
        state.write_u8(self.program);
        state.write_u32(self.epoch);
        state.write_u32(self.marks);
        self.changed.hash(state);
    }
}
