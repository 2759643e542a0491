//! A worker's deque of blocks with its owner's port, and the stealer of another worker's deque.

ghost use Rattle.std.specs.Prelude.{◌≡◌, ◌<◌, ◌≤◌, ◌+◌, ◌-◌, ◌++◌, ◌∷◌, [], true, false, length, IfOk, IfErr, OnOk, IfSome, IfNone};
ghost use Rattle.crossbeam_deque.specs.Handles.{IsPassOf, stealer_deque};
ghost use Rattle.shares.specs.Owned.{deque_value, other_value, with_got, with_marks, AddsLeft};
ghost use Rattle.shares.specs.Deques.{port, IsAllGot};

use crate::deque::{Deal, Dealt, Drain, GivePart, HeldBlocks, Pop, Port, Push, TakeOut, TakePart};
use crossbeam_deque::{Pass, Steal, Stealer, Worker};
use std::alloc::{AllocError, Global};
use std::marker::Model;

/// How many blocks a deque has place for before it grows. No deque holds more than a take leaves in it.
const ROOM: usize = 4;

/// A worker's own deque, with the port by which it pushes and pops.
#[derive(Drop)]
pub(crate) struct Deque<H: Deal> {
    owner: Worker<HeldBlocks, Global, Port, Dealt<H>>,
}

impl<H: Deal> Model for Deque<H> {
    ghost use Rattle.std.specs.Prelude.{◌≡◌, ◌<◌};
    ghost use Rattle.crossbeam_deque.specs.Handles.{worker_deque, worker_flavor, worker_port, worker_view};
    ghost use Rattle.shares.specs.Owned.{DequeValue, deque_value};

    ghost Value = { DequeValue };

    ghost view = { λ d. deque_value (worker_deque d.owner) (worker_view d.owner) };

    ghost invariant = { λ d. (worker_flavor d.owner ≡ 0) × (worker_port d.owner ≡ 0) × (0 < (worker_view d.owner).parts) };
}

/// The stealer of another worker's deque, with the port by which it steals. Once it got a closing mark it asks
/// that deque no more.
#[derive(Drop)]
pub(crate) struct Other<H: Deal> {
    thief: Stealer<HeldBlocks, Global, Port, Dealt<H>>,
    pass: Pass<HeldBlocks, Port>,
    over: bool,
    ghost fits: { IsPassOf (stealer_deque thief) pass },
}

impl<H: Deal> Model for Other<H> {
    ghost use Rattle.std.specs.Prelude.{◌≡◌, false};
    ghost use Rattle.crossbeam_deque.specs.Handles.{stealer_deque};
    ghost use Rattle.shares.specs.Owned.{OtherValue, other_value};

    ghost Value = { OtherValue };

    ghost view = { λ o. other_value (stealer_deque o.thief) o.pass.me.view.client.got o.pass.me.view.client.marks_got };

    ghost invariant = { λ o. (o.pass.me.view.client.parts ≡ 1) × (o.over ≡ false → o.pass.me.view.client.marks_got ≡ 0) };
}

impl<H: Deal> Other<H> {
    /// The block at the front of the other's deque. A closing mark counts as nothing found, and so does a
    /// block that another worker takes at the same time.
    pub(crate) fn steal(&mut self) -> Option<u32>
        ensures name { self.new.name ≡ self.old.name }
        ensures none { IfNone result (self.new.got ≡ self.old.got) }
        ensures some { IfSome result (λ block. self.new.got ≡ self.old.got ++ block ∷ []) }
        ensures below { IfSome result (λ block. block < H.blocks) }
    {
        if self.over {
            return None;
        }
        let Steal::Success(held) = self.thief.steal_as::<TakeOut<H>>(&mut self.pass) else {
            return None;
        };
        match held {
            HeldBlocks::Block(stolen) => Some(stolen),
            HeldBlocks::Mark => {
                self.over = true;
                None
            }
        }
    }
}

impl<H: Deal> Deque<H> {
    /// An empty deque, whose owner has all parts.
    pub(crate) fn new(alloc: Global) -> Result<Deque<H>, AllocError>
        requires some { 0 < H.workers }
        ensures { IfOk result (λ deque. deque ≡ deque_value deque.name (port H.workers [] [] 0 0)) }
    {
        Ok(Deque {
            owner: Worker::fifo_as(alloc, ROOM)?,
        })
    }

    /// A stealer of the deque, which gets one part.
    pub(crate) fn other(&mut self) -> Result<Other<H>, AllocError>
        requires parts { 1 < self.old.parts }
        ensures gives { OnOk result (self.new ≡ deque_value self.old.name (port (self.old.parts - 1) self.old.pushed self.old.got self.old.marks_pushed self.old.marks_got)) }
        ensures other { IfOk result (λ other. other ≡ other_value self.old.name [] 0) }
    {
        let thief = self.owner.stealer()?;
        let pass = self.owner.another::<GivePart>();
        Ok(Other {
            thief,
            pass,
            over: false,
        })
    }

    /// Takes a stealer of the deque back, with its part and what it knows.
    pub(crate) fn take_back(&mut self, other: Other<H>)
        requires name { other.name ≡ self.old.name }
        ensures { self.new ≡ deque_value self.old.name (port (self.old.parts + 1) self.old.pushed (self.old.got ++ other.got) self.old.marks_pushed (self.old.marks_got + other.marks_got)) }
    {
        let Other {
            thief: _,
            pass,
            over: _,
        } = other;
        self.owner.absorb::<TakePart>(pass);
    }

    /// Pushes a block at the back, or gives it back where the deque has no place for it.
    pub(crate) fn push(&mut self, block: u32) -> Result<(), u32>
        requires block { block < H.blocks }
        requires unmarked { self.old.marks_pushed ≡ 0 }
        ensures pushed { OnOk result (self.new ≡ deque_value self.old.name (port self.old.parts (self.old.pushed ++ block ∷ []) self.old.got self.old.marks_pushed self.old.marks_got)) }
        ensures refused { IfErr result (λ back. (back ≡ block) × (self.new ≡ self.old)) }
    {
        match self.owner.push_as::<Push>(HeldBlocks::Block(block)) {
            Ok(()) => Ok(()),
            Err(_held) => Err(block),
        }
    }

    /// Pushes a closing mark at the back. It tells whether the deque had a place for it.
    fn push_mark(&mut self) -> bool
        ensures pushed { result ≡ true → self.new ≡ with_marks self.old (self.old.marks_pushed + 1) self.old.marks_got }
        ensures refused { result ≡ false → self.new ≡ self.old }
    {
        self.owner.push_as::<Push>(HeldBlocks::Mark).is_ok()
    }

    /// Pushes that many closing marks. It tells whether the deque had a place for all of them.
    pub(crate) fn push_marks(&mut self, marks: u8) -> bool
        ensures same { self.new ≡ with_marks self.old self.new.marks_pushed self.old.marks_got }
        ensures all { result ≡ true → self.new.marks_pushed ≡ self.old.marks_pushed + marks }
    {
        for _mark in 0..marks {
            if !self.push_mark() {
                return false;
            }
        }
        true
    }

    /// The block at the front.
    pub(crate) fn pop(&mut self) -> Option<u32>
        requires unmarked { self.old.marks_pushed ≡ 0 }
        ensures none { IfNone result (self.new ≡ self.old) }
        ensures some { IfSome result (λ block. self.new ≡ with_got self.old (block ∷ [])) }
        ensures below { IfSome result (λ block. block < H.blocks) }
    {
        let Some(held) = self.owner.pop_as::<Pop<H>>() else {
            return None;
        };
        match held {
            HeldBlocks::Block(block) => Some(block),
            HeldBlocks::Mark => unreachable!(),
        }
    }

    /// The block at the front, or `None` where a closing mark stands there. There is one.
    pub(crate) fn pop_to_mark(&mut self) -> Option<u32>
        requires closing { (H.workers ≤ self.old.marks_pushed) × (self.old.marks_got ≡ 0) }
        ensures none { IfNone result (self.new ≡ with_marks self.old self.old.marks_pushed 1) }
        ensures some { IfSome result (λ block. (self.new ≡ with_got self.old (block ∷ [])) × (length self.old.got < length self.old.pushed)) }
        ensures below { IfSome result (λ block. block < H.blocks) }
    {
        let Some(held) = self.owner.pop_as::<Pop<H>>() else {
            unreachable!()
        };
        match held {
            HeldBlocks::Block(block) => Some(block),
            HeldBlocks::Mark => None,
        }
    }

    /// The next block that is left in the deque. It has every part, so nobody else can have it.
    fn next_left(&mut self) -> Option<u32>
        requires parts { self.old.parts ≡ H.workers }
        ensures none { IfNone result (IsAllGot self.old.pushed self.old.got) }
        ensures some { IfSome result (λ block. (self.new ≡ with_got self.old (block ∷ [])) × (length self.old.got < length self.old.pushed) × (self.old.marks_got ≡ 0)) }
        ensures below { IfSome result (λ block. block < H.blocks) }
    {
        let Some(held) = self.owner.pop_as::<Drain<H>>() else {
            return None;
        };
        match held {
            HeldBlocks::Block(block) => Some(block),
            HeldBlocks::Mark => None,
        }
    }

    /// Appends the blocks that are left in the deque. It has every part.
    pub(crate) fn drain(&mut self, left: &mut Vec<u32>) -> Result<(), AllocError>
        requires parts { self.old.parts ≡ H.workers }
        ensures { OnOk result (AddsLeft H.blocks self.old left.old.items left.new.items) }
    {
        while let Some(block) = self.next_left() {
            left.push(block)?;
        }
        Ok(())
    }
}
