//! The rule of a worker's deque of blocks, and what each kind of step tells the port that makes it.
//!
//! The owner of a deque has one port, and each stealer has one. Contracts know of a port which blocks it
//! pushed and which it got, and how many closing marks. An owner that pushes no more blocks pushes marks, and
//! no block stands after a mark.

ghost use Rattle.std.specs.Prelude.{◌≡◌, ◌<◌, ◌≤◌, ◌+◌, ◌-◌, ◌++◌, [], length, All};
ghost use Rattle.shares.specs.Deques.{DequeRule, IsAllGot, port, pushes_one, Pops, Steals, Drains};

use crossbeam_deque::protocol::{Join, Outcome, Protocol, Split};
use std::collections::LinkedList;
use std::marker::{Brand, PhantomData};

/// What the hands of a run are told once, in contracts alone: its number of blocks, and how many workers
/// it has. A caller picks them at one call, which passes `std::marker::Brand`.
pub trait Deal {
    ghost use Rattle.std.specs.Prelude.{ℕ};

    ghost blocks: { ℕ };

    ghost workers: { ℕ };
}

impl Deal for Brand {
    ghost blocks = { 0 };

    ghost workers = { 0 };
}

/// What a deque holds.
#[derive(Drop)]
pub enum HeldBlocks {
    /// A block, by its number.
    Block(u32),
    /// A closing mark: its owner pushes no more blocks.
    Mark,
}

/// How far the owner of a deque has come with it.
#[derive(Drop)]
pub enum Phase {
    /// It pushed no closing mark.
    Open,
    /// It pushed as many marks as there are workers, and got none of them.
    Closing,
    /// It got a mark, so all blocks were given out before.
    Closed,
    /// The push of a mark was refused.
    Refused,
}

/// What a port of a deque knows. No value of it is made.
pub struct Port {
    /// How many parts it has of the right to know all that the ports of the deque know.
    pub parts: u64,
    /// The blocks that it pushed, in order.
    pub pushed: LinkedList<u32>,
    /// The blocks that it popped or stole, in order.
    pub got: LinkedList<u32>,
    /// How many closing marks it pushed.
    pub marks_pushed: u64,
    /// How many closing marks it popped or stole.
    pub marks_got: u64,
}

/// The rule of a deque, as its type names it.
pub struct Dealt<H: Deal> {
    deal: PhantomData<H>,
}

impl<H: Deal> Protocol<HeldBlocks, Port> for Dealt<H> {
    ghost holds = { DequeRule H.blocks H.workers };

    ghost first = { port H.workers [] [] 0 0 };

    ghost guest = { port 0 [] [] 0 0 };
}

/// A push of the owner, at the back.
pub(crate) struct Push;

impl Outcome<HeldBlocks, Port> for Push {
    ghost then = { λ v xs w. w ≡ pushes_one v xs };
}

/// A pop of the owner, at the front: it tells how many more blocks there can be. With as many marks pushed as
/// there are workers, an empty deque tells that the owner got one.
pub(crate) struct Pop<H: Deal> {
    deal: PhantomData<H>,
}

impl<H: Deal> Outcome<HeldBlocks, Port> for Pop<H> {
    ghost then = { Pops H.blocks };

    ghost empty = { λ v. H.workers ≤ v.marks_pushed → 0 < v.marks_got };
}

/// A steal, at the front.
pub(crate) struct TakeOut<H: Deal> {
    deal: PhantomData<H>,
}

impl<H: Deal> Outcome<HeldBlocks, Port> for TakeOut<H> {
    ghost then = { Steals H.blocks };
}

/// A pop of the owner once it has every part: it tells how many more there can be. A mark and an empty deque
/// tell that what was pushed was got, and a block that no mark was got.
pub(crate) struct Drain<H: Deal> {
    deal: PhantomData<H>,
}

impl<H: Deal> Outcome<HeldBlocks, Port> for Drain<H> {
    ghost then = { Drains H.blocks };

    ghost empty = { λ v. IsAllGot v.pushed v.got };
}

/// One part for a worker that is to steal.
pub(crate) struct GivePart;

impl Split<Port> for GivePart {
    ghost left = { λ v. port (v.parts - 1) v.pushed v.got v.marks_pushed v.marks_got };

    ghost right = { λ v. port 1 [] [] 0 0 };
}

/// What a stealer knows, in what the owner knows.
pub(crate) struct TakePart;

impl Join<Port> for TakePart {
    ghost both = { λ v w. port (v.parts + w.parts) v.pushed (v.got ++ w.got) v.marks_pushed (v.marks_got + w.marks_got) };

    ghost spent = { port 0 [] [] 0 0 };
}
