//! The hands: each worker's own deque of blocks, with the stealers of the others' deques.

ghost use Rattle.std.specs.Prelude.{◌≡◌, ◌<◌, ◌+◌, ◌-◌, true, false, [], ◌∷◌, ◌++◌, length, map, flat_map, All, IfSome, IfNone, option_to_list};
ghost use Rattle.shares.specs.declared.deque.Phase.TheVariants.{Open, Closing, Closed, Refused};
ghost use Rattle.shares.specs.Hands.{hand_place, hand_value, in_phase, is_open, is_refused, HasMore, GivesOwn, KeepsBlock, IsStocked, IsTake};
ghost use Rattle.shares.specs.Seats.{DrawsNone, HasEnded};

use crate::board::{Board, Seat};
use crate::deque::{Deal, Phase};
use crate::owned::{Deque, Other};
use arrayvec::ArrayVec;
use std::marker::Model;

/// How many blocks a take may draw beside its answer.
const MORE: usize = 3;

/// One steal from each of those, in order, until one gives a block.
fn steal_any<H: Deal>(others: &mut Vec<Other<H>>) -> Option<u32>
    ensures names { map (λ o. o.name) others.new.items ≡ map (λ o. o.name) others.old.items }
    ensures none { IfNone result (flat_map (λ o. o.got) others.new.items ≡ flat_map (λ o. o.got) others.old.items) }
    ensures some { IfSome result (λ block. HasMore (flat_map (λ o. o.got) others.old.items) (block ∷ []) (flat_map (λ o. o.got) others.new.items)) }
    ensures below { IfSome result (λ block. block < H.blocks) }
{
    for place in 0..others.len() {
        if let Some(block) = others[place].steal() {
            return Some(block);
        }
    }
    None
}

/// A worker's hand: its deque of blocks, which the others may steal, its stealers of the others' deques,
/// and a short list of blocks that its deque had no place for.
#[derive(Drop)]
pub struct Hand<H: Deal> {
    list: ArrayVec<u32, MORE>,
    deque: Deque<H>,
    others: Vec<Other<H>>,
    workers: u8,
    phase: Phase,
}

impl<H: Deal> Model for Hand<H> {
    ghost use Rattle.std.specs.Prelude.{◌≡◌, ◌<◌, ◌+◌, ◌-◌, ◌++◌, length, All, flat_map, map};
    ghost use Rattle.shares.specs.Hands.{HandValue, hand_place, hand_value, FitsMarks};

    ghost Value = { HandValue };

    ghost view = { λ h. hand_value (hand_place h.deque.name h.deque.parts (map (λ o. o.name) h.others.items)) h.list.items h.deque.pushed (h.deque.got ++ flat_map (λ o. o.got) h.others.items) h.phase (length h.list.items + (length h.deque.pushed - length h.deque.got)) };

    ghost invariant = { λ h. All (λ b. b < H.blocks) h.list.items × (h.workers ≡ H.workers) × FitsMarks H.workers h.deque.marks_pushed h.deque.marks_got h.phase };
}

impl<H: Deal> Hand<H> {
    /// An empty hand of one of that many workers, with its deque and its stealers of the others' deques.
    pub(crate) fn of(deque: Deque<H>, others: Vec<Other<H>>, workers: u8) -> Hand<H>
        requires workers { workers ≡ H.workers }
        requires unmarked { (deque.marks_pushed ≡ 0) × (deque.marks_got ≡ 0) }
        ensures { result ≡ hand_value (hand_place deque.name deque.parts (map (λ o. o.name) others.items)) [] deque.pushed (deque.got ++ flat_map (λ o. o.got) others.items) Open (length deque.pushed - length deque.got) }
    {
        Hand {
            list: ArrayVec::new(),
            deque,
            others,
            workers,
            phase: Phase::Open,
        }
    }

    /// Its list, its deque, and its stealers.
    pub(crate) fn apart(self) -> (ArrayVec<u32, MORE>, Deque<H>, Vec<Other<H>>)
        ensures parts { self ≡ hand_value (hand_place result.1.name result.1.parts (map (λ o. o.name) result.2.items)) result.0.items result.1.pushed (result.1.got ++ flat_map (λ o. o.got) result.2.items) self.phase self.kept }
        ensures closed { self.phase ≡ Closed → 0 < result.1.marks_got }
        ensures below { All (λ b. b < H.blocks) result.0.items }
    {
        let Hand {
            list,
            deque,
            others,
            workers: _,
            phase: _,
        } = self;
        (list, deque, others)
    }

    /// The next block to judge, or `None` where the hand found none.
    ///
    /// It is the first of its own list, or else the first of its deque, or else one that is drawn from the
    /// board, or else one that is stolen from another hand, which are asked by rising number from its own
    /// and then from 0 up. After a draw up to three blocks more are drawn, each only while at least twice
    /// as many are left as there are workers, and are kept for later.
    ///
    /// A hand that was asked to close draws none ahead and pops none. It is called with the same board and seat
    /// each time, waits for no other thread, and takes memory only where its deque grows; where memory is
    /// refused the block goes to its list.
    pub fn take(&mut self, board: &Board, seat: &mut Seat) -> Option<u32>
        requires board { seat.old.board ≡ board.now.name }
        requires blocks { board.now.name.blocks ≡ H.blocks }
        ensures place { self.new.place ≡ self.old.place }
        ensures phase { self.new.phase ≡ self.old.phase }
        ensures board { seat.new.board ≡ seat.old.board }
        ensures taken { IsTake self.old seat.old (option_to_list result) self.new seat.new }
        ensures block { IfSome result (λ block. block < board.now.name.blocks) }
        ensures none { IfNone result ((self.old.list ≡ []) × (self.new ≡ self.old) × DrawsNone seat.old seat.new) }
        ensures at_end { IfNone result (HasEnded seat.new) }
    {
        if let Some(block) = self.own() {
            return Some(block);
        }
        if let Some(block) = board.draw(seat) {
            self.stock(board, seat);
            return Some(block);
        }
        self.steal()
    }

    /// Whether it wasn't asked to close.
    fn is_open(&self) -> bool
        ensures { result ≡ is_open self.now.phase }
    {
        match self.phase {
            Phase::Open => true,
            Phase::Closing => false,
            Phase::Closed => false,
            Phase::Refused => false,
        }
    }

    /// The first block of its list, or else the first of its deque, where it is open.
    fn own(&mut self) -> Option<u32>
        ensures place { self.new.place ≡ self.old.place }
        ensures phase { self.new.phase ≡ self.old.phase }
        ensures none { IfNone result ((self.old.list ≡ []) × (self.new ≡ self.old)) }
        ensures some { IfSome result (λ block. GivesOwn self.old block self.new) }
        ensures below { IfSome result (λ block. block < H.blocks) }
    {
        if let Some(block) = self.list.pop_at(0) {
            return Some(block);
        }
        if !self.is_open() {
            return None;
        }
        self.deque.pop()
    }

    /// Draws up to three blocks and keeps them, each only while at least twice as many are left as there
    /// are workers. A hand that was asked to close draws none.
    fn stock(&mut self, board: &Board, seat: &mut Seat)
        requires board { seat.old.board ≡ board.now.name }
        requires blocks { board.now.name.blocks ≡ H.blocks }
        requires room { self.old.list ≡ [] }
        ensures place { self.new.place ≡ self.old.place }
        ensures phase { self.new.phase ≡ self.old.phase }
        ensures board { seat.new.board ≡ seat.old.board }
        ensures stocked { IsStocked 3 self.old seat.old self.new seat.new }
    {
        if !self.is_open() {
            return;
        }
        for more in 0..MORE {
            if board.left(seat) < 2 * u32::from(self.workers) {
                return;
            }
            let Some(block) = board.draw(seat) else {
                return;
            };
            self.keep(block);
        }
    }

    /// Pushes a block on its deque, or puts it into its list where the deque has no place for it.
    fn keep(&mut self, block: u32)
        requires room { length self.old.list < 3 }
        requires block { block < H.blocks }
        requires phase { self.old.phase ≡ Open }
        ensures place { self.new.place ≡ self.old.place }
        ensures phase { self.new.phase ≡ Open }
        ensures keeps { KeepsBlock self.old block self.new }
    {
        if let Err(block) = self.deque.push(block) {
            self.list.push(block);
        }
    }

    /// One steal from each other hand, in order, until one gives a block.
    fn steal(&mut self) -> Option<u32>
        ensures place { self.new.place ≡ self.old.place }
        ensures phase { self.new.phase ≡ self.old.phase }
        ensures none { IfNone result (self.new ≡ self.old) }
        ensures some { IfSome result (λ block. (self.new.list ≡ self.old.list) × (self.new.pushed ≡ self.old.pushed) × HasMore self.old.got (block ∷ []) self.new.got) }
        ensures below { IfSome result (λ block. block < H.blocks) }
    {
        steal_any(&mut self.others)
    }

    /// Closes the hand, whose worker takes no more: it pushes as many closing marks on its deque as there are
    /// workers. It tells whether the deque had a place for all of them. Where it had, `rest` gives what the
    /// hand kept, and else the hand says that it was refused, and what it kept is left for the caller.
    pub fn close(&mut self) -> bool
        requires phase { self.old.phase ≡ Open }
        ensures closing { result ≡ true → self.new ≡ in_phase self.old Closing }
        ensures refused { result ≡ false → self.new ≡ in_phase self.old Refused }
    {
        if self.deque.push_marks(self.workers) {
            self.phase = Phase::Closing;
            return true;
        }
        self.phase = Phase::Refused;
        false
    }

    /// The next block that a closing hand kept: the first of its list, or else the first of its deque. It gives
    /// none once a closing mark stands there, and then the hand is closed: no block is left in it.
    pub fn rest(&mut self) -> Option<u32>
        requires closing { self.old.phase ≡ Closing }
        ensures place { self.new.place ≡ self.old.place }
        ensures some { IfSome result (λ block. GivesOwn self.old block self.new × (self.new.phase ≡ Closing)) }
        ensures fewer { IfSome result (λ block. self.new.kept < self.old.kept) }
        ensures none { IfNone result ((self.old.list ≡ []) × (self.new ≡ in_phase self.old Closed)) }
        ensures block { IfSome result (λ block. block < H.blocks) }
    {
        if let Some(first) = self.list.pop_at(0) {
            return Some(first);
        }
        if let Some(block) = self.deque.pop_to_mark() {
            return Some(block);
        }
        self.phase = Phase::Closed;
        None
    }

    /// Whether the push of a closing mark was refused to it.
    pub fn is_refused(&self) -> bool
        ensures { result ≡ is_refused self.now.phase }
    {
        match self.phase {
            Phase::Open => false,
            Phase::Closing => false,
            Phase::Closed => false,
            Phase::Refused => true,
        }
    }
}
