//! The board of blocks and its seats.

ghost use Rattle.std.specs.Prelude.{◌≡◌, ℕ, ◌+◌, ◌-◌, ◌<◌, ◌≤◌, [], ◌∷◌, ◌++◌, length, All, IfOk, IfErr, IfSome, IfNone, Err, None};
ghost use Rattle.base.specs.declared.causes.WorkCause.TheVariants.{PieceMissing, SeatsMissing};
ghost use Rattle.shares.specs.declared.view.SeatStep.TheVariants.{Drew, Posted, SawLeast, SawNext};
ghost use Rattle.shares.specs.Steps.{image_or_none, late_draws, least_posted, next_seen, least_seen};
ghost use Rattle.shares.specs.Board.{view_of};
ghost use Rattle.shares.specs.Moves.{less_one};
ghost use Rattle.shares.specs.Seats.{HasEnded, DrawsNone, all_steps, taken_blocks, IsFirstUndrawn, AreDrawnOnce, AreTakenOnce, FoundArePosted};
ghost use Rattle.base.specs.Refusals.{work_refusal};

use crate::rule::{
    Draw, Enter, LearnLeast, LearnNext, LoadLeast, LoadNext, OnePart, Post, Rule, Together,
};
use crate::view::{BoardLimits, SeatView};
use atomic_table::Table;
use base::causes::WorkCause;
use base::refusal::Refusal;
use std::alloc::{AllocError, Global};
use std::marker::Model;

type BoardTable = Table<(), SeatView, BoardLimits, Rule, Global>;

type Token = atomic_table::Seat<(), SeatView>;

/// The word that has the number of the next block to draw.
const NEXT: usize = 0;

/// The word that has the least image posted.
const LEAST: usize = 1;

/// What the word of the least image holds as long as no image is posted.
const NONE_POSTED: u64 = u64::MAX;

/// The blocks of a run, of which each is drawn once, and the least failing image that was posted.
/// Threads share it by reference, each with a seat of its own.
#[derive(Drop)]
pub struct Board {
    table: BoardTable,
    blocks: u32,
    seats: u8,
}

impl Model for Board {
    ghost use Rattle.std.specs.Prelude.{◌≡◌};
    ghost use Rattle.shares.specs.Seats.{BoardValue, board_name};

    ghost Value = { BoardValue };

    ghost view = { λ b. record { name = board_name b.table.shared.table_id b.blocks; seats = b.seats } };

    ghost invariant = { λ b. (b.table.shared.key.blocks ≡ b.blocks) × (b.table.shared.key.seats ≡ b.seats) × (b.table.shared.table_id.words ≡ 2) };
}

/// A thread's place at a board: what it drew, posted and saw there.
#[derive(Drop)]
pub struct Seat {
    token: Token,
    blocks: u32,
    ended: bool,
}

impl Model for Seat {
    ghost use Rattle.std.specs.Prelude.{◌≡◌, []};
    ghost use Rattle.shares.specs.Seats.{SeatValue, board_name};
    ghost use Rattle.shares.specs.Steps.{late_draws, bit};

    ghost Value = { SeatValue };

    ghost view = { λ s. record { board = board_name s.token.table_id s.blocks; steps = s.token.me.0.steps } };

    ghost invariant = { λ s. (s.token.me.1 ≡ []) × (s.token.me.0.parts ≡ 1) × (late_draws s.blocks s.token.me.0.steps ≡ bit s.ended) };
}

/// The image that the word of the least image tells.
fn image_in(word: u64) -> Option<u64>
    ensures { result ≡ image_or_none word }
{
    if word == NONE_POSTED {
        None
    } else {
        Some(word)
    }
}

impl Board {
    /// A board of that many blocks, none of which is drawn, and its seats: at least one.
    pub fn new(alloc: Global, blocks: u32, seats: u8) -> Result<(Board, Vec<Seat>), AllocError>
        requires { 0 < seats }
        ensures board { IfOk result (λ made. (made.0.name.blocks ≡ blocks) × (made.0.seats ≡ seats)) }
        ensures seats { IfOk result (λ made. (length made.1.items ≡ seats) × All (λ s. (s.board ≡ made.0.name) × (s.steps ≡ [])) made.1.items) }
    {
        let limits = BoardLimits {
            blocks: u64::from(blocks),
            seats: u64::from(seats),
        };
        let (table, mut root): (BoardTable, Token) = Table::of_words(
            alloc,
            &[0, NONE_POSTED],
            &limits,
        )?;
        let board = Board {
            table,
            blocks,
            seats,
        };
        let mut places = Vec::with_capacity(alloc, usize::from(seats))?;
        for _made in 0..seats {
            places.push(board.seat(&mut root))?;
        }
        Ok((board, places))
    }

    /// A seat with one of the parts that the first seat has left.
    fn seat(&self, root: &mut Token) -> Seat
        requires table { root.old.table_id ≡ self.now.name.table }
        requires part { (0 < root.old.me.0.parts) × (root.old.me.0.steps ≡ []) }
        ensures root { (root.new.table_id ≡ root.old.table_id) × (root.new.me ≡ (less_one root.old.me.0, root.old.me.1)) }
        ensures seat { (result.board ≡ self.now.name) × (result.steps ≡ []) }
    {
        let token = self.table.shared.split_seat::<OnePart>(root);
        Seat {
            token,
            blocks: self.blocks,
            ended: false,
        }
    }

    /// The next block that nobody drew, or `None` where every block is drawn. A seat that got `None`
    /// makes no further step here.
    pub fn draw(&self, seat: &mut Seat) -> Option<u32>
        requires { seat.old.board ≡ self.now.name }
        ensures board { seat.new.board ≡ seat.old.board }
        ensures block { IfSome result (λ block. (block < self.now.name.blocks) × (seat.new.steps ≡ seat.old.steps ++ Drew block ∷ [])) }
        ensures taken { IfSome result (λ block. taken_blocks seat.new ≡ taken_blocks seat.old ++ block ∷ []) }
        ensures rising { IfSome result (λ block. next_seen seat.old.steps ≤ block) }
        ensures none { IfNone result (DrawsNone seat.old seat.new) }
        ensures none_taken { IfNone result (taken_blocks seat.new ≡ taken_blocks seat.old) }
        ensures at_end { IfNone result (HasEnded seat.new) }
        ensures ended { HasEnded seat.old → result ≡ None }
    {
        if seat.ended {
            return None;
        }
        let next = self
            .table
            .shared
            .fetch_add::<Draw>(&mut seat.token, NEXT, 1);
        if next < u64::from(self.blocks) {
            Some(next as u32)
        } else {
            seat.ended = true;
            None
        }
    }

    /// Tells the others of a failing image, by its number.
    pub fn post(&self, seat: &mut Seat, image: u64)
        requires board { seat.old.board ≡ self.now.name }
        requires image { image < 16777216 }
        ensures board { seat.new.board ≡ seat.old.board }
        ensures step { (found : ℕ) × (seat.new.steps ≡ seat.old.steps ++ Posted image found ∷ []) × (found ≤ least_seen seat.old.steps) }
        ensures taken { taken_blocks seat.new ≡ taken_blocks seat.old }
    {
        self.table
            .shared
            .fetch_min::<Post>(&mut seat.token, LEAST, image);
    }

    /// The least image that was posted by now, or `None` where none was.
    pub fn least(&self, seat: &mut Seat) -> Option<u64>
        requires { seat.old.board ≡ self.now.name }
        ensures board { seat.new.board ≡ seat.old.board }
        ensures step { (found : ℕ) × (result ≡ image_or_none found) × (seat.new.steps ≡ seat.old.steps ++ SawLeast found ∷ []) × (found ≤ least_seen seat.old.steps) }
        ensures taken { taken_blocks seat.new ≡ taken_blocks seat.old }
    {
        let word = self.table.shared.load::<LoadLeast>(&mut seat.token, LEAST);
        image_in(word)
    }

    /// How many blocks nobody drew by now.
    pub fn left(&self, seat: &mut Seat) -> u32
        requires { seat.old.board ≡ self.now.name }
        ensures board { seat.new.board ≡ seat.old.board }
        ensures step { (found : ℕ) × (result ≡ self.now.name.blocks - found) × (seat.new.steps ≡ seat.old.steps ++ SawNext found ∷ []) × (next_seen seat.old.steps ≤ found) }
        ensures taken { taken_blocks seat.new ≡ taken_blocks seat.old }
    {
        let next = self.table.shared.load::<LoadNext>(&mut seat.token, NEXT);
        u64::from(self.blocks).saturating_sub(next) as u32
    }

    /// Ends the board, once all its seats are given back: the least image that was posted, if one was.
    ///
    /// Where seats are missing the refusal is 73 at their number, and else 71 at the first block that
    /// nobody drew, where there is one, which is never after a draw found no block left. No seat has seen
    /// a later block drawn than that, or a lower image posted than the answer.
    pub fn gather(self, seats: Vec<Seat>) -> Result<Option<u64>, Refusal>
        requires { All (λ s. s.board ≡ self.name) seats.items }
        ensures missing { length seats.items < self.seats → result ≡ Err (work_refusal SeatsMissing (self.seats - length seats.items)) }
        ensures undrawn { IfErr result (λ refusal. self.seats ≤ length seats.items → (refusal ≡ work_refusal PieceMissing refusal.at) × IsFirstUndrawn self.name.blocks (all_steps seats.items) refusal.at) }
        ensures seen_undrawn { IfErr result (λ refusal. self.seats ≤ length seats.items → next_seen (all_steps seats.items) ≤ refusal.at) }
        ensures unended { IfErr result (λ refusal. self.seats ≤ length seats.items → late_draws self.name.blocks (all_steps seats.items) ≡ 0) }
        ensures drawn { IfOk result (λ _. AreDrawnOnce self.name.blocks (all_steps seats.items)) }
        ensures taken { IfOk result (λ _. AreTakenOnce self.name.blocks seats.items) }
        ensures seen_drawn { IfOk result (λ _. next_seen (all_steps seats.items) ≤ self.name.blocks + late_draws self.name.blocks (all_steps seats.items)) }
        ensures least { IfOk result (λ least. least ≡ image_or_none (least_posted (all_steps seats.items))) }
        ensures seen_least { IfOk result (λ _. least_posted (all_steps seats.items) ≤ least_seen (all_steps seats.items)) }
        ensures seen_posted { IfOk result (λ _. FoundArePosted (all_steps seats.items)) }
    {
        let wanted = usize::from(self.seats);
        let there = seats.len();
        if there < wanted {
            return Err(Refusal::of_work(WorkCause::SeatsMissing, (wanted - there) as u64));
        }
        let mut whole = self.together(seats);
        self.outcome(&mut whole)
    }

    /// One seat that knows what those knew.
    fn together(&self, seats: Vec<Seat>) -> Token
        requires { All (λ s. s.board ≡ self.now.name) seats.items }
        ensures table { result.table_id ≡ self.now.name.table }
        ensures whole { result.me ≡ (view_of (length seats.items) (all_steps seats.items), []) }
    {
        let (_next, mut whole) = self.table.shared.load_new_seat::<Enter>(NEXT);
        for seat in seats {
            let Seat {
                token,
                blocks: _,
                ended: _,
            } = seat;
            self.table.shared.join_seat::<Together>(&mut whole, token);
        }
        whole
    }

    /// What the seat that has every part finds.
    fn outcome(&self, whole: &mut Token) -> Result<Option<u64>, Refusal>
        requires table { whole.old.table_id ≡ self.now.name.table }
        requires all { self.now.seats ≤ whole.old.me.0.parts }
        ensures undrawn { IfErr result (λ refusal. (refusal ≡ work_refusal PieceMissing refusal.at) × IsFirstUndrawn self.now.name.blocks whole.old.me.0.steps refusal.at) }
        ensures seen_undrawn { IfErr result (λ refusal. next_seen whole.old.me.0.steps ≤ refusal.at) }
        ensures drawn { IfOk result (λ _. AreDrawnOnce self.now.name.blocks whole.old.me.0.steps) }
        ensures seen_drawn { IfOk result (λ _. next_seen whole.old.me.0.steps ≤ self.now.name.blocks + late_draws self.now.name.blocks whole.old.me.0.steps) }
        ensures least { IfOk result (λ least. least ≡ image_or_none (least_posted whole.old.me.0.steps)) }
        ensures seen_least { IfOk result (λ _. least_posted whole.old.me.0.steps ≤ least_seen whole.old.me.0.steps) }
        ensures seen_posted { IfOk result (λ _. FoundArePosted whole.old.me.0.steps) }
    {
        let drawn = self.table.shared.load::<LearnNext>(whole, NEXT);
        if drawn < u64::from(self.blocks) {
            return Err(Refusal::of_work(WorkCause::PieceMissing, drawn));
        }
        let least = self.table.shared.load::<LearnLeast>(whole, LEAST);
        Ok(image_in(least))
    }
}
