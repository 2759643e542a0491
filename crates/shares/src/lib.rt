//! What the workers of a run share: the board of blocks, and the hands.
//!
//! **The board** deals the blocks of a run out to its workers, each block once, and keeps the least
//! failing image that one of them posted. It is two atomic words, `next` and `least`. Threads share a
//! `Board` by reference, and each has a `Seat` of its own, which keeps in contracts the steps that were
//! made with it, in order, each with the number that it found. No call waits for another thread, and
//! only `Board::new` takes memory.
//!
//! **A hand** is a worker's own deque of blocks, which the others may steal from, with the stealers of the
//! others' deques, and a short list of blocks that its deque had no place for. A worker with a seat and a
//! hand draws some blocks ahead, and takes from others when no block is left to draw. A worker that is done
//! closes its hand: it pushes closing marks on its deque, and takes what it kept until it finds one.
//!
//! | Call | Its one step | Answer |
//! |---|---|---|
//! | `Board::new(alloc, blocks, seats)` | | a board of which no block is drawn, and its seats, at least one |
//! | `board.draw(&mut seat)` | fetch_add of `next` | the next block, or none where all are drawn |
//! | `board.post(&mut seat, image)` | fetch_min of `least` | |
//! | `board.least(&mut seat)` | load of `least` | the least image posted by now |
//! | `board.left(&mut seat)` | load of `next` | how many blocks nobody drew by now |
//! | `board.gather(seats)` | | the end of the board: the least image posted, or a refusal |
//! | `hands(alloc, workers)` | | a hand for each worker, which hold no block |
//! | `hand.take(&board, &mut seat)` | some, of the board and of deques | the next block for this worker, or none where it found none |
//! | `hand.close()` | a push for each worker | whether all marks were pushed; else the hand is refused |
//! | `hand.rest()` | at most a pop | the next block that a closing hand kept, or none, and then it is closed |
//! | `hand.is_refused()`, `are_refused(hands)` | | whether the push of a mark was refused |
//! | `blocks_left(alloc, hands)` | | the blocks that are left in the hands, when all are back |
//!
//! # Place
//!
//! It stands low, on the causes of `base` and on the kit's `atomic_table`, which proves that single
//! steps on words keep a rule, and `crossbeam_deque`, which proves the same of pushes, pops and steals.
//! `workers` stands above it.
//!
//! # What is proved
//!
//! The board rule (`BoardRule` in `specs/Board.antt`) holds between any two steps of any threads:
//!
//! - the numbers below `next` are drawn, each in one seat's steps, once, and no others are;
//! - `least` is the smallest image that a seat posted, or none;
//! - nothing that a seat saw in `next` is above it, and nothing that it saw in `least` is below it;
//! - each image that a seat saw in `least` is one that a seat posted.
//!
//! Contracts see a seat as its board and its steps (`specs/Seats.antt`), and each call adds just its own:
//!
//! - `draw` gives a block below the number of blocks, at or above all that the seat saw before. It gives
//!   none only where a step of this seat found no block left, and a seat that got none makes no further
//!   step there.
//! - `least` and `left` answer what their step found, which is never above, or below, what the seat
//!   posted or saw before.
//! - The blocks that a seat took are those that its draws gave (`taken_blocks`), and no other call takes one.
//! - `gather` refuses with 73 at the number of seats that are missing, tested first, and with 71 at the
//!   first block that nobody drew, exactly where there is one; where a draw of some seat found no block
//!   left, there is none. Else each block was taken by one of those seats, once, and the answer is the
//!   least image that they posted.
//! - No seat has seen more than `gather` finds. At 71 nobody saw a number of the next block above the
//!   block named. Else nobody saw one above the number of blocks, but for the draws that came too late,
//!   each of which raised it by one; and nobody saw a least image below the answer. So what a seat drew
//!   or saw drawn was drawn by one of the seats, and an image that a seat saw posted was posted by one.
//!
//! Nothing is said of the order in time of two threads' calls.
//!
//! The rule of a deque (`DequeRule` in `specs/Deques.antt`) holds between any two steps of any threads:
//! what it gave out and still holds is what its owner pushed, in that order; what it gave out is what its
//! owner popped and the others stole, each as often; and each is below the number of blocks. The right to
//! know the whole lies in as many parts as there are workers. The owner has one, and each stealer one; a
//! port without a part has got nothing. No block stands after a closing mark, and all blocks are given out
//! before one. A stealer's port has got no more marks than it has parts. Contracts see a hand as its place
//! among the hands, its list, the blocks that it pushed, those that it popped or stole, and its phase: open,
//! closing, closed or refused (`specs/Hands.antt`).
//!
//! - `take` speaks of its own hand and seat. The list before, the blocks that the seat drew, at most four,
//!   and the block that the hand popped or stole, if any, are together, each as often, the answer, what it
//!   pushed, and the list after. A block popped or stolen is the answer, and nothing is posted.
//! - It gives none only where its list was empty and its draw found no block.
//! - It keeps the hand's place: which deque it owns, and of which others it has a stealer. The hands that
//!   `hands` makes are together (`AreTogether`): each has one part of its own deque and one of each other.
//! - `blocks_left` takes such hands when they are back. Each owner takes its stealers back, has every part,
//!   and pops until it finds nothing. What the hands pushed and have in their lists is, each as often, what
//!   they popped or stole, and what is left (`AreLeft`). So a block that was pushed was got by one hand, once,
//!   or is left.
//! - `close` pushes as many marks as there are workers. All stealers together get fewer. So `rest` finds one,
//!   and all blocks of the deque were given out before it. Where all hands are closed with empty lists, nothing
//!   is left.
//!
//! In which order `take` looks for a block, and that the other hands are asked, is tested.
//!
//! # How it is written
//!
//! `view` has what a seat knows, `rule` the rule and what each kind of step tells, and `board` the calls;
//! `deque` has what a port of a deque knows, its rule and its steps, `owned` a deque with its owner's port
//! and a stealer of it, `hand` a hand and its takes, and `meeting` how hands are made and taken back.
//! Each seat has one part of the right to know the whole. `gather` joins the seats into one, and who has
//! every part knows that nobody else drew or posted: one load of each word then tells the rest.
//!
//! # Example
//!
//! ```
//! use shares::Board;
//!
//! let (board, seats) = Board::new(alloc, 2, 2)?;
//! let mut seats = seats.into_iter();
//! if let Some(mut first) = seats.next()
//!     && let Some(mut second) = seats.next()
//! {
//!     let block = board.draw(&mut first);         // Some(0)
//!     let other = board.draw(&mut second);        // Some(1)
//!     board.post(&mut first, 20);
//!     let least = board.least(&mut second);       // Some(20)
//!     let mut back = Vec::new(alloc);
//!     back.push(first)?;
//!     back.push(second)?;
//!     let least = board.gather(back)?;            // Some(20)
//! }
//! ```
//!
//! Of eight blocks, by two hands on one thread: the first `take` draws 0 to 3, and the other hand steals
//! three of them.
//!
//! ```text
//! own.take(&board, &mut first)            // Some(0)
//! other.take(&board, &mut second)         // Some(4), then 5, 6, 7, 1, 2, 3, and None
//! own.close()                             // true
//! own.rest()                              // None
//! ```
//!
//! # Choices
//!
//! - A seat that has drawn none keeps that it has ended, and makes no further step in `draw`: the word of the next
//!   block then can't wrap, however often `draw` is called.
//! - The number of blocks of a deque's rule stands in a type parameter of the hands (`Deal`), and `take` asks that
//!   its board has as many: the rule is a part of the deque's type; the board is an argument of each call.
//! - What a hand popped and what it stole are one list in contracts, in no order of time: a clause says how often it
//!   got each block, and no caller asks where from.
//! - A worker asks its hand at most as often as there are blocks, and then draws alone: its loop ends without a law
//!   on what a stealer gets; no hand gives more, since it gives each block once.
//! - Blocks of a hand's own list are taken from its front: they rise, as those of its deque do, and with `--first`
//!   lower images are judged first.
//!
//! # How it is proved
//!
//! - A board under `atomic_table` has one list of steps in the view, and sums, greatest and least over it. Each has
//!   lemmas for one step more, for two lists, and for one view changed, by recursion and `omega`
//!   (`shares/proofs/Lists.antt`). One lemma for all kinds of step (`moved` in `shares/proofs/Moves.antt`) takes the
//!   step, the words after it, and how it counts.
//! - **What an empty deque tells lasts only by marks.** A pop that finds it empty tells a fact of its own port, and
//!   changes none, so no later moment knows of it. An owner that pushes no more pushes closing marks instead, one for
//!   each worker. A stealer may get as many as it has parts, one, so together they get fewer, and the owner finds
//!   one. The rule over items is 'blocks, and that many marks after them' (`blocks_and_marks`): what stands in front
//!   is a block or a mark by one lemma (`front` in `shares/proofs/Deques.antt`), and each kind of step is one record.
//! - What a step tells is a word by cases over the list of what left (`Pops`, `Steals`, `Drains` in
//!   `shares/specs/Deques.antt`). It computes in the arms of a `match` on the answer, so these arms need no answer by
//!   hand.
//! - 'Each has a mark' over a list that is turned and merged is a sum (`unmarked_count`): it stays at 0 by the same
//!   lemmas as the other sums.
//! - A part with a Model of its own (`Other` in `shares/src/owned.rt`, seen as its port) keeps clauses over a vector
//!   of such parts short (`flat_map (λ o. o.got)`).
#![tactic(auto)]

mod board;
mod deque;
mod hand;
mod meeting;
mod owned;
mod rule;
mod view;

pub use board::{Board, Seat};
pub use deque::{Deal, HeldBlocks, Phase, Port};
pub use hand::Hand;
pub use meeting::{are_refused, blocks_left, hands};
pub use view::SeatStep;
