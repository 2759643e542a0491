//! A worker: it takes blocks, and hands over a piece of each.

ghost use Rattle.std.specs.Prelude.{◌≡◌, ◌≤◌, ◌<◌, ◌+◌, [], length, true, option_map, IfOk, OnOk, IfSome};
ghost use Rattle.shares.specs.Steps.{next_seen, finds};
ghost use Rattle.shares.specs.declared.deque.Phase.TheVariants.{Open, Closing};
ghost use Rattle.shares.specs.Hands.{HandValue, IsEmptyHand, IsShut};
ghost use Rattle.shares.specs.Seats.{BoardName, SeatValue, HasEnded, taken_blocks};
ghost use Rattle.workers.specs.Exploring.{passes_over};
ghost use Rattle.workers.specs.Least.{least_image};
ghost use Rattle.workers.specs.Local.{IsLocal};
ghost use Rattle.workers.specs.Pieces.{block_count, lines_of, piece_of};
ghost use Rattle.workers.specs.Taking.{KeepsPosts, AddsPiece, HasTaken, IsSettled};

use crate::gate::Gate;
use crate::input::Input;
use crate::local::Local;
use crate::piece::Piece;
use crate::settling::piece_left;
use crate::worker::Worker;
use shares::{Board, Deal, Hand, Seat};
use std::alloc::AllocError;
use std::sync::Wait;
use verdict_cache::Run;

/// The failing image after which a block is passed over, less the first one that is judged: one that was posted by now, where
/// the first failing image is all that is asked for, and all of the block lies after it.
fn image_before(input: &Input<'_>, board: &Board, seat: &mut Seat, block: u32) -> Option<u64>
    requires { seat.old.board ≡ board.now.name }
    ensures board { seat.new.board ≡ seat.old.board }
    ensures taken { taken_blocks seat.new ≡ taken_blocks seat.old }
    ensures seen { next_seen seat.old.steps ≤ next_seen seat.new.steps }
    ensures posts { KeepsPosts seat.old.steps seat.new.steps }
    ensures found { IfSome result (λ image. (passes_over input.now block image ≡ true) × (0 < finds image seat.new.steps)) }
{
    if !input.first() {
        return None;
    }
    let image = board.least(seat)?;
    if input.passes_over(block, image) {
        Some(image)
    } else {
        None
    }
}

/// The first failing image of a piece that was judged, less the first one that is judged. It is a number that can be
/// posted, since few enough images are judged.
fn first_failing(input: &Input<'_>, piece: &Piece) -> Option<u64>
    requires piece { piece.now ≡ piece_of input.now piece.now.block }
    ensures value { option_map (λ image. input.now.from + image) result ≡ least_image (lines_of piece.now.found) }
    ensures few { IfSome result (λ image. image < 16777216) }
{
    match piece.least_image() {
        Some(image) => Some(input.beyond_first(image)),
        None => None,
    }
}

/// The piece of a block that a worker took. It is passed over where it can be; else it is judged, and
/// its first failing image is posted.
fn piece_taken<'a, J: Run, G: Gate, R: Wait>(
    rt: &R,
    worker: &Worker<'_, 'a, J, G>,
    local: &mut Local<'a>,
    board: &Board,
    seat: &mut Seat,
    block: u32,
) -> Result<Piece, AllocError>
    requires board { seat.old.board ≡ board.now.name }
    requires local { IsLocal worker.now.input.now local.old }
    requires block { block < block_count worker.now.input.now }
    ensures local { IsLocal worker.now.input.now local.new }
    ensures board { seat.new.board ≡ seat.old.board }
    ensures taken { taken_blocks seat.new ≡ taken_blocks seat.old }
    ensures seen { next_seen seat.old.steps ≤ next_seen seat.new.steps }
    ensures added { IfOk result (AddsPiece worker.now.input.now block seat.old.steps seat.new.steps) }
{
    if let Some(image) = image_before(worker.input, board, seat, block) {
        return Ok(Piece::passed(block, image));
    }
    let piece = worker.piece(rt, local, block)?;
    if let Some(image) = first_failing(worker.input, &piece) {
        board.post(seat, image);
    }
    Ok(piece)
}

/// The piece of a block that a worker took. The gate is told before and after.
fn piece_through<'a, J: Run, G: Gate, R: Wait>(
    rt: &R,
    worker: &Worker<'_, 'a, J, G>,
    local: &mut Local<'a>,
    board: &Board,
    seat: &mut Seat,
    block: u32,
) -> Result<Piece, AllocError>
    requires board { seat.old.board ≡ board.now.name }
    requires local { IsLocal worker.now.input.now local.old }
    requires block { block < block_count worker.now.input.now }
    ensures local { IsLocal worker.now.input.now local.new }
    ensures board { seat.new.board ≡ seat.old.board }
    ensures taken { taken_blocks seat.new ≡ taken_blocks seat.old }
    ensures seen { next_seen seat.old.steps ≤ next_seen seat.new.steps }
    ensures added { IfOk result (AddsPiece worker.now.input.now block seat.old.steps seat.new.steps) }
{
    worker.gate.before(worker.number, block);
    let piece = piece_taken(rt, worker, local, board, seat, block)?;
    worker.gate.after(worker.number, block);
    Ok(piece)
}

/// Takes blocks by a worker's hand until it finds none, but no more than there are: a piece of each.
fn take_blocks<'a, J: Run, H: Deal, G: Gate, R: Wait>(
    rt: &R,
    worker: &Worker<'_, 'a, J, G>,
    local: &mut Local<'a>,
    board: &Board,
    seat: &mut Seat,
    hand: &mut Hand<H>,
) -> Result<Vec<Piece>, AllocError>
    requires blocks { (board.now.name.blocks ≡ block_count worker.now.input.now) × (H.blocks ≡ block_count worker.now.input.now) }
    requires local { IsLocal worker.now.input.now local.old }
    requires board { seat.old.board ≡ board.now.name }
    requires fresh { (seat.old.steps ≡ []) × IsEmptyHand hand.old }
    ensures place { hand.new.place ≡ hand.old.place }
    ensures phase { hand.new.phase ≡ Open }
    ensures local { IsLocal worker.now.input.now local.new }
    ensures taken { IfOk result (λ pieces. HasTaken worker.now.input.now board.now.name seat.new hand.new [] pieces.items) }
{
    let mut pieces = Vec::new(worker.shards.alloc());
    for _turn in 0..worker.input.block_count() {
        let Some(block) = hand.take(board, seat) else {
            return Ok(pieces);
        };
        let piece = piece_through(rt, worker, local, board, seat, block)?;
        pieces.push(piece)?;
    }
    Ok(pieces)
}

/// Draws blocks from the board until there is none left, and adds a piece of each.
fn draw_blocks<'a, J: Run, G: Gate, R: Wait>(
    rt: &R,
    worker: &Worker<'_, 'a, J, G>,
    local: &mut Local<'a>,
    board: &Board,
    seat: &mut Seat,
    pieces: &mut Vec<Piece>,
) -> Result<(), AllocError>
    requires blocks { board.now.name.blocks ≡ block_count worker.now.input.now }
    requires board { seat.old.board ≡ board.now.name }
    requires local { IsLocal worker.now.input.now local.old }
    ensures local { IsLocal worker.now.input.now local.new }
    ensures taken { OnOk result ((hand : HandValue) → HasTaken worker.now.input.now board.now.name seat.old hand [] pieces.old.items
        → HasTaken worker.now.input.now board.now.name seat.new hand [] pieces.new.items) }
    ensures ended { OnOk result (HasEnded seat.new) }
{
    while let Some(block) = board.draw(seat) {
        let piece = piece_through(rt, worker, local, board, seat, block)?;
        pieces.push(piece)?;
    }
    Ok(())
}

/// Adds a piece of each block that a closing hand kept, until the hand is closed.
fn judge_kept<'a, J: Run, H: Deal, G: Gate, R: Wait>(
    rt: &R,
    worker: &Worker<'_, 'a, J, G>,
    local: &mut Local<'a>,
    hand: &mut Hand<H>,
    pieces: &mut Vec<Piece>,
) -> Result<(), AllocError>
    requires blocks { H.blocks ≡ block_count worker.now.input.now }
    requires local { IsLocal worker.now.input.now local.old }
    requires phase { hand.old.phase ≡ Closing }
    ensures place { hand.new.place ≡ hand.old.place }
    ensures taken { OnOk result ((board : BoardName) (seat : SeatValue) → HasTaken worker.now.input.now board seat hand.old [] pieces.old.items
        → HasTaken worker.now.input.now board seat hand.new [] pieces.new.items) }
    ensures shut { OnOk result (IsShut hand.new) }
{
    while let Some(block) = hand.rest() {
        let piece = piece_left(rt, worker, local, block)?;
        pieces.push(piece)?;
    }
    Ok(())
}

/// Closes a worker's hand, and adds a piece of each block that it kept. Where the push of a closing mark was
/// refused to it, these blocks are left in it.
fn close_hand<'a, J: Run, H: Deal, G: Gate, R: Wait>(
    rt: &R,
    worker: &Worker<'_, 'a, J, G>,
    local: &mut Local<'a>,
    hand: &mut Hand<H>,
    pieces: &mut Vec<Piece>,
) -> Result<(), AllocError>
    requires blocks { H.blocks ≡ block_count worker.now.input.now }
    requires local { IsLocal worker.now.input.now local.old }
    requires phase { hand.old.phase ≡ Open }
    ensures place { hand.new.place ≡ hand.old.place }
    ensures taken { OnOk result ((board : BoardName) (seat : SeatValue) → HasTaken worker.now.input.now board seat hand.old [] pieces.old.items
        → HasTaken worker.now.input.now board seat hand.new [] pieces.new.items) }
    ensures settled { OnOk result (IsSettled hand.new) }
{
    if hand.close() {
        judge_kept(rt, worker, local, hand, pieces)?;
        return Ok(());
    }
    Ok(())
}

/// The pieces of the blocks that a worker takes. It takes them by its hand, until the hand finds none. A
/// hand that gave as many blocks as there are is asked no more: what is left to draw is then drawn alone. At
/// the end it closes its hand.
pub(crate) fn pieces_taken<'a, J: Run, H: Deal, G: Gate, R: Wait>(
    rt: &R,
    worker: &Worker<'_, 'a, J, G>,
    board: &Board,
    seat: &mut Seat,
    hand: &mut Hand<H>,
) -> Result<Vec<Piece>, AllocError>
    requires board { seat.old.board ≡ board.now.name }
    requires blocks { (board.now.name.blocks ≡ block_count worker.now.input.now) × (H.blocks ≡ block_count worker.now.input.now) }
    requires fresh { (seat.old.steps ≡ []) × IsEmptyHand hand.old }
    ensures place { hand.new.place ≡ hand.old.place }
    ensures pieces { IfOk result (λ pieces. HasTaken worker.now.input.now board.now.name seat.new hand.new [] pieces.items) }
    ensures ended { IfOk result (λ _. HasEnded seat.new) }
    ensures settled { IfOk result (λ _. IsSettled hand.new) }
{
    let mut local = Local::new(worker.shards.alloc(), worker.input)?;
    let mut pieces = take_blocks(rt, worker, &mut local, board, seat, hand)?;
    draw_blocks(rt, worker, &mut local, board, seat, &mut pieces)?;
    close_hand(rt, worker, &mut local, hand, &mut pieces)?;
    Ok(pieces)
}
