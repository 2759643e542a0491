//! The rule of a board's words, and what each kind of step tells the seat that makes it.

ghost use Rattle.shares.specs.Board.{BoardRule};
ghost use Rattle.shares.specs.Moves.{first_view, one_part, less_one, joint_view, newcomer, draw_move, post_move, saw_least, saw_next, enter_move, learned_next, learned_least};

use crate::view::{BoardLimits, SeatView};
use atomic_table::{Join, Play, Split, TableRule};

/// The board rule, as the type of a board's table names it.
pub struct Rule;

impl TableRule<(), SeatView, BoardLimits> for Rule {
    ghost holds = { BoardRule };

    ghost first = { first_view };
}

/// A draw: one fetch_add of the next block.
pub(crate) struct Draw;

impl Play<(), SeatView> for Draw {
    ghost then = { draw_move };
}

/// A post: one fetch_min of the least image.
pub(crate) struct Post;

impl Play<(), SeatView> for Post {
    ghost then = { post_move };
}

/// One load of the least image.
pub(crate) struct LoadLeast;

impl Play<(), SeatView> for LoadLeast {
    ghost then = { saw_least };
}

/// One load of the next block.
pub(crate) struct LoadNext;

impl Play<(), SeatView> for LoadNext {
    ghost then = { saw_next };
}

/// A seat is made that knows nothing.
pub(crate) struct Enter;

impl Play<(), SeatView> for Enter {
    ghost then = { enter_move };
}

/// The seat with every part learns which blocks were drawn.
pub(crate) struct LearnNext;

impl Play<(), SeatView> for LearnNext {
    ghost then = { learned_next };
}

/// The seat with every part learns the least image posted.
pub(crate) struct LearnLeast;

impl Play<(), SeatView> for LearnLeast {
    ghost then = { learned_least };
}

/// One part for a new seat.
pub(crate) struct OnePart;

impl Split<SeatView> for OnePart {
    ghost left = { less_one };

    ghost right = { λ v. one_part };
}

/// What two seats know, in one.
pub(crate) struct Together;

impl Join<SeatView> for Together {
    ghost both = { joint_view };

    ghost spent = { newcomer };
}
