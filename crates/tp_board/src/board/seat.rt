//! A member's seat at a board.
ghost use Rattle.std.specs.Prelude.{◌≡◌, []};
ghost use Rattle.tp_board.specs.Boards.{seat_of, SeatView, IsSeat};

use crate::view::View;
use std::marker::Model;

/// The right to make steps on one board, with what the seat has drawn and knows. [`Board::new`]
/// makes one for each member, and [`Board::close`] takes all of them back.
///
/// To a contract it is its board's table and its view.
///
/// [`Board::new`]: crate::Board::new
/// [`Board::close`]: crate::Board::close
#[derive(Drop)]
pub struct Seat {
    pub(crate) token: atomic_table::Seat<(), View>,
    pub(crate) packets: u32,
    pub(crate) hand: Option<u32>,
    // A claim has returned NoMore.
    pub(crate) ended: bool,
    // A load has found the stop mark set.
    pub(crate) stop_seen: bool,
}

impl Model for Seat {
    ghost Value = { SeatView };

    ghost view = { λ s. seat_of s.token.table_id s.token.me.0 };

    ghost invariant = { λ s. IsSeat s.token.me.0 s.packets s.hand s.ended s.stop_seen × (s.token.me.1 ≡ []) };
}
