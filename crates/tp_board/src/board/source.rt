//! A board as a source of work.
ghost use Rattle.std.specs.Prelude.{◌≡◌, true, None, length, map, IfOk, IfErr, OnErr};
ghost use Rattle.tp_board.specs.Boards.{IsSeatOf};
ghost use Rattle.tp_board.specs.Calls.{ClaimSays, FinishSays, AbandonSays, StopSays};
ghost use Rattle.tp_board.specs.Sources.{SourceView, source_of};

use crate::answer::BoardFault;
use crate::board::Board;
use crate::board::seat::Seat;
use crate::source::{Packet, Work, WorkSource, with_bytes};
use std::marker::Model;
use std::sync::Wait;

/// A board with the bytes of its packets. Its hands are the board's seats.
#[derive(Drop)]
pub struct BoardSource<'p> {
    board: Board,
    packets: &'p [Packet],
}

impl<'p> Model for BoardSource<'p> {
    ghost Value = { SourceView };

    ghost view = { λ s. source_of s.board (map (λ p. p.items) s.packets.now) };

    ghost invariant = { λ s. s.board.packets ≡ length s.packets.now };
}

impl<'p> BoardSource<'p> {
    /// Joins a board and its packets, in order of number.
    pub fn new(board: Board, packets: &'p [Packet]) -> BoardSource<'p>
        requires { board.packets ≡ length packets.now }
        ensures { result ≡ source_of board (map (λ p. p.items) packets.entry.now) }
    {
        BoardSource { board, packets }
    }

    /// Gives the board back, for its close.
    pub fn into_board(self) -> Board
        ensures { result ≡ self.entry.board }
    {
        let BoardSource { board, packets: _ } = self;
        board
    }
}

impl<'p> WorkSource for BoardSource<'p> {
    ghost use Rattle.tp_board.specs.declared.answer.BoardFault.TheVariants.{EmptyHand};
    ghost use Rattle.tp_board.specs.Sources.{progress_of, claim_of, NextSays, HandFinished, HandAbandoned};
    ghost use Rattle.tp_board.specs.Views.{first_of};

    type Hand = Seat;

    ghost is_own = { λ s h. IsSeatOf s.board h };

    ghost progress = { λ h. progress_of h.view };

    ghost packets = { λ s. s.packets };

    /// One claim.
    fn next(&self, _rt: &impl Wait, hand: &mut Seat) -> Work
        requires own { IsSeatOf self.now.board hand.old }
        requires empty { first_of hand.old.view.hand ≡ None }
        ensures own { IsSeatOf self.now.board hand.new }
        ensures work { NextSays self.now.packets (progress_of hand.old.view) result (progress_of hand.new.view) }
        ensures steps { ClaimSays hand.old.view (claim_of result) hand.new.view }
    {
        with_bytes(self.board.claim(hand), self.packets)
    }

    /// One finish.
    fn finish(&self, hand: &mut Seat) -> Result<u32, BoardFault>
        requires { IsSeatOf self.now.board hand.old }
        ensures own { IsSeatOf self.now.board hand.new }
        ensures ok { IfOk result (λ n. HandFinished (progress_of hand.old.view) n (progress_of hand.new.view)) }
        ensures err { IfErr result (λ e. e ≡ EmptyHand) }
        ensures empty { OnErr result (first_of hand.old.view.hand ≡ None) }
        ensures unchanged { OnErr result (hand.new ≡ hand.old) }
        ensures steps { IfOk result (λ n. FinishSays hand.old.view n hand.new.view) }
    {
        self.board.finish(hand)
    }

    /// One abandon.
    fn abandon(&self, hand: &mut Seat) -> Result<u32, BoardFault>
        requires { IsSeatOf self.now.board hand.old }
        ensures own { IsSeatOf self.now.board hand.new }
        ensures ok { IfOk result (λ n. HandAbandoned (progress_of hand.old.view) n (progress_of hand.new.view)) }
        ensures err { IfErr result (λ e. e ≡ EmptyHand) }
        ensures empty { OnErr result (first_of hand.old.view.hand ≡ None) }
        ensures unchanged { OnErr result (hand.new ≡ hand.old) }
        ensures steps { IfOk result (λ n. AbandonSays hand.old.view n hand.new.view) }
    {
        self.board.abandon(hand)
    }

    /// One stop.
    fn stop(&self, hand: &mut Seat)
        requires { IsSeatOf self.now.board hand.old }
        ensures own { IsSeatOf self.now.board hand.new }
        ensures called { progress_of hand.new.view ≡ record (progress_of hand.old.view) { stop_called = true } }
        ensures steps { StopSays hand.old.view hand.new.view }
    {
        self.board.stop(hand);
    }
}
