//! The board: the farm core in four shared words.
ghost use Rattle.std.specs.Prelude.{◌≡◌, ◌+◌, ◌<◌, ◌≤◌, min, nat_lt, [], length, replicate, All, vec_capacity};
ghost use Rattle.std.specs.Prelude.{IfOk, IfErr, OnOk};
ghost use Rattle.tp_board.specs.Views.{newcomer};
ghost use Rattle.tp_board.specs.Boards.{BoardView, board_of, IsBoard, NewRefuses};
ghost use Rattle.tp_board.specs.Boards.{IsSeatOf, seat_of, new_seat, views_of};
ghost use Rattle.tp_board.specs.Calls.{ClaimSays, FinishSays, AbandonSays};
ghost use Rattle.tp_board.specs.Calls.{IsEmptyHanded, StopSays, LookSays};
ghost use Rattle.tp_board.specs.Ledgers.{Balances, join_of_all};
ghost use Rattle.tp_board.specs.Openings.{InRange, Opens};

mod seat;
mod source;

use crate::answer::{BoardFault, Claim, Ledger, MAX_MEMBERS, MAX_PACKETS};
use crate::event::Shown;
use crate::rule::{
    Abandon, BoardRule, Draw, Finish, Halt, LookClaimed, LookDone, LookLost, LookStop, OneSeat,
    Size,
};
use crate::view::View;
use atomic_table::Table;
pub use seat::Seat;
pub use source::BoardSource;
use std::alloc::Global;
use std::marker::Model;

// The four words: how often a number was claimed, how many are done, how many are lost, and the
// stop mark as 0 or 1.
const CLAIMED: usize = 0;

const DONE: usize = 1;

const LOST: usize = 2;

const STOP: usize = 3;

// The four words, with their rule.
type Words = Table<(), View, Size, BoardRule, Global>;

/// Packet numbers for the members to draw, shared by `&` between their threads.
///
/// No call takes a lock or waits, and none but `new` takes memory. A seat of another board is
/// against each call's condition. To a contract a board is its table's name and its two sizes.
#[derive(Drop)]
pub struct Board {
    table: Words,
    packets: u32,
    members: u32,
}

impl Model for Board {
    ghost Value = { BoardView };

    ghost view = { λ b. board_of b.table.shared.table_id b.packets b.members };

    ghost invariant = { λ b. IsBoard b.table.shared.table_id b.table.shared.key b.packets b.members };
}

/// A4: a seat of the board is missing. The board and the seats are handed back as they were.
#[derive(Drop)]
pub struct CloseFault {
    pub board: Board,
    pub seats: Vec<Seat>,
}

impl Board {
    /// A board of this many packets, numbered from 0, with a seat for each member. The members are
    /// tested before the packets.
    pub fn new(alloc: Global, packets: u32, members: u32) -> Result<(Board, Vec<Seat>), BoardFault>
        ensures in_range { OnOk result (InRange packets members) }
        ensures board { IfOk result (λ r. r.0 ≡ board_of r.0.table packets members) }
        ensures seats { IfOk result (λ r. r.1.items ≡ replicate members (new_seat r.0)) }
        ensures own { IfOk result (λ r. All (IsSeatOf r.0) r.1.items) }
        ensures opens { IfOk result (λ r. Opens packets members (views_of r.1.items)) }
        ensures err { IfErr result (NewRefuses packets members) }
    {
        if members == 0 || members > MAX_MEMBERS {
            return Err(BoardFault::Members);
        }
        if packets > MAX_PACKETS {
            return Err(BoardFault::Packets);
        }
        let mut seats = Vec::with_capacity(alloc, members as usize)?;
        let about = Size {
            packets: u64::from(packets),
            members: u64::from(members),
        };
        let (table, token) = Words::of_words(alloc, &[0, 0, 0, 0], &about)?;
        deal_seats(&table, token, packets, members, &mut seats);
        let board = Board {
            table,
            packets,
            members,
        };
        Ok((board, seats))
    }

    /// Draws a number. With a number still in hand, after NoMore, and after a claim or a look has
    /// shown the stop mark, it answers without a step. Else it loads the stop mark and, where that
    /// is clear, adds one to the count of claims.
    pub fn claim(&self, seat: &mut Seat) -> Claim
        requires { IsSeatOf self.now seat.old }
        ensures own { IsSeatOf self.now seat.new }
        ensures says { ClaimSays seat.old.view result seat.new.view }
    {
        if let Some(number) = seat.hand {
            return Claim::Busy(number);
        }
        if seat.ended {
            return Claim::NoMore;
        }
        if seat.stop_seen {
            return Claim::Stopped;
        }
        let shared = &self.table.shared;
        if shared.load::<LookStop>(&mut seat.token, STOP) != 0 {
            seat.stop_seen = true;
            return Claim::Stopped;
        }
        let found = shared.fetch_add::<Draw>(&mut seat.token, CLAIMED, 1);
        if found < u64::from(seat.packets) {
            let number = found as u32;
            seat.hand = Some(number);
            return Claim::Packet(number);
        }
        seat.ended = true;
        Claim::NoMore
    }

    /// The number in hand is done: one addition to the count of those, and the number. With
    /// nothing in hand no step is made.
    pub fn finish(&self, seat: &mut Seat) -> Result<u32, BoardFault>
        requires { IsSeatOf self.now seat.old }
        ensures own { IsSeatOf self.now seat.new }
        ensures ok { IfOk result (λ n. FinishSays seat.old.view n seat.new.view) }
        ensures err { IfErr result (λ e. IsEmptyHanded seat.old e seat.new) }
    {
        let Some(number) = seat.hand else {
            return Err(BoardFault::EmptyHand);
        };
        self.table
            .shared
            .fetch_add::<Finish>(&mut seat.token, DONE, 1);
        seat.hand = None;
        Ok(number)
    }

    /// The number in hand is lost: one addition to the count of those, and the number. With
    /// nothing in hand no step is made.
    pub fn abandon(&self, seat: &mut Seat) -> Result<u32, BoardFault>
        requires { IsSeatOf self.now seat.old }
        ensures own { IsSeatOf self.now seat.new }
        ensures ok { IfOk result (λ n. AbandonSays seat.old.view n seat.new.view) }
        ensures err { IfErr result (λ e. IsEmptyHanded seat.old e seat.new) }
    {
        let Some(number) = seat.hand else {
            return Err(BoardFault::EmptyHand);
        };
        self.table
            .shared
            .fetch_add::<Abandon>(&mut seat.token, LOST, 1);
        seat.hand = None;
        Ok(number)
    }

    /// Sets the stop mark, by one step. What is in hand stays there.
    pub fn stop(&self, seat: &mut Seat)
        requires { IsSeatOf self.now seat.old }
        ensures own { IsSeatOf self.now seat.new }
        ensures says { StopSays seat.old.view seat.new.view }
    {
        self.table.shared.fetch_or::<Halt>(&mut seat.token, STOP, 1);
    }

    /// Loads one of the four words, by one step: how many numbers are drawn, done or lost, or the
    /// stop mark as 0 or 1.
    pub fn look(&self, seat: &mut Seat, what: Shown) -> u64
        requires { IsSeatOf self.now seat.old }
        ensures own { IsSeatOf self.now seat.new }
        ensures says { LookSays seat.old.view what result seat.new.view }
    {
        let shared = &self.table.shared;
        match what {
            Shown::Claimed => shared
                .load::<LookClaimed>(&mut seat.token, CLAIMED)
                .min(u64::from(seat.packets)),
            Shown::Done => shared.load::<LookDone>(&mut seat.token, DONE),
            Shown::Lost => shared.load::<LookLost>(&mut seat.token, LOST),
            Shown::Stop => {
                let found = shared.load::<LookStop>(&mut seat.token, STOP);
                if found != 0 {
                    seat.stop_seen = true;
                }
                found
            }
        }
    }

    /// The accounts of the board, where all of its seats are here.
    pub fn close(self, mut seats: Vec<Seat>) -> Result<Ledger, CloseFault>
        requires { All (IsSeatOf self) seats.items }
        ensures all { IfOk result (λ l. length seats.items ≡ self.members) }
        ensures ledger { IfOk result (Balances self.packets (views_of seats.items)) }
        ensures missing { IfErr result (λ f. length seats.items < self.members) }
        ensures err { IfErr result (λ f. (f.board ≡ self) × (f.seats.items ≡ seats.items)) }
    {
        if seats.len() < self.members as usize {
            return Err(CloseFault { board: self, seats });
        }
        let Some(first) = seats.pop() else {
            unreachable!()
        };
        let token = self.gather(first, seats);
        let Board {
            table,
            packets,
            members: _,
        } = self;
        let closed = table.close_with(token);
        let claimed = closed.word(CLAIMED);
        let done = closed.word(DONE);
        let lost = closed.word(LOST);
        let stop = closed.word(STOP);
        closed.free();
        Ok(ledger(packets, claimed, done, lost, stop))
    }

    // All seats in one.
    fn gather(&self, first: Seat, mut rest: Vec<Seat>) -> atomic_table::Seat<(), View>
        requires first { IsSeatOf self.now first }
        requires rest { All (IsSeatOf self.now) rest.items }
        ensures table { result.table_id ≡ self.now.table }
        ensures view { result.me ≡ (join_of_all first.view (views_of rest.items), []) }
        ensures parts { result.me.0.parts ≡ length rest.items + 1 }
    {
        let mut token = first.token;
        while let Some(next) = rest.pop() {
            self.table
                .shared
                .join_seat::<OneSeat>(&mut token, next.token);
        }
        token
    }
}

// A seat for each member, cut from the one that is all of them.
fn deal_seats(
    table: &Words,
    mut token: atomic_table::Seat<(), View>,
    packets: u32,
    members: u32,
    seats: &mut Vec<Seat>,
)
    requires table { (token.table_id ≡ table.now.shared.table_id) × (table.now.shared.table_id.words ≡ 4) }
    requires whole { (token.me ≡ (newcomer packets members, [])) × (0 < members) }
    requires room { (seats.old.items ≡ []) × (members ≤ vec_capacity seats.old) }
    ensures { seats.new.items ≡ replicate members (seat_of table.now.shared.table_id (newcomer packets 1)) }
{
    for made in 0..members - 1 {
        let other = table.shared.split_seat::<OneSeat>(&mut token);
        seats.push_reserved(seated(other, packets));
    }
    seats.push_reserved(seated(token, packets));
}

// The seat of one member, which has made no step.
fn seated(token: atomic_table::Seat<(), View>, packets: u32) -> Seat
    requires { token.me ≡ (newcomer packets 1, []) }
    ensures { result ≡ seat_of token.table_id (newcomer packets 1) }
{
    Seat {
        token,
        packets,
        hand: None,
        ended: false,
        stop_seen: false,
    }
}

// The ledger that the four words give.
fn ledger(packets: u32, claimed: u64, done: u64, lost: u64, stop: u64) -> Ledger
    requires { done + lost ≤ min claimed packets }
    ensures drawn { result.drawn ≡ min claimed packets }
    ensures done { result.done ≡ done }
    ensures lost { result.lost ≡ lost }
    ensures in_hand { result.drawn ≡ done + lost + result.in_hand }
    ensures stopped { result.stopped ≡ nat_lt 0 stop }
{
    let drawn = claimed.min(u64::from(packets));
    Ledger {
        drawn: drawn as u32,
        done: done as u32,
        lost: lost as u32,
        in_hand: (drawn - done - lost) as u32,
        stopped: stop > 0,
    }
}
