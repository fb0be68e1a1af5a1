//! Boards that one thread draws from through two seats, and boards that are refused.
ghost use Rattle.std.specs.Prelude.{◌≡◌, All, IfSome};
ghost use Rattle.tp_board.specs.Boards.{IsSeatOf};

use crate::asserts::{assert_same, unwrap};
use std::alloc::Global;
use std::process::Abort;
use tp_board::{Board, BoardFault, Claim, CloseFault, Ledger, Seat, Shown};

#[test]
fn sizes_refused(rt: HostRuntime) {
    for (packets, members, fault) in [
        (1, 0, BoardFault::Members),
        (1, 65, BoardFault::Members),
        (1025, 1, BoardFault::Packets),
        (1025, 0, BoardFault::Members),
    ] {
        let refused = Board::new(rt.alloc(), packets, members).err();
        assert_eq!(rt;
            refused,
            Some(fault),
            "{packets} packets, {members} members"
        );
    }
    assert!(rt; Board::new(rt.alloc(), 1024, 64).is_ok());
}

/// A fault's text begins with its code: A1 tells the members, A2 the packets, A3 an empty hand.
#[test]
fn prints_faults(rt: HostRuntime) {
    for (fault, text) in [
        (BoardFault::Members, "A1: not 1 to 64 members"),
        (BoardFault::Packets, "A2: more than 1024 packets"),
        (BoardFault::EmptyHand, "A3: nothing in hand"),
        (BoardFault::Memory, "memory"),
    ] {
        let printed = unwrap(&rt, format!(in rt.alloc(); "{fault}"));
        assert_same(&rt, &printed.as_str(), &text);
    }
}

/// The last two of a board's seats that are left.
pub(crate) fn last_two(board: &Board, seats: &mut Vec<Seat>) -> Option<(Seat, Seat)>
    requires { All (IsSeatOf board.now) seats.old.items }
    ensures left { All (IsSeatOf board.now) seats.new.items }
    ensures first { IfSome result (λ r. IsSeatOf board.now r.0) }
    ensures second { IfSome result (λ r. IsSeatOf board.now r.1) }
{
    let second = seats.pop()?;
    let first = seats.pop()?;
    Some((first, second))
}

/// A board of two seats.
fn board_of_two(alloc: Global, packets: u32) -> Option<(Board, Seat, Seat)>
    ensures zero { IfSome result (λ r. IsSeatOf r.0 r.1) }
    ensures one { IfSome result (λ r. IsSeatOf r.0 r.2) }
{
    let (board, mut seats) = Board::new(alloc, packets, 2).ok()?;
    let (zero, one) = last_two(&board, &mut seats)?;
    Some((board, zero, one))
}

/// A call of a board, with the answer that is wanted.
#[derive(Clone, Copy)]
enum Step {
    Claim(Claim),
    Finish(Result<u32, BoardFault>),
    Abandon(Result<u32, BoardFault>),
    Look(Shown, u64),
    Stop,
}

/// Makes a step: whether the answer is the one that is wanted.
fn is_made(board: &Board, seat: &mut Seat, step: &Step) -> bool
    requires { IsSeatOf board.now seat.old }
    ensures { IsSeatOf board.now seat.new }
{
    match step {
        Step::Claim(claim) => board.claim(seat) == *claim,
        Step::Finish(number) => board.finish(seat) == *number,
        Step::Abandon(number) => board.abandon(seat) == *number,
        Step::Look(what, value) => board.look(seat, *what) == *value,
        Step::Stop => {
            board.stop(seat);
            true
        }
    }
}

/// Makes each step with the seat of its number.
fn assert_steps(
    rt: &impl Abort,
    board: &Board,
    zero: &mut Seat,
    one: &mut Seat,
    steps: &[(u8, Step)],
)
    requires zero { IsSeatOf board.now zero.old }
    requires one { IsSeatOf board.now one.old }
    ensures zero { IsSeatOf board.now zero.new }
    ensures one { IsSeatOf board.now one.new }
{
    for (place, (seat, step)) in steps.iter().enumerate() {
        let made = match seat {
            0 => is_made(board, zero, step),
            _ => is_made(board, one, step),
        };
        assert!(rt; made, "step {place}");
    }
}

/// Without its second seat the board and the first one come back.
fn refused_close(alloc: Global, board: Board, zero: Seat) -> Option<(Board, Vec<Seat>)>
    requires { IsSeatOf board zero }
    ensures board { IfSome result (λ r. r.0 ≡ board) }
    ensures seats { IfSome result (λ r. All (IsSeatOf r.0) r.1.items) }
{
    let mut seats = Vec::new(alloc);
    seats.push(zero).ok()?;
    match board.close(seats) {
        Ok(_) => None,
        Err(CloseFault { board, seats }) => Some((board, seats)),
    }
}

fn closed(rt: &impl Abort, board: Board, mut seats: Vec<Seat>, last: Seat) -> Option<Ledger>
    requires seats { All (IsSeatOf board) seats.items }
    requires last { IsSeatOf board last }
{
    unwrap(rt, seats.push(last));
    board.close(seats).ok()
}

/// The accounts of a board of two seats after these steps. It is closed without its second seat first, and then with
/// both.
fn ledger_after(
    rt: &impl Abort,
    alloc: Global,
    packets: u32,
    steps: &[(u8, Step)],
) -> Option<Ledger> {
    let (board, mut zero, mut one) = unwrap(rt, board_of_two(alloc, packets).ok_or("no board"));
    assert_steps(rt, &board, &mut zero, &mut one, steps);
    let (board, seats) = unwrap(rt, refused_close(alloc, board, zero).ok_or("not refused"));
    closed(rt, board, seats, one)
}

const THREE_PACKETS: [(u8, Step); 13] = [
    (0, Step::Claim(Claim::Packet(0))),
    (0, Step::Claim(Claim::Busy(0))),
    (1, Step::Claim(Claim::Packet(1))),
    (0, Step::Finish(Ok(0))),
    (0, Step::Claim(Claim::Packet(2))),
    (1, Step::Abandon(Ok(1))),
    (1, Step::Claim(Claim::NoMore)),
    (1, Step::Finish(Err(BoardFault::EmptyHand))),
    (1, Step::Abandon(Err(BoardFault::EmptyHand))),
    (0, Step::Look(Shown::Claimed, 3)),
    (0, Step::Look(Shown::Done, 1)),
    (0, Step::Look(Shown::Lost, 1)),
    (0, Step::Look(Shown::Stop, 0)),
];

#[test]
fn board_of_three_packets(rt: HostRuntime) {
    let wanted = Ledger {
        drawn: 3,
        done: 1,
        lost: 1,
        in_hand: 1,
        stopped: false,
    };
    let ledger = ledger_after(&rt, rt.alloc(), 3, &THREE_PACKETS);
    assert_same(&rt, &ledger, &Some(wanted));
}

const STOPPED: [(u8, Step); 4] = [
    (0, Step::Stop),
    (1, Step::Stop),
    (0, Step::Claim(Claim::Stopped)),
    (1, Step::Look(Shown::Stop, 1)),
];

#[test]
fn stopped_at_once(rt: HostRuntime) {
    let wanted = Ledger {
        drawn: 0,
        done: 0,
        lost: 0,
        in_hand: 0,
        stopped: true,
    };
    let ledger = ledger_after(&rt, rt.alloc(), 100, &STOPPED);
    assert_same(&rt, &ledger, &Some(wanted));
}

/// Seat 0 has learnt the end before it sees the stop, seat 1 the stop alone.
const ENDED_BEFORE_THE_STOP: [(u8, Step); 8] = [
    (0, Step::Claim(Claim::Packet(0))),
    (0, Step::Finish(Ok(0))),
    (0, Step::Claim(Claim::NoMore)),
    (1, Step::Stop),
    (0, Step::Look(Shown::Stop, 1)),
    (0, Step::Claim(Claim::NoMore)),
    (1, Step::Look(Shown::Stop, 1)),
    (1, Step::Claim(Claim::Stopped)),
];

#[test]
fn the_end_is_answered_before_the_stop(rt: HostRuntime) {
    let wanted = Ledger {
        drawn: 1,
        done: 1,
        lost: 0,
        in_hand: 0,
        stopped: true,
    };
    let ledger = ledger_after(&rt, rt.alloc(), 1, &ENDED_BEFORE_THE_STOP);
    assert_same(&rt, &ledger, &Some(wanted));
}
