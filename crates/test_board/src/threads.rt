//! A board that four threads draw from.
ghost use Rattle.std.specs.Prelude.{◌≡◌, IfSome};
ghost use Rattle.tp_board.specs.Boards.{IsSeatOf};

use crate::asserts::{assert_same, unwrap};
use crate::boards::last_two;
use std::alloc::Global;
use std::process::Abort;
use std::snapshot::Snapshot;
use std::thread;
use std::thread::{Promise, PromisedHandle, Scope, Threads};
use tp_board::{Board, Claim, Ledger, Seat, Shown};

// The seat of a thread comes back to the board that it was given for.
#[derive(Drop)]
struct SeatBack(Snapshot<Board>);

impl Promise<Seat> for SeatBack {
    ghost use Rattle.tp_board.specs.Boards.{IsSeatOf};

    ghost kept_by = { λ p seat. IsSeatOf p.0.value seat };
}

// Claims and finishes until there is no more.
fn worked(board: &Board, mut seat: Seat) -> Seat
    requires { IsSeatOf board.now seat }
    ensures { IsSeatOf board.now result }
{
    for _ in 0..1001 {
        let Claim::Packet(number) = board.claim(&mut seat) else {
            return seat;
        };
        if board.finish(&mut seat) != Ok(number) || board.look(&mut seat, Shown::Done) == 0 {
            return seat;
        }
    }
    seat
}

fn started<'s, 'e>(
    scope: &'s Scope<'s, &'e ()>,
    board: &'e Board,
    seat: Seat,
) -> Option<PromisedHandle<Seat, SeatBack>>
    requires { IsSeatOf board.now seat }
    ensures { IfSome result (λ h. h.promise.0.value ≡ board.now) }
{
    let promise = SeatBack(Snapshot::of(board));
    scope
        .spawn_with(
            promise,
            move || -> Seat
                requires { IsSeatOf board.now seat }
                ensures { IsSeatOf board.entry.now result }
            { worked(board, seat) },
        )
        .ok()
}

fn four_worked<'s, 'e, R: Threads>(
    rt: &R,
    scope: &'s Scope<'s, &'e ()>,
    board: &'e Board,
    seats: (Seat, Seat, Seat, Seat),
) -> Option<(Seat, Seat, Seat, Seat)>
    requires first { IsSeatOf board.now seats.0 × IsSeatOf board.now seats.1 }
    requires last { IsSeatOf board.now seats.2 × IsSeatOf board.now seats.3 }
    ensures first { IfSome result (λ s. IsSeatOf board.now s.0 × IsSeatOf board.now s.1) }
    ensures last { IfSome result (λ s. IsSeatOf board.now s.2 × IsSeatOf board.now s.3) }
{
    let (a, b, c, d) = seats;
    let a = started(scope, board, a)?;
    let b = started(scope, board, b)?;
    let c = started(scope, board, c)?;
    let d = started(scope, board, d)?;
    Some((a.join(rt), b.join(rt), c.join(rt), d.join(rt)))
}

/// A board of four seats.
fn board_of_four(alloc: Global, packets: u32) -> Option<(Board, (Seat, Seat, Seat, Seat))>
    ensures first { IfSome result (λ r. IsSeatOf r.0 r.1.0 × IsSeatOf r.0 r.1.1) }
    ensures last { IfSome result (λ r. IsSeatOf r.0 r.1.2 × IsSeatOf r.0 r.1.3) }
{
    let (board, mut seats) = Board::new(alloc, packets, 4).ok()?;
    let (a, b) = last_two(&board, &mut seats)?;
    let (c, d) = last_two(&board, &mut seats)?;
    Some((board, (a, b, c, d)))
}

fn closed(
    rt: &impl Abort,
    alloc: Global,
    board: Board,
    seats: (Seat, Seat, Seat, Seat),
) -> Option<Ledger>
    requires first { IsSeatOf board seats.0 × IsSeatOf board seats.1 }
    requires last { IsSeatOf board seats.2 × IsSeatOf board seats.3 }
{
    let (a, b, c, d) = seats;
    let seats = unwrap(rt, vec![in alloc; a, b, c, d]);
    board.close(seats).ok()
}

#[test]
fn four_threads(rt: HostRuntime) {
    let (board, seats) = unwrap(&rt, board_of_four(rt.alloc(), 1000).ok_or("no board"));
    let shared = &board;
    let back = thread::scope(thread::scope_env(), &rt, |scope| {
        four_worked(&rt, scope, shared, seats)
    });
    let seats = unwrap(&rt, back.ok_or("a thread was not started"));
    let wanted = Ledger {
        drawn: 1000,
        done: 1000,
        lost: 0,
        in_hand: 0,
        stopped: false,
    };
    assert_same(&rt, &closed(&rt, rt.alloc(), board, seats), &Some(wanted));
}
