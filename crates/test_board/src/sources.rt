//! Boards as sources of packets.
ghost use Rattle.std.specs.Prelude.{◌≡◌, None, IfSome};
ghost use Rattle.tp_board.specs.Boards.{IsSeatOf};
ghost use Rattle.tp_board.specs.Views.{first_of};

use crate::asserts::{assert_same, unwrap};
use arrayvec::ArrayVec;
use std::alloc::Global;
use std::process::Abort;
use std::sync::Wait;
use tp_board::{Board, BoardFault, BoardSource, Ledger, Packet, Seat, Work, WorkSource};

fn packet_of(first: u8) -> Packet {
    let mut packet = ArrayVec::new();
    let _ = packet.try_extend_from_slice(&[first, 0, 0, 0]);
    packet
}

/// A board of one seat, with nothing in its hand.
fn board_of_one(alloc: Global, packets: u32) -> Option<(Board, Seat)>
    ensures packets { IfSome result (λ r. r.0.packets ≡ packets) }
    ensures own { IfSome result (λ r. IsSeatOf r.0 r.1) }
    ensures empty { IfSome result (λ r. first_of r.1.view.hand ≡ None) }
{
    let (board, mut seats) = Board::new(alloc, packets, 1).ok()?;
    let seat = seats.pop()?;
    Some((board, seat))
}

fn closed(rt: &impl Abort, alloc: Global, source: BoardSource, seat: Seat) -> Option<Ledger>
    requires { IsSeatOf source.board seat }
{
    let seats = unwrap(rt, vec![in alloc; seat]);
    source.into_board().close(seats).ok()
}

// Draws the packet of a number, with its bytes, and finishes it, at any source: whether it could.
fn finishes<S: WorkSource, R: Wait>(
    rt: &R,
    source: &S,
    hand: &mut S::Hand,
    wanted: (u32, [u8; 4]),
) -> bool
    requires own { S.is_own source.now hand.old }
    requires empty { (S.progress hand.old).in_hand ≡ None }
    ensures own { S.is_own source.now hand.new }
    ensures empty { (S.progress hand.new).in_hand ≡ None }
{
    let Work::Packet { number, bytes } = source.next(rt, hand) else {
        return false;
    };
    let is_wanted = number == wanted.0 && bytes.as_slice() == wanted.1.as_slice();
    source.finish(hand) == Ok(wanted.0) && is_wanted
}

// Finishes and abandons nothing, at any source.
fn assert_empty_handed<S: WorkSource>(rt: &impl Abort, source: &S, hand: &mut S::Hand)
    requires own { S.is_own source.now hand.old }
    requires empty { (S.progress hand.old).in_hand ≡ None }
    ensures own { S.is_own source.now hand.new }
    ensures empty { (S.progress hand.new).in_hand ≡ None }
{
    assert_same(rt, &source.finish(hand), &Err(BoardFault::EmptyHand));
    assert_same(rt, &source.abandon(hand), &Err(BoardFault::EmptyHand));
}

// Stops, at any source: no packet comes then.
fn assert_stops<S: WorkSource, R: Wait + Abort>(rt: &R, source: &S, hand: &mut S::Hand)
    requires own { S.is_own source.now hand.old }
    requires empty { (S.progress hand.old).in_hand ≡ None }
    ensures { S.is_own source.now hand.new }
{
    source.stop(hand);
    assert!(rt; matches!(source.next(rt, hand), Work::Stopped));
}

// Abandons what it is given until there is no more, at any source, and counts.
fn abandoned<S: WorkSource, R: Wait>(rt: &R, source: &S, hand: &mut S::Hand) -> u32
    requires own { S.is_own source.now hand.old }
    requires empty { (S.progress hand.old).in_hand ≡ None }
    ensures own { S.is_own source.now hand.new }
    ensures empty { (S.progress hand.new).in_hand ≡ None }
{
    for count in 0..1024 {
        let Work::Packet { .. } = source.next(rt, hand) else {
            return count;
        };
        if source.abandon(hand).is_err() {
            return count;
        }
    }
    1024
}

// Finishes two packets, has then nothing to finish, and stops, at any source.
fn assert_stops_after_two<S: WorkSource, R: Wait + Abort>(rt: &R, source: &S, hand: &mut S::Hand)
    requires own { S.is_own source.now hand.old }
    requires empty { (S.progress hand.old).in_hand ≡ None }
    ensures { S.is_own source.now hand.new }
{
    assert!(rt; finishes(rt, source, hand, (0, [1, 0, 0, 0])));
    assert!(rt; finishes(rt, source, hand, (1, [2, 0, 0, 0])));
    assert_empty_handed(rt, source, hand);
    assert_stops(rt, source, hand);
}

// Has nothing to finish, and abandons two packets, behind which there is no more, at any source.
fn assert_abandons_two<S: WorkSource, R: Wait + Abort>(rt: &R, source: &S, hand: &mut S::Hand)
    requires own { S.is_own source.now hand.old }
    requires empty { (S.progress hand.old).in_hand ≡ None }
    ensures { S.is_own source.now hand.new }
{
    assert_empty_handed(rt, source, hand);
    assert_same(rt, &abandoned(rt, source, hand), &2);
    assert!(rt; matches!(source.next(rt, hand), Work::NoMore));
}

#[test]
fn source_stopped_after_two(rt: HostRuntime) {
    let packets = [packet_of(1), packet_of(2), packet_of(3)];
    let (board, mut hand) = unwrap(&rt, board_of_one(rt.alloc(), 3).ok_or("no board"));
    let source = BoardSource::new(board, &packets);
    assert_stops_after_two(&rt, &source, &mut hand);
    let wanted = Ledger {
        drawn: 2,
        done: 2,
        lost: 0,
        in_hand: 0,
        stopped: true,
    };
    assert_same(&rt, &closed(&rt, rt.alloc(), source, hand), &Some(wanted));
}

#[test]
fn source_of_two_packets(rt: HostRuntime) {
    let packets = [packet_of(1), packet_of(2)];
    let (board, mut hand) = unwrap(&rt, board_of_one(rt.alloc(), 2).ok_or("no board"));
    let source = BoardSource::new(board, &packets);
    assert_abandons_two(&rt, &source, &mut hand);
    let wanted = Ledger {
        drawn: 2,
        done: 0,
        lost: 2,
        in_hand: 0,
        stopped: false,
    };
    assert_same(&rt, &closed(&rt, rt.alloc(), source, hand), &Some(wanted));
}
