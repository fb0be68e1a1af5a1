//! Streams that one thread feeds and takes from.
ghost use Rattle.std.specs.Prelude.{◌≡◌, All, IfSome};
ghost use Rattle.tp_stream.specs.Streams.{IsHandOf, IsFeederOf};

use crate::asserts::{assert_same, unwrap};
use arrayvec::ArrayVec;
use std::alloc::Global;
use std::process::Abort;
use std::sync::Wait;
use tp_stream::{
    BoardFault, Fed, Feeder, Ledger, Packet, StreamCloseFault, StreamHand, StreamLedger,
    StreamQueue, Work, WorkSource,
};

/// This many packets. The first two bytes of each are its number.
pub fn packets_of(rt: &impl Abort, alloc: Global, count: u16) -> Vec<Packet> {
    let mut packets = Vec::new(alloc);
    for number in 0..count {
        let mut packet = ArrayVec::new();
        let _ = packet.try_extend_from_slice(&number.to_le_bytes());
        unwrap(rt, packets.push(packet));
    }
    packets
}

#[test]
fn sizes_refused(rt: HostRuntime) {
    let many = packets_of(&rt, rt.alloc(), 1025);
    let most = packets_of(&rt, rt.alloc(), 1024);
    for (members, fault) in [
        (0, BoardFault::Members),
        (65, BoardFault::Members),
        (1, BoardFault::Packets),
    ] {
        let refused = StreamQueue::new(rt.alloc(), many.as_slice(), members).err();
        assert_eq!(rt; refused, Some(fault), "{members} members");
    }
    assert!(rt; StreamQueue::new(rt.alloc(), most.as_slice(), 64).is_ok());
}

// Feeds until a try answers something else than Pushed: how many pushes, and that answer.
fn fed<R: Wait>(rt: &R, stream: &StreamQueue, feeder: &mut Feeder) -> (u32, Fed)
    requires { IsFeederOf stream.now feeder.old }
    ensures { IsFeederOf stream.now feeder.new }
{
    for count in 0..1200 {
        let answer = stream.feed(rt, feeder);
        if answer != Fed::Pushed {
            return (count, answer);
        }
    }
    (1200, Fed::Pushed)
}

// Takes the packet of this number with an empty hand.
fn takes<R: Wait>(rt: &R, stream: &StreamQueue, hand: &mut StreamHand, wanted: u16) -> bool
    requires { IsHandOf stream.now hand.old }
    ensures { IsHandOf stream.now hand.new }
{
    if stream.finish(hand) != Err(BoardFault::EmptyHand) {
        return false;
    }
    match stream.next(rt, hand) {
        Work::Packet { number, bytes } => {
            number == u32::from(wanted) && bytes.as_slice() == wanted.to_le_bytes().as_slice()
        }
        _ => false,
    }
}

// The hand is empty, and finds the stream stopped.
fn finds_stopped<R: Wait>(rt: &R, stream: &StreamQueue, hand: &mut StreamHand) -> bool
    requires { IsHandOf stream.now hand.old }
    ensures { IsHandOf stream.now hand.new }
{
    stream.abandon(hand) == Err(BoardFault::EmptyHand)
        && matches!(stream.next(rt, hand), Work::Stopped)
}

fn closed<R: Wait>(
    rt: &R,
    stream: StreamQueue,
    feeder: Feeder,
    hands: Vec<StreamHand>,
) -> Option<StreamLedger>
    requires feeder { IsFeederOf stream feeder }
    requires hands { All (IsHandOf stream) hands.items }
{
    stream.close(rt, feeder, hands).ok()
}

/// A call of a stream with one hand, with the answer that is wanted.
#[derive(Clone, Copy)]
enum Step {
    /// Feeds until a try pushes nothing: how many pushes, and the answer to that try.
    Fill(u32, Fed),
    Feed(Fed),
    WaitForRoom,
    Take(u16),
    Finish(Result<u32, BoardFault>),
    Abandon(Result<u32, BoardFault>),
    Stop,
    StopFeeding,
    FindStopped,
}

/// Makes a step: whether the answer is the one that is wanted.
fn is_made<R: Wait>(
    rt: &R,
    stream: &StreamQueue,
    feeder: &mut Feeder,
    hand: &mut StreamHand,
    step: &Step,
) -> bool
    requires feeder { IsFeederOf stream.now feeder.old }
    requires hand { IsHandOf stream.now hand.old }
    ensures feeder { IsFeederOf stream.now feeder.new }
    ensures hand { IsHandOf stream.now hand.new }
{
    match step {
        Step::Fill(count, answer) => fed(rt, stream, feeder) == (*count, *answer),
        Step::Feed(answer) => stream.feed(rt, feeder) == *answer,
        Step::WaitForRoom => {
            stream.wait_for_room(rt);
            true
        }
        Step::Take(number) => takes(rt, stream, hand, *number),
        Step::Finish(number) => stream.finish(hand) == *number,
        Step::Abandon(number) => stream.abandon(hand) == *number,
        Step::Stop => {
            stream.stop(hand);
            true
        }
        Step::StopFeeding => {
            stream.stop_feeding(feeder);
            true
        }
        Step::FindStopped => finds_stopped(rt, stream, hand),
    }
}

fn assert_steps<R: Wait + Abort>(
    rt: &R,
    stream: &StreamQueue,
    feeder: &mut Feeder,
    hand: &mut StreamHand,
    steps: &[Step],
)
    requires feeder { IsFeederOf stream.now feeder.old }
    requires hand { IsHandOf stream.now hand.old }
    ensures feeder { IsFeederOf stream.now feeder.new }
    ensures hand { IsHandOf stream.now hand.new }
{
    for (place, step) in steps.iter().enumerate() {
        assert!(rt; is_made(rt, stream, feeder, hand, step), "step {place}");
    }
}

/// A stream with one hand.
fn stream_of_one<'p>(
    alloc: Global,
    packets: &'p [Packet],
) -> Option<(StreamQueue<'p>, Feeder, StreamHand)>
    ensures feeder { IfSome result (λ r. IsFeederOf r.0 r.1) }
    ensures hand { IfSome result (λ r. IsHandOf r.0 r.2) }
{
    let (stream, feeder, mut hands) = StreamQueue::new(alloc, packets, 1).ok()?;
    let hand = hands.pop()?;
    Some((stream, feeder, hand))
}

/// The accounts of a stream of this many packets with one hand, after these steps.
fn ledger_after<R: Wait + Abort>(
    rt: &R,
    alloc: Global,
    count: u16,
    steps: &[Step],
) -> Option<StreamLedger> {
    let packets = packets_of(rt, alloc, count);
    let stream = stream_of_one(alloc, packets.as_slice());
    let (stream, mut feeder, mut hand) = unwrap(rt, stream.ok_or("no stream"));
    assert_steps(rt, &stream, &mut feeder, &mut hand, steps);
    let hands = unwrap(rt, vec![in alloc; hand]);
    closed(rt, stream, feeder, hands)
}

#[test]
fn room_for_thirty_two(rt: HostRuntime) {
    let steps = [
        Step::Fill(32, Fed::Full),
        Step::Take(0),
        Step::Feed(Fed::Pushed),
        Step::Feed(Fed::Full),
        Step::Finish(Ok(0)),
    ];
    let wanted = StreamLedger {
        pushed: 33,
        ledger: Ledger {
            drawn: 1,
            done: 1,
            lost: 0,
            in_hand: 0,
            stopped: false,
        },
    };
    assert_same(
        &rt,
        &ledger_after(&rt, rt.alloc(), 40, &steps),
        &Some(wanted),
    );
}

/// A wait for room ends also where nobody takes a packet.
#[test]
fn waits_for_room_that_end(rt: HostRuntime) {
    let steps = [
        Step::Fill(32, Fed::Full),
        Step::WaitForRoom,
        Step::Feed(Fed::Full),
        Step::Take(0),
        Step::WaitForRoom,
        Step::Feed(Fed::Pushed),
        Step::Abandon(Ok(0)),
    ];
    let wanted = StreamLedger {
        pushed: 33,
        ledger: Ledger {
            drawn: 1,
            done: 0,
            lost: 1,
            in_hand: 0,
            stopped: false,
        },
    };
    assert_same(
        &rt,
        &ledger_after(&rt, rt.alloc(), 40, &steps),
        &Some(wanted),
    );
}

#[test]
fn full_queue_that_is_stopped(rt: HostRuntime) {
    let steps = [
        Step::Fill(32, Fed::Full),
        Step::Take(0),
        Step::Abandon(Ok(0)),
        Step::Stop,
        Step::Feed(Fed::Stopped),
        Step::FindStopped,
    ];
    let wanted = StreamLedger {
        pushed: 32,
        ledger: Ledger {
            drawn: 1,
            done: 0,
            lost: 1,
            in_hand: 0,
            stopped: true,
        },
    };
    assert_same(
        &rt,
        &ledger_after(&rt, rt.alloc(), 40, &steps),
        &Some(wanted),
    );
}

#[test]
fn feeder_that_stops(rt: HostRuntime) {
    let steps = [
        Step::Feed(Fed::Pushed),
        Step::Take(0),
        Step::StopFeeding,
        Step::Feed(Fed::Stopped),
    ];
    let wanted = StreamLedger {
        pushed: 1,
        ledger: Ledger {
            drawn: 1,
            done: 0,
            lost: 0,
            in_hand: 1,
            stopped: true,
        },
    };
    assert_same(
        &rt,
        &ledger_after(&rt, rt.alloc(), 2, &steps),
        &Some(wanted),
    );
}

/// The stop mark is loaded at each try, also where all is pushed.
#[test]
fn feeder_that_stops_when_all_is_pushed(rt: HostRuntime) {
    let steps = [
        Step::Fill(2, Fed::Over),
        Step::Feed(Fed::Over),
        Step::Stop,
        Step::Feed(Fed::Stopped),
        Step::FindStopped,
    ];
    let wanted = StreamLedger {
        pushed: 1,
        ledger: Ledger {
            drawn: 0,
            done: 0,
            lost: 0,
            in_hand: 0,
            stopped: true,
        },
    };
    assert_same(
        &rt,
        &ledger_after(&rt, rt.alloc(), 1, &steps),
        &Some(wanted),
    );
}

/// How many hands come back where a stream of two is closed without one of them.
fn refused_close<R: Wait + Abort>(rt: &R, alloc: Global, packets: &[Packet]) -> Option<usize> {
    let (stream, feeder, mut hands) = unwrap(rt, StreamQueue::new(alloc, packets, 2));
    let _kept = unwrap(rt, hands.pop().ok_or("no hand"));
    let fault = stream.close(rt, feeder, hands).err()?;
    Some(fault.hands.len())
}

#[test]
fn close_without_a_hand(rt: HostRuntime) {
    let packets = packets_of(&rt, rt.alloc(), 1);
    assert_same(&rt, &refused_close(&rt, rt.alloc(), &packets), &Some(1));
}

// With one hand: feeds, takes and finishes until the end, and counts.
fn worked<R: Wait + Abort>(
    rt: &R,
    stream: &StreamQueue,
    feeder: &mut Feeder,
    hand: &mut StreamHand,
) -> u32
    requires feeder { IsFeederOf stream.now feeder.old }
    requires hand { IsHandOf stream.now hand.old }
    ensures feeder { IsFeederOf stream.now feeder.new }
    ensures hand { IsHandOf stream.now hand.new }
{
    assert_same(rt, &stream.finish(hand), &Err(BoardFault::EmptyHand));
    for count in 0..1100 {
        let _ = fed(rt, stream, feeder);
        let Work::Packet { number, .. } = stream.next(rt, hand) else {
            return count;
        };
        assert_same(rt, &(number, stream.finish(hand)), &(count, Ok(count)));
    }
    1100
}

// A hand takes what is left and its mark, and comes back.
fn one_worked<R: Wait + Abort>(
    rt: &R,
    stream: &StreamQueue,
    feeder: &mut Feeder,
    mut hand: StreamHand,
    left: u32,
) -> StreamHand
    requires feeder { IsFeederOf stream.now feeder.old }
    requires hand { IsHandOf stream.now hand }
    ensures feeder { IsFeederOf stream.now feeder.new }
    ensures hand { IsHandOf stream.now result }
{
    assert_same(rt, &worked(rt, stream, feeder, &mut hand), &left);
    hand
}

// The last hand takes all packets and its mark, each other hand its mark.
fn all_worked<R: Wait + Abort>(
    rt: &R,
    alloc: Global,
    stream: &StreamQueue,
    feeder: &mut Feeder,
    mut hands: Vec<StreamHand>,
    count: u32,
) -> Option<Vec<StreamHand>>
    requires feeder { IsFeederOf stream.now feeder.old }
    requires hands { All (IsHandOf stream.now) hands.items }
    ensures feeder { IsFeederOf stream.now feeder.new }
    ensures back { IfSome result (λ back. All (IsHandOf stream.now) back.items) }
{
    let mut back = Vec::new(alloc);
    let mut left = count;
    for _ in 0..64 {
        let Some(hand) = hands.pop() else {
            return Some(back);
        };
        back.push(one_worked(rt, stream, feeder, hand, left)).ok()?;
        left = 0;
    }
    Some(back)
}

fn assert_streams<R: Wait + Abort>(rt: &R, alloc: Global, count: u16, members: u32) {
    let packets = packets_of(rt, alloc, count);
    let stream = StreamQueue::new(alloc, packets.as_slice(), members);
    let (stream, mut feeder, hands) = unwrap(rt, stream);
    let back = all_worked(rt, alloc, &stream, &mut feeder, hands, u32::from(count));
    let back = unwrap(rt, back.ok_or("no memory"));
    assert_same(rt, &stream.feed(rt, &mut feeder), &Fed::Over);
    let wanted = StreamLedger {
        pushed: u32::from(count),
        ledger: Ledger {
            drawn: u32::from(count),
            done: u32::from(count),
            lost: 0,
            in_hand: 0,
            stopped: false,
        },
    };
    assert_same(rt, &closed(rt, stream, feeder, back), &Some(wanted));
}

#[test]
fn every_size(rt: HostRuntime) {
    for members in [1, 2, 64] {
        for count in [0, 1, 31, 32, 33, 1024] {
            assert_streams(&rt, rt.alloc(), count, members);
        }
    }
}
