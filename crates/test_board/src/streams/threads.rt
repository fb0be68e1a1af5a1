//! Streams that two threads take from while a third one feeds them.
ghost use Rattle.std.specs.Prelude.{◌≡◌, None, All, IfSome};
ghost use Rattle.tp_stream.specs.Streams.{IsHandOf, IsFeederOf};

use super::single::packets_of;
use crate::asserts::{assert_same, unwrap};
use std::alloc::Global;
use std::process::Abort;
use std::sync::Wait;
use std::thread;
use std::thread::{Promise, PromisedHandle, Scope, Threads};
use tp_stream::{
    BoardFault, Fed, Feeder, Ledger, Packet, StreamHand, StreamLedger, StreamQueue, Work,
    WorkSource,
};

// How a member ended.
#[derive(Clone, Copy, Debug, PartialEq, Eq)]
enum End {
    NoMore,
    Stopped,
    // A packet had not its own bytes, or was not in hand.
    Wrong,
}

// What a member has taken, and how it ended.
#[derive(Drop)]
struct Taken<H> {
    hand: H,
    numbers: Vec<u32>,
    end: End,
}

// The hand of a thread comes back to the source that it was given for.
#[derive(Drop)]
struct HandBack<'e, S> {
    source: &'e S,
}

impl<'e, S: WorkSource> Promise<Taken<S::Hand>> for HandBack<'e, S> {
    ghost kept_by = { λ p t. S.is_own p.source.now t.hand };
}

// What a member does.
#[derive(Clone, Copy)]
enum Way {
    // It takes and finishes packets until it has its end.
    Takes,
    // It stops the stream first.
    Stops,
}

// A packet's first two bytes are its number.
fn is_own(number: u32, bytes: &Packet) -> bool {
    match bytes.as_slice() {
        [low, high] => u32::from(u16::from_le_bytes([*low, *high])) == number,
        _ => false,
    }
}

// Takes and finishes packets until the end.
fn take_all<S: WorkSource>(
    rt: &impl Wait,
    source: &S,
    hand: &mut S::Hand,
    numbers: &mut Vec<u32>,
) -> End
    requires { S.is_own source.now hand.old }
    ensures { S.is_own source.now hand.new }
{
    if source.finish(hand) != Err(BoardFault::EmptyHand) {
        return End::Wrong;
    }
    for _ in 0..1100 {
        let (number, bytes) = match source.next(rt, hand) {
            Work::Packet { number, bytes } => (number, bytes),
            Work::NoMore => return End::NoMore,
            Work::Stopped => return End::Stopped,
        };
        if source.finish(hand) != Ok(number) {
            return End::Wrong;
        }
        if !is_own(number, &bytes) || numbers.push(number).is_err() {
            return End::Wrong;
        }
    }
    End::Wrong
}

// A member's whole work.
fn worked<S: WorkSource>(
    rt: &impl Wait,
    alloc: Global,
    source: &S,
    mut hand: S::Hand,
    way: Way,
) -> Taken<S::Hand>
    requires { S.is_own source.now hand }
    ensures { S.is_own source.now result.hand }
{
    if matches!(way, Way::Stops) {
        source.stop(&mut hand);
    }
    let mut numbers = Vec::new(alloc);
    let end = take_all(rt, source, &mut hand, &mut numbers);
    Taken { hand, numbers, end }
}

fn started<'s, 'e, R: Wait + Sync, S: WorkSource + Sync>(
    rt: &'e R,
    scope: &'s Scope<'s, &'e ()>,
    alloc: Global,
    source: &'e S,
    hand: S::Hand,
    way: Way,
) -> Option<PromisedHandle<Taken<S::Hand>, HandBack<'e, S>>>
where
    S::Hand: Drop + Send + 'e,
    requires { S.is_own source.now hand }
    ensures { IfSome result (λ h. h.promise.source.now ≡ source.now) }
{
    let spawned = scope.spawn_with(
        HandBack { source },
        move || -> Taken<S::Hand>
            requires { S.is_own source.now hand }
            ensures { S.is_own source.entry.now result.hand }
        { worked(rt, alloc, source, hand, way) },
    );
    match spawned {
        Ok(handle) => Some(handle),
        Err(refused) => {
            drop(refused);
            None
        }
    }
}

// What the thread that feeds does.
#[derive(Clone, Copy)]
enum Feeding {
    // It fills the queue before a member is started, and feeds on until all is pushed, or the stream is stopped.
    Feeds,
    // It pushes nothing, and stops the stream.
    Stops,
}

// Feeds until a try pushes nothing.
fn fill<R: Wait>(rt: &R, stream: &StreamQueue<'_>, feeder: &mut Feeder)
    requires { IsFeederOf stream.now feeder.old }
    ensures { IsFeederOf stream.now feeder.new }
{
    for _ in 0..1100 {
        if stream.feed(rt, feeder) != Fed::Pushed {
            return;
        }
    }
}

// Feeds until there is nothing more to do: the last answer.
fn feed_all<R: Wait>(rt: &R, stream: &StreamQueue<'_>, feeder: &mut Feeder, feeding: Feeding) -> Fed
    requires { IsFeederOf stream.now feeder.old }
    ensures { IsFeederOf stream.now feeder.new }
{
    if matches!(feeding, Feeding::Stops) {
        stream.stop_feeding(feeder);
    }
    for _ in rt.forever() {
        match stream.feed(rt, feeder) {
            Fed::Pushed => {}
            Fed::Full => stream.wait_for_room(rt),
            Fed::Stopped => return Fed::Stopped,
            Fed::Over => return Fed::Over,
        }
    }
    unreachable!()
}

// What became of a stream with two members.
#[derive(Drop)]
struct Ends<H> {
    first: Taken<H>,
    second: Taken<H>,
    feeder: Feeder,
    answer: Fed,
}

// Two members run, and this thread feeds them.
fn run_two<'s, 'e, R: Threads + Wait + Sync, S: WorkSource + Sync>(
    rt: &'e R,
    scope: &'s Scope<'s, &'e ()>,
    alloc: Global,
    source: &'e S,
    hands: (S::Hand, S::Hand),
    ways: (Way, Way),
    stream: &'e StreamQueue<'e>,
    mut feeder: Feeder,
    feeding: Feeding,
) -> Option<Ends<S::Hand>>
where
    S::Hand: Drop + Send + 'e,
    requires hands { S.is_own source.now hands.0 × S.is_own source.now hands.1 }
    requires feeder { IsFeederOf stream.now feeder }
    ensures first { IfSome result (λ e. S.is_own source.now e.first.hand) }
    ensures second { IfSome result (λ e. S.is_own source.now e.second.hand) }
    ensures feeder { IfSome result (λ e. IsFeederOf stream.now e.feeder) }
{
    let (first, second) = hands;
    let first = started(rt, scope, alloc, source, first, ways.0);
    let second = started(rt, scope, alloc, source, second, ways.1);
    let (Some(first), Some(second)) = (first, second) else {
        stream.stop_feeding(&mut feeder);
        return None;
    };
    let answer = feed_all(rt, stream, &mut feeder, feeding);
    Some(Ends {
        first: first.join(rt),
        second: second.join(rt),
        feeder,
        answer,
    })
}

// The members run each in a thread of its own.
fn run_in_threads<R: Threads + Wait + Sync, S: WorkSource + Sync>(
    rt: &R,
    alloc: Global,
    source: &S,
    hands: (S::Hand, S::Hand),
    ways: (Way, Way),
    stream: &StreamQueue<'_>,
    feeder: Feeder,
    feeding: Feeding,
) -> Option<Ends<S::Hand>>
where
    S::Hand: Drop + Send,
    requires hands { S.is_own source.now hands.0 × S.is_own source.now hands.1 }
    requires feeder { IsFeederOf stream.now feeder }
    ensures first { IfSome result (λ e. S.is_own source.now e.first.hand) }
    ensures second { IfSome result (λ e. S.is_own source.now e.second.hand) }
    ensures feeder { IfSome result (λ e. IsFeederOf stream.now e.feeder) }
{
    thread::scope(
        thread::scope_env(),
        rt,
        |scope| -> Option<Ends<S::Hand>>
            requires hands { S.is_own source.now hands.0 × S.is_own source.now hands.1 }
            requires feeder { IsFeederOf stream.now feeder }
            ensures first { IfSome result (λ e. S.is_own source.entry.now e.first.hand) }
            ensures second { IfSome result (λ e. S.is_own source.entry.now e.second.hand) }
            ensures feeder { IfSome result (λ e. IsFeederOf stream.entry.now e.feeder) }
        {
            run_two(
                rt, scope, alloc, source, hands, ways, stream, feeder, feeding,
            )
        },
    )
}

// The hands of two members.
fn both_hands(
    stream: &StreamQueue<'_>,
    mut hands: Vec<StreamHand>,
) -> Option<(StreamHand, StreamHand)>
    requires { All (IsHandOf stream.now) hands.items }
    ensures first { IfSome result (λ r. IsHandOf stream.now r.0) }
    ensures second { IfSome result (λ r. IsHandOf stream.now r.1) }
{
    let first = hands.pop()?;
    let second = hands.pop()?;
    Some((first, second))
}

// A stream of two members.
fn stream_of_two<'p>(
    alloc: Global,
    packets: &'p [Packet],
) -> Option<(StreamQueue<'p>, Feeder, (StreamHand, StreamHand))>
    ensures feeder { IfSome result (λ r. IsFeederOf r.0 r.1) }
    ensures first { IfSome result (λ r. IsHandOf r.0 r.2.0) }
    ensures second { IfSome result (λ r. IsHandOf r.0 r.2.1) }
{
    let (stream, feeder, hands) = StreamQueue::new(alloc, packets, 2).ok()?;
    let pair = both_hands(&stream, hands)?;
    Some((stream, feeder, pair))
}

// The accounts of a stream whose members have ended.
fn closed<R: Wait + Abort>(
    rt: &R,
    alloc: Global,
    stream: StreamQueue<'_>,
    feeder: Feeder,
    hands: (StreamHand, StreamHand),
) -> Option<StreamLedger>
    requires feeder { IsFeederOf stream feeder }
    requires hands { IsHandOf stream hands.0 × IsHandOf stream hands.1 }
{
    let (first, second) = hands;
    let hands = unwrap(rt, vec![in alloc; first, second]);
    stream.close(rt, feeder, hands).ok()
}

// What a run of a stream left: the numbers that the members took, how each ended, the feeder's last answer, and the
// ledger.
#[derive(Drop)]
struct StreamRun {
    numbers: (Vec<u32>, Vec<u32>),
    ends: (End, End),
    answer: Fed,
    ledger: StreamLedger,
}

// Runs a stream of this many packets and two members.
fn run<R: Abort + Threads + Wait + Sync>(
    rt: &R,
    alloc: Global,
    count: u16,
    ways: (Way, Way),
    feeding: Feeding,
) -> StreamRun {
    let packets = packets_of(rt, alloc, count);
    let stream = stream_of_two(alloc, packets.as_slice());
    let (stream, mut feeder, hands) = unwrap(rt, stream.ok_or("no stream"));
    if matches!(feeding, Feeding::Feeds) {
        fill(rt, &stream, &mut feeder);
    }
    let ends = run_in_threads(rt, alloc, &stream, hands, ways, &stream, feeder, feeding);
    let Ends {
        first,
        second,
        feeder,
        answer,
    } = unwrap(rt, ends.ok_or("not run"));
    let ledger = closed(rt, alloc, stream, feeder, (first.hand, second.hand));
    StreamRun {
        numbers: (first.numbers, second.numbers),
        ends: (first.end, second.end),
        answer,
        ledger: unwrap(rt, ledger.ok_or("not closed")),
    }
}

// The ledger where nothing is lost or in hand.
fn ledger_of(pushed: u32, done: u32, stopped: bool) -> StreamLedger {
    StreamLedger {
        pushed,
        ledger: Ledger {
            drawn: done,
            done,
            lost: 0,
            in_hand: 0,
            stopped,
        },
    }
}

#[test]
fn two_take_each_packet_once(rt: HostRuntime) {
    let ways = (Way::Takes, Way::Takes);
    let StreamRun {
        numbers,
        ends,
        answer,
        ledger,
    } = run(&rt, rt.alloc(), 1024, ways, Feeding::Feeds);
    let (mut all, second) = numbers;
    unwrap(&rt, all.extend_from_slice(&second));
    unwrap(&rt, all.sort());
    assert!(rt; all.iter().copied().eq(0..1024));
    assert_same(&rt, &ends, &(End::NoMore, End::NoMore));
    assert_same(&rt, &answer, &Fed::Over);
    assert_same(&rt, &ledger, &ledger_of(1024, 1024, false));
}

// The queue is full before the first hand stops, and nobody takes from it.
#[test]
fn hands_stop_a_full_queue(rt: HostRuntime) {
    let ways = (Way::Stops, Way::Stops);
    let ran = run(&rt, rt.alloc(), 40, ways, Feeding::Feeds);
    assert!(rt; ran.numbers.0.is_empty() && ran.numbers.1.is_empty());
    assert_same(&rt, &ran.ends, &(End::Stopped, End::Stopped));
    assert_same(&rt, &ran.answer, &Fed::Stopped);
    assert_same(&rt, &ran.ledger, &ledger_of(32, 0, true));
}

// One hand stops, and the other takes packets until it finds the stop mark, or the end.
#[test]
fn one_hand_stops_and_one_takes(rt: HostRuntime) {
    let ways = (Way::Stops, Way::Takes);
    let ran = run(&rt, rt.alloc(), 1024, ways, Feeding::Feeds);
    let StreamLedger { pushed, ledger } = ran.ledger;
    let done = ledger.done;
    assert_same(&rt, &(ran.ends.0, ran.numbers.0.len()), &(End::Stopped, 0));
    assert!(rt; ran.ends.1 != End::Wrong);
    assert!(rt; ran.numbers.1.iter().copied().eq(0..done));
    assert!(rt;
        done <= pushed && pushed <= done.saturating_add(32),
        "{done} {pushed}"
    );
    assert_same(&rt, &ran.ledger, &ledger_of(pushed, done, true));
}

// Both hands find the queue empty, and wait until the feeder stops.
#[test]
fn a_feeder_stops_an_empty_queue(rt: HostRuntime) {
    let ways = (Way::Takes, Way::Takes);
    let ran = run(&rt, rt.alloc(), 1024, ways, Feeding::Stops);
    assert!(rt; ran.numbers.0.is_empty() && ran.numbers.1.is_empty());
    assert_same(&rt, &ran.ends, &(End::Stopped, End::Stopped));
    assert_same(&rt, &ran.answer, &Fed::Stopped);
    assert_same(&rt, &ran.ledger, &ledger_of(0, 0, true));
}
