//! Devices that fail in one call, are closed, or lack room.

use crate::asserts::unwrap;
use crate::batches::{PacketEnd, ROOM, failing, have_ended, run_by_one, the_same};
use std::alloc::Global;
use std::process::Abort;
use std::sync::Wait;
use std::thread::Threads;
use test_samples::*;
use tp_farm::OpenGate;
use tp_link::{DeviceFault, Link, LinkDevice, Links, Media};

/// A packet of 1 is done.
const DONE: PacketEnd = PacketEnd::Done {
    result: 2,
    error: false,
    steps: 16,
};

/// Whether these are the entries of two packets of 1, where a device fails in one of its calls, and all media have
/// ended.
fn fails_as<R: Abort + Threads + Wait + Sync>(
    rt: &R,
    alloc: Global,
    calls: [u64; 3],
    wanted: [PacketEnd; 2],
) -> bool {
    let mut media = unwrap(rt, Media::new(alloc, ROOM));
    let links = failing(&mut media, calls);
    let all = run_by_one(rt, alloc, INCREMENT, &[1, 1], links, &OpenGate);
    all.as_slice() == wanted.as_slice() && have_ended(&media)
}

#[test]
fn each_call_of_a_device_fails_in_turn(rt: HostRuntime) {
    let source = PacketEnd::Lost(Link::Source, DeviceFault::Failed);
    let sink = PacketEnd::Lost(Link::Sink, DeviceFault::Failed);
    let rows: [([u64; 3], [PacketEnd; 2]); 11] = [
        ([1, 0, 0], [source, DONE]),
        ([2, 0, 0], [source, DONE]),
        ([3, 0, 0], [DONE, source]),
        ([4, 0, 0], [DONE, source]),
        ([5, 0, 0], [DONE, DONE]),
        ([0, 1, 0], [sink, DONE]),
        ([0, 2, 0], [sink, DONE]),
        ([0, 3, 0], [DONE, sink]),
        ([0, 4, 0], [DONE, sink]),
        ([0, 5, 0], [DONE, DONE]),
        ([0, 0, 1], [DONE, DONE]),
    ];
    for (calls, wanted) in rows {
        assert!(rt; fails_as(&rt, rt.alloc(), calls, wanted), "{calls:?}");
    }
}

/// The entry of a packet of 10 that is traced, where devices fail in these calls.
fn traced<R: Abort + Threads + Wait + Sync>(
    rt: &R,
    alloc: Global,
    calls: [u64; 3],
) -> Vec<PacketEnd> {
    let mut media = unwrap(rt, Media::new(alloc, ROOM));
    let links = failing(&mut media, calls);
    run_by_one(rt, alloc, TRACES_ITS_PACKET, &[10], links, &OpenGate)
}

/// The first call of the trace sends its message, and then the first of the sink its result. After the run the second
/// call of the sink receives the result, and then the second of the trace the message.
#[test]
fn a_trace_fails(rt: HostRuntime) {
    let sink = PacketEnd::Lost(Link::Sink, DeviceFault::Failed);
    let trace = PacketEnd::Lost(Link::Trace, DeviceFault::Failed);
    for (calls, wanted) in [
        ([0, 0, 1], trace),
        ([0, 0, 2], trace),
        ([0, 0, 3], the_same(10)),
        ([0, 1, 1], trace),
        ([0, 1, 2], sink),
        ([0, 2, 2], sink),
    ] {
        let all = traced(&rt, rt.alloc(), calls);
        assert!(rt; all.as_slice() == [wanted].as_slice(), "{calls:?}");
    }
}

fn of_link<T: Drop>(links: Links<T>, link: Link) -> T {
    match link {
        Link::Source => links.source,
        Link::Sink => links.sink,
        Link::Trace => links.trace,
    }
}

/// Media of 600 bytes each, of which the link's is full.
fn with_600_bytes(rt: &impl Abort, alloc: Global, link: Link) -> Media {
    let mut media = unwrap(rt, Media::new(alloc, 600));
    unwrap(rt, of_link(media.wires(), link).send(&[9; 600]));
    media
}

/// The calls that fail, where the link's device fails in this one alone.
fn call_of(link: Link, call: u64) -> [u64; 3] {
    match link {
        Link::Source => [call, 0, 0],
        Link::Sink => [0, call, 0],
        Link::Trace => [0, 0, call],
    }
}

/// Whether these are the entries of two packets of 1, where the link's device holds 600 bytes and fails in this call,
/// and all are empty after it.
fn empties_as<R: Abort + Threads + Wait + Sync>(
    rt: &R,
    alloc: Global,
    link: Link,
    call: u64,
    wanted: [PacketEnd; 2],
) -> bool {
    let mut media = with_600_bytes(rt, alloc, link);
    let links = failing(&mut media, call_of(link, call));
    let all = run_by_one(rt, alloc, INCREMENT, &[1, 1], links, &OpenGate);
    let empty = media.source.bytes().is_empty()
        && media.sink.bytes().is_empty()
        && media.trace.bytes().is_empty();
    all.as_slice() == wanted.as_slice() && empty
}

/// A device that holds 600 bytes is emptied by three calls, before the packet is sent.
#[test]
fn a_device_fails_while_it_is_emptied(rt: HostRuntime) {
    let source = PacketEnd::Lost(Link::Source, DeviceFault::Failed);
    let sink = PacketEnd::Lost(Link::Sink, DeviceFault::Failed);
    let trace = PacketEnd::Lost(Link::Trace, DeviceFault::Failed);
    for (link, call, wanted) in [
        (Link::Source, 0, [DONE, DONE]),
        (Link::Source, 1, [source, DONE]),
        (Link::Source, 3, [source, DONE]),
        (Link::Source, 4, [source, DONE]),
        (Link::Source, 6, [DONE, source]),
        (Link::Sink, 1, [sink, DONE]),
        (Link::Sink, 3, [sink, DONE]),
        (Link::Sink, 6, [DONE, sink]),
        (Link::Trace, 1, [trace, DONE]),
        (Link::Trace, 3, [trace, DONE]),
        (Link::Trace, 4, [DONE, DONE]),
    ] {
        assert!(rt;
            empties_as(&rt, rt.alloc(), link, call, wanted),
            "{link} {call}"
        );
    }
}

/// The state of a device before a batch.
#[derive(Clone, Copy)]
enum Start {
    Open,
    /// Closed and empty.
    Closed,
    /// Closed, and it holds bytes.
    ClosedFull,
}

fn bring<D: LinkDevice>(rt: &impl Abort, device: &mut D, start: Start) {
    match start {
        Start::Open => {}
        Start::Closed => device.close(),
        Start::ClosedFull => {
            unwrap(rt, device.send(&[9; 4]));
            device.close();
        }
    }
}

/// The entry of a packet of 1, where the devices begin in these states.
fn run_from<R: Abort + Threads + Wait + Sync>(
    rt: &R,
    alloc: Global,
    starts: [Start; 3],
) -> Vec<PacketEnd> {
    let mut media = unwrap(rt, Media::new(alloc, ROOM));
    let mut links = media.wires();
    bring(rt, &mut links.source, starts[0]);
    bring(rt, &mut links.sink, starts[1]);
    bring(rt, &mut links.trace, starts[2]);
    run_by_one(rt, alloc, INCREMENT, &[1], links, &OpenGate)
}

/// Source, sink and trace are emptied in this order, then the packet is sent, and then the worker runs. The first
/// refusal is reported.
#[test]
fn the_first_refusal_is_reported(rt: HostRuntime) {
    for (row, (starts, link)) in [
        (
            [Start::ClosedFull, Start::ClosedFull, Start::Open],
            Link::Source,
        ),
        (
            [Start::ClosedFull, Start::Open, Start::ClosedFull],
            Link::Source,
        ),
        (
            [Start::Open, Start::ClosedFull, Start::ClosedFull],
            Link::Sink,
        ),
        ([Start::Closed, Start::ClosedFull, Start::Open], Link::Sink),
        ([Start::Closed, Start::Open, Start::ClosedFull], Link::Trace),
        ([Start::Open, Start::Closed, Start::ClosedFull], Link::Trace),
        ([Start::Closed, Start::Closed, Start::Closed], Link::Source),
    ]
    .into_iter()
    .enumerate()
    {
        let all = run_from(&rt, rt.alloc(), starts);
        let wanted = PacketEnd::Lost(link, DeviceFault::Closed);
        assert!(rt; all.as_slice() == [wanted].as_slice(), "{row}");
    }
}

fn close<D: LinkDevice>(links: &mut Links<D>, link: Link) {
    match link {
        Link::Source => links.source.close(),
        Link::Sink => links.sink.close(),
        Link::Trace => links.trace.close(),
    }
}

/// The entries of packets of these words where the link is closed at the start.
fn run_where_closed<R: Abort + Threads + Wait + Sync>(
    rt: &R,
    alloc: Global,
    media: &mut Media,
    link: Link,
    words: &[u32],
) -> Vec<PacketEnd> {
    let mut links = media.wires();
    close(&mut links, link);
    run_by_one(rt, alloc, INCREMENT, words, links, &OpenGate)
}

#[test]
fn a_closed_source_loses_all(rt: HostRuntime) {
    let mut media = unwrap(&rt, Media::new(rt.alloc(), ROOM));
    let all = run_where_closed(&rt, rt.alloc(), &mut media, Link::Source, &[1, 1]);
    let lost = PacketEnd::Lost(Link::Source, DeviceFault::Closed);
    assert!(rt; all.as_slice() == [lost, lost].as_slice());
}

/// A trace that is closed and holds nothing is not called where nothing is traced. A closed sink is.
#[test]
fn a_closed_trace_is_not_called(rt: HostRuntime) {
    let mut media = unwrap(&rt, Media::new(rt.alloc(), ROOM));
    let lost = PacketEnd::Lost(Link::Sink, DeviceFault::Closed);
    for (link, wanted) in [(Link::Trace, DONE), (Link::Sink, lost)] {
        let all = run_where_closed(&rt, rt.alloc(), &mut media, link, &[1]);
        assert!(rt; all.as_slice() == [wanted].as_slice());
    }
}

/// The entry of a packet of 1 where the media have these rooms.
fn run_in_rooms<R: Abort + Threads + Wait + Sync>(
    rt: &R,
    alloc: Global,
    rooms: [usize; 3],
) -> Vec<PacketEnd> {
    let mut media = unwrap(rt, Media::with_rooms(alloc, rooms[0], rooms[1], rooms[2]));
    run_by_one(rt, alloc, INCREMENT, &[1], media.wires(), &OpenGate)
}

#[test]
fn room_is_lacking(rt: HostRuntime) {
    let source = PacketEnd::Lost(Link::Source, DeviceFault::Full);
    let sink = PacketEnd::Lost(Link::Sink, DeviceFault::Full);
    for (rooms, wanted) in [
        ([256, 3, 256], sink),
        ([3, 256, 256], source),
        ([3, 3, 0], source),
        ([4, 4, 0], DONE),
    ] {
        let all = run_in_rooms(&rt, rt.alloc(), rooms);
        assert!(rt; all.as_slice() == [wanted].as_slice(), "{rooms:?}");
    }
}
