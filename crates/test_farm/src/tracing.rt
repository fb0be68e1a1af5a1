//! Traces.

use crate::asserts::{assert_same, unwrap};
use crate::batches::{BATCH, PacketEnd, ROOM, alone, run_by_one, run_on};
use std::alloc::Global;
use std::process::Abort;
use std::sync::Wait;
use std::thread::Threads;
use test_samples::*;
use tp_collect::{Collected, Done, Entry};
use tp_farm::OpenGate;
use tp_link::{DeviceFault, Link, Media};

/// Runs an image's worker on packets of these two words by one member, and returns their entries.
fn both<R: Abort + Threads + Wait + Sync>(
    rt: &R,
    alloc: Global,
    image: &[u8],
    words: [u32; 2],
) -> Collected {
    let mut media = unwrap(rt, Media::new(alloc, ROOM));
    let links = alone(rt, alloc, media.wires());
    run_on(rt, alloc, image, &words, links, &OpenGate)
}

/// Whether the result is that of this packet, and result and trace are these bytes.
fn is_traced(done: &Done, packet: u32, bytes: [u8; 4]) -> bool {
    done.batch == BATCH
        && done.packet == packet
        && done.result.as_slice() == bytes.as_slice()
        && done.trace.as_slice() == bytes.as_slice()
        && done.steps == 19
        && !done.error
}

#[test]
fn a_trace_is_kept(rt: HostRuntime) {
    let collected = both(&rt, rt.alloc(), TRACES_ITS_PACKET, [10, 11]);
    match collected.entries.as_slice() {
        [Entry::Done(first), Entry::Done(second)] => {
            assert!(rt; is_traced(first, 0, [10, 0, 0, 0]));
            assert!(rt; is_traced(second, 1, [11, 0, 0, 0]));
        }
        _ => assert!(rt; false, "two results"),
    }
}

/// The outcomes of two packets that are traced 65 times, in a trace with this room.
fn run_long_traces<R: Abort + Threads + Wait + Sync>(
    rt: &R,
    alloc: Global,
    room: usize,
) -> Vec<PacketEnd> {
    let mut media = unwrap(rt, Media::with_rooms(alloc, ROOM, ROOM, room));
    run_by_one(
        rt,
        alloc,
        TRACES_65_TIMES,
        &[0, 0],
        media.wires(),
        &OpenGate,
    )
}

/// With room for 256 bytes the 65th message is refused. With room for it, the trace is too long in the end.
#[test]
fn a_long_trace_is_lost(rt: HostRuntime) {
    let lost = PacketEnd::Lost(Link::Trace, DeviceFault::Full);
    for room in [0, 256, 259, 260, 1000] {
        let all = run_long_traces(&rt, rt.alloc(), room);
        assert!(rt; all.as_slice() == [lost, lost].as_slice(), "{room}");
    }
}

/// Traces its packet 64 times, 256 bytes, and sends it.
const TRACES_64_TIMES: &[u8] = b"TPW1\x1C\0\x10\0\x08\0\x01\0\x01\0\x01\0\
    \x0B\0\x13\0\x0A\0\x40\0\0\0\0\0\
    \x10\x24\xF2\x54\x44\xF7\x40\xD2\x24\x40\xD3\x10\x24\xF2\x51\x44\xFB\x12\x4A\x22\xF1\x10\x24\xF2\x44\xFB\
    \x21\xF5";

/// Whether the result is that of a packet of 10, which is traced 64 times in 658 instruction bytes.
fn is_traced_64_times(done: &Done) -> bool {
    let trace = done.trace.as_slice();
    done.result.as_slice() == [10, 0, 0, 0].as_slice()
        && done.steps == 658
        && trace.len() == 256
        && trace.iter().enumerate().all(|(place, byte)| *byte
            == if place % 4 == 0 { 10 } else { 0 })
}

/// A trace may have 256 bytes.
#[test]
fn the_longest_trace_is_kept(rt: HostRuntime) {
    for room in [256, 257, 1000] {
        let mut media = unwrap(&rt, Media::with_rooms(rt.alloc(), ROOM, ROOM, room));
        let links = alone(&rt, rt.alloc(), media.wires());
        let collected = run_on(&rt, rt.alloc(), TRACES_64_TIMES, &[10], links, &OpenGate);
        match collected.entries.as_slice() {
            [Entry::Done(done)] => assert!(rt; is_traced_64_times(done), "{room}"),
            _ => assert!(rt; false, "one result"),
        }
    }
}

/// The error flag of each packet is its own.
#[test]
fn an_error_flag_is_reported(rt: HostRuntime) {
    let collected = both(&rt, rt.alloc(), INCREMENT, [0x7FFF_FFFF, 1]);
    match collected.entries.as_slice() {
        [Entry::Done(first), Entry::Done(second)] => {
            assert!(rt; first.error && !second.error);
            assert_same(&rt, &first.result.as_slice(), &[0, 0, 0, 0x80].as_slice());
            assert_same(&rt, &second.result.as_slice(), &[2, 0, 0, 0].as_slice());
            assert_same(&rt, &(first.steps, second.steps), &(16, 16));
        }
        _ => assert!(rt; false, "two results"),
    }
}
