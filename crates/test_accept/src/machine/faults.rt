//! Runs that a device ends, and what they leave.

use super::media::{accepted, all_bits_set, run_packet};
use crate::asserts::{assert_same, unwrap};
use std::alloc::Global;
use std::process::Abort;
use test_samples::{INCREMENT, TRACES_65_TIMES};
use tp_accept::Accepted;
use tp_link::{DeviceFault, FaultyWire, Link, LinkDevice, LinkFault, Links, Media};
use tp_machine::{Machine, Outcome};

/// A refusal by a device.
fn refused(link: Link, code: DeviceFault) -> Result<Outcome, LinkFault> {
    Err(LinkFault { link, code })
}

/// The contents of the source and the sink after a run.
fn assert_left(rt: &impl Abort, media: &Media, source: &[u8], sink: &[u8]) {
    assert_same(rt, &media.source.bytes(), &source);
    assert_same(rt, &media.sink.bytes(), &sink);
}

#[test]
fn a_short_source_keeps_its_bytes(rt: HostRuntime) {
    let accepted = accepted(&rt, rt.alloc(), INCREMENT);
    let (answered, media) = run_packet(&rt, rt.alloc(), &mut all_bits_set(), &accepted, &[1, 0, 0]);
    assert_same(&rt, &answered, &refused(Link::Source, DeviceFault::Short));
    assert_left(&rt, &media, &[1, 0, 0], &[]);
}

#[test]
fn a_full_trace_refuses(rt: HostRuntime) {
    let accepted = accepted(&rt, rt.alloc(), TRACES_65_TIMES);
    let (answered, media) = run_packet(&rt, rt.alloc(), &mut Machine::new(), &accepted, &[0; 4]);
    assert_same(&rt, &answered, &refused(Link::Trace, DeviceFault::Full));
    assert_same(&rt, &media.source.bytes().len(), &0);
    assert_same(&rt, &media.trace.bytes().len(), &256);
}

/// The answer of a run over media of which the sink has little room, or is closed.
fn run_over(
    rt: &impl Abort,
    alloc: Global,
    media: &mut Media,
    close: bool,
) -> Result<Outcome, LinkFault> {
    let accepted = accepted(rt, alloc, INCREMENT);
    let mut links = media.wires();
    unwrap(rt, links.source.send(&[1, 0, 0, 0]));
    if close {
        links.sink.close();
    }
    all_bits_set().run(&accepted, &mut links)
}

#[test]
fn a_full_and_a_closed_sink_refuse(rt: HostRuntime) {
    for (room, close, code) in [
        (3, false, DeviceFault::Full),
        (256, true, DeviceFault::Closed),
    ] {
        let mut media = unwrap(&rt, Media::with_rooms(rt.alloc(), 256, room, 256));
        let answered = run_over(&rt, rt.alloc(), &mut media, close);
        assert_same(&rt, &answered, &refused(Link::Sink, code));
        assert_left(&rt, &media, &[], &[]);
    }
}

/// Wires over these media, whose source fails at its second call.
fn failing_wires(media: &mut Media) -> Links<FaultyWire<'_>> {
    Links {
        source: FaultyWire::new(&mut media.source, 2),
        sink: FaultyWire::new(&mut media.sink, 0),
        trace: FaultyWire::new(&mut media.trace, 0),
    }
}

/// A run is cut off by its source, and made again on the same machine and of the same packet.
fn assert_made_again(rt: &impl Abort, accepted: &Accepted, links: &mut Links<FaultyWire<'_>>) {
    let mut machine = all_bits_set();
    unwrap(rt, links.source.send(&[1, 0, 0, 0]));
    let cut_off = machine.run(accepted, links);
    assert_same(rt, &cut_off, &refused(Link::Source, DeviceFault::Failed));
    assert_same(rt, &(links.source.held(), links.source.faults()), &(4, 1));
    let again = machine.run(accepted, links);
    let error = false;
    assert_same(rt, &again, &Ok(Outcome { error, steps: 16 }));
}

#[test]
fn a_failing_source_keeps_the_packet(rt: HostRuntime) {
    let accepted = accepted(&rt, rt.alloc(), INCREMENT);
    let mut media = unwrap(&rt, Media::new(rt.alloc(), 256));
    let mut links = failing_wires(&mut media);
    assert_made_again(&rt, &accepted, &mut links);
    drop(links);
    assert_left(&rt, &media, &[], &[2, 0, 0, 0]);
}
