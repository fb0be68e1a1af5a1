//! Runs that end in a fault, and what they leave.

use crate::asserts::{assert_same, unwrap};
use crate::media::{Media, make_media, media_with_sink_room, wires};
use crate::runs::{Answer, Left, Task, assert_left, assert_run, ended, run_over};
use std::alloc::Global;
use std::process::Abort;
use test_effects::table::INCREMENT;
use tp_image::{Image, read_image};
use tp_link::{DeviceFault, FaultyWire, Link, LinkDevice, LinkFault, Links};
use tpw_machine::{Machine, RunFault};

/// The increment of a packet, within a limit.
fn increment(packet: &[u8], limit: u32) -> Task<'_> {
    Task {
        image: INCREMENT,
        packet,
        limit,
    }
}

#[test]
fn stops_at_the_limit(rt: HostRuntime) {
    let left = Left {
        source: &[],
        sink: &[2, 0, 0, 0],
        trace: &[],
    };
    for (limit, wanted) in [(16, ended(false, 16)), (15, Err(RunFault::Limit))] {
        let task = increment(&[1, 0, 0, 0], limit);
        assert_run(&rt, &mut Machine::new(), task, wanted, left);
    }
}

/// A refusal by a device.
fn refused(link: Link, code: DeviceFault) -> Answer {
    Err(RunFault::Link(LinkFault { link, code }))
}

#[test]
fn a_short_source_keeps_its_bytes(rt: HostRuntime) {
    let left = Left {
        source: &[1, 0, 0],
        sink: &[],
        trace: &[],
    };
    let task = increment(&[1, 0, 0], 100);
    let wanted = refused(Link::Source, DeviceFault::Short);
    assert_run(&rt, &mut Machine::new(), task, wanted, left)
}

#[test]
fn a_full_sink_refuses(rt: HostRuntime) {
    let mut media = media_with_sink_room(&rt, rt.alloc(), 3);
    let task = increment(&[1, 0, 0, 0], 100);
    let answer = run_over(&rt, rt.alloc(), &mut media, &mut Machine::new(), task);
    assert_same(&rt, &answer, &refused(Link::Sink, DeviceFault::Full));
    assert_left(&rt, &media, Left::default());
}

/// The answer of a run over a closed sink, and how many bytes its source still holds.
fn run_over_closed_sink(rt: &impl Abort, alloc: Global, media: &mut Media) -> (Answer, usize) {
    let image = unwrap(rt, read_image(alloc, INCREMENT));
    let mut links = wires(media);
    unwrap(rt, links.source.send(&[1, 0, 0, 0]));
    links.sink.close();
    let answer = Machine::new().run_image(&image, &mut links, 100);
    (answer, links.source.held())
}

#[test]
fn a_closed_sink_refuses(rt: HostRuntime) {
    let mut media = make_media(&rt, rt.alloc());
    let seen = run_over_closed_sink(&rt, rt.alloc(), &mut media);
    assert_same(&rt, &seen, &(refused(Link::Sink, DeviceFault::Closed), 0));
}

/// Wires over these media, whose source fails at its second call.
fn failing_wires(media: &mut Media) -> Links<FaultyWire<'_>> {
    Links {
        source: FaultyWire::new(&mut media.source, 2),
        sink: FaultyWire::new(&mut media.sink, 0),
        trace: FaultyWire::new(&mut media.trace, 0),
    }
}

/// The answer of a run over these wires.
fn run_over_failing(
    machine: &mut Machine,
    image: &Image,
    links: &mut Links<FaultyWire<'_>>,
) -> Answer {
    machine.run_image(image, links, 100)
}

/// The source after a run that was cut off: how many bytes, and how many calls that failed.
type AtSource = (usize, u64);

/// The answers of two runs on one machine, of which the source fails in the first, and what that one leaves there.
fn run_twice_over_failing(
    rt: &impl Abort,
    alloc: Global,
    media: &mut Media,
) -> ([Answer; 2], AtSource) {
    let image = unwrap(rt, read_image(alloc, INCREMENT));
    let mut links = failing_wires(media);
    let mut machine = Machine::new();
    unwrap(rt, links.source.send(&[1, 0, 0, 0]));
    let cut_off = run_over_failing(&mut machine, &image, &mut links);
    let at_source = (links.source.held(), links.source.faults());
    let again = run_over_failing(&mut machine, &image, &mut links);
    ([cut_off, again], at_source)
}

/// The second run is on the same machine, in which a run was cut off, and of the same packet.
#[test]
fn a_failing_source_keeps_the_packet(rt: HostRuntime) {
    let mut media = make_media(&rt, rt.alloc());
    let (answers, at_source) = run_twice_over_failing(&rt, rt.alloc(), &mut media);
    let failed = refused(Link::Source, DeviceFault::Failed);
    assert_same(&rt, &answers, &[failed, ended(false, 16)]);
    assert_same(&rt, &at_source, &(4, 1));
}

#[test]
fn prints_faults(rt: HostRuntime) {
    let faults = [
        (refused(Link::Sink, DeviceFault::Full), "K2 at sink"),
        (Err(RunFault::Stuck(8)), "stuck at 8"),
        (Err(RunFault::Limit), "not ended within the limit"),
    ];
    for (answer, text) in faults {
        let fault = unwrap(&rt, answer.err().ok_or("no fault"));
        let printed = unwrap(&rt, format!(in rt.alloc(); "{fault}"));
        assert_same(&rt, &printed.as_str(), &text);
    }
}
