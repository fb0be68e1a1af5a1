//! The media of members, and wires to them.

use crate::asserts::{assert_same, unwrap};
use std::process::Abort;
use tp_link::{LinkDevice, Links, Media, boxed, media_of};

#[test]
fn each_wire_has_its_room(rt: HostRuntime) {
    let mut media = unwrap(&rt, Media::with_rooms(rt.alloc(), 1, 2, 3));
    let links = media.wires();
    assert_same(&rt, &rooms(&links), &(1, 2, 3));
    assert!(rt; are_open(&links));
    drop(links);
    assert!(rt; have_ended(&media));
}

/// The room of the source, of the sink and of the trace.
fn rooms(links: &Links<impl LinkDevice>) -> (usize, usize, usize) {
    let Links {
        source,
        sink,
        trace,
    } = links;
    (source.room(), sink.room(), trace.room())
}

fn are_open(links: &Links<impl LinkDevice>) -> bool {
    links.source.is_open() && links.sink.is_open() && links.trace.is_open()
}

fn have_ended(media: &Media) -> bool {
    media.source.ended() && media.sink.ended() && media.trace.ended()
}

/// Sends a member's byte once to the source, twice to the sink, and four times to the trace.
fn send_to_each(rt: &impl Abort, links: &mut Links<impl LinkDevice>, byte: u8) {
    unwrap(rt, links.source.send(&[byte]));
    unwrap(rt, links.sink.send(&[byte, byte]));
    unwrap(rt, links.trace.send(&[byte; 4]));
}

/// The media hold what was sent so, and have ended.
fn assert_sent(rt: &impl Abort, media: &Media, byte: u8) {
    assert_same(rt, &media.source.bytes(), &[byte].as_slice());
    assert_same(rt, &media.sink.bytes(), &[byte, byte].as_slice());
    assert_same(rt, &media.trace.bytes(), &[byte; 4].as_slice());
    assert!(rt; have_ended(media));
}

/// Bytes sent by a member's wires are held by that member's media, after the wires too.
#[test]
fn each_member_has_its_media(rt: HostRuntime) {
    let mut media = unwrap(&rt, media_of(rt.alloc(), 3, 4));
    let mut links = unwrap(&rt, boxed(rt.alloc(), &mut media));
    assert_same(&rt, &links.len(), &3);
    for (byte, one) in (1u8..4).zip(links.iter_mut()) {
        send_to_each(&rt, one, byte);
    }
    drop(links);
    for (byte, one) in (1u8..4).zip(media.iter()) {
        assert_sent(&rt, one, byte);
    }
}
