//! The devices that come back from a batch are those that went in, each in its place.

use crate::asserts::{assert_same, unwrap};
use crate::batches::{ROOM, batch_on};
use std::alloc::Global;
use std::process::Abort;
use std::sync::Wait;
use std::thread::Threads;
use test_samples::INCREMENT;
use tp_farm::OpenGate;
use tp_link::{LinkDevice, Media, boxed, media_of};

/// Sends the number of each of the links that come back into their devices: once into the source, twice into the sink,
/// and three times into the trace.
fn mark_each<R: Abort + Threads + Wait + Sync>(rt: &R, alloc: Global, media: &mut [Media]) {
    let links = unwrap(rt, boxed(alloc, media));
    let mut batch = batch_on(rt, alloc, INCREMENT, &[1, 2, 3, 4, 5], links, &OpenGate);
    for (number, one) in batch.links.iter_mut().enumerate() {
        let mark = [(number % 256) as u8; 3];
        unwrap(rt, one.source.send(&mark[..1]));
        unwrap(rt, one.sink.send(&mark[..2]));
        unwrap(rt, one.trace.send(&mark));
    }
}

#[test]
fn each_device_comes_back_in_its_place(rt: HostRuntime) {
    let mut media = unwrap(&rt, media_of(rt.alloc(), 3, ROOM));
    mark_each(&rt, rt.alloc(), &mut media);
    for (number, one) in media.iter().enumerate() {
        let mark = [(number % 256) as u8; 3];
        assert_same(&rt, &one.source.bytes(), &&mark[..1]);
        assert_same(&rt, &one.sink.bytes(), &&mark[..2]);
        assert_same(&rt, &one.trace.bytes(), &&mark[..3]);
    }
}
