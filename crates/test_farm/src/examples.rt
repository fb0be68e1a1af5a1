//! The example in the documentation of `run_batch`.

use crate::asserts::{assert_same, unwrap};
use test_samples::INCREMENT;
use tp_accept::accept;
use tp_collect::Entry;
use tp_farm::{Job, OpenGate, run_batch};
use tp_link::{boxed, media_of};
use tp_stream::Packet;

#[test]
fn a_batch_of_one_packet_is_run(rt: HostRuntime) {
    let alloc = rt.alloc();
    let text = unwrap(&rt, Vec::from_slice(alloc, INCREMENT));
    let image = unwrap(&rt, accept(alloc, text));
    let packets = [unwrap(&rt, Packet::try_from([41, 0, 0, 0].as_slice()))];
    let job = Job {
        batch: 1,
        image: &image,
        packets: &packets,
    };
    let mut media = unwrap(&rt, media_of(alloc, 2, 256));
    let links = unwrap(&rt, boxed(alloc, &mut media));
    let batch = unwrap(&rt, run_batch(&rt, alloc, &job, links, &OpenGate));
    let Some(Entry::Done(done)) = batch.collected.entries.get(0) else {
        panic!(rt; "the packet has no result");
    };
    assert_same(&rt, &done.result.as_slice(), &[42, 0, 0, 0].as_slice());
}
