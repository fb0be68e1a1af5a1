//! The example in the documentation of `StreamQueue`.

use crate::asserts::{assert_same, unwrap};
use tp_stream::{Fed, Packet, StreamQueue, Work, WorkSource};

#[test]
fn one_packet_goes_through_a_stream(rt: HostRuntime) {
    let alloc = rt.alloc();
    let packets = [unwrap(&rt, Packet::try_from([7].as_slice()))];
    let (stream, mut feeder, mut hands) = unwrap(&rt, StreamQueue::new(alloc, &packets, 1));
    assert_same(&rt, &stream.feed(&rt, &mut feeder), &Fed::Pushed);
    let work = stream.next(&rt, &mut hands[0]);
    assert!(rt; matches!(work, Work::Packet { number: 0, .. }));
    assert_same(&rt, &stream.finish(&mut hands[0]), &Ok(0));
    let Ok(closed) = stream.close(&rt, feeder, hands) else {
        panic!(rt; "a hand of the stream is missing");
    };
    assert_same(&rt, &(closed.pushed, closed.ledger.done), &(1, 1));
}
