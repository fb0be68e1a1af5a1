//! Batches that do not begin, and one that has nothing to do.

use crate::asserts::{assert_same, unwrap};
use crate::batches::{ROOM, batch_of, have_ended, increments_by, packets};
use std::alloc::Global;
use std::process::Abort;
use std::sync::Wait;
use std::thread::Threads;
use test_samples::*;
use tp_farm::{FarmFault, OpenGate};
use tp_link::{Media, boxed, media_of};
use tp_stream::Packet;

/// The refusal of a batch of the increment over these media, if it is refused.
fn fault_over<R: Abort + Threads + Wait + Sync>(
    rt: &R,
    alloc: Global,
    media: &mut [Media],
    packets: &[Packet],
) -> Option<FarmFault> {
    let links = unwrap(rt, boxed(alloc, media));
    batch_of(rt, alloc, INCREMENT, packets, links, &OpenGate).err()
}

/// The refusal with this number of members; and that all of their media have ended.
fn refusal<R: Abort + Threads + Wait + Sync>(
    rt: &R,
    alloc: Global,
    members: usize,
    packets: &[Packet],
) -> (Option<FarmFault>, bool) {
    let mut media = unwrap(rt, media_of(alloc, members, ROOM));
    let fault = fault_over(rt, alloc, &mut media, packets);
    (fault, media.iter().all(have_ended))
}

/// A list of packets of 1, of which these have another length.
fn with_others(rt: &impl Abort, alloc: Global, count: usize, others: &[usize]) -> Vec<Packet> {
    let ones = [1; 1025];
    let mut all = packets(rt, alloc, ones.get(..count).unwrap_or(&[]));
    for other in others {
        if let Some(packet) = all.get_mut(*other) {
            unwrap(rt, packet.try_push(0));
        }
    }
    all
}

/// Members, packets, which of these have another length, and what the batch is refused with.
const REFUSED: [(usize, usize, &[usize], Option<FarmFault>); 10] = [
    (0, 1, &[], Some(FarmFault::Members)),
    (65, 1, &[], Some(FarmFault::Members)),
    (0, 1025, &[0], Some(FarmFault::Members)),
    (65, 1025, &[0], Some(FarmFault::Members)),
    (1, 1025, &[], Some(FarmFault::Packets)),
    (64, 1025, &[3], Some(FarmFault::Packets)),
    (2, 1, &[0], Some(FarmFault::Length(0))),
    (2, 10, &[5, 9], Some(FarmFault::Length(5))),
    (1, 1024, &[1023], Some(FarmFault::Length(1023))),
    (1, 1024, &[], None),
];

#[test]
fn refuses_in_order(rt: HostRuntime) {
    let alloc = rt.alloc();
    for (members, count, others, wanted) in REFUSED.iter() {
        let packets = with_others(&rt, alloc, *count, others);
        let (fault, ended) = refusal(&rt, alloc, *members, &packets);
        assert!(rt; fault == *wanted && ended, "{members} {count}");
    }
}

/// A packet that is too short has another length, too.
#[test]
fn refuses_short_packets(rt: HostRuntime) {
    let alloc = rt.alloc();
    let mut all = packets(&rt, alloc, &[1, 1]);
    unwrap(&rt, all.push(Packet::new()));
    let (fault, ended) = refusal(&rt, alloc, 2, &all);
    assert_same(&rt, &fault, &Some(FarmFault::Length(2)));
    assert!(rt; ended);
}

#[test]
fn a_batch_may_be_empty(rt: HostRuntime) {
    let alloc = rt.alloc();
    for members in [1, 64] {
        let collected = increments_by(&rt, alloc, &[], members, &OpenGate);
        assert_same(&rt, &collected.entries.len(), &0);
    }
}

/// Each fault, and its text.
const PRINTED: [(FarmFault, &str); 5] = [
    (FarmFault::Members, "G1: not 1 to 64 members"),
    (FarmFault::Packets, "G2: more than 1024 packets"),
    (FarmFault::Length(7), "G3: packet 7 has another length"),
    (FarmFault::Thread, "G4: no thread"),
    (FarmFault::Memory, "memory"),
];

#[test]
fn prints_faults(rt: HostRuntime) {
    for (fault, text) in PRINTED.iter() {
        let printed = unwrap(&rt, format!(in rt.alloc(); "{fault}"));
        assert!(rt; printed.as_str() == *text, "{text}");
    }
}
