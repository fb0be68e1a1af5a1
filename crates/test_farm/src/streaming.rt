//! Members that end early or lose their packets, at counts of packets about the 32 places of the queue that hands them
//! out: each batch ends, with an entry for each packet.

use crate::asserts::unwrap;
use crate::batches::{PacketEnd, ROOM, count_up, increments_by, one_more, outcomes, run_on};
use crate::stopping::Closing;
use std::alloc::Global;
use std::process::Abort;
use std::sync::Wait;
use std::thread::Threads;
use test_samples::*;
use tp_farm::OpenGate;
use tp_link::{DeviceFault, Link, LinkDevice, boxed, media_of};

const MEMBERS: [usize; 3] = [1, 2, 64];

const COUNTS: [u32; 5] = [1, 31, 32, 33, 1024];

/// How many packets are done with their word plus one: 1, or 0 where the packet has that other entry; none where it has
/// neither.
fn done_or(one: PacketEnd, word: u32, other: PacketEnd) -> Option<usize> {
    if one == one_more(word) {
        Some(1)
    } else if one == other {
        Some(0)
    } else {
        None
    }
}

/// How many packets are done, each with its word plus one, where all others have that other entry; none where they have
/// not.
fn done_beside(all: &[PacketEnd], words: &[u32], other: PacketEnd) -> Option<usize> {
    if all.len() != words.len() {
        return None;
    }
    let mut done = 0usize;
    for (one, word) in all.iter().zip(words.iter()) {
        done = done.saturating_add(done_or(*one, *word, other)?);
    }
    Some(done)
}

/// How many are done under a gate that says no at this ask and from there on.
fn done_before<R: Abort + Threads + Wait + Sync>(
    rt: &R,
    alloc: Global,
    words: &[u32],
    members: usize,
    at: u64,
) -> Option<usize> {
    let collected = increments_by(rt, alloc, words, members, &Closing::at(at));
    done_beside(&outcomes(rt, alloc, &collected), words, PacketEnd::Stopped)
}

/// Where the twentieth ask is the first that is answered no, at most 19 packets were taken; one member takes all 19.
#[test]
fn members_end_by_a_gates_no(rt: HostRuntime) {
    for count in COUNTS {
        let words = count_up(&rt, rt.alloc(), count);
        for members in MEMBERS {
            let done = done_before(&rt, rt.alloc(), &words, members, 20);
            assert!(rt; done.is_some_and(|done| done <= 19), "{count} by {members}");
        }
        let done = done_before(&rt, rt.alloc(), &words, 1, 20);
        assert_eq!(rt; done, Some(words.len().min(19)), "{count}");
    }
}

/// How many are done by members of whom the first has a closed source.
fn done_beside_closed<R: Abort + Threads + Wait + Sync>(
    rt: &R,
    alloc: Global,
    words: &[u32],
    members: usize,
) -> Option<usize> {
    let mut media = unwrap(rt, media_of(alloc, members, ROOM));
    let mut links = unwrap(rt, boxed(alloc, &mut media));
    for first in links.iter_mut().take(1) {
        first.source.close();
    }
    let collected = run_on(rt, alloc, INCREMENT, words, links, &OpenGate);
    let lost = PacketEnd::Lost(Link::Source, DeviceFault::Closed);
    done_beside(&outcomes(rt, alloc, &collected), words, lost)
}

/// A member with a closed device takes its packets and loses them. Alone it loses all.
#[test]
fn a_members_device_is_closed(rt: HostRuntime) {
    for count in COUNTS {
        let words = count_up(&rt, rt.alloc(), count);
        for members in MEMBERS {
            let done = done_beside_closed(&rt, rt.alloc(), &words, members);
            assert!(rt; done.is_some(), "{count} by {members}");
        }
        let done = done_beside_closed(&rt, rt.alloc(), &words, 1);
        assert_eq!(rt; done, Some(0), "{count}");
    }
}
