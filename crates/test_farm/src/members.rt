//! Members beside one another: the same batch by any number of them, and a batch that only threads can end.

use crate::asserts::{assert_same, unwrap};
use crate::batches::{
    ROOM, alone, count_up, failing, increments_by, one_more, outcomes, run_on, same,
};
use std::alloc::Global;
use std::process::Abort;
use std::sync::Wait;
use std::sync::atomic::{AtomicU64, Ordering};
use std::thread::{self, Threads};
use test_samples::*;
use tp_collect::Collected;
use tp_farm::{Gate, OpenGate};
use tp_link::{EndedMedium, LinkDevice, Links, Media, Medium, OwnedWire};

/// The increments of these words by one member, over faulty wires that never fail.
fn increments_by_one<R: Abort + Threads + Wait + Sync>(
    rt: &R,
    alloc: Global,
    words: &[u32],
) -> Collected {
    let mut media = unwrap(rt, Media::new(alloc, ROOM));
    let links = alone(rt, alloc, failing(&mut media, [0; 3]));
    run_on(rt, alloc, INCREMENT, words, links, &OpenGate)
}

/// Whether each entry has its packet's word plus one.
fn are_one_more(rt: &impl Abort, alloc: Global, words: &[u32], collected: &Collected) -> bool {
    let all = outcomes(rt, alloc, collected);
    for (one, word) in all.iter().zip(words.iter()) {
        if *one != one_more(*word) {
            return false;
        }
    }
    all.len() == words.len()
}

/// 1,024 packets have the same results by 1, 3 and 64 members.
#[test]
fn members_make_no_difference(rt: HostRuntime) {
    let words = count_up(&rt, rt.alloc(), 1024);
    let by_one = increments_by_one(&rt, rt.alloc(), &words);
    assert_same(&rt, &by_one.entries.len(), &1024);
    assert!(rt; are_one_more(&rt, rt.alloc(), &words, &by_one));
    for members in [3, 64] {
        let by_many = increments_by(&rt, rt.alloc(), &words, members, &OpenGate);
        assert!(rt; same(&by_one, &by_many), "{members}");
    }
}

/// How many packets: none, one, about as many as the 32 places of the queue that hands them to members, and most.
const COUNTS: [u32; 7] = [0, 1, 31, 32, 33, 65, 1024];

#[test]
fn any_count_of_packets_is_run(rt: HostRuntime) {
    for count in COUNTS {
        let words = count_up(&rt, rt.alloc(), count);
        for members in [1, 2, 64] {
            let collected = increments_by(&rt, rt.alloc(), &words, members, &OpenGate);
            assert!(rt;
                are_one_more(&rt, rt.alloc(), &words, &collected),
                "{count} by {members}"
            );
        }
    }
}

/// How many turns a thread is held for, at most.
const MAX_TURNS: u64 = 1_000_000;

/// Holds the first numbers until each of them is claimed, and number 0 until all others are finished.
#[derive(Drop)]
struct Holding {
    members: u64,
    packets: u64,
    claims: AtomicU64,
    /// How many of the first numbers are claimed.
    first_claims: AtomicU64,
    finishes: AtomicU64,
    ran_out: AtomicU64,
}

impl Holding {
    fn hold_until(&self, count: &AtomicU64, wanted: u64) {
        for _ in 0..MAX_TURNS {
            if count.load(Ordering::SeqCst) >= wanted {
                return;
            }
            thread::yield_now();
        }
        self.ran_out.fetch_add(1, Ordering::SeqCst);
    }
}

impl Gate for Holding {
    ghost use Rattle.std.specs.Prelude.{◌≡◌, true};

    ghost open_for_good = { λ _. true };

    ghost has_answered = { λ _ _ answer. answer ≡ true };

    fn ask(&self, _member: u32) -> bool {
        true
    }

    fn claimed(&self, _member: u32, number: u32) {
        self.claims.fetch_add(1, Ordering::SeqCst);
        if u64::from(number) < self.members {
            self.first_claims.fetch_add(1, Ordering::SeqCst);
            self.hold_until(&self.first_claims, self.members);
        }
        if number == 0 {
            self.hold_until(&self.finishes, self.packets.saturating_sub(1));
        }
    }

    fn finished(&self, _member: u32, _number: u32) {
        self.finishes.fetch_add(1, Ordering::SeqCst);
    }
}

impl Holding {
    /// The first this many numbers of a batch.
    fn of(members: u64, packets: u64) -> Holding {
        Holding {
            members,
            packets,
            claims: AtomicU64::new(0),
            first_claims: AtomicU64::new(0),
            finishes: AtomicU64::new(0),
            ran_out: AtomicU64::new(0),
        }
    }
}

/// A wire that owns its medium, whose place is added.
fn owned(rt: &impl Abort, alloc: Global, ends: &mut Vec<EndedMedium>) -> OwnedWire {
    let medium = unwrap(rt, Medium::new(alloc, ROOM));
    let (wire, end) = unwrap(rt, OwnedWire::new(alloc, medium));
    unwrap(rt, ends.push(end));
    wire
}

/// Wires of one member in boxes. They own their media, whose places are added.
fn owned_links(
    rt: &impl Abort,
    alloc: Global,
    ends: &mut Vec<EndedMedium>,
) -> Links<Box<OwnedWire>> {
    Links {
        source: unwrap(rt, Box::new(alloc, owned(rt, alloc, ends))),
        sink: unwrap(rt, Box::new(alloc, owned(rt, alloc, ends))),
        trace: unwrap(rt, Box::new(alloc, owned(rt, alloc, ends))),
    }
}

/// The increments of 64 packets of 1 by four members, over boxes of any device.
fn increments_by_any<R: Abort + Threads + Wait + Sync>(
    rt: &R,
    alloc: Global,
    gate: &Holding,
    ends: &mut Vec<EndedMedium>,
) -> Collected {
    let mut members = Vec::new(alloc);
    for _ in 0..4u8 {
        let boxes = owned_links(rt, alloc, ends);
        let source: Box<dyn LinkDevice + Send> = boxes.source;
        let sink: Box<dyn LinkDevice + Send> = boxes.sink;
        let trace: Box<dyn LinkDevice + Send> = boxes.trace;
        let links = Links {
            source,
            sink,
            trace,
        };
        unwrap(rt, members.push(links));
    }
    run_on(rt, alloc, INCREMENT, &[1; 64], members, gate)
}

/// Four members: packets 0 to 3 are held until these four are claimed, and packet 0 until the other 63 are finished. So
/// no turns run out only where four members have packets in hand beside one another, and none has a share of its own.
#[test]
fn members_claim_beside_one_another(rt: HostRuntime) {
    let mut ends = Vec::new(rt.alloc());
    let gate = Holding::of(4, 64);
    let collected = increments_by_any(&rt, rt.alloc(), &gate, &mut ends);
    assert_same(&rt, &collected.entries.len(), &64);
    assert!(rt; are_one_more(&rt, rt.alloc(), &[1; 64], &collected));
    assert_same(&rt, &gate.ran_out.load(Ordering::SeqCst), &0);
    assert_same(&rt, &gate.claims.load(Ordering::SeqCst), &64);
    assert_same(&rt, &gate.finishes.load(Ordering::SeqCst), &64);
    assert_same(&rt, &ends.len(), &12);
    assert!(rt; ends.iter().all(|end| end.get().is_some()));
}
