//! Gates that stop a batch.

use crate::asserts::{assert_same, unwrap};
use crate::batches::{
    PacketEnd, ROOM, batch_on, have_ended, increments_by, one_more, outcomes, run_by_one,
};
use std::alloc::Global;
use std::process::Abort;
use std::sync::Wait;
use std::sync::atomic::{AtomicU64, Ordering};
use std::thread::{self, Threads};
use test_samples::*;
use tp_farm::Gate;
use tp_link::{LinkDevice, Links, Media, boxed, media_of};

/// Answers yes until the ask of the number that is given, and no from there on.
#[derive(Drop)]
pub(crate) struct Closing {
    at: u64,
    asks: AtomicU64,
}

impl Closing {
    pub(crate) fn at(at: u64) -> Closing {
        Closing {
            at,
            asks: AtomicU64::new(0),
        }
    }
}

impl Gate for Closing {
    ghost use Rattle.std.specs.Prelude.{false};

    ghost open_for_good = { λ _. false };

    ghost has_answered = { λ _ _ _. Unit {0} };

    fn ask(&self, _member: u32) -> bool {
        let earlier = self.asks.fetch_add(1, Ordering::SeqCst);
        earlier < self.at.saturating_sub(1)
    }

    fn claimed(&self, _member: u32, _number: u32) {}

    fn finished(&self, _member: u32, _number: u32) {}
}

/// The outcomes of three packets of 1 that one member runs.
fn run_three<R: Abort + Threads + Wait + Sync>(
    rt: &R,
    alloc: Global,
    gate: &Closing,
) -> Vec<PacketEnd> {
    let mut media = unwrap(rt, Media::new(alloc, ROOM));
    run_by_one(rt, alloc, INCREMENT, &[1; 3], media.wires(), gate)
}

#[test]
fn a_gate_stops_one_member(rt: HostRuntime) {
    let gate = Closing::at(3);
    let all = run_three(&rt, rt.alloc(), &gate);
    let done = one_more(1);
    assert!(rt; all.as_slice() == [done, done, PacketEnd::Stopped].as_slice());
    assert_same(&rt, &gate.asks.load(Ordering::SeqCst), &3);
}

/// How many bytes are put into a member's trace: one into the first member's, two into the second's.
fn bytes_put(member: usize) -> usize {
    member.saturating_add(1).min(8)
}

fn fill_traces<D: LinkDevice>(rt: &impl Abort, links: &mut [Links<D>]) {
    for (member, one) in links.iter_mut().enumerate() {
        unwrap(rt, one.trace.send(&[5; 8][..bytes_put(member).min(8)]));
    }
}

/// Whether all devices are open, and each trace holds what was put into it.
fn are_kept<D: LinkDevice>(links: &[Links<D>]) -> bool {
    for (member, one) in links.iter().enumerate() {
        let open = one.source.is_open() && one.sink.is_open() && one.trace.is_open();
        if !open || one.trace.held() != bytes_put(member) {
            return false;
        }
    }
    true
}

/// Whether all of 100 packets are stopped by a closed gate, and the links are given back as they were.
fn stops_all<R: Abort + Threads + Wait + Sync>(rt: &R, alloc: Global, media: &mut [Media]) -> bool {
    let mut links = unwrap(rt, boxed(alloc, media));
    fill_traces(rt, &mut links);
    let batch = batch_on(rt, alloc, INCREMENT, &[1; 100], links, &Closing::at(1));
    let all = outcomes(rt, alloc, &batch.collected);
    let stopped = all.len() == 100 && count_of(&all, PacketEnd::Stopped) == 100;
    stopped && batch.links.len() == 2 && are_kept(&batch.links)
}

#[test]
fn a_closed_gate_lets_nothing_through(rt: HostRuntime) {
    let mut media = unwrap(&rt, media_of(rt.alloc(), 2, ROOM));
    assert!(rt; stops_all(&rt, rt.alloc(), &mut media));
    assert!(rt; media.iter().all(have_ended));
}

/// How many of 1,024 packets are done, by this many members under a gate that says no at this ask and from there on; none
/// where an entry is neither done nor stopped.
fn done_before<R: Abort + Threads + Wait + Sync>(
    rt: &R,
    alloc: Global,
    members: usize,
    at: u64,
) -> Option<usize> {
    let collected = increments_by(rt, alloc, &[1; 1024], members, &Closing::at(at));
    let all = outcomes(rt, alloc, &collected);
    let done = count_of(&all, one_more(1));
    let stopped = count_of(&all, PacketEnd::Stopped);
    (done.saturating_add(stopped) == 1024).then_some(done)
}

/// The queue that hands packets to members is full when they end, and nobody waits for room in it.
#[test]
fn a_full_queue_ends_with_its_members(rt: HostRuntime) {
    for members in [1, 2, 64] {
        assert_eq!(rt;
            done_before(&rt, rt.alloc(), members, 1),
            Some(0),
            "{members}"
        );
        let done = done_before(&rt, rt.alloc(), members, 3);
        assert!(rt; done.is_some_and(|done| done <= 2), "{members}");
    }
    assert_same(&rt, &done_before(&rt, rt.alloc(), 1, 40), &Some(39));
}

/// How many packets have this entry.
fn count_of(all: &[PacketEnd], wanted: PacketEnd) -> usize {
    let mut count = 0usize;
    for one in all {
        if *one == wanted {
            count = count.saturating_add(1);
        }
    }
    count
}

/// How many of 50 packets by two members are done, and how many are stopped.
fn done_and_stopped<R: Abort + Threads + Wait + Sync>(rt: &R, alloc: Global) -> (usize, usize) {
    let collected = increments_by(rt, alloc, &[1; 50], 2, &Closing::at(10));
    let all = outcomes(rt, alloc, &collected);
    (
        count_of(&all, one_more(1)),
        count_of(&all, PacketEnd::Stopped),
    )
}

/// Where the tenth question is the first that is answered false, nine members went on. The last of these may still find
/// the batch stopped.
#[test]
fn a_gate_stops_two_members(rt: HostRuntime) {
    for _ in 0..20u8 {
        let (done, stopped) = done_and_stopped(&rt, rt.alloc());
        assert!(rt; done == 8 || done == 9, "{done}");
        assert_same(&rt, &done.saturating_add(stopped), &50);
    }
}

/// No member's number.
const NOBODY: u64 = u64::MAX;

/// How often a member waits for others to go on, once a member was answered no.
const TURNS: u32 = 1000;

/// Says no once: to the ask of the number that is given, counted from 1.
#[derive(Drop)]
struct SayingNoOnce {
    at: u64,
    asks: AtomicU64,
    /// The member that was answered no.
    refused: AtomicU64,
    /// How often that member has asked again.
    asks_again: AtomicU64,
}

impl SayingNoOnce {
    fn at(at: u64) -> SayingNoOnce {
        SayingNoOnce {
            at,
            asks: AtomicU64::new(0),
            refused: AtomicU64::new(NOBODY),
            asks_again: AtomicU64::new(0),
        }
    }
}

impl Gate for SayingNoOnce {
    ghost use Rattle.std.specs.Prelude.{false};

    ghost open_for_good = { λ _. false };

    ghost has_answered = { λ _ _ _. Unit {0} };

    fn ask(&self, member: u32) -> bool {
        if self.refused.load(Ordering::SeqCst) == u64::from(member) {
            self.asks_again.fetch_add(1, Ordering::SeqCst);
        }
        let earlier = self.asks.fetch_add(1, Ordering::SeqCst);
        let refuses = earlier == self.at.saturating_sub(1);
        if refuses {
            self.refused.store(u64::from(member), Ordering::SeqCst);
        }
        !refuses
    }

    fn claimed(&self, _member: u32, _number: u32) {
        if self.refused.load(Ordering::SeqCst) == NOBODY {
            return;
        }
        for _ in 0..TURNS {
            thread::yield_now();
        }
    }

    fn finished(&self, _member: u32, _number: u32) {}
}

/// How many of 1,024 packets are done, and how many are stopped.
fn done_and_stopped_by_one_no<R: Abort + Threads + Wait + Sync>(
    rt: &R,
    alloc: Global,
    members: usize,
    gate: &SayingNoOnce,
) -> (usize, usize) {
    let collected = increments_by(rt, alloc, &[1; 1024], members, gate);
    let all = outcomes(rt, alloc, &collected);
    (
        count_of(&all, one_more(1)),
        count_of(&all, PacketEnd::Stopped),
    )
}

/// One no stops all members, though they would be let go on: each of them ends, and packets are left. Nine asks were
/// answered before; all members but one may find the batch stopped after that.
#[test]
fn one_no_stops_all_members(rt: HostRuntime) {
    for (members, least) in [(1, 9), (2, 8), (4, 6)] {
        let gate = SayingNoOnce::at(10);
        let (done, stopped) = done_and_stopped_by_one_no(&rt, rt.alloc(), members, &gate);
        assert_same(&rt, &done.saturating_add(stopped), &1024);
        assert!(rt; done >= least && stopped > 0, "{members}: {done}");
        assert!(rt; members > 1 || done == least, "{done}");
        assert_same(&rt, &gate.asks_again.load(Ordering::SeqCst), &0);
    }
}
