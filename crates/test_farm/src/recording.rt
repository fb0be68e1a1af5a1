//! The calls of a gate: a member's own number, and its packet's.

use crate::asserts::{assert_same, unwrap};
use crate::batches::{ROOM, count_up, failing, increments_by, run_by_one};
use std::alloc::Global;
use std::process::Abort;
use std::sync::{Mutex, Wait};
use std::thread::Threads;
use test_samples::*;
use tp_farm::Gate;
use tp_link::Media;

/// A call that a gate hears, of the member of a number.
#[derive(Clone, Copy, PartialEq, Eq)]
enum Heard {
    Asked(u32),
    /// The member has taken the packet of the second number.
    Claimed(u32, u32),
    /// The member has finished that packet, or lost it.
    Finished(u32, u32),
}

impl Heard {
    fn is_of(&self, member: u32) -> bool {
        match self {
            Heard::Asked(one) | Heard::Claimed(one, _) | Heard::Finished(one, _) => *one == member,
        }
    }
}

/// Lets each member go on, and records what it hears.
#[derive(Drop)]
struct Recording<'r, R> {
    rt: &'r R,
    heard: Mutex<Vec<Heard>>,
}

impl<'r, R: Wait> Recording<'r, R> {
    fn new(rt: &'r R, alloc: Global) -> Recording<'r, R> {
        Recording {
            rt,
            heard: Mutex::new(Vec::new(alloc)),
        }
    }

    fn hear(&self, one: Heard) {
        let _ = self.heard.lock(self.rt).push(one);
    }

    fn into_heard(self) -> Vec<Heard> {
        self.heard.into_inner()
    }
}

impl<R: Wait + Sync> Gate for Recording<'_, R> {
    ghost use Rattle.std.specs.Prelude.{◌≡◌, true};

    ghost open_for_good = { λ _. true };

    ghost has_answered = { λ _ _ answer. answer ≡ true };

    fn ask(&self, member: u32) -> bool {
        self.hear(Heard::Asked(member));
        true
    }

    fn claimed(&self, member: u32, number: u32) {
        self.hear(Heard::Claimed(member, number));
    }

    fn finished(&self, member: u32, number: u32) {
        self.hear(Heard::Finished(member, number));
    }
}

/// The calls heard of one member that runs two packets of 1, over wires that fail in these calls.
fn heard_of_one<R: Abort + Threads + Wait + Sync>(
    rt: &R,
    alloc: Global,
    calls: [u64; 3],
) -> Vec<Heard> {
    let mut media = unwrap(rt, Media::new(alloc, ROOM));
    let links = failing(&mut media, calls);
    let gate = Recording::new(rt, alloc);
    let _ = run_by_one(rt, alloc, INCREMENT, &[1, 1], links, &gate);
    gate.into_heard()
}

/// A gate hears of a lost packet as of one that is done.
#[test]
fn a_gate_hears_of_one_member(rt: HostRuntime) {
    let wanted = [
        Heard::Asked(0),
        Heard::Claimed(0, 0),
        Heard::Finished(0, 0),
        Heard::Asked(0),
        Heard::Claimed(0, 1),
        Heard::Finished(0, 1),
        Heard::Asked(0),
    ];
    for calls in [[0, 0, 0], [0, 1, 0], [3, 0, 0]] {
        let heard = heard_of_one(&rt, rt.alloc(), calls);
        assert!(rt; heard.as_slice() == wanted.as_slice(), "{calls:?}");
    }
}

/// Each member of a batch of no packets is started, asks once, and ends.
#[test]
fn each_member_asks_where_there_are_no_packets(rt: HostRuntime) {
    let gate = Recording::new(&rt, rt.alloc());
    let _ = increments_by(&rt, rt.alloc(), &[], 3, &gate);
    let heard = gate.into_heard();
    assert_same(&rt, &heard.len(), &3);
    for member in 0..3 {
        assert!(rt; heard.contains(&Heard::Asked(member)), "{member}");
    }
}

/// The calls heard of some members that run 60 packets.
fn heard_of<R: Abort + Threads + Wait + Sync>(rt: &R, alloc: Global, members: usize) -> Vec<Heard> {
    let words = count_up(rt, alloc, 60);
    let gate = Recording::new(rt, alloc);
    let _ = increments_by(rt, alloc, &words, members, &gate);
    gate.into_heard()
}

/// The calls heard of one member, in its order.
fn of_member(rt: &impl Abort, alloc: Global, heard: &[Heard], member: u32) -> Vec<Heard> {
    let mut all = Vec::new(alloc);
    for one in heard {
        if one.is_of(member) {
            unwrap(rt, all.push(*one));
        }
    }
    all
}

/// A member asks, has taken a packet and is done with that packet, in turn, and asks at last: how many packets that
/// are.
fn turns_of(heard: &[Heard]) -> Option<usize> {
    let mut rest = heard;
    for turns in 0..heard.len() {
        match rest {
            [Heard::Asked(_)] => return Some(turns),
            [
                Heard::Asked(_),
                Heard::Claimed(_, number),
                Heard::Finished(_, same),
                more @ ..,
            ] if number == same => {
                rest = more;
            }
            _ => return None,
        }
    }
    None
}

/// Members of the numbers 0, 1, 2 .. ask and no others, and each of them reports its own packets.
#[test]
fn a_gate_hears_of_each_member(rt: HostRuntime) {
    for members in [1u32, 3, 64] {
        let heard = heard_of(&rt, rt.alloc(), members as usize);
        let mut packets = 0usize;
        for member in 0..members {
            let own = of_member(&rt, rt.alloc(), &heard, member);
            let turns = turns_of(&own);
            assert!(rt; turns.is_some(), "{member} of {members}");
            packets = packets.saturating_add(turns.unwrap_or(0));
        }
        assert_same(&rt, &packets, &60);
        assert_same(
            &rt,
            &heard.len(),
            &180usize.saturating_add(members as usize),
        );
    }
}
