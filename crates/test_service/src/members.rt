//! Members beside one another: each member of a farm serves, in each batch.

use crate::asserts::{assert_same, unwrap};
use crate::farms::{opened, push_line};
use std::alloc::Global;
use std::process::Abort;
use std::sync::Wait;
use std::sync::atomic::{AtomicU64, Ordering};
use std::thread::{self, Threads};
use test_samples::INCREMENT;
use tp_link::{DeviceFault, LinkDevice, Links, Medium, OwnedWire};
use tp_session::{Farm, serve};

/// How many turns a member is held for, at most.
const MAX_TURNS: u64 = 1_000_000;

/// Where members wait for one another, once for each packet that they take.
#[derive(Drop)]
struct Meeting {
    members: u64,
    /// How many have come.
    come: AtomicU64,
    ran_out: AtomicU64,
}

impl Meeting {
    fn of(members: u64) -> Meeting {
        Meeting {
            members,
            come: AtomicU64::new(0),
            ran_out: AtomicU64::new(0),
        }
    }

    /// Comes for this time, counted from 1, and waits until all have.
    fn wait(&self, time: u64) {
        self.come.fetch_add(1, Ordering::SeqCst);
        let wanted = self.members.saturating_mul(time);
        for _ in 0..MAX_TURNS {
            if self.come.load(Ordering::SeqCst) >= wanted {
                return;
            }
            thread::yield_now();
        }
        self.ran_out.fetch_add(1, Ordering::SeqCst);
    }
}

/// A wire, and the meeting to which it comes before each packet, if there is one.
#[derive(Drop)]
struct Meeter<'m> {
    wire: OwnedWire,
    meeting: Option<&'m Meeting>,
    /// How often it has come.
    times: u64,
}

impl Meeter<'_> {
    ghost use Rattle.std.specs.Prelude.{◌≡◌};

    fn come(&mut self)
        ensures { self.new.wire ≡ self.old.wire }
    {
        if let Some(meeting) = self.meeting {
            self.times = self.times.saturating_add(1);
            meeting.wait(self.times);
        }
    }
}

impl LinkDevice for Meeter<'_> {
    ghost use Rattle.tp_link.specs.OwnedWire.{device_of};

    ghost state = { λ d. device_of d.wire };

    fn send(&mut self, bytes: &[u8]) -> Result<(), DeviceFault> {
        self.come();
        self.wire.send(bytes)
    }

    fn receive(&mut self, into: &mut [u8]) -> Result<(), DeviceFault> {
        self.wire.receive(into)
    }

    fn held(&self) -> usize {
        self.wire.held()
    }

    fn room(&self) -> usize {
        self.wire.room()
    }

    fn is_open(&self) -> bool {
        self.wire.is_open()
    }

    fn faults(&self) -> u64 {
        self.wire.faults()
    }

    fn close(&mut self) {
        self.wire.close();
    }
}

fn meeter_at<'m>(rt: &impl Abort, alloc: Global, meeting: Option<&'m Meeting>) -> Meeter<'m> {
    let medium = unwrap(rt, Medium::new(alloc, 256));
    let (wire, _) = unwrap(rt, OwnedWire::new(alloc, medium));
    Meeter {
        wire,
        meeting,
        times: 0,
    }
}

/// The links of this many members, whose sources meet.
fn links_of<'m>(
    rt: &impl Abort,
    alloc: Global,
    members: u64,
    meeting: &'m Meeting,
) -> Vec<Links<Meeter<'m>>> {
    let mut links = Vec::new(alloc);
    for _ in 0..members {
        let member = Links {
            source: meeter_at(rt, alloc, Some(meeting)),
            sink: meeter_at(rt, alloc, None),
            trace: meeter_at(rt, alloc, None),
        };
        unwrap(rt, links.push(member));
    }
    links
}

/// An image, and two batches of this many packets.
fn two_batches(rt: &impl Abort, alloc: Global, packets: u64) -> Vec<u8> {
    let mut input = opened(rt, alloc, INCREMENT);
    for _ in 0..2u8 {
        for _ in 0..packets {
            push_line(rt, &mut input, &["a PACKET 01000000"]);
        }
        push_line(rt, &mut input, &["a RUN"]);
    }
    input
}

/// Serves two batches of as many packets as there are members, of which there are 1 to 64.
fn serve_meeting<T: Abort + Threads + Wait + Sync>(
    rt: &T,
    alloc: Global,
    members: u64,
    meeting: &Meeting,
) -> Vec<u8> {
    let input = two_batches(rt, alloc, members);
    let links = links_of(rt, alloc, members, meeting);
    if links.is_empty() || links.len() > 64 {
        panic!(rt; "no farm has so many members");
    }
    let mut reader = input.as_slice();
    let mut writer = Vec::new(alloc);
    let farm = Farm::new(links, false);
    let result = serve(rt, alloc, &mut reader, &mut writer, farm);
    unwrap(rt, result);
    writer
}

/// A member that has taken a packet is held until as many packets are taken as there are members. So no turns run out
/// only where each member has a packet in hand beside the others, in the second batch too.
#[test]
fn each_member_serves(rt: HostRuntime) {
    for members in [1, 3, 8] {
        let meeting = Meeting::of(members);
        let written = serve_meeting(&rt, rt.alloc(), members, &meeting);
        let done = format!(in rt.alloc(); " 0 16 02000000\nDONE {members}\n");
        let done = unwrap(&rt, done);
        assert!(rt; written.ends_with(done.as_bytes()));
        assert_eq!(rt; meeting.ran_out.load(Ordering::SeqCst), 0, "{members}");
        assert_same(
            &rt,
            &meeting.come.load(Ordering::SeqCst),
            &members.saturating_mul(2),
        );
    }
}
