//! When a gate is notified of a packet: before any of its devices is called, and behind the last call.

use crate::asserts::{assert_same, unwrap};
use crate::batches::{ROOM, run_by_one};
use std::alloc::Global;
use std::process::Abort;
use std::sync::atomic::{AtomicU64, Ordering};
use test_samples::TRACES_ITS_PACKET;
use tp_farm::Gate;
use tp_link::{DeviceFault, LinkDevice, Links, Medium, OwnedWire};

/// Notes of one member's gate and devices: packets that were taken and that were handled, and calls of devices.
#[derive(Drop)]
struct Notes {
    taken: AtomicU64,
    handled: AtomicU64,
    calls: AtomicU64,
    /// Calls where no packet was taken that was not handled.
    between: AtomicU64,
}

impl Notes {
    fn new() -> Notes {
        Notes {
            taken: AtomicU64::new(0),
            handled: AtomicU64::new(0),
            calls: AtomicU64::new(0),
            between: AtomicU64::new(0),
        }
    }

    fn call(&self) {
        self.calls.fetch_add(1, Ordering::SeqCst);
        if self.taken.load(Ordering::SeqCst) == self.handled.load(Ordering::SeqCst) {
            self.between.fetch_add(1, Ordering::SeqCst);
        }
    }
}

impl Gate for Notes {
    ghost use Rattle.std.specs.Prelude.{◌≡◌, true};

    ghost open_for_good = { λ _. true };

    ghost has_answered = { λ _ _ answer. answer ≡ true };

    fn ask(&self, _member: u32) -> bool {
        true
    }

    fn claimed(&self, _member: u32, _number: u32) {
        self.taken.fetch_add(1, Ordering::SeqCst);
    }

    fn finished(&self, _member: u32, _number: u32) {
        self.handled.fetch_add(1, Ordering::SeqCst);
    }
}

/// A wire whose sends and receives are noted.
#[derive(Drop)]
struct Noted<'n> {
    wire: OwnedWire,
    notes: &'n Notes,
}

impl LinkDevice for Noted<'_> {
    ghost use Rattle.tp_link.specs.OwnedWire.{device_of};

    ghost state = { λ d. device_of d.wire };

    fn send(&mut self, bytes: &[u8]) -> Result<(), DeviceFault> {
        self.notes.call();
        self.wire.send(bytes)
    }

    fn receive(&mut self, into: &mut [u8]) -> Result<(), DeviceFault> {
        self.notes.call();
        self.wire.receive(into)
    }

    fn held(&self) -> usize {
        self.wire.held()
    }

    fn room(&self) -> usize {
        self.wire.room()
    }

    fn is_open(&self) -> bool {
        self.wire.is_open()
    }

    fn faults(&self) -> u64 {
        self.wire.faults()
    }

    fn close(&mut self) {
        self.wire.close();
    }
}

fn noted_wire<'n>(rt: &impl Abort, alloc: Global, notes: &'n Notes) -> Noted<'n> {
    let medium = unwrap(rt, Medium::new(alloc, ROOM));
    let (wire, _) = unwrap(rt, OwnedWire::new(alloc, medium));
    Noted { wire, notes }
}

/// Each packet comes from the source, is traced and is sent as the result: three calls at least.
#[test]
fn a_gate_is_notified_before_and_behind_each_packet(rt: HostRuntime) {
    let notes = Notes::new();
    let links = Links {
        source: noted_wire(&rt, rt.alloc(), &notes),
        sink: noted_wire(&rt, rt.alloc(), &notes),
        trace: noted_wire(&rt, rt.alloc(), &notes),
    };
    let _ = run_by_one(&rt, rt.alloc(), TRACES_ITS_PACKET, &[1, 2], links, &notes);
    let Notes {
        taken,
        handled,
        calls,
        between,
    } = notes;
    assert!(rt; calls.into_inner() >= 6);
    assert_same(&rt, &between.into_inner(), &0);
    assert_same(&rt, &(taken.into_inner(), handled.into_inner()), &(2, 2));
}
