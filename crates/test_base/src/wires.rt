//! Wires and faulty wires, an author's own device, and the texts of their faults.

use crate::asserts::{assert_same, unwrap};
use crate::latch::Latch;
use std::process::Abort;
use tp_link::{DeviceFault, FaultyWire, Link, LinkDevice, LinkFault, Medium, OwnedWire, Wire};

/// A call of a device, with the answer that is wanted. A receive begins with bytes 9, and what they
/// are then is wanted too.
#[derive(Clone, Copy)]
enum Step<'b> {
    Send(&'b [u8], Result<(), DeviceFault>),
    Receive(&'b [u8], Result<(), DeviceFault>),
    Held(usize),
    Room(usize),
    Open(bool),
    Faults(u64),
    Close,
}

fn receives<D: LinkDevice>(device: &mut D, bytes: &[u8], wanted: Result<(), DeviceFault>) -> bool {
    let mut buffer = [9; 4];
    let Some(into) = buffer.get_mut(..bytes.len()) else {
        return false;
    };
    let answer = device.receive(into);
    answer == wanted && *into == *bytes
}

/// Makes a step: whether the answer is the one that is wanted.
fn is_made<D: LinkDevice>(device: &mut D, step: &Step) -> bool {
    match step {
        Step::Send(bytes, wanted) => device.send(bytes) == *wanted,
        Step::Receive(bytes, wanted) => receives(device, bytes, *wanted),
        Step::Held(wanted) => device.held() == *wanted,
        Step::Room(wanted) => device.room() == *wanted,
        Step::Open(wanted) => device.is_open() == *wanted,
        Step::Faults(wanted) => device.faults() == *wanted,
        Step::Close => {
            device.close();
            true
        }
    }
}

/// Makes each step, and lets the device go.
fn assert_steps<D: LinkDevice>(rt: &impl Abort, mut device: D, steps: &[Step]) {
    for (place, step) in steps.iter().enumerate() {
        assert!(rt; is_made(&mut device, step), "step {place}");
    }
}

fn assert_ended(rt: &impl Abort, medium: &Medium, bytes: &[u8]) {
    assert_same(rt, &(medium.ended(), medium.bytes()), &(true, bytes));
}

#[test]
fn a_wire_answers_in_order(rt: HostRuntime) {
    let mut medium = unwrap(&rt, Medium::new(rt.alloc(), 4));
    assert!(rt; !medium.ended());
    let steps = [
        Step::Open(true),
        Step::Room(4),
        Step::Receive(&[9, 9], Err(DeviceFault::Short)),
        Step::Send(&[1, 2, 3, 4, 5], Err(DeviceFault::Full)),
        Step::Send(&[1, 2, 3], Ok(())),
        Step::Send(&[4, 5], Err(DeviceFault::Full)),
        Step::Receive(&[1, 2], Ok(())),
        Step::Held(1),
        Step::Close,
        Step::Open(false),
        Step::Send(&[1, 2, 3, 4, 5], Err(DeviceFault::Closed)),
        Step::Receive(&[9, 9], Err(DeviceFault::Closed)),
        Step::Faults(0),
    ];
    assert_steps(&rt, Wire::new(&mut medium), &steps);
    assert_ended(&rt, &medium, &[3]);
}

#[test]
fn a_new_wire_clears_the_end_mark(rt: HostRuntime) {
    let mut medium = unwrap(&rt, Medium::new(rt.alloc(), 4));
    let send = [Step::Send(&[1, 2], Ok(()))];
    let receive = [Step::Receive(&[1], Ok(()))];
    let look = [Step::Held(1), Step::Open(true)];
    assert_steps(&rt, Wire::new(&mut medium), &send);
    assert_steps(&rt, FaultyWire::new(&mut medium, 0), &receive);
    let (owned, ended) = unwrap(&rt, OwnedWire::new(rt.alloc(), medium));
    assert!(rt; ended.get().is_none());
    assert_steps(&rt, owned, &look);
}

#[test]
fn a_faulty_wire_fails_in_one_call(rt: HostRuntime) {
    let mut medium = unwrap(&rt, Medium::new(rt.alloc(), 256));
    let steps = [
        Step::Send(&[1, 0, 0, 0], Ok(())),
        Step::Faults(0),
        Step::Receive(&[9, 9, 9, 9], Err(DeviceFault::Failed)),
        Step::Faults(1),
        Step::Held(4),
        Step::Receive(&[1, 0, 0, 0], Ok(())),
        Step::Send(&[1, 0, 0, 0], Ok(())),
        Step::Faults(1),
    ];
    assert_steps(&rt, FaultyWire::new(&mut medium, 2), &steps);
}

#[test]
fn a_faulty_wire_that_never_fails(rt: HostRuntime) {
    let mut medium = unwrap(&rt, Medium::new(rt.alloc(), 4));
    let steps = [
        Step::Send(&[0], Ok(())),
        Step::Send(&[1], Ok(())),
        Step::Send(&[2], Ok(())),
        Step::Send(&[3], Ok(())),
        Step::Faults(0),
    ];
    assert_steps(&rt, FaultyWire::new(&mut medium, 0), &steps);
}

#[test]
fn a_failure_comes_before_a_closed_device(rt: HostRuntime) {
    let mut medium = unwrap(&rt, Medium::new(rt.alloc(), 4));
    let steps = [
        Step::Close,
        Step::Send(&[1, 2, 3, 4, 5], Err(DeviceFault::Failed)),
        Step::Send(&[1, 2, 3, 4, 5], Err(DeviceFault::Closed)),
    ];
    assert_steps(&rt, FaultyWire::new(&mut medium, 1), &steps);
}

#[test]
fn the_last_count_of_faults_is_the_end_of_them(rt: HostRuntime) {
    let latch = Latch {
        byte: Some(7),
        opened: true,
        jammed: true,
        faults: u64::MAX - 1,
    };
    let latch = unwrap(&rt, Box::new(rt.alloc(), latch));
    let device: Box<dyn LinkDevice + Send> = latch;
    let steps = [
        Step::Receive(&[9], Err(DeviceFault::Failed)),
        Step::Faults(u64::MAX),
        Step::Receive(&[7], Ok(())),
        Step::Send(&[8, 9], Err(DeviceFault::Full)),
        Step::Faults(u64::MAX),
    ];
    assert_steps(&rt, device, &steps);
}

#[test]
fn prints_faults(rt: HostRuntime) {
    let faults = [
        (Link::Source, DeviceFault::Closed, "K1 at source"),
        (Link::Sink, DeviceFault::Full, "K2 at sink"),
        (Link::Source, DeviceFault::Short, "K3 at source"),
        (Link::Trace, DeviceFault::Failed, "K4 at trace"),
    ];
    for (link, code, text) in faults {
        let fault = LinkFault { link, code };
        assert_same(
            &rt,
            &unwrap(&rt, format!(in rt.alloc(); "{fault}")).as_str(),
            &text,
        );
    }
}
