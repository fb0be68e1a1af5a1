//! The end of a device, in a box and out of it: what is left of it.
ghost use Rattle.std.specs.Prelude.{◌≡◌};
ghost use Rattle.tp_link.specs.Device.{held_after_send, plain_send};
ghost use Rattle.tp_link.specs.Medium.{with_bytes, wired, unwired, faultless_device};

use crate::asserts::{assert_same, unwrap};
use std::alloc::Global;
use std::process::Abort;
use tp_link::{DeviceFault, EndedMedium, FaultyWire, LinkDevice, Links, Medium, OwnedWire, Wire};

/// Sends over a wire that has ended at the return. That the medium then has its end mark and its
/// bytes is proved from the wire's contracts alone.
fn send_and_end(medium: &mut Medium, bytes: &[u8]) -> Result<(), DeviceFault>
    ensures medium { medium.new
        ≡ unwired (with_bytes medium.old (held_after_send result medium.old.bytes bytes.now)) }
    ensures answer { result ≡ plain_send (faultless_device (wired medium.old)) bytes.now }
{
    let mut wire = Wire::new(medium);
    wire.send(bytes)
}

fn assert_ended(rt: &impl Abort, medium: &Medium, bytes: &[u8]) {
    assert_same(rt, &(medium.ended(), medium.bytes()), &(true, bytes));
}

fn assert_landed(rt: &impl Abort, place: &EndedMedium, bytes: &[u8]) {
    match place.get() {
        Some(medium) => assert_ended(rt, medium, bytes),
        None => assert!(rt; false, "the wire has not ended"),
    }
}

fn assert_sends<D: LinkDevice>(rt: &impl Abort, device: &mut D, bytes: &[u8]) {
    assert_same(rt, &device.send(bytes), &Ok(()));
}

/// Sends, and drops the device.
fn send_and_drop<D: LinkDevice>(rt: &impl Abort, mut device: D, bytes: &[u8]) {
    assert_sends(rt, &mut device, bytes);
    drop(device);
}

/// Receives a byte and sends it again, and drops the device.
fn resend_and_drop<D: LinkDevice>(rt: &impl Abort, mut device: D) {
    let mut byte = [1];
    assert_same(rt, &device.receive(&mut byte), &Ok(()));
    assert_sends(rt, &mut device, &byte);
    drop(device);
}

#[test]
fn a_wire_that_has_ended_leaves_its_bytes(rt: HostRuntime) {
    let mut medium = unwrap(&rt, Medium::new(rt.alloc(), 4));
    assert_same(&rt, &send_and_end(&mut medium, &[1, 2, 3]), &Ok(()));
    assert_ended(&rt, &medium, &[1, 2, 3]);
}

#[test]
fn a_dropped_box_ends_its_wire(rt: HostRuntime) {
    let mut medium = unwrap(&rt, Medium::new(rt.alloc(), 4));
    let wire = unwrap(&rt, Box::new(rt.alloc(), Wire::new(&mut medium)));
    send_and_drop(&rt, wire, &[1, 2, 3]);
    assert_ended(&rt, &medium, &[1, 2, 3]);
}

/// As many bytes as a medium of a member can hold, counting up from one of them.
fn full(rt: &impl Abort, alloc: Global, first: u8) -> Vec<u8> {
    let mut bytes = unwrap(rt, Vec::with_capacity(alloc, 256));
    for i in 0..=255u8 {
        unwrap(rt, bytes.push(first.wrapping_add(i)));
    }
    bytes
}

#[test]
fn a_full_medium_ends(rt: HostRuntime) {
    let bytes = full(&rt, rt.alloc(), 0);
    let mut medium = unwrap(&rt, Medium::new(rt.alloc(), 256));
    let wire = unwrap(&rt, Box::new(rt.alloc(), Wire::new(&mut medium)));
    send_and_drop(&rt, wire, &bytes);
    assert_ended(&rt, &medium, &bytes);
    let faulty = unwrap(&rt, Box::new(rt.alloc(), FaultyWire::new(&mut medium, 0)));
    resend_and_drop(&rt, faulty);
    let bytes = full(&rt, rt.alloc(), 1);
    assert_ended(&rt, &medium, &bytes);
    let (owned, ended) = unwrap(&rt, OwnedWire::new(rt.alloc(), medium));
    drop(owned);
    assert_landed(&rt, &ended, &bytes);
}

#[test]
fn an_empty_medium_ends(rt: HostRuntime) {
    for room in [0, 256] {
        let (owned, ended) = unwrap(
            &rt,
            OwnedWire::new(rt.alloc(), unwrap(&rt, Medium::new(rt.alloc(), room))),
        );
        let owned = unwrap(&rt, Box::new(rt.alloc(), owned));
        let device: Box<dyn LinkDevice + Send> = owned;
        drop(device);
        assert_landed(&rt, &ended, &[]);
    }
}

/// The six orders in which three boxes can be dropped.
const ORDERS: [[usize; 3]; 6] = [
    [0, 1, 2],
    [0, 2, 1],
    [1, 0, 2],
    [1, 2, 0],
    [2, 0, 1],
    [2, 1, 0],
];

fn drop_in_order<D: LinkDevice>(links: Links<D>, order: [usize; 3]) {
    let Links {
        source,
        sink,
        trace,
    } = links;
    let mut devices = (Some(source), Some(sink), Some(trace));
    for place in order {
        match place {
            0 => devices.0 = None,
            1 => devices.1 = None,
            _ => devices.2 = None,
        }
    }
}

/// Which of the devices are open.
fn open<D: LinkDevice>(links: &Links<D>) -> (bool, bool, bool) {
    (
        links.source.is_open(),
        links.sink.is_open(),
        links.trace.is_open(),
    )
}

/// Sends other bytes to each device, shuts them or not, and drops them in an order.
fn use_and_drop<D: LinkDevice>(
    rt: &impl Abort,
    mut links: Links<D>,
    shut: bool,
    order: [usize; 3],
) {
    assert_sends(rt, &mut links.source, &[1]);
    assert_sends(rt, &mut links.sink, &[2, 3]);
    assert_sends(rt, &mut links.trace, &[4, 5, 6]);
    if shut {
        links.shut();
        assert_same(rt, &open(&links), &(false, false, false));
    }
    drop_in_order(links, order);
}

fn wires<'a>(
    rt: &impl Abort,
    alloc: Global,
    source: &'a mut Medium,
    sink: &'a mut Medium,
    trace: &'a mut Medium,
) -> Links<Box<Wire<'a>>> {
    Links {
        source: unwrap(rt, Box::new(alloc, Wire::new(source))),
        sink: unwrap(rt, Box::new(alloc, Wire::new(sink))),
        trace: unwrap(rt, Box::new(alloc, Wire::new(trace))),
    }
}

fn faulty_wires<'a>(
    rt: &impl Abort,
    alloc: Global,
    source: &'a mut Medium,
    sink: &'a mut Medium,
    trace: &'a mut Medium,
) -> Links<Box<FaultyWire<'a>>> {
    Links {
        source: unwrap(rt, Box::new(alloc, FaultyWire::new(source, 2))),
        sink: unwrap(rt, Box::new(alloc, FaultyWire::new(sink, 0))),
        trace: unwrap(rt, Box::new(alloc, FaultyWire::new(trace, 3))),
    }
}

fn borrowed_media_end(rt: &impl Abort, alloc: Global, faulty: bool, shut: bool, order: [usize; 3]) {
    let mut source = unwrap(rt, Medium::new(alloc, 4));
    let mut sink = unwrap(rt, Medium::new(alloc, 4));
    let mut trace = unwrap(rt, Medium::new(alloc, 4));
    if faulty {
        let links = faulty_wires(rt, alloc, &mut source, &mut sink, &mut trace);
        use_and_drop(rt, links, shut, order);
    } else {
        let links = wires(rt, alloc, &mut source, &mut sink, &mut trace);
        use_and_drop(rt, links, shut, order);
    }
    assert_ended(rt, &source, &[1]);
    assert_ended(rt, &sink, &[2, 3]);
    assert_ended(rt, &trace, &[4, 5, 6]);
}

#[test]
fn wires_end_in_each_order(rt: HostRuntime) {
    for order in ORDERS {
        borrowed_media_end(&rt, rt.alloc(), false, false, order);
        borrowed_media_end(&rt, rt.alloc(), false, true, order);
    }
}

#[test]
fn faulty_wires_end_in_each_order(rt: HostRuntime) {
    for order in ORDERS {
        borrowed_media_end(&rt, rt.alloc(), true, false, order);
        borrowed_media_end(&rt, rt.alloc(), true, true, order);
    }
}

/// A device in a box, with the place where its medium lands.
type Boxed = (Box<dyn LinkDevice + Send>, EndedMedium);

fn boxed(rt: &impl Abort, alloc: Global) -> Boxed {
    let (wire, end) = unwrap(rt, OwnedWire::new(alloc, unwrap(rt, Medium::new(alloc, 4))));
    let wire = unwrap(rt, Box::new(alloc, wire));
    (wire, end)
}

fn owned_media_end(rt: &impl Abort, alloc: Global, shut: bool, order: [usize; 3]) {
    let (source, source_end) = boxed(rt, alloc);
    let (sink, sink_end) = boxed(rt, alloc);
    let (trace, trace_end) = boxed(rt, alloc);
    let links = Links {
        source,
        sink,
        trace,
    };
    assert!(rt; source_end.get().is_none());
    use_and_drop(rt, links, shut, order);
    assert_landed(rt, &source_end, &[1]);
    assert_landed(rt, &sink_end, &[2, 3]);
    assert_landed(rt, &trace_end, &[4, 5, 6]);
}

#[test]
fn trait_objects_end_in_each_order(rt: HostRuntime) {
    for order in ORDERS {
        owned_media_end(&rt, rt.alloc(), false, order);
        owned_media_end(&rt, rt.alloc(), true, order);
    }
}
