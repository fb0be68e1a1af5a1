//! The examples in the documentation of `read_image`, `check_states`, `accept` and `Machine::run`.

use crate::asserts::{assert_same, unwrap};
use std::process::Abort;
use test_samples::INCREMENT;
use tp_accept::accept;
use tp_check::check_states;
use tp_decode::decode;
use tp_flow::check_flow;
use tp_image::read_image;
use tp_link::{LinkDevice, Media};
use tp_machine::Machine;

#[test]
fn an_image_is_read_and_its_states_are_known(rt: HostRuntime) {
    let alloc = rt.alloc();
    let image = unwrap(&rt, read_image(alloc, INCREMENT));
    assert_same(
        &rt,
        &(image.packet, image.result, image.code.len()),
        &(1, 1, 16),
    );
    let listing = unwrap(&rt, decode(alloc, &image.code));
    let nest = unwrap(&rt, check_flow(&image, &listing));
    let table = unwrap(&rt, check_states(alloc, &image, &listing, &nest));
    // No edges join in it, so only the state before its first instruction is kept.
    assert_same(&rt, &table.states.len(), &1);
}

#[test]
fn an_accepted_image_runs_a_packet(rt: HostRuntime) {
    let alloc = rt.alloc();
    let text = unwrap(&rt, Vec::from_slice(alloc, INCREMENT));
    let accepted = unwrap(&rt, accept(alloc, text));
    assert_same(&rt, &accepted.budget(), &16);
    let mut media = unwrap(&rt, Media::new(alloc, 256));
    let mut links = media.wires();
    unwrap(&rt, links.source.send(&[41, 0, 0, 0]));
    let outcome = unwrap(&rt, Machine::new().run(&accepted, &mut links));
    assert_same(&rt, &(outcome.error, outcome.steps), &(false, 16));
    let mut result = [0; 4];
    unwrap(&rt, links.sink.receive(&mut result));
    assert_same(&rt, &result, &[42, 0, 0, 0]);
}
