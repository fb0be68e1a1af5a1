//! Runs of accepted images.

use crate::asserts::{assert_same, unwrap};
use crate::machine::media::run_packet;
use crate::machine::runs::{CASES, is_so};
use crate::texts::{FOUR_THOUSAND, NINE_HUNDRED, many_jumps};
use std::process::Abort;
use tp_accept::{Accepted, accept};
use tp_machine::{Machine, Outcome};

/// The cases of a machine that held anything, on a new one.
#[test]
fn runs_accepted_images(rt: HostRuntime) {
    let mut machine = Machine::new();
    for (i, case) in CASES.iter().enumerate() {
        assert!(rt; is_so(&rt, rt.alloc(), &mut machine, case), "case {i}");
    }
}

#[test]
fn runs_long_codes(rt: HostRuntime) {
    let packet = [7, 0, 0, 0];
    let rows: [(&[u8], usize, u32); 2] = [
        (NINE_HUNDRED, 900, 1_813),
        (FOUR_THOUSAND, 4_000, 8_013),
    ];
    let mut machine = Machine::new();
    for (header, times, steps) in rows {
        let text = many_jumps(&rt, rt.alloc(), header, times);
        let accepted = unwrap(&rt, accept(rt.alloc(), text));
        assert_sent_back(&rt, &mut machine, &accepted, &packet, steps);
    }
}

/// The run of a packet takes this many steps, and its result is the packet.
fn assert_sent_back(
    rt: &(impl Abort + AllocGlobal),
    machine: &mut Machine,
    accepted: &Accepted,
    packet: &[u8],
    steps: u32,
) {
    let (answered, media) = run_packet(rt, rt.alloc(), machine, accepted, packet);
    let error = false;
    assert_same(rt, &answered, &Ok(Outcome { error, steps }));
    assert_same(rt, &media.sink.bytes(), &packet);
}
