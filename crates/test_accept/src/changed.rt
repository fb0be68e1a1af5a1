//! The increment with each of its bytes set to each value: what is accepted runs within its budget.

use crate::asserts::{assert_same, unwrap};
use crate::machine::media::run_packet;
use crate::texts::changed;
use std::process::Abort;
use test_samples::INCREMENT;
use tp_accept::{Accepted, accept};
use tp_machine::Machine;

/// Whether a packet's run on an accepted image ends within its budget; its result has its length.
fn ends_within(
    rt: &(impl Abort + AllocGlobal),
    machine: &mut Machine,
    accepted: &Accepted,
) -> bool {
    let packet = unwrap(rt, vec![in rt.alloc(); 0u8; accepted.packet_bytes()]);
    let (answered, media) = run_packet(rt, rt.alloc(), machine, accepted, packet.as_slice());
    let outcome = unwrap(rt, answered);
    assert_same(rt, &media.sink.bytes().len(), &accepted.result_bytes());
    outcome.steps <= accepted.budget()
}

#[test]
fn runs_what_is_accepted(rt: HostRuntime) {
    let mut machine = Machine::new();
    let mut accepted_count = 0u32;
    let mut refused_count = 0u32;
    for at in 0..INCREMENT.len() {
        for byte in 0..=255u8 {
            let text = changed(&rt, rt.alloc(), INCREMENT, at, &[byte]);
            let Ok(accepted) = accept(rt.alloc(), text) else {
                refused_count = refused_count.saturating_add(1);
                continue;
            };
            accepted_count = accepted_count.saturating_add(1);
            let is_within = ends_within(&rt, &mut machine, &accepted);
            assert!(rt; is_within, "byte {at} set to {byte}");
        }
    }
    // counted by a verifier that was written from the rules alone, in another language
    assert_same(&rt, &accepted_count, &469);
    assert_same(&rt, &refused_count, &(8_192 - 469));
}
