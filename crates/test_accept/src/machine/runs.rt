//! Runs to their end.

use super::media::{accepted, all_bits_set, run_packet};
use std::alloc::Global;
use std::process::Abort;
use test_samples::*;
use tp_machine::{Machine, Outcome};

/// An image, a packet of it, and what its run gives: the error flag, the steps, the result and the trace.
pub(crate) type Case = (&'static [u8], [u8; 4], (bool, u32), [u8; 4], &'static [u8]);

const ZERO: [u8; 4] = [0; 4];

const MOST: [u8; 4] = [0xFF, 0xFF, 0xFF, 0x7F];

pub(crate) const CASES: [Case; 14] = [
    (INCREMENT, [1, 0, 0, 0], (false, 16), [2, 0, 0, 0], &[]),
    (INCREMENT, MOST, (true, 16), [0, 0, 0, 0x80], &[]),
    (INCREMENT, [1, 0, 0, 0], (false, 16), [2, 0, 0, 0], &[]),
    (SUM_TO_TEN, ZERO, (false, 99), [45, 0, 0, 0], &[]),
    (ONE_TURN, ZERO, (false, 27), ZERO, &[]),
    (
        SUM_TO_TEN_THOUSAND,
        ZERO,
        (false, 80_022),
        [0xF8, 0xDC, 0xFA, 0x02],
        &[],
    ),
    (
        TEN_TIMES_TEN_THOUSAND,
        [5, 0, 0, 0],
        (false, 400_130),
        [5, 0, 0, 0],
        &[],
    ),
    (PICKS_A_WORD, [0xFF; 4], (false, 21), ZERO, &[]),
    (FIVE_UNLESS_ZERO, ZERO, (false, 15), ZERO, &[]),
    (
        FIVE_UNLESS_ZERO,
        [7, 0, 0, 0],
        (false, 17),
        [5, 0, 0, 0],
        &[],
    ),
    (STORES_BY_TWO_WAYS, ZERO, (false, 19), [2, 0, 0, 0], &[]),
    (
        STORES_BY_TWO_WAYS,
        [5, 0, 0, 0],
        (false, 20),
        [1, 0, 0, 0],
        &[],
    ),
    (MOVES_A_WORD, [1, 0, 0, 0], (false, 19), [42, 0, 0, 0], &[]),
    (
        TRACES_ITS_PACKET,
        [10, 0, 0, 0],
        (false, 19),
        [10, 0, 0, 0],
        &[10, 0, 0, 0],
    ),
];

/// Whether the run of a case answers and leaves what the case says.
pub(crate) fn is_so(rt: &impl Abort, alloc: Global, machine: &mut Machine, case: &Case) -> bool {
    let (image, packet, (error, steps), result, trace) = *case;
    let accepted = accepted(rt, alloc, image);
    let (answered, media) = run_packet(rt, alloc, machine, &accepted, &packet);
    let is_same = answered == Ok(Outcome { error, steps }) && media.source.bytes().is_empty();
    is_same && media.sink.bytes() == result.as_slice() && media.trace.bytes() == trace
}

/// The packets of one image follow one another on one machine: nothing may be left over between them.
#[test]
fn runs_whatever_the_machine_held(rt: HostRuntime) {
    let mut machine = all_bits_set();
    for (i, case) in CASES.iter().enumerate() {
        assert!(rt; is_so(&rt, rt.alloc(), &mut machine, case), "case {i}");
    }
}

/// The state in which the increment stops is left in the machine: Iptr behind stopp, Oreg 0, Wptr as it began (word 8
/// of the workspace at 80000048), and the flag of an addition that overflows.
#[test]
fn leaves_the_state_in_which_the_worker_stopped(rt: HostRuntime) {
    let accepted = accepted(&rt, rt.alloc(), INCREMENT);
    for (packet, error) in [([1, 0, 0, 0], false), (MOST, true)] {
        let mut machine = all_bits_set();
        let (answered, _media) = run_packet(&rt, rt.alloc(), &mut machine, &accepted, &packet);
        assert!(rt; answered == Ok(Outcome { error, steps: 16 }));
        let left = (machine.iptr, machine.oreg, machine.wptr, machine.error);
        assert!(rt; left == (16, 0, 0x8000_0068, error));
    }
}
