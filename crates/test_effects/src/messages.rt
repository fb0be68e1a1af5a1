//! Runs of the message instructions. The worker's packet and its result have four bytes each, where nothing else is
//! said.
#![tactic(auto, unfolding(crate::proofs::Computing::by_steps))]

ghost use Rattle.test_effects.specs.Rows.{AreSo};

use crate::rows::Expected::{LacksPacket, Leads, Shows, Sticks};
use crate::rows::Setting::{
    AfterPacket, AfterResult, Coming, Filled, GivenWay, Holding, Lacking, Sent, Three, Traced, Two,
};
use crate::rows::{Row, Worker, rows, worker};

/// in (`F7`): the packet, which is written before the five words below Wptr become undefined.
pub fn input() -> &'static [Row]
    ensures { AreSo result.now }
{
    const ROWS: &[Row] = rows! {
        packet: [0xF7], [Three(4, 0x80000010, 0x80000068), Coming(&[1, 2, 3, 4, 5])]
            => Leads(&[Holding(8, &[0x04030201]), GivenWay, Coming(&[5]), AfterPacket]);
        unaligned: [0xF7], [Three(4, 0x80000010, 0x80000069), Coming(&[1, 2, 3, 4])]
            => Shows(1, 1, &[(8, Some(0x03020100)), (9, Some(0x04))]);
        below_wptr: [0xF7], [Three(4, 0x80000010, 0x80000064), Coming(&[1, 2, 3, 4])]
            => Leads(&[GivenWay, Coming(&[]), AfterPacket]);
        channel: [0xF7], [Three(4, 0x80000014, 0x80000068), Coming(&[1, 2, 3, 4])] => Sticks;
        length: [0xF7], [Three(8, 0x80000010, 0x80000068), Coming(&[1, 2, 3, 4, 5, 6, 7, 8])] => Sticks;
        phase: [0xF7], [Three(4, 0x80000010, 0x80000068), Coming(&[1, 2, 3, 4]), AfterPacket] => Sticks;
        after_the_result: [0xF7], [Three(4, 0x80000010, 0x80000068), Coming(&[1, 2, 3, 4]), AfterResult] => Sticks;
        two_words in TwoWordPacket: [0xF7], [Three(8, 0x80000010, 0x80000068), Coming(&[1, 0, 0, 0, 2, 0, 0, 0])]
            => Leads(&[Holding(8, &[1, 2]), GivenWay, Coming(&[]), AfterPacket]);
        one_of_two_words in TwoWordPacket: [0xF7],
            [Three(4, 0x80000010, 0x80000068), Coming(&[1, 0, 0, 0, 2, 0, 0, 0])]
            => Sticks;
        missing: [0xF7], [Three(4, 0x80000010, 0x80000068), Coming(&[1, 2, 3])] => LacksPacket;
        outside: [0xF7], [Three(4, 0x80000010, 0x80000085), Coming(&[1, 2, 3, 4])] => Sticks;
        undefined: [0xF7], [Two(4, 0x80000010), Coming(&[1, 2, 3, 4])] => Sticks;
    };
    ROWS
}

/// out (`FB`) on link 0: the result, which is read after the five words below Wptr have become undefined.
pub fn output_result() -> &'static [Row]
    ensures { AreSo result.now }
{
    const ROWS: &[Row] = rows! {
        result: [0xFB], [Three(4, 0x80000000, 0x80000068), Holding(8, &[0x04030201]), AfterPacket]
            => Leads(&[Holding(8, &[0x04030201]), GivenWay, AfterResult, Sent(&[1, 2, 3, 4])]);
        unaligned: [0xFB], [Three(4, 0x80000000, 0x80000069), Holding(8, &[0x04030201]), AfterPacket]
            => Leads(&[Holding(8, &[0x04030201]), GivenWay, AfterResult, Sent(&[2, 3, 4, 0])]);
        below_wptr: [0xFB], [Three(4, 0x80000000, 0x80000064), AfterPacket] => Sticks;
        undefined_byte: [0xFB], [Three(4, 0x80000000, 0x80000068), Lacking(8, 1), AfterPacket] => Sticks;
        channel: [0xFB], [Three(4, 0x80000008, 0x80000068), AfterPacket] => Sticks;
        length: [0xFB], [Three(8, 0x80000000, 0x80000068), AfterPacket] => Sticks;
        two_words in TwoWordResult: [0xFB], [Three(8, 0x80000000, 0x80000068), Holding(8, &[1, 2]), AfterPacket]
            => Leads(&[Holding(8, &[1, 2]), GivenWay, AfterResult, Sent(&[1, 0, 0, 0, 2, 0, 0, 0])]);
        one_of_two_words in TwoWordResult: [0xFB], [Three(4, 0x80000000, 0x80000068), AfterPacket] => Sticks;
        before_the_packet: [0xFB], [Three(4, 0x80000000, 0x80000068)] => Sticks;
        twice: [0xFB], [Three(4, 0x80000000, 0x80000068), AfterResult] => Sticks;
        outside: [0xFB], [Three(4, 0x80000000, 0x80000085), Filled, AfterPacket] => Sticks;
    };
    ROWS
}

/// out (`FB`) on link 1: trace messages, in any phase, one behind the other.
pub fn output_trace() -> &'static [Row]
    ensures { AreSo result.now }
{
    const ROWS: &[Row] = rows! {
        before_the_packet: [0xFB], [Three(8, 0x80000004, 0x80000068), Holding(8, &[0x04030201])]
            => Leads(&[Holding(8, &[0x04030201]), GivenWay, Traced(&[1, 2, 3, 4, 0, 0, 0, 0])]);
        after_the_result: [0xFB], [Three(4, 0x80000004, 0x80000068), AfterResult]
            => Leads(&[GivenWay, AfterResult, Traced(&[0, 0, 0, 0])]);
        second: [0xFB], [Three(4, 0x80000004, 0x80000068), Traced(&[9])]
            => Leads(&[GivenWay, Traced(&[9, 0, 0, 0, 0])]);
        longest in Roomy: [0xFB], [Three(256, 0x80000004, 0x80000068), Holding(8, &[0; 72])]
            => Leads(&[Holding(8, &[0; 72]), GivenWay, Traced(&[0; 256])]);
        too_long in Roomy: [0xFB], [Three(260, 0x80000004, 0x80000068), Holding(8, &[0; 72])] => Sticks;
        nothing: [0xFB], [Three(0, 0x80000004, 0x80000068)] => Sticks;
        odd: [0xFB], [Three(6, 0x80000004, 0x80000068)] => Sticks;
    };
    ROWS
}
