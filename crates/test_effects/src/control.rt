//! Runs of the instructions that lead control, of seterr and of stopp.
//!
//! Wptr is at word 8, so the five words below it are the words 3 to 7.
#![tactic(auto, unfolding(crate::proofs::Computing::by_steps))]

ghost use Rattle.test_effects.specs.Rows.{AreSo};

use crate::rows::Expected::{Ends, Leads, Shows, Sticks};
use crate::rows::Setting::{
    AfterPacket, AfterResult, Filled, Flagged, GivenWay, Holding, Iptr, Lacking, One, Stopped,
    Three, Two, WithoutAreg, Wptr,
};
use crate::rows::{Row, Worker, rows, worker};

/// j (`0n`): from behind it n bytes on. Registers and five words are undefined, which must lie in the workspace.
pub fn j() -> &'static [Row]
    ensures { AreSo result.now }
{
    const ROWS: &[Row] = rows! {
        on: [0x02], [Three(1, 2, 3)] => Leads(&[GivenWay, Iptr(3)]);
        back: [0x60, 0x0F], [] => Leads(&[GivenWay, Iptr(1)]);
        below_the_code: [0x60, 0x0D], [] => Leads(&[GivenWay, Iptr(-1)]);
        words: [0x02], [Three(1, 2, 3)]
            => Shows(1, 3, &[(2, Some(0)), (3, None), (4, None), (5, None), (6, None), (7, None), (8, Some(0))]);
        just_room: [0x00], [Wptr(0x8000005C)] => Leads(&[Wptr(0x8000005C), Lacking(0, 5)]);
        no_room: [0x00], [Wptr(0x80000058)] => Sticks;
        just_below: [0x00], [Wptr(0x80000088)] => Leads(&[Wptr(0x80000088), Lacking(11, 5)]);
        above: [0x00], [Wptr(0x8000008C), Filled] => Sticks;
    };
    ROWS
}

/// cj (`An`): at 0 it jumps and the stack stays, else Areg is popped.
pub fn cj() -> &'static [Row]
    ensures { AreSo result.now }
{
    const ROWS: &[Row] = rows! {
        zero: [0xA2], [Three(0, 5, 6)] => Leads(&[Three(0, 5, 6), Iptr(3)]);
        zero_back: [0x60, 0xAF], [Three(0, 5, 6)] => Leads(&[Three(0, 5, 6), Iptr(1)]);
        other: [0xA2], [Three(7, 5, 6)] => Leads(&[Two(5, 6)]);
        undefined: [0xA2], [WithoutAreg(5, 6)] => Sticks;
    };
    ROWS
}

/// lend (`22 F1`), behind ldlp 2 and ldc 4 (`12 44`): the block is words 10 and 11, and the loop's head is byte 0. The
/// block is written before the five words become undefined, so a block among these is lost. The distance is signed:
/// from byte 2, -4 leads to byte 6.
pub fn lend() -> &'static [Row]
    ensures { AreSo result.now }
{
    const ROWS: &[Row] = rows! {
        turns_left: [0x12, 0x44, 0x22, 0xF1], [Holding(10, &[5, 3])]
            => Leads(&[Holding(10, &[5, 3]), Holding(11, &[2]), Holding(10, &[6]), GivenWay, Iptr(0)]);
        last_turn: [0x12, 0x44, 0x22, 0xF1], [Holding(10, &[7, 1])]
            => Leads(&[Holding(10, &[7, 1]), Holding(11, &[0]), GivenWay, Lacking(10, 2), Iptr(4)]);
        words_left: [0x12, 0x44, 0x22, 0xF1], [Holding(10, &[5, 3])]
            => Shows(4, 0, &[(2, Some(0)), (3, None), (7, None), (8, Some(0)), (10, Some(6)), (11, Some(2))]);
        two_of_three_turns: [0x12, 0x44, 0x22, 0xF1], [Holding(10, &[5, 3])]
            => Shows(8, 0, &[(10, Some(7)), (11, Some(1))]);
        three_turns: [0x12, 0x44, 0x22, 0xF1], [Holding(10, &[5, 3])] => Shows(12, 4, &[(10, None), (11, None)]);
        count_zero: [0x12, 0x44, 0x22, 0xF1], [Holding(10, &[7, 0])] => Shows(4, 4, &[(10, None), (11, None)]);
        count_below_zero: [0x12, 0x44, 0x22, 0xF1], [Holding(10, &[7, 0xFFFFFFFF])]
            => Shows(4, 4, &[(10, None), (11, None)]);
        distance_below_zero: [0x22, 0xF1], [Two(0xFFFFFFFC, 0x80000070), Holding(10, &[5, 3])]
            => Shows(2, 6, &[(10, Some(6)), (11, Some(2))]);
        around: [0x12, 0x44, 0x22, 0xF1], [Holding(10, &[0x7FFFFFFF, 0x80000000])]
            => Shows(4, 0, &[(10, Some(0x80000000)), (11, Some(0x7FFFFFFF))]);
        below_wptr: [0x22, 0xF1], [Three(2, 0x80000060, 9), Holding(6, &[5, 3])] => Leads(&[GivenWay, Iptr(0)]);
        undefined_index: [0x22, 0xF1], [Two(4, 0x80000070), Lacking(10, 1)] => Sticks;
        undefined_count: [0x22, 0xF1], [Two(4, 0x80000070), Lacking(11, 1)] => Sticks;
        outside: [0x22, 0xF1], [Two(4, 0x80000084), Filled] => Sticks;
        misaligned: [0x22, 0xF1], [Two(4, 0x80000071)] => Sticks;
        undefined: [0x22, 0xF1], [One(4)] => Sticks;
    };
    ROWS
}

/// seterr (`21 F0`): the flag alone.
pub fn seterr() -> &'static [Row]
    ensures { AreSo result.now }
{
    const ROWS: &[Row] = rows! {
        clear: [0x21, 0xF0], [Three(1, 2, 3)] => Leads(&[Three(1, 2, 3), Flagged]);
        set: [0x21, 0xF0], [Three(1, 2, 3), Flagged] => Leads(&[Three(1, 2, 3), Flagged]);
        bare: [0x21, 0xF0], [] => Leads(&[Flagged]);
    };
    ROWS
}

/// stopp (`21 F5`): after the result alone; and then nothing comes.
pub fn stopp() -> &'static [Row]
    ensures { AreSo result.now }
{
    const ROWS: &[Row] = rows! {
        stops: [0x21, 0xF5], [Three(1, 2, 3), AfterResult] => Leads(&[Three(1, 2, 3), AfterResult, Stopped]);
        is_the_end: [0x21, 0xF5, 0x40], [AfterResult] => Ends(2);
        before_the_result: [0x21, 0xF5], [AfterPacket] => Sticks;
        before_the_packet: [0x21, 0xF5], [] => Sticks;
    };
    ROWS
}
