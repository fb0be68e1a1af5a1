//! Runs of the instructions on bytes and on addresses.
//!
//! The word at `80000068` is `44332211`: in memory `11 22 33 44`, least byte first.
#![tactic(auto, unfolding(crate::proofs::Computing::by_steps))]

ghost use Rattle.test_effects.specs.Rows.{AreSo};

use crate::rows::Expected::{Leads, Shows, Sticks};
use crate::rows::Setting::{Filled, Holding, Lacking, LackingByte, One, Three, Two, WithoutAreg};
use crate::rows::{Row, Worker, rows, worker};

/// lb (`F1`): each byte of a word, the last of the workspace, and what is no byte of it.
pub fn lb() -> &'static [Row]
    ensures { AreSo result.now }
{
    const ROWS: &[Row] = rows! {
        byte_0: [0xF1], [Three(0x80000068, 6, 7), Holding(8, &[0x44332211])]
            => Leads(&[Three(0x11, 6, 7), Holding(8, &[0x44332211])]);
        byte_1: [0xF1], [Three(0x80000069, 6, 7), Holding(8, &[0x44332211])]
            => Leads(&[Three(0x22, 6, 7), Holding(8, &[0x44332211])]);
        byte_2: [0xF1], [Three(0x8000006A, 6, 7), Holding(8, &[0x44332211])]
            => Leads(&[Three(0x33, 6, 7), Holding(8, &[0x44332211])]);
        byte_3: [0xF1], [Three(0x8000006B, 6, 7), Holding(8, &[0x44332211])]
            => Leads(&[Three(0x44, 6, 7), Holding(8, &[0x44332211])]);
        extended: [0xF1], [One(0x80000087), Holding(15, &[0xFF000000])]
            => Leads(&[One(0xFF), Holding(15, &[0xFF000000])]);
        above: [0xF1], [One(0x80000088), Filled] => Sticks;
        below: [0xF1], [One(0x80000047), Filled] => Sticks;
        undefined_byte: [0xF1], [One(0x8000006B), Lacking(8, 1)] => Sticks;
        undefined: [0xF1], [WithoutAreg(6, 7)] => Sticks;
    };
    ROWS
}

/// sb (`23 FB`): the low byte of Breg goes to each byte of a word; Areg takes Creg, and that is all that is left.
pub fn sb() -> &'static [Row]
    ensures { AreSo result.now }
{
    const ROWS: &[Row] = rows! {
        byte_0: [0x23, 0xFB], [Three(0x80000068, 0x1234AB, 9), Holding(8, &[0x44332211])]
            => Leads(&[One(9), Holding(8, &[0x443322AB])]);
        byte_1: [0x23, 0xFB], [Three(0x80000069, 0x1234AB, 9), Holding(8, &[0x44332211])]
            => Leads(&[One(9), Holding(8, &[0x4433AB11])]);
        byte_2: [0x23, 0xFB], [Three(0x8000006A, 0x1234AB, 9), Holding(8, &[0x44332211])]
            => Leads(&[One(9), Holding(8, &[0x44AB2211])]);
        byte_3: [0x23, 0xFB], [Three(0x8000006B, 0x1234AB, 9), Holding(8, &[0x44332211])]
            => Leads(&[One(9), Holding(8, &[0xAB332211])]);
        above: [0x23, 0xFB], [Three(0x80000088, 1, 9)] => Sticks;
        below: [0x23, 0xFB], [Three(0x80000047, 1, 9)] => Sticks;
        undefined: [0x23, 0xFB], [One(0x80000068)] => Sticks;
    };
    ROWS
}

/// sb (`23 FB`) where bytes of the word are undefined: the one that it writes is defined after it, and no other.
pub fn sb_undefined() -> &'static [Row]
    ensures { AreSo result.now }
{
    const ROWS: &[Row] = rows! {
        last_byte: [0x23, 0xFB], [Three(0x80000068, 0x1234AB, 9), Holding(8, &[0x44332211]), LackingByte(0x80000068)]
            => Shows(2, 2, &[(8, Some(0x443322AB))]);
        other_byte: [0x23, 0xFB], [Three(0x80000068, 0x1234AB, 9), Holding(8, &[0x44332211]), LackingByte(0x80000069)]
            => Shows(2, 2, &[(8, None)]);
        whole_word: [0x23, 0xFB], [Three(0x80000068, 0x1234AB, 9), Lacking(8, 1)] => Shows(2, 2, &[(8, None)]);
    };
    ROWS
}

/// bsub (`F2`): the address Breg bytes on from Areg, wrapped.
pub fn bsub() -> &'static [Row]
    ensures { AreSo result.now }
{
    const ROWS: &[Row] = rows! {
        on: [0xF2], [Three(0x80000068, 3, 9)] => Leads(&[Two(0x8000006B, 9)]);
        back: [0xF2], [Three(0x80000068, 0xFFFFFFFF, 9)] => Leads(&[Two(0x80000067, 9)]);
        around: [0xF2], [Three(0xFFFFFFFF, 2, 9)] => Leads(&[Two(1, 9)]);
        undefined: [0xF2], [One(0x80000068)] => Sticks;
    };
    ROWS
}

/// wsub (`FA`): the address Breg words on from Areg, wrapped.
pub fn wsub() -> &'static [Row]
    ensures { AreSo result.now }
{
    const ROWS: &[Row] = rows! {
        on: [0xFA], [Three(0x80000068, 3, 9)] => Leads(&[Two(0x80000074, 9)]);
        back: [0xFA], [Three(0x80000068, 0xFFFFFFFF, 9)] => Leads(&[Two(0x80000064, 9)]);
        around: [0xFA], [Three(0x80000000, 0x40000000, 9)] => Leads(&[Two(0x80000000, 9)]);
        undefined: [0xFA], [One(0x80000068)] => Sticks;
    };
    ROWS
}
