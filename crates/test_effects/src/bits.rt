//! Runs of the operations on bits, and of the shifts.
#![tactic(auto, unfolding(crate::proofs::Computing::by_steps))]

ghost use Rattle.test_effects.specs.Rows.{AreSo};

use crate::rows::Expected::{Leads, Sticks};
use crate::rows::Setting::{One, Three, Two, WithoutAreg};
use crate::rows::{Row, Worker, rows, worker};

/// and (`24 F6`).
pub fn bit_and() -> &'static [Row]
    ensures { AreSo result.now }
{
    const ROWS: &[Row] = rows! {
        low_half: [0x24, 0xF6], [Three(0x0000FFFF, 0x12345678, 9)] => Leads(&[Two(0x5678, 9)]);
        none_in_common: [0x24, 0xF6], [Three(0x55555555, 0xAAAAAAAA, 9)] => Leads(&[Two(0, 9)]);
        top: [0x24, 0xF6], [Three(0xFFFFFFFF, 0x80000000, 9)] => Leads(&[Two(0x80000000, 9)]);
    };
    ROWS
}

/// or (`24 FB`).
pub fn bit_or() -> &'static [Row]
    ensures { AreSo result.now }
{
    const ROWS: &[Row] = rows! {
        all: [0x24, 0xFB], [Three(0x55555555, 0xAAAAAAAA, 9)] => Leads(&[Two(0xFFFFFFFF, 9)]);
        common: [0x24, 0xFB], [Three(0x0C, 0x0A, 9)] => Leads(&[Two(0x0E, 9)]);
        nothing: [0x24, 0xFB], [Three(0, 0x80000000, 9)] => Leads(&[Two(0x80000000, 9)]);
    };
    ROWS
}

/// xor (`23 F3`).
pub fn bit_xor() -> &'static [Row]
    ensures { AreSo result.now }
{
    const ROWS: &[Row] = rows! {
        common: [0x23, 0xF3], [Three(0x0C, 0x0A, 9)] => Leads(&[Two(0x06, 9)]);
        itself: [0x23, 0xF3], [Three(0x12345678, 0x12345678, 9)] => Leads(&[Two(0, 9)]);
        turned: [0x23, 0xF3], [Three(0xFFFFFFFF, 0x12345678, 9)] => Leads(&[Two(0xEDCBA987, 9)]);
    };
    ROWS
}

/// not (`23 F2`): the rest of the stack stays.
pub fn bit_not() -> &'static [Row]
    ensures { AreSo result.now }
{
    const ROWS: &[Row] = rows! {
        zero: [0x23, 0xF2], [Three(0, 6, 7)] => Leads(&[Three(0xFFFFFFFF, 6, 7)]);
        ones: [0x23, 0xF2], [Three(0xFFFFFFFF, 6, 7)] => Leads(&[Three(0, 6, 7)]);
        mixed: [0x23, 0xF2], [Three(0x12345678, 6, 7)] => Leads(&[Three(0xEDCBA987, 6, 7)]);
        undefined: [0x23, 0xF2], [WithoutAreg(6, 7)] => Sticks;
    };
    ROWS
}

/// shl (`24 F1`): Breg by Areg places.
pub fn shl() -> &'static [Row]
    ensures { AreSo result.now }
{
    const ROWS: &[Row] = rows! {
        by_0: [0x24, 0xF1], [Three(0, 0x80000001, 9)] => Leads(&[Two(0x80000001, 9)]);
        by_4: [0x24, 0xF1], [Three(4, 0x12345678, 9)] => Leads(&[Two(0x23456780, 9)]);
        by_31: [0x24, 0xF1], [Three(31, 3, 9)] => Leads(&[Two(0x80000000, 9)]);
        by_32: [0x24, 0xF1], [Three(32, 1, 9)] => Sticks;
        undefined: [0x24, 0xF1], [One(1)] => Sticks;
    };
    ROWS
}

/// shr (`24 F0`): Breg by Areg places, zeros from above.
pub fn shr() -> &'static [Row]
    ensures { AreSo result.now }
{
    const ROWS: &[Row] = rows! {
        by_0: [0x24, 0xF0], [Three(0, 0x80000001, 9)] => Leads(&[Two(0x80000001, 9)]);
        by_4: [0x24, 0xF0], [Three(4, 0x80000000, 9)] => Leads(&[Two(0x08000000, 9)]);
        by_31: [0x24, 0xF0], [Three(31, 0x80000001, 9)] => Leads(&[Two(1, 9)]);
        by_32: [0x24, 0xF0], [Three(32, 1, 9)] => Sticks;
        by_minus_one: [0x24, 0xF0], [Three(0xFFFFFFFF, 1, 9)] => Sticks;
    };
    ROWS
}
