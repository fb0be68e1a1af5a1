//! Runs of the instructions that load constants, load and store words, and move pointers.
//!
//! Wptr is `80000068`, at word 8, so the locals from -8 to 7 are the sixteen words from `80000048` to `80000084`.
#![tactic(auto, unfolding(crate::proofs::Computing::by_steps))]

ghost use Rattle.test_effects.specs.Rows.{AreSo};

use crate::rows::Expected::{Leads, Sticks};
use crate::rows::Setting::{
    Filled, Holding, Lacking, LackingByte, One, Three, Two, WithoutAreg, Wptr,
};
use crate::rows::{Row, Worker, rows, worker};

/// ldc (`4n`): what is on the stack goes down by one place.
pub fn ldc() -> &'static [Row]
    ensures { AreSo result.now }
{
    const ROWS: &[Row] = rows! {
        push: [0x4F], [Three(1, 2, 3)] => Leads(&[Three(15, 1, 2)]);
        minus_one: [0x60, 0x4F], [] => Leads(&[One(0xFFFFFFFF)]);
        greatest: [0x27, 0x2F, 0x2F, 0x2F, 0x2F, 0x2F, 0x2F, 0x4F], [] => Leads(&[One(0x7FFFFFFF)]);
        least: [0x27, 0x2F, 0x2F, 0x2F, 0x2F, 0x2F, 0x6F, 0x40], [] => Leads(&[One(0x80000000)]);
    };
    ROWS
}

/// mint (`24 F2`).
pub fn mint() -> &'static [Row]
    ensures { AreSo result.now }
{
    const ROWS: &[Row] = rows! {
        push: [0x24, 0xF2], [Three(1, 2, 3)] => Leads(&[Three(0x80000000, 1, 2)]);
        bare: [0x24, 0xF2], [] => Leads(&[One(0x80000000)]);
        twice: [0x24, 0xF2, 0x24, 0xF2], [] => Leads(&[Two(0x80000000, 0x80000000)]);
    };
    ROWS
}

/// ldlp (`1n`): an address is computed, in the workspace or not; by 2^30 words it comes round to itself.
pub fn ldlp() -> &'static [Row]
    ensures { AreSo result.now }
{
    const ROWS: &[Row] = rows! {
        above: [0x11], [Three(1, 2, 3)] => Leads(&[Three(0x8000006C, 1, 2)]);
        below: [0x60, 0x1F], [] => Leads(&[One(0x80000064)]);
        outside: [0x1F], [] => Leads(&[One(0x800000A4)]);
        around: [0x24, 0x20, 0x20, 0x20, 0x20, 0x20, 0x20, 0x11], [] => Leads(&[One(0x8000006C)]);
    };
    ROWS
}

/// ldl (`7n`): the local's word is pushed; there is none at local 8 nor -9, nor where a byte is undefined. Local 2^30 +
/// 1 is local 1.
pub fn ldl() -> &'static [Row]
    ensures { AreSo result.now }
{
    const ROWS: &[Row] = rows! {
        first: [0x70], [Three(1, 2, 3), Holding(8, &[0x44332211])]
            => Leads(&[Three(0x44332211, 1, 2), Holding(8, &[0x44332211])]);
        highest: [0x77], [Holding(15, &[5])] => Leads(&[One(5), Holding(15, &[5])]);
        lowest: [0x60, 0x78], [Holding(0, &[5])] => Leads(&[One(5), Holding(0, &[5])]);
        above: [0x78], [Filled] => Sticks;
        below: [0x60, 0x77], [Filled] => Sticks;
        undefined: [0x70], [Lacking(8, 1)] => Sticks;
        undefined_top_byte: [0x70], [LackingByte(0x8000006B)] => Sticks;
        around: [0x24, 0x20, 0x20, 0x20, 0x20, 0x20, 0x20, 0x71], [Holding(9, &[5])]
            => Leads(&[One(5), Holding(9, &[5])]);
    };
    ROWS
}

/// stl (`Dn`): the local takes Areg, which is popped.
pub fn stl() -> &'static [Row]
    ensures { AreSo result.now }
{
    const ROWS: &[Row] = rows! {
        first: [0xD0], [Three(7, 8, 9)] => Leads(&[Two(8, 9), Holding(8, &[7])]);
        highest: [0xD7], [Three(7, 8, 9)] => Leads(&[Two(8, 9), Holding(15, &[7])]);
        loads_back: [0xD1, 0x71], [One(0x12345678)] => Leads(&[One(0x12345678), Holding(9, &[0x12345678])]);
        above: [0xD8], [One(7)] => Sticks;
        undefined: [0xD0], [WithoutAreg(8, 9)] => Sticks;
    };
    ROWS
}

/// ldnl (`3n`): Areg takes the word n words on; the rest of the stack stays.
pub fn ldnl() -> &'static [Row]
    ensures { AreSo result.now }
{
    const ROWS: &[Row] = rows! {
        on: [0x32], [Three(0x80000068, 6, 7), Holding(10, &[5])] => Leads(&[Three(5, 6, 7), Holding(10, &[5])]);
        back: [0x60, 0x3F], [Three(0x80000068, 6, 7), Holding(7, &[5])] => Leads(&[Three(5, 6, 7), Holding(7, &[5])]);
        misaligned: [0x30], [Three(0x80000069, 6, 7)] => Sticks;
        outside: [0x38], [Three(0x80000068, 6, 7), Filled] => Sticks;
        undefined: [0x32], [One(0x80000068), Lacking(10, 1)] => Sticks;
    };
    ROWS
}

/// stnl (`En`): the word n words on from Areg takes Breg; Areg takes Creg, and that is all that is left.
pub fn stnl() -> &'static [Row]
    ensures { AreSo result.now }
{
    const ROWS: &[Row] = rows! {
        on: [0xE1], [Three(0x80000068, 5, 6)] => Leads(&[One(6), Holding(9, &[5])]);
        defines: [0xE1], [Three(0x80000068, 5, 6), Lacking(9, 1)]
            => Leads(&[One(6), Lacking(9, 1), Holding(9, &[5])]);
        misaligned: [0xE1], [Three(0x8000006A, 5, 6)] => Sticks;
        outside: [0xE0], [Three(0x80000088, 5, 6)] => Sticks;
        undefined: [0xE0], [One(0x80000068)] => Sticks;
    };
    ROWS
}

/// ldnlp (`5n`): an address is computed, wrapped; the rest of the stack stays.
pub fn ldnlp() -> &'static [Row]
    ensures { AreSo result.now }
{
    const ROWS: &[Row] = rows! {
        on: [0x53], [Three(0x80000068, 6, 7)] => Leads(&[Three(0x80000074, 6, 7)]);
        around: [0x51], [Three(0xFFFFFFFC, 6, 7)] => Leads(&[Three(0, 6, 7)]);
        back: [0x60, 0x5F], [Three(0, 6, 7)] => Leads(&[Three(0xFFFFFFFC, 6, 7)]);
        undefined: [0x53], [WithoutAreg(6, 7)] => Sticks;
    };
    ROWS
}

/// ajw (`Bn`): Wptr moves, in the workspace or not; the locals move with it.
pub fn ajw() -> &'static [Row]
    ensures { AreSo result.now }
{
    const ROWS: &[Row] = rows! {
        on: [0xB1], [Three(1, 2, 3)] => Leads(&[Three(1, 2, 3), Wptr(0x8000006C)]);
        back: [0x60, 0xBF], [] => Leads(&[Wptr(0x80000064)]);
        outside: [0xBF], [] => Leads(&[Wptr(0x800000A4)]);
        locals_move: [0xB1, 0x71], [Holding(10, &[5])] => Leads(&[One(5), Holding(10, &[5]), Wptr(0x8000006C)]);
        no_local: [0xBF, 0x70], [Filled] => Sticks;
    };
    ROWS
}

/// rev (`F0`).
pub fn rev() -> &'static [Row]
    ensures { AreSo result.now }
{
    const ROWS: &[Row] = rows! {
        swap: [0xF0], [Three(1, 2, 3)] => Leads(&[Three(2, 1, 3)]);
        swap_two: [0xF0], [Two(1, 2)] => Leads(&[Two(2, 1)]);
        undefined: [0xF0], [One(1)] => Sticks;
        undefined_areg: [0xF0], [WithoutAreg(2, 3)] => Sticks;
    };
    ROWS
}
