//! Runs of the comparisons.
#![tactic(auto, unfolding(crate::proofs::Computing::by_steps))]

ghost use Rattle.test_effects.specs.Rows.{AreSo};

use crate::rows::Expected::{Leads, Sticks};
use crate::rows::Setting::{Flagged, One, Three, Two, WithoutAreg};
use crate::rows::{Row, Worker, rows, worker};

/// gt (`F9`): whether Breg is above Areg, both signed.
pub fn gt() -> &'static [Row]
    ensures { AreSo result.now }
{
    const ROWS: &[Row] = rows! {
        above: [0xF9], [Three(1, 2, 9)] => Leads(&[Two(1, 9)]);
        equal: [0xF9], [Three(2, 2, 9)] => Leads(&[Two(0, 9)]);
        zero_above_minus_one: [0xF9], [Three(0xFFFFFFFF, 0, 9)] => Leads(&[Two(1, 9)]);
        least_above_none: [0xF9], [Three(0x7FFFFFFF, 0x80000000, 9)] => Leads(&[Two(0, 9)]);
        greatest_above_least: [0xF9], [Three(0x80000000, 0x7FFFFFFF, 9)] => Leads(&[Two(1, 9)]);
        undefined: [0xF9], [One(1)] => Sticks;
    };
    ROWS
}

/// eqc (`Cn`): the rest of the stack stays.
pub fn eqc() -> &'static [Row]
    ensures { AreSo result.now }
{
    const ROWS: &[Row] = rows! {
        equal: [0xC5], [Three(5, 6, 7)] => Leads(&[Three(1, 6, 7)]);
        other: [0xC5], [Three(6, 6, 7)] => Leads(&[Three(0, 6, 7)]);
        negative: [0x60, 0xCF], [Three(0xFFFFFFFF, 6, 7)] => Leads(&[Three(1, 6, 7)]);
        undefined: [0xC5], [WithoutAreg(6, 7)] => Sticks;
    };
    ROWS
}

/// csub0 (`21 F3`): the index is in Breg, and its bound in Areg, which is popped. Both are unsigned.
pub fn csub0() -> &'static [Row]
    ensures { AreSo result.now }
{
    const ROWS: &[Row] = rows! {
        below: [0x21, 0xF3], [Three(5, 4, 9)] => Leads(&[Two(4, 9)]);
        equal: [0x21, 0xF3], [Three(5, 5, 9)] => Leads(&[Two(5, 9), Flagged]);
        above: [0x21, 0xF3], [Three(5, 0xFFFFFFFF, 9)] => Leads(&[Two(0xFFFFFFFF, 9), Flagged]);
        unsigned: [0x21, 0xF3], [Three(0xFFFFFFFF, 5, 9)] => Leads(&[Two(5, 9)]);
        stays_set: [0x21, 0xF3], [Three(5, 4, 9), Flagged] => Leads(&[Two(4, 9), Flagged]);
        undefined: [0x21, 0xF3], [One(5)] => Sticks;
    };
    ROWS
}
