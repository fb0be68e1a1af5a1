//! Runs of the arithmetic instructions. "Above" and "below" are results that do not fit a word, on either side.
//!
//! `FFFFFFFF` is -1, `80000000` the least number, `7FFFFFFF` the greatest.
#![tactic(auto, unfolding(crate::proofs::Computing::by_steps))]

ghost use Rattle.test_effects.specs.Rows.{AreSo};

use crate::rows::Expected::{Leads, Sticks};
use crate::rows::Setting::{Flagged, One, Three, Two, WithoutAreg};
use crate::rows::{Row, Worker, rows, worker};

/// adc (`8n`), checked: the rest of the stack stays.
pub fn adc() -> &'static [Row]
    ensures { AreSo result.now }
{
    const ROWS: &[Row] = rows! {
        above: [0x81], [Three(0x7FFFFFFF, 5, 6)] => Leads(&[Three(0x80000000, 5, 6), Flagged]);
        below: [0x60, 0x8F], [Three(0x80000000, 5, 6)] => Leads(&[Three(0x7FFFFFFF, 5, 6), Flagged]);
        through_zero: [0x81], [Three(0xFFFFFFFF, 5, 6)] => Leads(&[Three(0, 5, 6)]);
        undefined: [0x81], [WithoutAreg(2, 3)] => Sticks;
    };
    ROWS
}

/// add (`F5`), checked: Breg takes Creg, and Creg is undefined, as after each operation on two registers.
pub fn add() -> &'static [Row]
    ensures { AreSo result.now }
{
    const ROWS: &[Row] = rows! {
        above: [0xF5], [Three(1, 0x7FFFFFFF, 9)] => Leads(&[Two(0x80000000, 9), Flagged]);
        below: [0xF5], [Three(0xFFFFFFFF, 0x80000000, 9)] => Leads(&[Two(0x7FFFFFFF, 9), Flagged]);
        inside: [0xF5], [Three(0xFFFFFFFF, 5, 9)] => Leads(&[Two(4, 9)]);
        stays_set: [0xF5], [Three(1, 2, 9), Flagged] => Leads(&[Two(3, 9), Flagged]);
        undefined: [0xF5], [One(1)] => Sticks;
    };
    ROWS
}

/// sub (`FC`), checked: Breg - Areg.
pub fn sub() -> &'static [Row]
    ensures { AreSo result.now }
{
    const ROWS: &[Row] = rows! {
        above: [0xFC], [Three(0xFFFFFFFF, 0x7FFFFFFF, 9)] => Leads(&[Two(0x80000000, 9), Flagged]);
        below: [0xFC], [Three(1, 0x80000000, 9)] => Leads(&[Two(0x7FFFFFFF, 9), Flagged]);
        inside: [0xFC], [Three(3, 10, 9)] => Leads(&[Two(7, 9)]);
        negative: [0xFC], [Three(10, 3, 9)] => Leads(&[Two(0xFFFFFFF9, 9)]);
    };
    ROWS
}

/// mul (`25 F3`), checked: 2^16 times 2^15 is one too many, 2^16 times -2^15 is the least number.
pub fn mul() -> &'static [Row]
    ensures { AreSo result.now }
{
    const ROWS: &[Row] = rows! {
        above: [0x25, 0xF3], [Three(0x10000, 0x8000, 9)] => Leads(&[Two(0x80000000, 9), Flagged]);
        least: [0x25, 0xF3], [Three(0x10000, 0xFFFF8000, 9)] => Leads(&[Two(0x80000000, 9)]);
        below: [0x25, 0xF3], [Three(0x10001, 0xFFFF8000, 9)] => Leads(&[Two(0x7FFF8000, 9), Flagged]);
        least_by_minus_one: [0x25, 0xF3], [Three(0xFFFFFFFF, 0x80000000, 9)] => Leads(&[Two(0x80000000, 9), Flagged]);
        least_squared: [0x25, 0xF3], [Three(0x80000000, 0x80000000, 9)] => Leads(&[Two(0, 9), Flagged]);
        negative: [0x25, 0xF3], [Three(7, 0xFFFFFFFA, 9)] => Leads(&[Two(0xFFFFFFD6, 9)]);
    };
    ROWS
}

/// sum (`25 F2`), wrapped.
pub fn sum() -> &'static [Row]
    ensures { AreSo result.now }
{
    const ROWS: &[Row] = rows! {
        around: [0x25, 0xF2], [Three(1, 0xFFFFFFFF, 9)] => Leads(&[Two(0, 9)]);
        above: [0x25, 0xF2], [Three(0x7FFFFFFF, 1, 9)] => Leads(&[Two(0x80000000, 9)]);
        below: [0x25, 0xF2], [Three(0x80000000, 0xFFFFFFFF, 9)] => Leads(&[Two(0x7FFFFFFF, 9)]);
    };
    ROWS
}

/// diff (`F4`), wrapped: Breg - Areg.
pub fn diff() -> &'static [Row]
    ensures { AreSo result.now }
{
    const ROWS: &[Row] = rows! {
        around: [0xF4], [Three(1, 0, 9)] => Leads(&[Two(0xFFFFFFFF, 9)]);
        below: [0xF4], [Three(1, 0x80000000, 9)] => Leads(&[Two(0x7FFFFFFF, 9)]);
        inside: [0xF4], [Three(3, 10, 9)] => Leads(&[Two(7, 9)]);
    };
    ROWS
}

/// prod (`F8`), wrapped: the square of 2^31 - 1 is 2^62 - 2^32 + 1.
pub fn prod() -> &'static [Row]
    ensures { AreSo result.now }
{
    const ROWS: &[Row] = rows! {
        around: [0xF8], [Three(0x10000, 0x10000, 9)] => Leads(&[Two(0, 9)]);
        least_by_minus_one: [0xF8], [Three(0xFFFFFFFF, 0x80000000, 9)] => Leads(&[Two(0x80000000, 9)]);
        greatest_squared: [0xF8], [Three(0x7FFFFFFF, 0x7FFFFFFF, 9)] => Leads(&[Two(1, 9)]);
        negative: [0xF8], [Three(7, 0xFFFFFFFA, 9)] => Leads(&[Two(0xFFFFFFD6, 9)]);
    };
    ROWS
}

/// div (`22 FC`): Breg by Areg toward zero. 7 by 2 is 3, whatever the signs, and -2147483648 by 3 is -715827882.
pub fn div() -> &'static [Row]
    ensures { AreSo result.now }
{
    const ROWS: &[Row] = rows! {
        by_zero: [0x22, 0xFC], [Three(0, 5, 9)] => Leads(&[Two(0, 9), Flagged]);
        least_by_minus_one: [0x22, 0xFC], [Three(0xFFFFFFFF, 0x80000000, 9)] => Leads(&[Two(0, 9), Flagged]);
        positive: [0x22, 0xFC], [Three(2, 7, 9)] => Leads(&[Two(3, 9)]);
        negative_dividend: [0x22, 0xFC], [Three(2, 0xFFFFFFF9, 9)] => Leads(&[Two(0xFFFFFFFD, 9)]);
        negative_divisor: [0x22, 0xFC], [Three(0xFFFFFFFE, 7, 9)] => Leads(&[Two(0xFFFFFFFD, 9)]);
        both_negative: [0x22, 0xFC], [Three(0xFFFFFFFE, 0xFFFFFFF9, 9)] => Leads(&[Two(3, 9)]);
        least: [0x22, 0xFC], [Three(3, 0x80000000, 9)] => Leads(&[Two(0xD5555556, 9)]);
        stays_set: [0x22, 0xFC], [Three(2, 7, 9), Flagged] => Leads(&[Two(3, 9), Flagged]);
    };
    ROWS
}

/// rem (`21 FF`): the remainder of Breg by Areg, which has the sign of Breg.
pub fn rem() -> &'static [Row]
    ensures { AreSo result.now }
{
    const ROWS: &[Row] = rows! {
        by_zero: [0x21, 0xFF], [Three(0, 5, 9)] => Leads(&[Two(0, 9), Flagged]);
        least_by_minus_one: [0x21, 0xFF], [Three(0xFFFFFFFF, 0x80000000, 9)] => Leads(&[Two(0, 9), Flagged]);
        positive: [0x21, 0xFF], [Three(2, 7, 9)] => Leads(&[Two(1, 9)]);
        negative_dividend: [0x21, 0xFF], [Three(2, 0xFFFFFFF9, 9)] => Leads(&[Two(0xFFFFFFFF, 9)]);
        negative_divisor: [0x21, 0xFF], [Three(0xFFFFFFFE, 7, 9)] => Leads(&[Two(1, 9)]);
        both_negative: [0x21, 0xFF], [Three(0xFFFFFFFE, 0xFFFFFFF9, 9)] => Leads(&[Two(0xFFFFFFFF, 9)]);
        stays_set: [0x21, 0xFF], [Three(2, 7, 9), Flagged] => Leads(&[Two(1, 9), Flagged]);
    };
    ROWS
}
