//! Runs of prefixes, and of bytes that spell no instruction.
#![tactic(auto, unfolding(crate::proofs::Computing::by_steps))]

ghost use Rattle.std.specs.Prelude.{[]};
ghost use Rattle.tp_step.specs.Steps.{IsStuck};
ghost use Rattle.test_effects.specs.Rows.{AreSo};
ghost use Rattle.test_effects.specs.Trials.{trial, bare};

use crate::rows::Expected::{Leads, Sticks, SticksAtOnce};
use crate::rows::Setting::{Iptr, One, Oreg, Three};
use crate::rows::{Row, Worker, rows, worker};

/// pfix (`2n`) and nfix (`6n`) change Oreg and Iptr alone; the function behind them leaves Oreg 0.
pub fn prefixes() -> &'static [Row]
    ensures { AreSo result.now }
{
    const ROWS: &[Row] = rows! {
        pfix: [0x2F], [Three(1, 2, 3)] => Leads(&[Three(1, 2, 3), Oreg(0xF0)]);
        nfix: [0x60], [Three(1, 2, 3)] => Leads(&[Three(1, 2, 3), Oreg(0xFFFFFFF0)]);
        both: [0x21, 0x62], [] => Leads(&[Oreg(0xFFFFFED0)]);
        operand: [0x21, 0x62, 0x45], [] => Leads(&[One(0xFFFFFED5)]);
        shifted_out: [0x21, 0x20, 0x20, 0x20, 0x20, 0x20, 0x20, 0x20], [] => Leads(&[]);
        longer_than_needed: [0x20, 0x41], [] => Leads(&[One(1)]);
    };
    ROWS
}

/// Codes that are in no row of the table: call (`9n`), and operations such as endp (`F3`), ret (`22 F0`), dup (`25 FA`)
/// and those of negative codes.
pub fn no_instruction() -> &'static [Row]
    ensures { AreSo result.now }
{
    const ROWS: &[Row] = rows! {
        call: [0x90], [Three(1, 2, 3)] => Sticks;
        endp: [0xF3], [Three(1, 2, 3)] => Sticks;
        ret: [0x22, 0xF0], [Three(1, 2, 3)] => Sticks;
        dup: [0x25, 0xFA], [Three(1, 2, 3)] => Sticks;
        negative: [0x60, 0xF5], [Three(1, 2, 3)] => Sticks;
    };
    ROWS
}

/// Iptr is outside the code: behind it, below it, and at the end of prefixes.
pub fn no_byte() -> &'static [Row]
    ensures { AreSo result.now }
{
    const ROWS: &[Row] = rows! {
        behind: [0x40], [Iptr(1)] => SticksAtOnce(1);
        below: [0x40], [Iptr(-1)] => SticksAtOnce(0xFFFFFFFF);
        prefix_at_the_end: [0x20], [Iptr(1), Oreg(0)] => SticksAtOnce(1);
    };
    ROWS
}

/// There is no byte in a code that has none. No image has such a code.
pub fn no_code()
    ensures { IsStuck (trial []) bare }
{}
