//! The limits of loops.

ghost use Rattle.std.specs.Prelude.{◌≡◌, OnOk, count_by};
ghost use Rattle.tpw_occam_symbolic.specs.Flowing.{is_around, AreFewAround};

use crate::code::Turns;
use crate::fault::CodeFault;
use tp_image::limits::MAX_LOOP_ROWS;

/// How many loops a loop may lie within.
const MAX_AROUND: usize = 3;

/// Whether a loop lies within another.
fn is_within(inner: Turns, outer: Turns) -> bool
    ensures { result ≡ is_around inner outer }
{
    outer.head <= inner.head && inner.lend < outer.lend
}

/// How many loops a loop lies within.
fn around(loops: &[Turns], inner: Turns) -> usize
    ensures { result ≡ count_by (is_around inner) loops.now }
{
    loops
        .iter()
        .filter(|outer| is_within(inner, **outer))
        .count()
}

/// Refuses more loops than an image has rows for, and loops that lie within four others. Rows go by the ends of loops.
pub(crate) fn check_loops(loops: &[Turns]) -> Result<(), CodeFault>
    ensures { OnOk result (AreFewAround loops.now) }
{
    for (number, turns) in loops.iter().enumerate() {
        if number >= MAX_LOOP_ROWS as usize {
            return Err(CodeFault::Loops { line: turns.source });
        }
        if around(loops, *turns) > MAX_AROUND {
            return Err(CodeFault::Depth { line: turns.source });
        }
    }
    Ok(())
}
