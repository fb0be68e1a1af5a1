//! The transfer function, as a value.

ghost use Rattle.std.specs.Prelude.{◌≡◌, Ok, IfOk, IfErr};
ghost use Rattle.tp_flow.specs.NestRanges.{ranges};
ghost use Rattle.tp_state.specs.Conditions.{IsPlaced, HasGoodLoops};
ghost use Rattle.tp_state.specs.After.{after};
ghost use Rattle.tp_state.specs.StateCodes.{IsFaultAt};

use crate::fault::StateFault;
use crate::state::State;
use std::alloc::Global;
use tp_decode::Instr;
use tp_flow::{Edge, Nest};
use tp_image::Image;

/// The transfer function: what is known after the instruction at an address, on an edge that it has, where the next
/// instruction is behind it; stopp, which has no edge, is asked with Next and returns the state. Fails at the
/// instruction's address. [`State::transfer`] is the same in place.
pub fn after(
    alloc: Global,
    state: &State,
    at: usize,
    next: usize,
    instr: Instr,
    edge: Edge,
    image: &Image,
    nest: &Nest,
) -> Result<State, StateFault>
    requires placed { IsPlaced image.now state.now }
    requires good { HasGoodLoops image.now }
    requires nest { nest.now ≡ ranges image.now.loops }
    ensures ok { IfOk result (λ t. after image.now at next instr edge state.now ≡ Ok t) }
    ensures placed { IfOk result (IsPlaced image.now) }
    ensures refused { IfErr result (IsFaultAt at (after image.now at next instr edge state.now)) }
{
    let mut state = state.copy_of(alloc)?;
    match state.transfer(at, next, instr, edge, image, nest) {
        Ok(()) => Ok(state),
        Err(code) => Err(StateFault::Refused { code, place: at }),
    }
}
