//! Laws of edges and effects: each function's contract is the law.

ghost use Rattle.std.specs.Prelude.{◌≡◌, ℕ, pos, false, Some};
ghost use Rattle.tp_decode.specs.declared.instr.Instr.{Instr};
ghost use Rattle.tp_image.specs.Image.{ImageValue};
ghost use Rattle.tp_flow.specs.NestRanges.{ranges};
ghost use Rattle.tp_flow.specs.AroundKept.{KeepsAround};
ghost use Rattle.tp_step.specs.State.{State};
ghost use Rattle.tp_step.specs.Effects.{effect};
ghost use Rattle.tp_state.specs.EdgesTaken.{KnowsItsHead, IsAlongAnEdge};

pub mod fits;
pub mod going;
pub mod live;
pub mod order;

/// Control goes along edges. Where no rule of flow is broken at an instruction, and Iptr is behind it, its effect
/// leads to the target of one of its edges or stops; a lend's, where Areg is the distance back to the head of its loop.
pub fn control_goes_along_edges()
    ensures { (image : ImageValue) (at next : ℕ) (instr : Instr) (s t : State) →
        KeepsAround image.loops image.workspace at next instr → s.iptr ≡ pos next →
        KnowsItsHead (ranges image.loops) at next instr s →
        effect image instr s ≡ Some t → t.stopped ≡ false →
        IsAlongAnEdge (ranges image.loops) at next instr t }
{}
