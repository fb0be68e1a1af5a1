//! The law that accepted code goes on: no state that fits is stuck, and what follows fits again.

ghost use Rattle.std.specs.Prelude.{◌≡◌, ℕ, ◌+◌, ◌<◌, List, length, None, Some};
ghost use Rattle.tp_decode.specs.Cutting.{Cut, IsCutting, cut_at};
ghost use Rattle.tp_image.specs.Image.{ImageValue, InRange};
ghost use Rattle.tp_flow.specs.FlowFaults.{first_flow_fault};
ghost use Rattle.tp_step.specs.State.{State as Machine};
ghost use Rattle.tp_step.specs.Steps.{steps, IsStuck};
ghost use Rattle.tp_state.specs.declared.state.State.{State};
ghost use Rattle.tp_state.specs.Fits.{Fits};
ghost use Rattle.tp_state.specs.GoesOn.{IsAccepted, GoesOn};

/// Let the code of an image have a cutting and a nest without a fault of flow, and let an instruction be at an address.
/// Let the machine's state fit what is known there, and let nothing be refused on any edge of the instruction. Then the
/// machine runs through the instruction's bytes, one step a byte, and either it has stopped after its result, by stopp,
/// or it is at the target of an edge of the instruction, and its state fits what is known after that edge. A lend goes
/// back exactly where its loop has more than one turn to make; the turns of the loops around the target follow from
/// those before.
pub fn accepted_code_goes_on()
    ensures { (image : ImageValue) (cuts : List Cut) → InRange image → IsCutting image.code cuts →
        first_flow_fault image cuts ≡ None →
        (at : ℕ) (cut : Cut) → cut_at cuts at ≡ Some cut →
        (t : State) (s : Machine) → Fits image at t s → IsAccepted image at (at + length cut.bytes) cut.instr t →
        GoesOn image at cut t s }
{}

/// No state on the way of steps that are made is stuck: none at a byte of an instruction that goes on.
pub fn none_is_stuck_on_the_way()
    ensures { (image : ImageValue) (n k : ℕ) (s u end : Machine) → steps image n s ≡ Some end →
        steps image k s ≡ Some u → k < n → ¬ IsStuck image u }
{}
