//! Laws of sound states: the first state is one, and the rules and joins keep them.

ghost use Rattle.std.specs.Prelude.{ℕ, IfOk};
ghost use Rattle.tp_decode.specs.declared.instr.Instr.{Instr};
ghost use Rattle.tp_flow.specs.declared.edge.Edge.{Edge};
ghost use Rattle.tp_image.specs.Image.{ImageValue, InRange};
ghost use Rattle.tp_state.specs.declared.state.State.{State};
ghost use Rattle.tp_state.specs.Conditions.{HasGoodLoops};
ghost use Rattle.tp_state.specs.Sound.{IsSound, LoadsWord};
ghost use Rattle.tp_state.specs.Order.{join};
ghost use Rattle.tp_state.specs.Entry.{entry};
ghost use Rattle.tp_state.specs.After.{after};

/// The first state of a code is sound.
pub fn the_first_state_is_sound()
    ensures { (image : ImageValue) → InRange image → IsSound image (entry image) }
{}

/// The transfer function keeps soundness: behind a sound state is one on each edge on which nothing is refused, where a
/// number that the instruction loads is a word.
pub fn what_follows_is_sound()
    ensures { (image : ImageValue) → InRange image → HasGoodLoops image →
        (at next : ℕ) (instr : Instr) (edge : Edge) (s : State) → LoadsWord instr → IsSound image s →
        IfOk (after image at next instr edge s) (IsSound image) }
{}

/// A join of sound states is sound.
pub fn joins_are_sound()
    ensures { (image : ImageValue) (t s : State) → IsSound image t → IsSound image s → IsSound image (join t s) }
{}
