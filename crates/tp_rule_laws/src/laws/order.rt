//! The law of the order: where more is known, no more is refused, and more is known afterwards.

ghost use Rattle.std.specs.Prelude.{◌≡◌, ℕ, Ok};
ghost use Rattle.tp_decode.specs.declared.instr.Instr.{Instr};
ghost use Rattle.tp_flow.specs.declared.edge.Edge.{Edge};
ghost use Rattle.tp_image.specs.Image.{ImageValue, InRange};
ghost use Rattle.tp_state.specs.declared.state.State.{State};
ghost use Rattle.tp_state.specs.Conditions.{HasGoodLoops};
ghost use Rattle.tp_state.specs.Sound.{IsSound};
ghost use Rattle.tp_state.specs.Order.{IsBelow};
ghost use Rattle.tp_state.specs.After.{after};

/// The transfer function is monotone, for each instruction, edge and version of images, entering of
/// loops included: where a sound state is below another, and nothing is refused after that other, nothing is refused
/// after the first, and what is known after it is below what is known after the other. Nothing is asked of the other.
pub fn what_follows_keeps_the_order()
    ensures { (image : ImageValue) → InRange image → HasGoodLoops image →
        (at next : ℕ) (instr : Instr) (edge : Edge) (s t u : State) → IsSound image s → IsBelow s t →
        after image at next instr edge t ≡ Ok u →
        (v : State) × (after image at next instr edge s ≡ Ok v) × IsBelow v u }
{}
