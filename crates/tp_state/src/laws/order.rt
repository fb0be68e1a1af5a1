//! Laws of the order of what is known, and of joins.

ghost use Rattle.std.specs.Prelude.{◌≡◌, ℕ, ◌⊎◌, IsTrue};
ghost use Rattle.tp_state.specs.declared.state.State.{State};
ghost use Rattle.tp_state.specs.declared.cell.Cell.{Cell};
ghost use Rattle.tp_state.specs.CellRules.{is_free};
ghost use Rattle.tp_state.specs.Order.{IsBelow, MayMeet, join, join_cells};

/// Below is a partial order of states.
pub fn below_is_a_partial_order()
    ensures reflexive { (s : State) → IsBelow s s }
    ensures transitive { (s t u : State) → IsBelow s t → IsBelow t u → IsBelow s u }
    ensures antisymmetric { (s t : State) → IsBelow s t → IsBelow t s → s ≡ t }
{}

/// The join of two states that may meet is above both, and below every state that is above both.
pub fn join_is_the_least_above_both()
    ensures left { (t s : State) → MayMeet t s → IsBelow t (join t s) }
    ensures right { (t s : State) → MayMeet t s → IsBelow s (join t s) }
    ensures least { (t s u : State) → IsBelow t u → IsBelow s u → IsBelow (join t s) u }
{}

/// Nothing is above two states that differ in Wptr or the phase.
pub fn nothing_is_above_both()
    ensures { (s t u : State) → IsBelow s u → IsBelow t u → (s.wptr ≡ t.wptr) × (s.phase ≡ t.phase) }
{}

/// A join with a state that is below changes nothing, and a join that changes nothing is one with a state that is
/// below.
pub fn join_with_what_is_below()
    ensures kept { (t s : State) → IsBelow s t → join t s ≡ t }
    ensures only { (t s : State) → MayMeet t s → join t s ≡ t → IsBelow s t }
{}

/// A live control word comes from a join of itself alone.
pub fn live_words_come_from_themselves()
    ensures { (c d : Cell) → IsTrue (is_free (join_cells c d)) ⊎ ((c ≡ join_cells c d) × (d ≡ join_cells c d)) }
{}
