//! Laws of exactness: the passes find a table exactly where there is one that every edge respects.

ghost use Rattle.std.specs.Prelude.{◌≡◌, ℕ, List, Some, Ok, Err};
ghost use Rattle.std.specs.List.{AllByRecursion};
ghost use Rattle.tp_decode.specs.Cutting.{Cut, IsSpelled};
ghost use Rattle.tp_flow.specs.NestKept.{KeepsNest};
ghost use Rattle.tp_image.specs.Image.{ImageValue, InRange};
ghost use Rattle.tp_state.specs.declared.state.State.{State};
ghost use Rattle.tp_state.specs.declared.fault.StateFault.{StateFault};
ghost use Rattle.tp_check.specs.Tables.{Table};
ghost use Rattle.tp_check.specs.Passes.{IsVerdict, passes};
ghost use Rattle.tp_check.specs.StatesThere.{IsStateAt};
ghost use Rattle.tp_check.specs.EdgesRespect.{HasAbove, EveryEdgeRespects, HasNoTable};

/// The fixpoint iteration refuses only where no table exists that every edge respects. Nothing is asked of the states
/// of that table.
pub fn a_refusal_means_no_table()
    ensures { (image : ImageValue) (cuts : List Cut) (fault : StateFault) → InRange image →
        AllByRecursion IsSpelled cuts →
        KeepsNest image.loops image.workspace cuts → IsVerdict image cuts (Err fault) → HasNoTable image cuts }
{}

/// The table of the passes is the least: below every table that each edge respects.
pub fn the_verdict_is_the_least_table()
    ensures { (image : ImageValue) (cuts : List Cut) (table other : Table) → InRange image →
        AllByRecursion IsSpelled cuts → KeepsNest image.loops image.workspace cuts →
        IsVerdict image cuts (Ok table) → EveryEdgeRespects image cuts other →
        (at : ℕ) (s : State) → table at ≡ Some s → HasAbove other at s }
{}

/// Every edge respects the table of the passes.
pub fn every_edge_respects_the_verdict()
    ensures { (image : ImageValue) (cuts : List Cut) (table : Table) → InRange image → AllByRecursion IsSpelled cuts →
        KeepsNest image.loops image.workspace cuts → IsVerdict image cuts (Ok table) →
        EveryEdgeRespects image cuts table }
{}

/// The states that the passes find are sound, and the same words are live in all states of one address: this holds of
/// the states of their tables after any number of passes.
pub fn states_of_the_passes_are_sound()
    ensures { (image : ImageValue) (cuts : List Cut) (n : ℕ) (table : Table) → InRange image →
        AllByRecursion IsSpelled cuts → KeepsNest image.loops image.workspace cuts → passes image cuts n ≡ Ok table →
        (at : ℕ) (s : State) → table at ≡ Some s → IsStateAt image at s }
{}
