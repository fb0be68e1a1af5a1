//! Laws of tables and passes: each function's contract is the law.

ghost use Rattle.std.specs.Prelude.{◌≡◌, List, Result};
ghost use Rattle.std.specs.List.{AllByRecursion};
ghost use Rattle.tp_decode.specs.Cutting.{Cut, IsSpelled};
ghost use Rattle.tp_flow.specs.NestKept.{KeepsNest};
ghost use Rattle.tp_image.specs.Image.{ImageValue, InRange};
ghost use Rattle.tp_state.specs.declared.fault.StateFault.{StateFault};
ghost use Rattle.tp_check.specs.Tables.{Table};
ghost use Rattle.tp_check.specs.Passes.{IsVerdict};

pub mod carrying;
pub mod exact;

/// The passes have at most one verdict: they do not both refuse and find a table, nor refuse in two ways, nor find two
/// tables.
pub fn passes_have_one_verdict()
    ensures { (image : ImageValue) (cuts : List Cut) (verdict other : Result Table StateFault) →
        IsVerdict image cuts verdict → IsVerdict image cuts other → verdict ≡ other }
{}

/// The passes have a verdict, over spelled instructions whose nest is kept: after some number of them one refuses, or
/// leaves its table as it is.
pub fn passes_have_a_verdict()
    ensures { (image : ImageValue) (cuts : List Cut) → InRange image → AllByRecursion IsSpelled cuts →
        KeepsNest image.loops image.workspace cuts → (verdict : Result Table StateFault)
        × IsVerdict image cuts verdict }
{}
