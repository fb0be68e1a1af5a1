//! The law of passes that carry one state from instruction to instruction.

ghost use Rattle.std.specs.Prelude.{◌≡◌, ℕ, Bool, List, Ok, Err};
ghost use Rattle.std.specs.List.{AllByRecursion};
ghost use Rattle.tp_decode.specs.Cutting.{Cut, IsSpelled};
ghost use Rattle.tp_flow.specs.NestKept.{KeepsNest};
ghost use Rattle.tp_image.specs.Image.{ImageValue, InRange};
ghost use Rattle.tp_state.specs.declared.fault.StateFault.{StateFault};
ghost use Rattle.tp_check.specs.Tables.{Table};
ghost use Rattle.tp_check.specs.Passes.{IsVerdict, passes};
ghost use Rattle.tp_check.specs.Carried.{carried, carried_pass, only_joins, AreWide};

/// Passes may carry one state from instruction to instruction, and keep states only at the first address, at loops'
/// heads and where two edges lead, and at any more addresses. Each pass gives the same as with states at every address,
/// refusal or whole table; once a pass leaves the states kept as they were, its whole table is the verdict; and a pass
/// that refuses is the verdict's refusal.
pub fn passes_may_carry()
    ensures same { (image : ImageValue) (cuts : List Cut) (is_join : ℕ → Bool) → InRange image →
        AllByRecursion IsSpelled cuts → KeepsNest image.loops image.workspace cuts → AreWide image cuts is_join →
        (n : ℕ) → passes image cuts n ≡ carried image cuts is_join n }
    ensures ends { (image : ImageValue) (cuts : List Cut) (is_join : ℕ → Bool) → InRange image →
        AllByRecursion IsSpelled cuts → KeepsNest image.loops image.workspace cuts → AreWide image cuts is_join →
        (n : ℕ) (table new : Table) → carried image cuts is_join n ≡ Ok table →
        carried_pass image cuts is_join table ≡ Ok new → only_joins is_join new ≡ only_joins is_join table →
        IsVerdict image cuts (Ok new) }
    ensures refuses { (image : ImageValue) (cuts : List Cut) (is_join : ℕ → Bool) → InRange image →
        AllByRecursion IsSpelled cuts → KeepsNest image.loops image.workspace cuts → AreWide image cuts is_join →
        (n : ℕ) (table : Table) (fault : StateFault) → carried image cuts is_join n ≡ Ok table →
        carried_pass image cuts is_join table ≡ Err fault → IsVerdict image cuts (Err fault) }
{}
