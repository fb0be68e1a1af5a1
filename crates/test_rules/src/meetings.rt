//! States that meet where edges join: computed examples.

ghost use Rattle.std.specs.Prelude.{◌≡◌, Ok, Err};
ghost use Rattle.tp_state.specs.declared.kind.Kind.TheVariants.{Undef};
ghost use Rattle.tp_state.specs.declared.fault.StateCode.TheVariants.{S6, S9};
ghost use Rattle.tp_state.specs.Order.{meeting};
ghost use Rattle.test_rules.specs.Samples.{ints, one, regs};

/// Where Wptr differs the states are refused by S6, also where the phase differs as well; where the phase alone
/// differs, by S9.
#[tactic(auto, unfolding(crate::proofs::Computing::by_computing))]
pub fn states_that_meet_computed()
    ensures wptr { meeting (regs (one 1) Undef Undef) (record (regs (one 1) Undef Undef) { wptr = 8 }) ≡ Err S6 }
    ensures both { meeting (regs (one 1) Undef Undef) (record (regs (one 1) Undef Undef) { wptr = 8; phase = 1 }) ≡ Err
        S6 }
    ensures phase { meeting (regs (one 1) Undef Undef) (record (regs (one 1) Undef Undef) { phase = 1 }) ≡ Err S9 }
    ensures alike { meeting (regs (one 1) (one 5) Undef) (regs (ints 2 3) Undef (one 4)) ≡ Ok
        (regs (ints 1 3) Undef Undef) }
{}
