//! States after operations on numbers: computed examples.

ghost use Rattle.std.specs.Prelude.{◌≡◌, pos, Ok, Err};
ghost use Rattle.tp_decode.specs.declared.instr.Instr.TheVariants.{Adc, Eqc, Diff, Add, Prod, Gt, Sub, Csub0, Rem, Div};
ghost use Rattle.tp_decode.specs.declared.instr.Instr.TheVariants.{BitNot, BitXor, Shr, Shl, Mint, BitAnd, BitOr, Sum};
ghost use Rattle.tp_decode.specs.declared.instr.Instr.TheVariants.{Mul};
ghost use Rattle.tp_state.specs.declared.kind.Kind.TheVariants.{Undef, Int, Ptr, BytePtr};
ghost use Rattle.tp_state.specs.declared.fault.StateCode.TheVariants.{S1, S2, S10};
ghost use Rattle.test_rules.specs.Samples.{minus, ints, one, any, regs, next_of};

/// One operand: adc, eqc, not; and mint, which has none.
#[tactic(auto, unfolding(crate::proofs::Computing::by_computing))]
pub fn one_operand_computed()
    ensures adc { (next_of (Adc (pos 3)) (regs (ints 1 4) (one 7) (one 8)) ≡ Ok (regs (ints 4 7) (one 7) (one 8)))
        × (next_of (Adc (pos 1)) (regs (ints 0 2147483647) Undef Undef) ≡ Ok (regs any Undef Undef))
        × (next_of (Adc (minus 1)) (regs any Undef Undef) ≡ Ok (regs any Undef Undef))
        × (next_of (Adc (minus 1)) (regs (Int (minus 2147483647) (pos 0)) Undef Undef) ≡
        Ok (regs (Int (minus 2147483648) (minus 1)) Undef Undef)) }
    ensures adc_refused { (next_of (Adc (pos 3)) (regs Undef Undef Undef) ≡ Err S1)
        × (next_of (Adc (pos 3)) (regs (Ptr 0 0) Undef Undef) ≡ Err S2) }
    ensures eqc { (next_of (Eqc (pos 5)) (regs (one 5) (one 7) Undef) ≡ Ok (regs (ints 0 1) (one 7) Undef))
        × (next_of (Eqc (pos 5)) (regs (one 6) Undef Undef) ≡ Ok (regs (ints 0 1) Undef Undef)) }
    ensures eqc_refused { (next_of (Eqc (pos 5)) (regs Undef Undef Undef) ≡ Err S1)
        × (next_of (Eqc (pos 5)) (regs (BytePtr 0 1) Undef Undef) ≡ Err S2) }
    ensures bit_not { (next_of BitNot (regs (ints 0 5) (one 7) Undef) ≡
        Ok (regs (Int (minus 6) (minus 1)) (one 7) Undef))
        × (next_of BitNot (regs (Int (minus 2147483648) (pos 0)) Undef Undef) ≡
        Ok (regs (Int (minus 1) (pos 2147483647)) Undef Undef)) }
    ensures bit_not_refused { (next_of BitNot (regs Undef Undef Undef) ≡ Err S1)
        × (next_of BitNot (regs (Ptr 0 0) Undef Undef) ≡ Err S2) }
    ensures mint { (next_of Mint (regs (one 1) (one 2) (one 3)) ≡
        Ok (regs (Int (minus 2147483648) (minus 2147483648)) (one 1) (one 2)))
        × (next_of Mint (regs Undef Undef Undef) ≡ Ok (regs (Int (minus 2147483648) (minus 2147483648)) Undef Undef)) }
{}

/// Sums, differences and products, checked or not.
#[tactic(auto, unfolding(crate::proofs::Computing::by_computing))]
pub fn sums_computed()
    ensures add { (next_of Add (regs (ints 1 2) (ints 10 20) (one 9)) ≡ Ok (regs (ints 11 22) (one 9) Undef))
        × (next_of Add (regs (Int (minus 5) (minus 1)) (ints 0 1) (one 9)) ≡
        Ok (regs (Int (minus 5) (pos 0)) (one 9) Undef))
        × (next_of Add (regs (one 1) (ints 0 2147483647) (one 9)) ≡ Ok (regs any (one 9) Undef))
        × (next_of Add (regs (Int (minus 1) (minus 1)) (Int (minus 2147483648) (pos 0)) (one 9)) ≡
        Ok (regs any (one 9) Undef)) }
    ensures add_refused { (next_of Add (regs Undef (Ptr 0 0) Undef) ≡ Err S1)
        × (next_of Add (regs (Ptr 0 0) Undef Undef) ≡ Err S1)
        × (next_of Add (regs (one 1) (Ptr 0 0) Undef) ≡ Err S2)
        × (next_of Add (regs (BytePtr 0 1) (one 1) Undef) ≡ Err S2) }
    ensures sum { (next_of Sum (regs (ints 1 2) (ints 10 20) (one 9)) ≡ Ok (regs (ints 11 22) (one 9) Undef))
        × (next_of Sum (regs (Int (minus 5) (minus 1)) (ints 0 1) (one 9)) ≡
        Ok (regs (Int (minus 5) (pos 0)) (one 9) Undef))
        × (next_of Sum (regs (one 1) (ints 0 2147483647) (one 9)) ≡ Ok (regs any (one 9) Undef))
        × (next_of Sum (regs (Int (minus 1) (minus 1)) (Int (minus 2147483648) (pos 0)) (one 9)) ≡
        Ok (regs any (one 9) Undef)) }
    ensures sum_refused { (next_of Sum (regs Undef (Ptr 0 0) Undef) ≡ Err S1)
        × (next_of Sum (regs (Ptr 0 0) Undef Undef) ≡ Err S1)
        × (next_of Sum (regs (one 1) (Ptr 0 0) Undef) ≡ Err S2)
        × (next_of Sum (regs (BytePtr 0 1) (one 1) Undef) ≡ Err S2) }
    ensures sub { (next_of Sub (regs (ints 1 2) (ints 10 20) (one 9)) ≡ Ok (regs (ints 8 19) (one 9) Undef))
        × (next_of Sub (regs (Int (minus 1) (pos 1)) (one 0) (one 9)) ≡ Ok (regs (Int (minus 1) (pos 1)) (one 9) Undef))
        × (next_of Sub (regs (one 1) (Int (minus 2147483648) (pos 0)) (one 9)) ≡ Ok (regs any (one 9) Undef))
        × (next_of Sub (regs (Int (minus 2147483648) (minus 2147483648)) (one 0) (one 9)) ≡
        Ok (regs any (one 9) Undef)) }
    ensures sub_refused { (next_of Sub (regs Undef (Ptr 0 0) Undef) ≡ Err S1)
        × (next_of Sub (regs (Ptr 0 0) Undef Undef) ≡ Err S1)
        × (next_of Sub (regs (one 1) (Ptr 0 0) Undef) ≡ Err S2)
        × (next_of Sub (regs (BytePtr 0 1) (one 1) Undef) ≡ Err S2) }
    ensures diff { (next_of Diff (regs (ints 1 2) (ints 10 20) (one 9)) ≡ Ok (regs (ints 8 19) (one 9) Undef))
        × (next_of Diff (regs (Int (minus 1) (pos 1)) (one 0) (one 9)) ≡
        Ok (regs (Int (minus 1) (pos 1)) (one 9) Undef))
        × (next_of Diff (regs (one 1) (Int (minus 2147483648) (pos 0)) (one 9)) ≡ Ok (regs any (one 9) Undef))
        × (next_of Diff (regs (Int (minus 2147483648) (minus 2147483648)) (one 0) (one 9)) ≡
        Ok (regs any (one 9) Undef)) }
    ensures diff_refused { (next_of Diff (regs Undef (Ptr 0 0) Undef) ≡ Err S1)
        × (next_of Diff (regs (Ptr 0 0) Undef Undef) ≡ Err S1)
        × (next_of Diff (regs (one 1) (Ptr 0 0) Undef) ≡ Err S2)
        × (next_of Diff (regs (BytePtr 0 1) (one 1) Undef) ≡ Err S2) }
    ensures mul { (next_of Mul (regs (Int (minus 2) (pos 3)) (ints 4 5) (one 9)) ≡
        Ok (regs (Int (minus 10) (pos 15)) (one 9) Undef))
        × (next_of Mul (regs (one 7) (one 6) (one 9)) ≡ Ok (regs (one 42) (one 9) Undef))
        × (next_of Mul (regs (one 65536) (ints 0 65536) (one 9)) ≡ Ok (regs any (one 9) Undef))
        × (next_of Mul (regs (Int (minus 2147483648) (minus 2147483648)) (Int (minus 1) (pos 0)) (one 9)) ≡
        Ok (regs any (one 9) Undef)) }
    ensures mul_refused { (next_of Mul (regs Undef (Ptr 0 0) Undef) ≡ Err S1)
        × (next_of Mul (regs (Ptr 0 0) Undef Undef) ≡ Err S1)
        × (next_of Mul (regs (one 1) (Ptr 0 0) Undef) ≡ Err S2)
        × (next_of Mul (regs (BytePtr 0 1) (one 1) Undef) ≡ Err S2) }
    ensures prod { (next_of Prod (regs (Int (minus 2) (pos 3)) (ints 4 5) (one 9)) ≡
        Ok (regs (Int (minus 10) (pos 15)) (one 9) Undef))
        × (next_of Prod (regs (one 7) (one 6) (one 9)) ≡ Ok (regs (one 42) (one 9) Undef))
        × (next_of Prod (regs (one 65536) (ints 0 65536) (one 9)) ≡ Ok (regs any (one 9) Undef))
        × (next_of Prod (regs (Int (minus 2147483648) (minus 2147483648)) (Int (minus 1) (pos 0)) (one 9)) ≡
        Ok (regs any (one 9) Undef)) }
    ensures prod_refused { (next_of Prod (regs Undef (Ptr 0 0) Undef) ≡ Err S1)
        × (next_of Prod (regs (Ptr 0 0) Undef Undef) ≡ Err S1)
        × (next_of Prod (regs (one 1) (Ptr 0 0) Undef) ≡ Err S2)
        × (next_of Prod (regs (BytePtr 0 1) (one 1) Undef) ≡ Err S2) }
{}

/// Quotients, toward 0, and remainders.
#[tactic(auto, unfolding(crate::proofs::Computing::by_computing))]
pub fn quotients_computed()
    ensures div { (next_of Div (regs (one 10) (Int (minus 25) (pos 37)) (one 9)) ≡
        Ok (regs (Int (minus 2) (pos 3)) (one 9) Undef))
        × (next_of Div (regs (one 1) any (one 9)) ≡ Ok (regs any (one 9) Undef))
        × (next_of Div (regs (Int (minus 1) (minus 1)) (one 5) (one 9)) ≡ Ok (regs any (one 9) Undef))
        × (next_of Div (regs (one 0) (one 5) (one 9)) ≡ Ok (regs any (one 9) Undef))
        × (next_of Div (regs (ints 2 3) (one 5) (one 9)) ≡ Ok (regs any (one 9) Undef)) }
    ensures div_refused { (next_of Div (regs Undef (Ptr 0 0) Undef) ≡ Err S1)
        × (next_of Div (regs (Ptr 0 0) Undef Undef) ≡ Err S1)
        × (next_of Div (regs (one 1) (Ptr 0 0) Undef) ≡ Err S2)
        × (next_of Div (regs (BytePtr 0 1) (one 1) Undef) ≡ Err S2) }
    ensures rem { (next_of Rem (regs (one 10) (ints 0 100) (one 9)) ≡ Ok (regs (ints 0 9) (one 9) Undef))
        × (next_of Rem (regs (one 10) (Int (minus 5) (pos 5)) (one 9)) ≡
        Ok (regs (Int (minus 9) (pos 9)) (one 9) Undef))
        × (next_of Rem (regs (one 1) any (one 9)) ≡ Ok (regs (one 0) (one 9) Undef))
        × (next_of Rem (regs (one 0) (one 5) (one 9)) ≡ Ok (regs any (one 9) Undef))
        × (next_of Rem (regs (ints 2 3) (one 5) (one 9)) ≡ Ok (regs any (one 9) Undef)) }
    ensures rem_refused { (next_of Rem (regs Undef (Ptr 0 0) Undef) ≡ Err S1)
        × (next_of Rem (regs (Ptr 0 0) Undef Undef) ≡ Err S1)
        × (next_of Rem (regs (one 1) (Ptr 0 0) Undef) ≡ Err S2)
        × (next_of Rem (regs (BytePtr 0 1) (one 1) Undef) ≡ Err S2) }
{}

/// Bits: and, or, xor, shr, shl.
#[tactic(auto, unfolding(crate::proofs::Computing::by_computing))]
pub fn bits_computed()
    ensures bit_and { (next_of BitAnd (regs (ints 0 7) (ints 0 3) (one 9)) ≡ Ok (regs (ints 0 3) (one 9) Undef))
        × (next_of BitAnd (regs (ints 0 3) (ints 1 7) (one 9)) ≡ Ok (regs (ints 0 3) (one 9) Undef))
        × (next_of BitAnd (regs (Int (minus 1) (minus 1)) (ints 0 100) (one 9)) ≡ Ok (regs (ints 0 100) (one 9) Undef))
        × (next_of BitAnd (regs (one 4) any (one 9)) ≡ Ok (regs (ints 0 4) (one 9) Undef))
        × (next_of BitAnd (regs (Int (minus 1) (minus 1)) (Int (minus 2) (pos 5)) (one 9)) ≡
        Ok (regs any (one 9) Undef)) }
    ensures bit_and_refused { (next_of BitAnd (regs Undef (Ptr 0 0) Undef) ≡ Err S1)
        × (next_of BitAnd (regs (Ptr 0 0) Undef Undef) ≡ Err S1)
        × (next_of BitAnd (regs (one 1) (Ptr 0 0) Undef) ≡ Err S2)
        × (next_of BitAnd (regs (BytePtr 0 1) (one 1) Undef) ≡ Err S2) }
    ensures bit_or { (next_of BitOr (regs (one 1) (one 2) (one 9)) ≡ Ok (regs any (one 9) Undef))
        × (next_of BitOr (regs (Int (minus 1) (minus 1)) (one 2) (one 9)) ≡ Ok (regs any (one 9) Undef)) }
    ensures bit_or_refused { (next_of BitOr (regs Undef (Ptr 0 0) Undef) ≡ Err S1)
        × (next_of BitOr (regs (Ptr 0 0) Undef Undef) ≡ Err S1)
        × (next_of BitOr (regs (one 1) (Ptr 0 0) Undef) ≡ Err S2)
        × (next_of BitOr (regs (BytePtr 0 1) (one 1) Undef) ≡ Err S2) }
    ensures bit_xor { (next_of BitXor (regs (one 1) (one 2) (one 9)) ≡ Ok (regs any (one 9) Undef))
        × (next_of BitXor (regs (one 0) (one 0) (one 9)) ≡ Ok (regs any (one 9) Undef)) }
    ensures bit_xor_refused { (next_of BitXor (regs Undef (Ptr 0 0) Undef) ≡ Err S1)
        × (next_of BitXor (regs (Ptr 0 0) Undef Undef) ≡ Err S1)
        × (next_of BitXor (regs (one 1) (Ptr 0 0) Undef) ≡ Err S2)
        × (next_of BitXor (regs (BytePtr 0 1) (one 1) Undef) ≡ Err S2) }
    ensures shr { (next_of Shr (regs (ints 1 2) (ints 8 20) (one 9)) ≡ Ok (regs (ints 2 10) (one 9) Undef))
        × (next_of Shr (regs (one 4) (Int (minus 1) (pos 5)) (one 9)) ≡ Ok (regs (ints 0 268435455) (one 9) Undef))
        × (next_of Shr (regs (one 31) (Int (minus 2147483648) (minus 1)) (one 9)) ≡ Ok (regs (ints 0 1) (one 9) Undef))
        × (next_of Shr (regs (ints 1 31) (Int (minus 1) (pos 5)) (one 9)) ≡ Ok (regs (ints 0 2147483647) (one 9) Undef))
        × (next_of Shr (regs (ints 0 1) (Int (minus 1) (pos 0)) (one 9)) ≡ Ok (regs any (one 9) Undef))
        × (next_of Shr (regs (ints 0 31) (ints 0 2147483647) (one 9)) ≡ Ok (regs (ints 0 2147483647) (one 9) Undef)) }
    ensures shr_refused { (next_of Shr (regs Undef (Ptr 0 0) Undef) ≡ Err S1)
        × (next_of Shr (regs (Ptr 0 0) Undef Undef) ≡ Err S1)
        × (next_of Shr (regs (one 1) (Ptr 0 0) Undef) ≡ Err S2)
        × (next_of Shr (regs (BytePtr 0 1) (one 1) Undef) ≡ Err S2)
        × (next_of Shr (regs (ints 0 32) (one 1) Undef) ≡ Err S10)
        × (next_of Shr (regs (Int (minus 1) (pos 0)) (one 1) Undef) ≡ Err S10) }
    ensures shl { (next_of Shl (regs (one 4) (ints 1 3) (one 9)) ≡ Ok (regs (ints 16 48) (one 9) Undef))
        × (next_of Shl (regs (one 0) (ints 0 2147483647) (one 9)) ≡ Ok (regs (ints 0 2147483647) (one 9) Undef))
        × (next_of Shl (regs (one 31) (one 0) (one 9)) ≡ Ok (regs (one 0) (one 9) Undef))
        × (next_of Shl (regs (one 31) (ints 0 1) (one 9)) ≡ Ok (regs any (one 9) Undef))
        × (next_of Shl (regs (one 4) (ints 0 268435456) (one 9)) ≡ Ok (regs any (one 9) Undef))
        × (next_of Shl (regs (ints 1 2) (one 1) (one 9)) ≡ Ok (regs any (one 9) Undef))
        × (next_of Shl (regs (one 1) (Int (minus 1) (pos 0)) (one 9)) ≡ Ok (regs any (one 9) Undef)) }
    ensures shl_refused { (next_of Shl (regs Undef (Ptr 0 0) Undef) ≡ Err S1)
        × (next_of Shl (regs (Ptr 0 0) Undef Undef) ≡ Err S1)
        × (next_of Shl (regs (one 1) (Ptr 0 0) Undef) ≡ Err S2)
        × (next_of Shl (regs (BytePtr 0 1) (one 1) Undef) ≡ Err S2)
        × (next_of Shl (regs (one 32) (one 1) Undef) ≡ Err S10)
        × (next_of Shl (regs any (one 1) Undef) ≡ Err S10) }
{}

/// gt and csub0.
#[tactic(auto, unfolding(crate::proofs::Computing::by_computing))]
pub fn comparisons_computed()
    ensures gt { (next_of Gt (regs (one 1) (one 2) (one 9)) ≡ Ok (regs (ints 0 1) (one 9) Undef))
        × (next_of Gt (regs any any (one 9)) ≡ Ok (regs (ints 0 1) (one 9) Undef)) }
    ensures gt_refused { (next_of Gt (regs Undef (Ptr 0 0) Undef) ≡ Err S1)
        × (next_of Gt (regs (Ptr 0 0) Undef Undef) ≡ Err S1)
        × (next_of Gt (regs (one 1) (Ptr 0 0) Undef) ≡ Err S2)
        × (next_of Gt (regs (BytePtr 0 1) (one 1) Undef) ≡ Err S2) }
    ensures csub0 { (next_of Csub0 (regs (one 1) (one 2) (one 3)) ≡ Ok (regs (one 2) (one 3) Undef))
        × (next_of Csub0 (regs any any Undef) ≡ Ok (regs any Undef Undef)) }
    ensures csub0_refused { (next_of Csub0 (regs Undef (Ptr 0 0) Undef) ≡ Err S1)
        × (next_of Csub0 (regs (Ptr 0 0) Undef Undef) ≡ Err S1)
        × (next_of Csub0 (regs (one 1) (Ptr 0 0) Undef) ≡ Err S2)
        × (next_of Csub0 (regs (BytePtr 0 1) (one 1) Undef) ≡ Err S2) }
{}
