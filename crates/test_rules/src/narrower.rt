//! Cases that a narrower rule would answer otherwise, though it were sound too: computed examples.

ghost use Rattle.std.specs.Prelude.{◌≡◌, pos, [], ◌∷◌, ◌++◌, replicate, Ok, Err, is_ok, true};
ghost use Rattle.tp_decode.specs.declared.instr.Instr.TheVariants.{Jump, Cj, Ldnl, Stl, Stnl, Lb, Prod, Mul, Csub0};
ghost use Rattle.tp_decode.specs.declared.instr.Instr.TheVariants.{Rem, BitNot, BitAnd, BitOr, BitXor, Seterr};
ghost use Rattle.tp_decode.specs.declared.instr.Instr.TheVariants.{MoveBytes};
ghost use Rattle.tp_image.specs.declared.image.Version.TheVariants.{Two};
ghost use Rattle.tp_flow.specs.declared.edge.Edge.TheVariants.{Next, Taken};
ghost use Rattle.tp_state.specs.declared.kind.Kind.TheVariants.{Undef, Int, Ptr, BytePtr};
ghost use Rattle.tp_state.specs.declared.cell.Cell.TheVariants as cell;
ghost use Rattle.tp_state.specs.declared.fault.StateCode.TheVariants.{S3};
ghost use Rattle.tp_state.specs.After.{after};
ghost use Rattle.test_rules.specs.Samples.{minus, ints, one, any, image, image_of, regs, regs_words, words_with};
ghost use Rattle.test_rules.specs.Samples.{next_of};

/// j with just five words below Wptr; and the jump of cj, where Areg may not be 0 by what is known.
#[tactic(auto, unfolding(crate::proofs::Computing::by_computing))]
pub fn jumps_in_narrow_places_computed()
    ensures least_frame { is_ok
        (after image 12 14 (Jump (pos 1)) Taken (record (regs (one 1) (one 2) (one 3)) { wptr = 5 })) ≡ true }
    ensures not_zero { after image 12 14 (Cj (pos 1)) Taken (regs (ints 3 5) (one 2) (one 3)) ≡
        Ok (regs (one 0) (one 2) (one 3)) }
{}

/// Numbers below 0, and ranges across it.
#[tactic(auto, unfolding(crate::proofs::Computing::by_computing))]
pub fn negatives_computed()
    ensures products { (next_of Mul (regs (Int (minus 3) (minus 2)) (Int (minus 5) (minus 4)) (one 9)) ≡
        Ok (regs (ints 8 15) (one 9) Undef))
        × (next_of Prod (regs (Int (minus 3) (minus 2)) (Int (minus 5) (minus 4)) (one 9)) ≡
        Ok (regs (ints 8 15) (one 9) Undef)) }
    ensures complement { next_of BitNot (regs (Int (minus 6) (minus 1)) (one 7) Undef) ≡
        Ok (regs (ints 0 5) (one 7) Undef) }
    ensures subscript { next_of Csub0 (regs (Int (minus 1) (pos 1)) (Int (minus 3) (pos 4)) (one 9)) ≡
        Ok (regs (Int (minus 3) (pos 4)) (one 9) Undef) }
{}

/// or and xor of single numbers give any; seterr changes nothing, after the result too.
#[tactic(auto, unfolding(crate::proofs::Computing::by_computing))]
pub fn known_operands_computed()
    ensures bit_or { next_of BitOr (regs (one 0) (one 0) (one 9)) ≡ Ok (regs any (one 9) Undef) }
    ensures bit_xor { next_of BitXor (regs (one 0) (one 0) (one 9)) ≡ Ok (regs any (one 9) Undef) }
    ensures seterr { next_of Seterr (record (regs (one 1) (one 2) (one 3)) { phase = 2 }) ≡
        Ok (record (regs (one 1) (one 2) (one 3)) { phase = 2 }) }
{}

/// A byte pointer may be stored, as any word; and a move whose ranges overlap is refused for that, whatever its source
/// holds.
#[tactic(auto, unfolding(crate::proofs::Computing::by_computing))]
pub fn stored_pointers_and_overlaps_computed()
    ensures stl { next_of (Stl (pos 3)) (regs (BytePtr 1 1) Undef Undef) ≡ Ok (regs_words Undef Undef Undef
        (words_with (cell.Known (pos 9) ∷ cell.Index 0 ∷ cell.Count 0 ∷ cell.Any ∷ cell.Any ∷ []))) }
    ensures stnl { next_of (Stnl (pos 3)) (regs (Ptr 7 7) (BytePtr 1 1) (one 1)) ≡ Ok (regs_words (one 1) Undef Undef
        (words_with (cell.Known (pos 9) ∷ cell.Index 0 ∷ cell.Count 0 ∷ cell.Any ∷ cell.Any ∷ []))) }
    ensures overlap { after (image_of Two 1 1) 12 14 MoveBytes Next (regs (one 8) (Ptr 10 10) (Ptr 10 10)) ≡ Err S3 }
{}

/// A remainder lies between the divisor's ends whatever the dividend: where it is never above 0, where both are known,
/// and where it is below the divisor. and of two known numbers goes from 0 to the lesser.
#[tactic(auto, unfolding(crate::proofs::Computing::by_computing))]
pub fn remainders_and_masks_computed()
    ensures never_above_0 { next_of Rem (regs (one 10) (Int (minus 9) (minus 3)) (one 9)) ≡
        Ok (regs (Int (minus 9) (pos 9)) (one 9) Undef) }
    ensures both_known { next_of Rem (regs (one 10) (one 23) (one 9)) ≡ Ok (regs (ints 0 9) (one 9) Undef) }
    ensures below_the_divisor { next_of Rem (regs (one 10) (ints 2 5) (one 9)) ≡ Ok (regs (ints 0 9) (one 9) Undef) }
    ensures bit_and { next_of BitAnd (regs (one 12) (one 10) (one 9)) ≡ Ok (regs (ints 0 10) (one 9) Undef) }
{}

/// A byte of a known word is any byte; of several words that are known alike any word is read; and a store to several
/// words leaves them any, also where each holds the value already.
#[tactic(auto, unfolding(crate::proofs::Computing::by_computing))]
pub fn known_words_computed()
    ensures lb { next_of Lb (regs (BytePtr 1 1) (one 2) (one 3)) ≡ Ok (regs (ints 0 255) (one 2) (one 3)) }
    ensures ldnl { next_of (Ldnl (pos 0)) (regs (Ptr 3 6) (one 2) (one 3)) ≡ Ok (regs any (one 2) (one 3)) }
    ensures stnl { next_of (Stnl (pos 0)) (regs (Ptr 3 4) (one 0) (one 3)) ≡ Ok (regs_words (one 3) Undef Undef
        (cell.Known (pos 0) ∷ cell.Known (minus 1) ∷ replicate 3 cell.Any ++ (replicate 2 (cell.Known (pos 0))
        ++ (cell.Known (pos 9) ∷ cell.Index 0 ∷ cell.Count 0 ∷ cell.Undef ∷ cell.Any ∷ [])))) }
{}
