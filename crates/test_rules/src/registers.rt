//! States after instructions that read no word: computed examples.

ghost use Rattle.std.specs.Prelude.{◌≡◌, pos, Ok, Err};
ghost use Rattle.tp_decode.specs.declared.instr.Instr.TheVariants.{Ldlp, Ldc, Ldnlp, Cj, Ajw, Rev, Bsub, Wsub, Seterr};
ghost use Rattle.tp_decode.specs.declared.instr.Instr.TheVariants.{Stopp};
ghost use Rattle.tp_flow.specs.declared.edge.Edge.TheVariants.{Next, Taken};
ghost use Rattle.tp_state.specs.declared.kind.Kind.TheVariants.{Undef, Int, Ptr, BytePtr};
ghost use Rattle.tp_state.specs.declared.fault.StateCode.TheVariants.{S1, S2, S3, S6, S9};
ghost use Rattle.tp_state.specs.After.{after};
ghost use Rattle.test_rules.specs.Samples.{minus, ints, one, any, image, regs, next_of};

/// ldc, ldlp and ldnlp.
#[tactic(auto, unfolding(crate::proofs::Computing::by_computing))]
pub fn constants_computed()
    ensures ldc { (next_of (Ldc (pos 5)) (regs (one 1) (one 2) (one 3)) ≡ Ok (regs (one 5) (one 1) (one 2)))
        × (next_of (Ldc (minus 2147483648)) (regs Undef Undef Undef) ≡
        Ok (regs (Int (minus 2147483648) (minus 2147483648)) Undef Undef)) }
    ensures ldlp { (next_of (Ldlp (pos 1)) (regs (one 1) (one 2) (one 3)) ≡ Ok (regs (Ptr 8 8) (one 1) (one 2)))
        × (next_of (Ldlp (minus 7)) (regs Undef Undef Undef) ≡ Ok (regs (Ptr 0 0) Undef Undef))
        × (next_of (Ldlp (pos 4)) (regs Undef Undef Undef) ≡ Ok (regs (Ptr 11 11) Undef Undef)) }
    ensures ldlp_refused { (next_of (Ldlp (pos 5)) (regs Undef Undef Undef) ≡ Err S3)
        × (next_of (Ldlp (minus 8)) (regs Undef Undef Undef) ≡ Err S3)
        × (next_of (Ldlp (pos 2147483647)) (regs Undef Undef Undef) ≡ Err S3)
        × (next_of (Ldlp (minus 2147483648)) (regs Undef Undef Undef) ≡ Err S3) }
    ensures ldnlp { (next_of (Ldnlp (pos 3)) (regs (ints 1 2) (one 7) Undef) ≡ Ok (regs (ints 13 14) (one 7) Undef))
        × (next_of (Ldnlp (pos 536870911)) (regs (ints 3 4) Undef Undef) ≡ Ok (regs any Undef Undef))
        × (next_of (Ldnlp (pos 3)) (regs (Ptr 1 2) (one 7) Undef) ≡ Ok (regs (Ptr 4 5) (one 7) Undef))
        × (next_of (Ldnlp (pos 4)) (regs (Int (minus 2147483648) (minus 2147483648)) Undef Undef) ≡
        Ok (regs (Int (minus 2147483632) (minus 2147483632)) Undef Undef)) }
    ensures ldnlp_refused { (next_of (Ldnlp (pos 3)) (regs Undef Undef Undef) ≡ Err S1)
        × (next_of (Ldnlp (pos 0)) (regs (BytePtr 0 1) Undef Undef) ≡ Err S2)
        × (next_of (Ldnlp (pos 1)) (regs (Ptr 9 11) Undef Undef) ≡ Err S3)
        × (next_of (Ldnlp (minus 2)) (regs (Ptr 1 2) Undef Undef) ≡ Err S3)
        × (next_of (Ldnlp (pos 1073741824)) (regs (Ptr 0 0) Undef Undef) ≡ Err S3) }
{}

/// cj, ajw, seterr and stopp.
#[tactic(auto, unfolding(crate::proofs::Computing::by_computing))]
pub fn control_computed()
    ensures cj { (after image 12 14 (Cj (pos 2)) Taken (regs (ints 0 5) (one 7) (one 8)) ≡
        Ok (regs (one 0) (one 7) (one 8)))
        × (after image 12 14 (Cj (pos 2)) Next (regs (ints 0 5) (one 7) (one 8)) ≡ Ok (regs (one 7) (one 8) Undef)) }
    ensures cj_refused { (after image 12 14 (Cj (pos 2)) Taken (regs Undef Undef Undef) ≡ Err S1)
        × (after image 12 14 (Cj (pos 2)) Next (regs (Ptr 0 0) Undef Undef) ≡ Err S2) }
    ensures ajw { (next_of (Ajw (minus 2)) (regs (one 1) Undef Undef) ≡
        Ok (record (regs (one 1) Undef Undef) { wptr = 5 }))
        × (next_of (Ajw (pos 4)) (regs Undef Undef Undef) ≡ Ok (record (regs Undef Undef Undef) { wptr = 11 })) }
    ensures ajw_refused { (next_of (Ajw (minus 3)) (regs Undef Undef Undef) ≡ Err S6)
        × (next_of (Ajw (pos 5)) (regs Undef Undef Undef) ≡ Err S6)
        × (next_of (Ajw (minus 2147483648)) (regs Undef Undef Undef) ≡ Err S6)
        × (next_of (Ajw (pos 2147483647)) (regs Undef Undef Undef) ≡ Err S6) }
    ensures seterr { (next_of Seterr (regs (one 1) (Ptr 2 2) Undef) ≡ Ok (regs (one 1) (Ptr 2 2) Undef))
        × (next_of Seterr (regs Undef Undef Undef) ≡ Ok (regs Undef Undef Undef)) }
    ensures stopp { (next_of Stopp (record (regs (one 1) Undef Undef) { phase = 2 }) ≡
        Ok (record (regs (one 1) Undef Undef) { phase = 2 })) }
    ensures stopp_refused { (next_of Stopp (regs Undef Undef Undef) ≡ Err S9)
        × (next_of Stopp (record (regs Undef Undef Undef) { phase = 1 }) ≡ Err S9) }
{}

/// rev, bsub and wsub.
#[tactic(auto, unfolding(crate::proofs::Computing::by_computing))]
pub fn subscripts_computed()
    ensures rev { (next_of Rev (regs (one 1) (Ptr 2 2) (one 3)) ≡ Ok (regs (Ptr 2 2) (one 1) (one 3)))
        × (next_of Rev (regs (BytePtr 0 1) (one 0) Undef) ≡ Ok (regs (one 0) (BytePtr 0 1) Undef)) }
    ensures rev_refused { (next_of Rev (regs Undef (one 1) Undef) ≡ Err S1)
        × (next_of Rev (regs (one 1) Undef Undef) ≡ Err S1) }
    ensures bsub { (next_of Bsub (regs (Ptr 1 2) (ints 0 3) (one 9)) ≡ Ok (regs (BytePtr 4 11) (one 9) Undef))
        × (next_of Bsub (regs (BytePtr 4 11) (Int (minus 4) (pos 36)) (one 9)) ≡
        Ok (regs (BytePtr 0 47) (one 9) Undef)) }
    ensures bsub_refused { (next_of Bsub (regs Undef (Ptr 0 0) Undef) ≡ Err S1)
        × (next_of Bsub (regs (one 1) Undef Undef) ≡ Err S1)
        × (next_of Bsub (regs (one 1) (one 1) Undef) ≡ Err S2)
        × (next_of Bsub (regs (Ptr 1 1) (Ptr 1 1) Undef) ≡ Err S2)
        × (next_of Bsub (regs (BytePtr 40 44) (ints 3 4) Undef) ≡ Err S3)
        × (next_of Bsub (regs (BytePtr 1 1) (Int (minus 2) (minus 2)) Undef) ≡ Err S3)
        × (next_of Bsub (regs (Ptr 0 0) any Undef) ≡ Err S3) }
    ensures wsub { (next_of Wsub (regs (Ptr 1 2) (ints 0 3) (one 9)) ≡ Ok (regs (Ptr 1 5) (one 9) Undef))
        × (next_of Wsub (regs (Ptr 11 11) (Int (minus 11) (pos 0)) (one 9)) ≡ Ok (regs (Ptr 0 11) (one 9) Undef)) }
    ensures wsub_refused { (next_of Wsub (regs Undef (Ptr 0 0) Undef) ≡ Err S1)
        × (next_of Wsub (regs (one 1) Undef Undef) ≡ Err S1)
        × (next_of Wsub (regs (BytePtr 0 1) (one 1) Undef) ≡ Err S2)
        × (next_of Wsub (regs (Ptr 1 1) (Ptr 1 1) Undef) ≡ Err S2)
        × (next_of Wsub (regs (Ptr 1 2) (Int (minus 2) (pos 0)) Undef) ≡ Err S3)
        × (next_of Wsub (regs (Ptr 1 2) (ints 0 10) Undef) ≡ Err S3) }
{}
