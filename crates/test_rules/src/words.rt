//! States after instructions that read or write words and bytes: computed examples.

ghost use Rattle.std.specs.Prelude.{◌≡◌, pos, [], ◌∷◌, ◌++◌, replicate, Ok, Err};
ghost use Rattle.tp_decode.specs.declared.instr.Instr.TheVariants.{Ldnl, Ldl, Stl, Stnl, Lb, Sb, MoveBytes};
ghost use Rattle.tp_image.specs.declared.image.Version.TheVariants.{Two};
ghost use Rattle.tp_flow.specs.declared.edge.Edge.TheVariants.{Next};
ghost use Rattle.tp_state.specs.declared.kind.Kind.TheVariants.{Undef, Int, Ptr, BytePtr};
ghost use Rattle.tp_state.specs.declared.cell.Cell.TheVariants as cell;
ghost use Rattle.tp_state.specs.declared.fault.StateCode.TheVariants.{S1, S2, S3, S4, S5, S7, S11};
ghost use Rattle.tp_state.specs.After.{after};
ghost use Rattle.test_rules.specs.Samples.{minus, ints, one, any, image_of, regs, regs_words, words_with, next_of};

/// ldl and ldnl.
#[tactic(auto, unfolding(crate::proofs::Computing::by_computing))]
pub fn loads_computed()
    ensures ldl { (next_of (Ldl (pos 0)) (regs (one 1) (one 2) (one 3)) ≡ Ok (regs (one 9) (one 1) (one 2)))
        × (next_of (Ldl (pos 1)) (regs Undef Undef Undef) ≡ Ok (regs (ints 5 7) Undef Undef))
        × (next_of (Ldl (pos 2)) (regs Undef Undef Undef) ≡ Ok (regs (ints 1 3) Undef Undef))
        × (next_of (Ldl (pos 4)) (regs Undef Undef Undef) ≡ Ok (regs any Undef Undef))
        × (next_of (Ldl (minus 6)) (regs Undef Undef Undef) ≡ Ok (regs (Int (minus 1) (minus 1)) Undef Undef)) }
    ensures ldl_refused { (next_of (Ldl (pos 5)) (regs Undef Undef Undef) ≡ Err S3)
        × (next_of (Ldl (minus 8)) (regs Undef Undef Undef) ≡ Err S3)
        × (next_of (Ldl (pos 1073741824)) (regs Undef Undef Undef) ≡ Err S3)
        × (next_of (Ldl (pos 3)) (regs Undef Undef Undef) ≡ Err S4) }
    ensures ldnl { (next_of (Ldnl (pos 0)) (regs (Ptr 7 7) (one 2) (one 3)) ≡ Ok (regs (one 9) (one 2) (one 3)))
        × (next_of (Ldnl (minus 1)) (regs (Ptr 9 9) Undef Undef) ≡ Ok (regs (ints 5 7) Undef Undef))
        × (next_of (Ldnl (pos 0)) (regs (Ptr 0 2) Undef Undef) ≡ Ok (regs any Undef Undef))
        × (next_of (Ldnl (pos 1)) (regs (Ptr 0 1) Undef Undef) ≡ Ok (regs any Undef Undef)) }
    ensures ldnl_refused { (next_of (Ldnl (pos 0)) (regs Undef Undef Undef) ≡ Err S1)
        × (next_of (Ldnl (pos 0)) (regs (one 1) Undef Undef) ≡ Err S2)
        × (next_of (Ldnl (pos 0)) (regs (BytePtr 0 1) Undef Undef) ≡ Err S2)
        × (next_of (Ldnl (pos 1)) (regs (Ptr 10 11) Undef Undef) ≡ Err S3)
        × (next_of (Ldnl (minus 1)) (regs (Ptr 0 11) Undef Undef) ≡ Err S3)
        × (next_of (Ldnl (pos 2)) (regs (Ptr 7 8) Undef Undef) ≡ Err S4)
        × (next_of (Ldnl (pos 0)) (regs (Ptr 10 10) Undef Undef) ≡ Err S4) }
{}

/// stl and stnl.
#[tactic(auto, unfolding(crate::proofs::Computing::by_computing))]
pub fn stores_computed()
    ensures stl { (next_of (Stl (pos 0)) (regs (one 3) (one 2) (one 1)) ≡ Ok (regs_words (one 2) (one 1) Undef
        (words_with (cell.Known (pos 3) ∷ cell.Index 0 ∷ cell.Count 0 ∷ cell.Undef ∷ cell.Any ∷ []))))
        × (next_of (Stl (pos 3)) (regs (ints 1 2) Undef Undef) ≡ Ok (regs_words Undef Undef Undef
        (words_with (cell.Known (pos 9) ∷ cell.Index 0 ∷ cell.Count 0 ∷ cell.Any ∷ cell.Any ∷ []))))
        × (next_of (Stl (pos 3)) (regs (Ptr 1 1) Undef Undef) ≡ Ok (regs_words Undef Undef Undef
        (words_with (cell.Known (pos 9) ∷ cell.Index 0 ∷ cell.Count 0 ∷ cell.Any ∷ cell.Any ∷ [])))) }
    ensures stl_refused { (next_of (Stl (pos 9)) (regs Undef Undef Undef) ≡ Err S1)
        × (next_of (Stl (pos 5)) (regs (one 1) Undef Undef) ≡ Err S3)
        × (next_of (Stl (minus 2147483648)) (regs (one 1) Undef Undef) ≡ Err S3)
        × (next_of (Stl (pos 1)) (regs (one 5) Undef Undef) ≡ Err S5)
        × (next_of (Stl (pos 2)) (regs (one 3) Undef Undef) ≡ Err S5) }
    ensures stnl { (next_of (Stnl (pos 0)) (regs (Ptr 7 7) (one 4) (one 1)) ≡ Ok (regs_words (one 1) Undef Undef
        (words_with (cell.Known (pos 4) ∷ cell.Index 0 ∷ cell.Count 0 ∷ cell.Undef ∷ cell.Any ∷ []))))
        × (next_of (Stnl (pos 3)) (regs (Ptr 7 8) (one 4) Undef) ≡ Ok (regs_words Undef Undef Undef
        (words_with (cell.Known (pos 9) ∷ cell.Index 0 ∷ cell.Count 0 ∷ cell.Undef ∷ cell.Any ∷ []))))
        × (next_of (Stnl (pos 0)) (regs (Ptr 0 2) (one 4) (one 1)) ≡
        Ok (regs_words (one 1) Undef Undef (cell.Any ∷ cell.Any ∷ cell.Any ∷ replicate 4 (cell.Known (pos 0))
        ++ (cell.Known (pos 9) ∷ cell.Index 0 ∷ cell.Count 0 ∷ cell.Undef ∷ cell.Any ∷ [])))) }
    ensures stnl_refused { (next_of (Stnl (pos 0)) (regs (one 1) Undef Undef) ≡ Err S1)
        × (next_of (Stnl (pos 0)) (regs Undef (one 1) Undef) ≡ Err S1)
        × (next_of (Stnl (pos 0)) (regs (one 1) (one 1) Undef) ≡ Err S2)
        × (next_of (Stnl (pos 1)) (regs (Ptr 11 11) (one 1) Undef) ≡ Err S3)
        × (next_of (Stnl (pos 0)) (regs (Ptr 7 8) (one 1) Undef) ≡ Err S5)
        × (next_of (Stnl (pos 0)) (regs (Ptr 9 9) (one 1) Undef) ≡ Err S5) }
{}

/// lb and sb.
#[tactic(auto, unfolding(crate::proofs::Computing::by_computing))]
pub fn bytes_computed()
    ensures lb { (next_of Lb (regs (Ptr 0 1) (one 2) Undef) ≡ Ok (regs (ints 0 255) (one 2) Undef))
        × (next_of Lb (regs (BytePtr 28 39) Undef Undef) ≡ Ok (regs (ints 0 255) Undef Undef)) }
    ensures lb_refused { (next_of Lb (regs Undef Undef Undef) ≡ Err S1)
        × (next_of Lb (regs (one 1) Undef Undef) ≡ Err S2)
        × (next_of Lb (regs (BytePtr 39 40) Undef Undef) ≡ Err S4)
        × (next_of Lb (regs (Ptr 10 10) Undef Undef) ≡ Err S4) }
    ensures sb { (next_of Sb (regs (BytePtr 28 31) (one 1) (one 2)) ≡ Ok (regs_words (one 2) Undef Undef
        (words_with (cell.Any ∷ cell.Index 0 ∷ cell.Count 0 ∷ cell.Undef ∷ cell.Any ∷ []))))
        × (next_of Sb (regs (BytePtr 43 44) (one 1) Undef) ≡ Ok (regs_words Undef Undef Undef
        (words_with (cell.Known (pos 9) ∷ cell.Index 0 ∷ cell.Count 0 ∷ cell.Undef ∷ cell.Any ∷ []))))
        × (next_of Sb (regs (Ptr 7 7) any (Ptr 3 3)) ≡ Ok (regs_words (Ptr 3 3) Undef Undef
        (words_with (cell.Any ∷ cell.Index 0 ∷ cell.Count 0 ∷ cell.Undef ∷ cell.Any ∷ [])))) }
    ensures sb_refused { (next_of Sb (regs Undef (one 1) Undef) ≡ Err S1)
        × (next_of Sb (regs (one 1) Undef Undef) ≡ Err S1)
        × (next_of Sb (regs (Ptr 1 1) (Ptr 1 1) Undef) ≡ Err S2)
        × (next_of Sb (regs (one 1) (one 1) Undef) ≡ Err S2)
        × (next_of Sb (regs (BytePtr 31 32) (one 1) Undef) ≡ Err S5)
        × (next_of Sb (regs (Ptr 9 9) (one 1) Undef) ≡ Err S5) }
{}

/// move.
#[tactic(auto, unfolding(crate::proofs::Computing::by_computing))]
pub fn copies_computed()
    ensures copied { (after (image_of Two 1 1) 12 14 MoveBytes Next (regs (one 8) (Ptr 3 3) (Ptr 7 7)) ≡
        Ok (regs_words Undef Undef Undef
        (cell.Known (pos 0) ∷ cell.Known (minus 1) ∷ cell.Any ∷ cell.Known (pos 9) ∷ cell.Any ∷ cell.Known
        (pos 0) ∷ cell.Known (pos 0) ∷ cell.Known (pos 9) ∷ cell.Index 0 ∷ cell.Count 0 ∷ cell.Undef ∷ cell.Any ∷ [])))
        × (after (image_of Two 1 1) 12 14 MoveBytes Next (regs (one 4) (Ptr 11 11) (Ptr 1 1)) ≡
        Ok (regs_words Undef Undef Undef
        (words_with (cell.Known (pos 9) ∷ cell.Index 0 ∷ cell.Count 0 ∷ cell.Undef ∷ cell.Known (minus 1) ∷ [])))) }
    ensures version { (next_of MoveBytes (regs (one 4) (Ptr 11 11) (Ptr 1 1)) ≡ Err S11)
        × (next_of MoveBytes (regs Undef Undef Undef) ≡ Err S11) }
    ensures registers { (after (image_of Two 1 1) 12 14 MoveBytes Next (regs Undef (one 1) (one 1)) ≡ Err S1)
        × (after (image_of Two 1 1) 12 14 MoveBytes Next (regs (one 4) (Ptr 1 1) Undef) ≡ Err S1)
        × (after (image_of Two 1 1) 12 14 MoveBytes Next (regs (Ptr 1 1) (Ptr 1 1) (Ptr 2 2)) ≡ Err S2)
        × (after (image_of Two 1 1) 12 14 MoveBytes Next (regs (one 4) (Ptr 1 2) (Ptr 5 5)) ≡ Err S2)
        × (after (image_of Two 1 1) 12 14 MoveBytes Next (regs (one 4) (Ptr 1 1) (one 2)) ≡ Err S2) }
    ensures length { (after (image_of Two 1 1) 12 14 MoveBytes Next (regs (one 6) (Ptr 1 1) (Ptr 5 5)) ≡ Err S7)
        × (after (image_of Two 1 1) 12 14 MoveBytes Next (regs (one 0) (Ptr 1 1) (Ptr 5 5)) ≡ Err S7)
        × (after (image_of Two 1 1) 12 14 MoveBytes Next (regs (one 2052) (Ptr 1 1) (Ptr 5 5)) ≡ Err S7)
        × (after (image_of Two 1 1) 12 14 MoveBytes Next (regs (ints 4 8) (Ptr 1 1) (Ptr 5 5)) ≡ Err S7)
        × (after (image_of Two 1 1) 12 14 MoveBytes Next (regs (Int (minus 4) (minus 4)) (Ptr 1 1) (Ptr 5 5)) ≡ Err S7)
        × (after (image_of Two 1 1) 12 14 MoveBytes Next (regs (one 6) (Ptr 8 8) (Ptr 8 8)) ≡ Err S7) }
    ensures place { (after (image_of Two 1 1) 12 14 MoveBytes Next (regs (one 8) (Ptr 11 11) (Ptr 1 1)) ≡ Err S3)
        × (after (image_of Two 1 1) 12 14 MoveBytes Next (regs (one 8) (Ptr 1 1) (Ptr 11 11)) ≡ Err S3)
        × (after (image_of Two 1 1) 12 14 MoveBytes Next (regs (one 8) (Ptr 7 7) (Ptr 8 8)) ≡ Err S3)
        × (after (image_of Two 1 1) 12 14 MoveBytes Next (regs (one 8) (Ptr 8 8) (Ptr 7 7)) ≡ Err S3)
        × (after (image_of Two 1 1) 12 14 MoveBytes Next (regs (one 2048) (Ptr 0 0) (Ptr 5 5)) ≡ Err S3) }
    ensures undefined { (after (image_of Two 1 1) 12 14 MoveBytes Next (regs (one 8) (Ptr 0 0) (Ptr 9 9)) ≡ Err S4)
        × (after (image_of Two 1 1) 12 14 MoveBytes Next (regs (one 4) (Ptr 8 8) (Ptr 10 10)) ≡ Err S4) }
    ensures live { (after (image_of Two 1 1) 12 14 MoveBytes Next (regs (one 4) (Ptr 8 8) (Ptr 0 0)) ≡ Err S5)
        × (after (image_of Two 1 1) 12 14 MoveBytes Next (regs (one 8) (Ptr 6 6) (Ptr 0 0)) ≡
        Ok (regs_words Undef Undef Undef
        (cell.Known (pos 0) ∷ cell.Known (minus 1) ∷ cell.Any ∷ cell.Known (pos 0) ∷ cell.Known (pos 0) ∷ cell.Known
        (pos 0) ∷ cell.Known (pos 0) ∷ cell.Known
        (minus 1) ∷ cell.Index 0 ∷ cell.Count 0 ∷ cell.Undef ∷ cell.Any ∷ [])))
        × (after (image_of Two 1 1) 12 14 MoveBytes Next (regs (one 8) (Ptr 7 7) (Ptr 0 0)) ≡ Err S5) }
{}
