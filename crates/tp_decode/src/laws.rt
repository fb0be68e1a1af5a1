//! Laws of cuttings: each function's contract is the law.

ghost use Rattle.std.specs.Prelude.{◌≡◌, ℕ, pos, List, [], ◌∷◌, replicate, slice_get};
ghost use Rattle.std.specs.Option.{option_and_then};
ghost use Rattle.tp_decode.specs.declared.instr.Instr.{Instr};
ghost use Rattle.tp_decode.specs.declared.instr.Instr.TheVariants.{Ldc};
ghost use Rattle.tp_decode.specs.Cutting.{Cut, IsSpelled, cutting, cut_at, index_from};

/// The instruction at an address is that of the number which is at the address.
#[tactic(auto, using(crate::proofs::NumberLemmas::cut_by_number))]
pub fn number_leads_to_instruction()
    ensures { (cuts : List Cut) (at : ℕ) → cut_at cuts at ≡ option_and_then (slice_get cuts) (index_from 0 cuts at) }
{}

/// The cutting computes in time that goes with the code's length: a thousand `ldc 0`.
#[tactic(auto, unfolding(crate::specs::Cutting::cutting_from, crate::specs::Cutting::spelled_instruction, crate::specs::Table::instruction))]
pub fn long_code_is_cut_by_computing()
    ensures { cutting (replicate 1000 0x40) ≡ Ok (replicate 1000 (record { bytes = 0x40 ∷ []; instr = Ldc (pos 0) })) }
{}
