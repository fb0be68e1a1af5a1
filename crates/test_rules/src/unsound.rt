//! Why the order is kept of sound states alone: for each of the four things that a sound state is, one that is not it,
//! and all of the others, below a state after which more is known.

ghost use Rattle.std.specs.Prelude.{◌^◌, pos, [], ◌∷◌, ◌++◌, replicate};
ghost use Rattle.tp_decode.specs.declared.instr.Instr.TheVariants.{Ldl, Ldnl, Stl, BitAnd};
ghost use Rattle.tp_state.specs.declared.kind.Kind.TheVariants.{Undef, Int, Ptr};
ghost use Rattle.tp_state.specs.declared.cell.Cell.TheVariants as cell;
ghost use Rattle.test_rules.specs.Samples.{minus, ints, one, regs, regs_words, words};
ghost use Rattle.test_rules.specs.Unsound.{BreaksTheOrder};

/// Ranges that are not in order, numbers that are no words, live control words of no loop and states with too few words
/// break the order.
pub fn states_have_to_be_sound()
    // a range from 5 to 3 is stored as any number, and 4 as 4
    ensures order { BreaksTheOrder (Stl (pos 0)) (regs (Int (pos 5) (pos 3)) Undef Undef) (regs (one 4) Undef Undef) }
    // a range up to 2^40 is what and gives of it, where a range that begins below 0 gives any word
    ensures ends { BreaksTheOrder BitAnd (regs (ints 0 (2 ^ 40)) (ints 0 (2 ^ 40)) Undef)
        (regs (Int (minus 1) (pos (2 ^ 40))) (Int (minus 1) (pos (2 ^ 40))) Undef) }
    // a known number of 2^40 is read as such, where any number is read as any word
    ensures known { BreaksTheOrder (Ldl (minus 7))
        (regs_words Undef Undef Undef (cell.Known (pos (2 ^ 40)) ∷ replicate 11 cell.Any))
        (regs_words Undef Undef Undef (replicate 12 cell.Any)) }
    // an index of no loop cannot be read, where one of two words is any word
    ensures rows { BreaksTheOrder (Ldnl (pos 0))
        (regs_words (Ptr 0 0) Undef Undef (cell.Index 7 ∷ replicate 11 cell.Any))
        (regs_words (Ptr 0 1) Undef Undef (cell.Index 7 ∷ replicate 11 cell.Any)) }
    // a word that is missing cannot be read, where one of words of which some are missing is any word
    ensures placed { BreaksTheOrder (Ldnl (pos 0)) (regs_words (Ptr 4 4) Undef Undef (replicate 2 cell.Any))
        (regs_words (Ptr 1 4) Undef Undef (replicate 2 cell.Any)) }
{}
