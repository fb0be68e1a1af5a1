//! A worker that is stuck, and the state at a worker's start. Runs of whole workers are in [`table`](crate::table).
#![tactic(auto, unfolding(crate::proofs::Computing::by_steps))]

ghost use Rattle.std.specs.Prelude.{◌≡◌, ℕ, pos, [], ◌∷◌, true, false, Some, None};
ghost use Rattle.tp_step.specs.Runs.{start, StuckAt};
ghost use Rattle.test_effects.specs.Samples.{increment, reads_after_jump, moves_a_word};
ghost use Rattle.test_effects.specs.Trials.{words_at};

/// Whatever its packet, the worker that reads after j is stuck at its add, code byte 8.
pub fn stuck_after_jump()
    ensures { (a b c d : ℕ) → StuckAt reads_after_jump (a ∷ b ∷ c ∷ d ∷ []) (pos 8) }
{}

/// Wptr begins at the image's start word.
pub fn first_wptr()
    ensures word_8 { (start increment []).wptr ≡ 0x80000068 }
    ensures word_11 { (start (record increment { start = 11 }) []).wptr ≡ 0x80000074 }
{}

/// The workspace begins with the image's initial words and then zeros; behind it nothing is defined.
pub fn first_words()
    ensures version_1 { words_at (0 ∷ 11 ∷ 12 ∷ []) (start increment []) ≡ Some 0 ∷ Some 0 ∷ None ∷ [] }
    ensures version_2 { words_at (0 ∷ 1 ∷ 15 ∷ 16 ∷ []) (start moves_a_word [])
        ≡ Some 42 ∷ Some 0 ∷ Some 0 ∷ None ∷ [] }
{}
