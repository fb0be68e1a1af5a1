//! Laws of memory: reading behind writing, and at the start.

ghost use Rattle.std.specs.Prelude.{◌≡◌, ◌⊎◌, ℕ, ◌+◌, ◌*◌, ◌^◌, ◌<◌, ◌≤◌, List, Some, None, slice_index_or};
ghost use Rattle.tp_image.specs.Image.{ImageValue, InRange};
ghost use Rattle.tp_step.specs.Memory.{Memory, undefined, word_at, with_word};
ghost use Rattle.tp_step.specs.State.{mem_start};
ghost use Rattle.tp_step.specs.Runs.{start};

/// A word that is stored is read back, and a word that shares no byte with it stays.
#[tactic(auto, using(crate::proofs::MemoryLemmas::word_same, crate::proofs::MemoryLemmas::word_other))]
pub fn stored_words()
    ensures same { (memory : Memory) (a word : ℕ) → word < 2 ^ 32 →
        word_at (with_word memory a word) a ≡ Some word }
    ensures other { (memory : Memory) (a b word : ℕ) → (a + 4 ≤ b) ⊎ (b + 4 ≤ a) →
        word_at (with_word memory b word) a ≡ word_at memory a }
{}

/// Where bytes become undefined, a word that has none of them stays.
#[tactic(auto, using(crate::proofs::MemoryLemmas::word_kept))]
pub fn undefined_bytes()
    ensures other { (memory : Memory) (a b n : ℕ) → (a + 4 ≤ b) ⊎ (b + n ≤ a) →
        word_at (undefined memory b n) a ≡ word_at memory a }
{}

/// The workspace begins with the image's initial words, and then zeros; nothing else is defined.
#[tactic(auto, using(crate::proofs::StartLemmas::start_word, crate::proofs::StartLemmas::start_outside))]
pub fn first_words()
    ensures inside { (image : ImageValue) (packet : List ℕ) (i : ℕ) → InRange image → i < image.workspace →
        word_at (start image packet).memory (mem_start + 4 * i) ≡ Some (slice_index_or image.initial i 0) }
    ensures outside { (image : ImageValue) (packet : List ℕ) (a : ℕ) → InRange image →
        (a < mem_start) ⊎ (mem_start + 4 * image.workspace ≤ a) → (start image packet).memory a ≡ None }
{}
