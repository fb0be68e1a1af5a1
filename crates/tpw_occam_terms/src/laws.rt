//! Laws of what is spelled: each function's contract is the law.

ghost use Rattle.std.specs.Prelude.{◌≡◌, ℕ, List};
ghost use Rattle.tpw_occam_terms.specs.Spelling.{Spells};

/// A text spells one thing alone.
pub fn texts_spell_one_thing()
    ensures { (spelled a b : List ℕ) → Spells spelled a → Spells spelled b → a ≡ b }
{}
