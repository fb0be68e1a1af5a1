//! Laws of spellings: each function's contract is the law.

ghost use Rattle.std.specs.Prelude.{◌≡◌, ◌≢◌, ℕ, ◌+◌, ◌<◌, ◌++◌, ℤ, List, length, FitsSigned};
ghost use Rattle.std.specs.Int.{w32};
ghost use Rattle.tp_prefix.specs.Spelling.{IsSpelling, IsSpelledAt};
ghost use Rattle.tp_prefix.specs.Canonical.{canonical};

use crate::{NFIX, PFIX};

/// No spelling begins another, so what follows a spelling does not change how it is read.
pub fn one_spelling()
    ensures { (a b x y : List ℕ) (f g : ℕ) (d e : ℤ) → IsSpelling a f d → IsSpelling b g e → a ++ x ≡ b ++ y →
        (a ≡ b) × (f ≡ g) × (d ≡ e) }
{}

/// The canonical spelling is read back, whatever is before and after it.
pub fn round_trip()
    ensures { (function : ℕ) (operand : ℤ) (before after : List ℕ) →
        function < 16 → function ≢ PFIX → function ≢ NFIX → FitsSigned w32 operand →
        IsSpelledAt (before ++ canonical function operand ++ after) (length before)
        record { function = function; operand = operand; next = length before + length (canonical function operand) } }
{}
