ghost use Rattle.std.specs.Prelude.{◌≡◌, ◌≢◌, ℕ, ◌<◌, ◌≤◌, List, length};
ghost use Rattle.tp_prefix.specs.Spelling.{IsSpelling};
ghost use Rattle.tp_prefix.specs.Canonical.{natural_spelling, canonical};

use crate::{MAX_SPELLING, NFIX, PFIX};
use arrayvec::ArrayVec;

/// The shortest spelling of a function with an operand, 1 to 8 bytes: the canonical one.
pub fn encode(function: u8, operand: i32) -> ArrayVec<u8, 8>
    requires function { function < 16 }
    requires no_pfix { function ≢ PFIX }
    requires no_nfix { function ≢ NFIX }
    ensures canonical { result.items ≡ canonical function operand }
    ensures spelling { IsSpelling result.items function operand }
    ensures least { (bytes : List ℕ) → IsSpelling bytes function operand → length result.items ≤ length bytes }
{
    if operand < 0 {
        let complement = (!operand).cast_unsigned();
        let mut bytes = natural(NFIX, complement / 16);
        bytes.push(16 * function + (15 - (complement % 16) as u8));
        bytes
    } else {
        natural(function, operand.cast_unsigned())
    }
}

/// The canonical spelling of a function with an operand that is not negative.
fn natural(function: u8, operand: u32) -> ArrayVec<u8, 8>
    requires function { function < 16 }
    ensures { result.items ≡ natural_spelling 8 function operand }
{
    let mut bytes = if operand < 16 {
        ArrayVec::new()
    } else {
        natural(PFIX, operand / 16)
    };
    bytes.push(16 * function + (operand % 16) as u8);
    bytes
}
