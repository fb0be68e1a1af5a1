//! The names of instructions.

ghost use Rattle.std.specs.Prelude.{◌≡◌};
ghost use Rattle.tpw_text.specs.Names.{function_by_name, function_named, operation_named};

use crate::words::Word;
use tp_decode::{FUNCTIONS, Instr, OPERATIONS};

/// The instruction with an operand of its own that has this name, at the operand 0.
#[tactic(auto, unfolding(crate::specs::Names::function_by_name))]
fn function_by_name(word: &Word<'_>) -> Option<Instr>
    ensures { result ≡ function_by_name word.now.text.now }
{
    FUNCTIONS.iter().copied().find(|i| word.is(i.name()))
}

/// The code of the function of this name, of those with an operand of their own.
#[tactic(auto, unfolding(crate::specs::Names::function_named))]
pub fn function_of(word: &Word<'_>) -> Option<u8>
    ensures { result ≡ function_named word.now.text.now }
{
    match function_by_name(word) {
        Some(instr) => Some(instr.function()),
        None => None,
    }
}

/// The operation of this name.
#[tactic(auto, unfolding(crate::specs::Names::operation_named))]
pub fn operation_of(word: &Word<'_>) -> Option<Instr>
    ensures { result ≡ operation_named word.now.text.now }
{
    OPERATIONS.iter().copied().find(|i| word.is(i.name()))
}
