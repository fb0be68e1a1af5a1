//! How much is declared, and what stands for a value that is passed.

ghost use Rattle.std.specs.Prelude.{◌≡◌, ◌+◌, IfOk};
ghost use Rattle.tpw_occam_names.specs.Scopes.{word_of};
ghost use Rattle.tpw_occam_scoped.specs.Made as made;
ghost use Rattle.tpw_occam_scoped.specs.Made.{value_made};

use tpw_occam_names::{Fault, Word};
use tpw_occam_scoped::Value;

/// One more.
pub fn next(d: usize) -> Result<usize, Fault>
    ensures { IfOk result (λ n. n ≡ d + 1) }
{
    if d == usize::MAX {
        Err(Fault::Deep)
    } else {
        Ok(d + 1)
    }
}

/// A constant stands for itself, and a cell for another value.
pub fn word_passed(d: usize, value: &Value) -> Word
    ensures { word_of result ≡ made.word_passed d (value_made value.now) }
{
    match value {
        Value::Known(answer) => {
            if answer.flag {
                Word::Kept(d)
            } else {
                Word::Constant(answer.word)
            }
        }
        Value::Varying(_) => Word::Kept(d),
    }
}

/// How much is declared behind a value that is passed.
pub fn depth_behind(d: usize, value: &Value) -> Result<usize, Fault>
    ensures { IfOk result (λ n. n ≡ made.depth_behind d (value_made value.now)) }
{
    match value {
        Value::Known(answer) => { if answer.flag { next(d) } else { Ok(d) } }
        Value::Varying(_) => next(d),
    }
}
