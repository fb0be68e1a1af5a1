//! The results of operators on values.

ghost use Rattle.std.specs.Prelude.{◌≡◌, int_le};
ghost use Rattle.tp_words.specs.Words.{signed};
ghost use Rattle.tp_words.specs.Numbers.{truth};
ghost use Rattle.tpw_occam_core.specs.Meaning as core;
ghost use Rattle.tpw_occam_meaning.specs.Values as text;

use tp_words::{complement, difference, is_less, is_positive};
use tpw_occam_core::{Answer, Operator, applied, bind, pure};
use tpw_occam_meaning::{Dyadic, Monadic};

/// Whether a word is at most another, both read signed, as a word.
#[tactic(auto, using(tp_words::proofs::Casts::casts))]
fn is_at_most(a: u32, b: u32) -> u32
    ensures { result ≡ truth (int_le (signed a) (signed b)) }
{
    u32::from(a.cast_signed() <= b.cast_signed())
}

/// The result of an operator on a word.
pub fn monadic(operator: Monadic, a: u32) -> Answer
    ensures { result ≡ text.monadic operator a }
{
    match operator {
        Monadic::Negate => applied(Operator::Subtract, 0, a),
        Monadic::Minus => applied(Operator::Minus, 0, a),
        Monadic::Not => pure(u32::from(a == 0)),
        Monadic::Complement | Monadic::BitNot | Monadic::Size | Monadic::Convert(_) => {
            pure(complement(a))
        }
    }
}

fn of_words(operator: Dyadic, b: u32, a: u32) -> Answer
    ensures { result ≡ text.dyadic operator b a }
{
    match operator {
        Dyadic::Add => applied(Operator::Add, b, a),
        Dyadic::Subtract => applied(Operator::Subtract, b, a),
        Dyadic::Multiply => applied(Operator::Multiply, b, a),
        Dyadic::Divide => applied(Operator::Divide, b, a),
        Dyadic::Remainder => applied(Operator::Remainder, b, a),
        Dyadic::Rem => applied(Operator::Remainder, b, a),
        Dyadic::Plus => applied(Operator::Plus, b, a),
        Dyadic::Minus => applied(Operator::Minus, b, a),
        Dyadic::Times => applied(Operator::Times, b, a),
        Dyadic::Conjunction => applied(Operator::BitAnd, b, a),
        Dyadic::BitAnd => applied(Operator::BitAnd, b, a),
        Dyadic::Disjunction => applied(Operator::BitOr, b, a),
        Dyadic::BitOr => applied(Operator::BitOr, b, a),
        Dyadic::ExclusiveOr => applied(Operator::BitXor, b, a),
        Dyadic::ShiftLeft => applied(Operator::ShiftLeft, b, a),
        Dyadic::ShiftRight => applied(Operator::ShiftRight, b, a),
        Dyadic::Equal => pure(u32::from(b == a)),
        Dyadic::NotEqual => pure(u32::from(!(b == a))),
        Dyadic::Less => pure(is_less(b, a)),
        Dyadic::Greater => pure(is_less(a, b)),
        Dyadic::AtMost => pure(is_at_most(b, a)),
        Dyadic::AtLeast => pure(is_at_most(a, b)),
        Dyadic::After => pure(u32::from(is_positive(difference(b, a)))),
        Dyadic::And => both(b, pure(a)),
        Dyadic::Or => either(b, pure(a)),
    }
}

/// The result of `AND` on its left operand and the right one.
fn both(b: u32, right: Answer) -> Answer
    ensures { result ≡ core.both b right }
{
    if b == 0 { pure(0) } else { right }
}

/// The result of `OR` on its left operand and the right one.
fn either(b: u32, right: Answer) -> Answer
    ensures { result ≡ core.either b right }
{
    if b == 0 {
        Answer {
            word: u32::from(right.word > 0),
            flag: right.flag,
        }
    } else {
        pure(1)
    }
}

/// The result of an operator on its two operands.
pub fn combined(operator: Dyadic, left: Answer, right: Answer) -> Answer
    ensures { result ≡ text.combined operator left right }
{
    match operator {
        Dyadic::And => bind(left, both(left.word, right)),
        Dyadic::Or => bind(left, either(left.word, right)),
        other => bind(left, bind(right, of_words(other, left.word, right.word))),
    }
}
