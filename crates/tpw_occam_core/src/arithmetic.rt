//! The results of operators on words.
#![tactic(auto, using(tp_words::proofs::Casts::casts))]

ghost use Rattle.std.specs.Prelude.{◌≡◌};
ghost use Rattle.tpw_occam_core.specs.Arithmetic.{answer, pure, subscript, quotient_answer, shifted_left};
ghost use Rattle.tpw_occam_core.specs.Arithmetic.{shifted_right, applied, low_byte};
ghost use Rattle.tpw_occam_core.specs.Meaning.{bind};

use crate::expression::Operator;
use tp_words::{
    checked_difference, checked_product, checked_sum, difference, is_less, quotient, remainder, sum,
};

/// A word, and whether the error flag is to be set.
#[derive(Clone, Copy, Debug, PartialEq, Eq)]
pub struct Answer {
    pub word: u32,
    pub flag: bool,
}

/// A word that sets no flag.
pub fn pure(word: u32) -> Answer
    ensures { result ≡ pure word }
{
    Answer { word, flag: false }
}

/// The second answer, with the flag of the first kept.
pub fn bind(first: Answer, second: Answer) -> Answer
    ensures { result ≡ bind first (λ word. second) }
{
    Answer {
        word: second.word,
        flag: first.flag || second.flag,
    }
}

/// A word, and its flag.
fn flagged(of: (u32, bool)) -> Answer
    ensures { result ≡ answer of.0 of.1 }
{
    Answer {
        word: of.0,
        flag: of.1,
    }
}

/// A quotient or a remainder, or 0 and the flag where there is none.
fn divided(quotient: Option<u32>) -> Answer
    ensures { result ≡ quotient_answer quotient }
{
    match quotient {
        Some(word) => pure(word),
        None => Answer {
            word: 0,
            flag: true,
        },
    }
}

/// A subscript, checked against a size.
pub fn checked_subscript(below: usize, word: u32) -> Answer
    ensures { result ≡ subscript below word }
{
    if (word as usize) < below {
        pure(word)
    } else {
        Answer {
            word: ((word % 0x8000_0000) as usize % below.max(1)) as u32,
            flag: true,
        }
    }
}

/// The low byte of a word. The flag is set where there is more.
pub fn low_byte(word: u32) -> Answer
    ensures { result ≡ low_byte word }
{
    Answer {
        word: word % 256,
        flag: word >= 256,
    }
}

fn shifted_left(b: u32, a: u32) -> Answer
    ensures { result ≡ shifted_left b a }
{
    let count = checked_subscript(32, a);
    Answer {
        word: b << count.word,
        flag: count.flag,
    }
}

fn shifted_right(b: u32, a: u32) -> Answer
    ensures { result ≡ shifted_right b a }
{
    let count = checked_subscript(32, a);
    Answer {
        word: b >> count.word,
        flag: count.flag,
    }
}

/// The result of an operator on two words.
pub fn applied(operator: Operator, b: u32, a: u32) -> Answer
    ensures { result ≡ applied operator b a }
{
    match operator {
        Operator::Add => flagged(checked_sum(b, a)),
        Operator::Subtract => flagged(checked_difference(b, a)),
        Operator::Multiply => flagged(checked_product(b, a)),
        Operator::Plus => pure(sum(b, a)),
        Operator::Minus => pure(difference(b, a)),
        Operator::Times => pure(checked_product(b, a).0),
        Operator::Divide => divided(quotient(b, a)),
        Operator::Remainder => divided(remainder(b, a)),
        Operator::BitAnd => pure(b & a),
        Operator::BitOr => pure(b | a),
        Operator::BitXor => pure(b ^ a),
        Operator::ShiftLeft => shifted_left(b, a),
        Operator::ShiftRight => shifted_right(b, a),
        Operator::Equal => pure(u32::from(b == a)),
        Operator::Greater => pure(is_less(a, b)),
    }
}
