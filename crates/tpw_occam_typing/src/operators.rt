//! Operators: the types that they take and make, and the constants.

use crate::value::{Constness, Root, Value, answered};
use tpw_occam_core::{Answer, low_byte as low_byte_of};
use tpw_occam_meaning::{Dyadic, Monadic};
use tpw_occam_names as names;
use tpw_occam_terms::{Primitive, Span};

/// The type of the operands of an operator; none where they are of one type, whichever that is.
pub(crate) fn operands_of(operator: Dyadic) -> Option<Primitive> {
    match operator {
        Dyadic::Equal | Dyadic::NotEqual => None,
        Dyadic::Less | Dyadic::Greater | Dyadic::AtMost | Dyadic::AtLeast => None,
        Dyadic::And | Dyadic::Or => Some(Primitive::Bool),
        _ => Some(Primitive::Int),
    }
}

/// The type of the operand of an operator; none where there are several.
pub(crate) fn operand_of(operator: Monadic) -> Option<Primitive> {
    match operator {
        Monadic::Negate | Monadic::Minus => Some(Primitive::Int),
        Monadic::Complement | Monadic::BitNot => Some(Primitive::Int),
        Monadic::Not => Some(Primitive::Bool),
        Monadic::Size | Monadic::Convert(_) => None,
    }
}

/// Whether an operator compares by order.
pub(crate) fn is_order(operator: Dyadic) -> bool {
    matches!(
        operator,
        Dyadic::Less | Dyadic::Greater | Dyadic::AtMost | Dyadic::AtLeast
    )
}

/// A word that sets no flag.
fn plain(word: u32) -> Answer {
    Answer { word, flag: false }
}

/// The value of an operator that converts nothing on its operand.
pub(crate) fn of_one(operator: Monadic, e: Value, span: Span) -> Value {
    let constness = match e.constness {
        Constness::Constant(word) => answered(names::monadic(operator, word), span),
        constness => constness,
    };
    Value {
        of: names::type_of_one(operator),
        constness,
        root: Root::Made,
    }
}

/// `BYTE` of an INT.
pub(crate) fn low_byte(e: Value, span: Span) -> Value {
    let constness = match e.constness {
        Constness::Constant(word) => answered(low_byte_of(word), span),
        constness => constness,
    };
    Value {
        of: Primitive::Byte,
        constness,
        root: Root::Made,
    }
}

/// The constness of a subscript, or of a count of shifts, that is to be below a size.
pub(crate) fn checked(below: u32, constness: Constness, span: Span) -> Constness {
    match constness {
        Constness::Constant(word) if word >= below => Constness::Flagged(span),
        constness => constness,
    }
}

/// The left operand, which decides: a constant only where the right one is made of constants too.
fn decided(left: Constness, right: Constness) -> Constness {
    match right {
        Constness::Computed => Constness::Computed,
        _ => left,
    }
}

/// The constness of two values that are both needed.
fn both(left: Constness, right: Constness) -> Constness {
    match left {
        Constness::Constant(word) => {
            if word == 0 {
                decided(left, right)
            } else {
                right
            }
        }
        other => other.with(right),
    }
}

/// The constness of one of two values.
fn either(left: Constness, right: Constness) -> Constness {
    match left {
        Constness::Constant(word) => {
            if word == 0 {
                right
            } else {
                decided(left, right)
            }
        }
        other => other.with(right),
    }
}

/// The constness of an operator's value on two that both count. Where both set the flag, `<` and `>=` tell of the right
/// one, which the worker works out first.
fn of_words(operator: Dyadic, left: Constness, right: Constness, span: Span) -> Constness {
    match (left, right) {
        (Constness::Constant(b), Constness::Constant(a)) => {
            answered(names::combined(operator, plain(b), plain(a)), span)
        }
        (left, right) => match operator {
            Dyadic::Less | Dyadic::AtLeast => right.with(left),
            _ => left.with(right),
        },
    }
}

/// The constness of an operator's value on two.
fn constness_of(operator: Dyadic, left: Constness, right: Constness, span: Span) -> Constness {
    match operator {
        Dyadic::And => both(left, right),
        Dyadic::Or => either(left, right),
        other => of_words(other, left, right, span),
    }
}

/// Where the value of an operator comes from: that of AND and OR is the right one where a constant on the left lets it
/// decide.
fn root_of(operator: Dyadic, left: Constness, right: Root) -> Root {
    match (operator, left) {
        (Dyadic::And, Constness::Constant(word)) if word != 0 => right,
        (Dyadic::Or, Constness::Constant(word)) if word == 0 => right,
        (_, _) => Root::Made,
    }
}

/// The value of an operator on two, whose types are right.
pub(crate) fn of_two(operator: Dyadic, left: Value, right: Value, span: Span) -> Value {
    Value {
        of: names::type_of_two(operator),
        constness: constness_of(operator, left.constness, right.constness, span),
        root: root_of(operator, left.constness, right.root),
    }
}
