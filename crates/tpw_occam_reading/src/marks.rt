//! The tokens of operators, types and the like.

ghost use Rattle.std.specs.Prelude.{◌≡◌, ◌∷◌, IfSome, IsTrue};
ghost use Rattle.tpw_occam_lexing.specs.Lexemes.{lexeme_of};
ghost use Rattle.tpw_occam_reading.specs.Seen.{seen};
ghost use Rattle.tpw_occam_reading.specs.Spelled.{of_primitive, of_direction, of_truth, of_most, of_monadic, of_dyadic};

use tpw_occam_lexing::{Item, Keyword, Symbol, Token};
use tpw_occam_meaning::{Direction, Dyadic, Monadic};
use tpw_occam_terms::Primitive;

/// Whether keywords are the same.
fn is_same_keyword(one: Keyword, other: Keyword) -> bool
    ensures { IsTrue result → one ≡ other }
{
    one == other
}

/// Whether tokens say the same.
fn is_same(one: Token<'_>, other: Token<'_>) -> bool
    ensures { IsTrue result → lexeme_of one.entry ≡ lexeme_of other.entry }
{
    match (one, other) {
        (Token::Name(a), Token::Name(b))
        | (Token::Number(a), Token::Number(b))
        | (Token::Character(a), Token::Character(b))
        | (Token::Text(a), Token::Text(b)) => a == b,
        (Token::Keyword(a), Token::Keyword(b)) => is_same_keyword(a, b),
        (Token::Symbol(a), Token::Symbol(b)) => a == b,
        _ => false,
    }
}

/// The items behind a token, which is the first.
pub(crate) fn taken<'t, 'a>(token: Token<'_>, items: &'t [Item<'a>]) -> Option<&'t [Item<'a>]>
    ensures { IfSome result (λ rest. seen items.now ≡ lexeme_of token.entry ∷ seen rest.now) }
{
    let (first, rest) = items.split_first()?;
    if is_same(first.token, token) {
        Some(rest)
    } else {
        None
    }
}

pub(crate) fn primitive_token(of: Primitive) -> Token<'static>
    ensures { lexeme_of result ≡ of_primitive of }
{
    match of {
        Primitive::Int => Token::Keyword(Keyword::Int),
        Primitive::Bool => Token::Keyword(Keyword::Bool),
        Primitive::Byte => Token::Keyword(Keyword::Byte),
    }
}

pub(crate) fn direction_token(direction: Direction) -> Token<'static>
    ensures { lexeme_of result ≡ of_direction direction }
{
    match direction {
        Direction::Receive => Token::Symbol(Symbol::Receive),
        Direction::Send => Token::Symbol(Symbol::Send),
    }
}

pub(crate) fn truth_token(value: bool) -> Token<'static>
    ensures { lexeme_of result ≡ of_truth value }
{
    if value {
        Token::Keyword(Keyword::True)
    } else {
        Token::Keyword(Keyword::False)
    }
}

pub(crate) fn most_token(is_negative: bool) -> Token<'static>
    ensures { lexeme_of result ≡ of_most is_negative }
{
    if is_negative {
        Token::Keyword(Keyword::MostNeg)
    } else {
        Token::Keyword(Keyword::MostPos)
    }
}

pub(crate) fn monadic_token(operator: Monadic) -> Token<'static>
    ensures { lexeme_of result ≡ of_monadic operator }
{
    match operator {
        Monadic::Negate => Token::Symbol(Symbol::Subtract),
        Monadic::Minus => Token::Keyword(Keyword::Minus),
        Monadic::Complement => Token::Symbol(Symbol::BitNot),
        Monadic::BitNot => Token::Keyword(Keyword::BitNot),
        Monadic::Not => Token::Keyword(Keyword::Not),
        Monadic::Size => Token::Keyword(Keyword::Size),
        Monadic::Convert(of) => primitive_token(of),
    }
}

pub(crate) fn dyadic_token(operator: Dyadic) -> Token<'static>
    ensures { lexeme_of result ≡ of_dyadic operator }
{
    match operator {
        Dyadic::Add => Token::Symbol(Symbol::Add),
        Dyadic::Subtract => Token::Symbol(Symbol::Subtract),
        Dyadic::Multiply => Token::Symbol(Symbol::Multiply),
        Dyadic::Divide => Token::Symbol(Symbol::Divide),
        Dyadic::Remainder => Token::Symbol(Symbol::Remainder),
        Dyadic::Rem => Token::Keyword(Keyword::Rem),
        Dyadic::Plus => Token::Keyword(Keyword::Plus),
        Dyadic::Minus => Token::Keyword(Keyword::Minus),
        Dyadic::Times => Token::Keyword(Keyword::Times),
        Dyadic::Conjunction => Token::Symbol(Symbol::BitAnd),
        Dyadic::BitAnd => Token::Keyword(Keyword::BitAnd),
        Dyadic::Disjunction => Token::Symbol(Symbol::BitOr),
        Dyadic::BitOr => Token::Keyword(Keyword::BitOr),
        Dyadic::ExclusiveOr => Token::Symbol(Symbol::BitXor),
        Dyadic::ShiftLeft => Token::Symbol(Symbol::ShiftLeft),
        Dyadic::ShiftRight => Token::Symbol(Symbol::ShiftRight),
        Dyadic::Equal => Token::Symbol(Symbol::Equal),
        Dyadic::NotEqual => Token::Symbol(Symbol::NotEqual),
        Dyadic::Less => Token::Symbol(Symbol::Less),
        Dyadic::Greater => Token::Symbol(Symbol::Greater),
        Dyadic::AtMost => Token::Symbol(Symbol::AtMost),
        Dyadic::AtLeast => Token::Symbol(Symbol::AtLeast),
        Dyadic::After => Token::Keyword(Keyword::After),
        Dyadic::And => Token::Keyword(Keyword::And),
        Dyadic::Or => Token::Keyword(Keyword::Or),
    }
}
