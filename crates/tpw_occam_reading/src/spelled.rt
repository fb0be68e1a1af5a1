//! Whether tokens begin with those that spell an expression, a type or parameters: what stands behind them.

ghost use Rattle.std.specs.Prelude.{◌≡◌, ◌∷◌, IfSome};
ghost use Rattle.tpw_occam_reading.specs.Seen.{seen};
ghost use Rattle.tpw_occam_reading.specs.Spelled.{chain, is_left_operand, is_operand};
ghost use Rattle.tpw_occam_reading.specs.Spelled.{named, spelled, listed, behind_comma, sizes_spelled, type_spelled, type_if, types_spelled};
ghost use Rattle.tpw_occam_reading.specs.Spelled.{names_behind, names_spelled, passing_spelled, direction_if, parameters_behind, parameters_spelled};

use crate::marks::{
    direction_token, dyadic_token, monadic_token, most_token, primitive_token, taken, truth_token,
};
use tpw_occam_lexing::{Item, Keyword, Symbol, Token};
use tpw_occam_meaning::{
    Direction, Dyadic, Expression, Expressions, Names, Parameters, Primitives, Sizes, Type,
};
use tpw_occam_terms::{Name, Passing};

/// A name.
pub(crate) fn name<'t, 'a>(name: Name<'_>, items: &'t [Item<'a>]) -> Option<&'t [Item<'a>]>
    ensures { IfSome result (λ rest. seen items.now ≡ named name.entry ∷ seen rest.now) }
{
    taken(Token::Name(name.text), items)
}

/// The number of the chains that an operator forms without brackets.
fn chain(operator: Dyadic) -> Option<u8>
    ensures { result ≡ chain operator }
{
    match operator {
        Dyadic::Add => Some(1),
        Dyadic::Multiply => Some(2),
        Dyadic::Plus => Some(3),
        Dyadic::Times => Some(4),
        Dyadic::Conjunction | Dyadic::BitAnd => Some(5),
        Dyadic::Disjunction | Dyadic::BitOr => Some(6),
        Dyadic::ExclusiveOr => Some(7),
        Dyadic::And => Some(8),
        Dyadic::Or => Some(9),
        _ => None,
    }
}

/// Whether an expression needs no brackets beside an operator.
fn is_operand(e: &Expression<'_>) -> bool
    ensures { result ≡ is_operand e.now }
{
    !matches!(e, Expression::Monadic { .. } | Expression::Dyadic { .. })
}

/// Whether an expression needs no brackets in front of an operator.
fn is_left_operand(operator: Dyadic, e: &Expression<'_>) -> bool
    ensures { result ≡ is_left_operand operator e.now }
{
    match e {
        Expression::Dyadic {
            operator: other,
            ..
        } => match (chain(*other), chain(operator)) {
            (Some(a), Some(b)) => a == b,
            _ => false,
        },
        _ => is_operand(e),
    }
}

#[cycle(expression)]
pub(crate) fn expression<'t, 'a>(
    e: &Expression<'_>,
    items: &'t [Item<'a>],
) -> Option<&'t [Item<'a>]>
    ensures { IfSome result (λ rest. seen items.now ≡ spelled e.now (seen rest.now)) }
{
    match e {
        Expression::Number { spelled, .. } => taken(Token::Number(spelled), items),
        Expression::Character { spelled, .. } => taken(Token::Character(spelled), items),
        Expression::Text { spelled, .. } => taken(Token::Text(spelled), items),
        Expression::Truth { value, .. } => taken(truth_token(*value), items),
        Expression::Most { is_negative, .. } => {
            let items = taken(most_token(*is_negative), items)?;
            taken(Token::Keyword(Keyword::Int), items)
        }
        Expression::Table { items: within, .. } => {
            let items = taken(Token::Symbol(Symbol::OpenSquare), items)?;
            let items = listed(within, items)?;
            taken(Token::Symbol(Symbol::CloseSquare), items)
        }
        Expression::Name(found) => name(*found, items),
        Expression::Channel {
            name: channel,
            direction,
        } => {
            let items = name(*channel, items)?;
            taken(direction_token(*direction), items)
        }
        Expression::Element {
            array,
            subscript,
            ..
        } => {
            let items = expression(array, items)?;
            let items = taken(Token::Symbol(Symbol::OpenSquare), items)?;
            let items = expression(subscript, items)?;
            taken(Token::Symbol(Symbol::CloseSquare), items)
        }
        Expression::Call {
            name: called,
            arguments,
        } => {
            let items = name(*called, items)?;
            let items = taken(Token::Symbol(Symbol::OpenRound), items)?;
            let items = listed(arguments, items)?;
            taken(Token::Symbol(Symbol::CloseRound), items)
        }
        Expression::Bracketed { within, .. } => {
            let items = taken(Token::Symbol(Symbol::OpenRound), items)?;
            let items = expression(within, items)?;
            taken(Token::Symbol(Symbol::CloseRound), items)
        }
        Expression::Monadic {
            operator,
            operand,
            ..
        } => {
            if !is_operand(operand) {
                return None;
            }
            let items = taken(monadic_token(*operator), items)?;
            expression(operand, items)
        }
        Expression::Dyadic {
            operator,
            left,
            right,
            ..
        } => {
            if !is_left_operand(*operator, left) || !is_operand(right) {
                return None;
            }
            let items = expression(left, items)?;
            let items = taken(dyadic_token(*operator), items)?;
            expression(right, items)
        }
        Expression::Wrong { .. } => None,
    }
}

/// Expressions with commas between.
#[cycle(expression)]
pub(crate) fn listed<'t, 'a>(
    list: &Expressions<'_>,
    items: &'t [Item<'a>],
) -> Option<&'t [Item<'a>]>
    ensures { IfSome result (λ rest. seen items.now ≡ listed list.now (seen rest.now)) }
{
    match list {
        Expressions::End => Some(items),
        Expressions::More(first, others) => {
            let items = expression(first, items)?;
            behind_comma(others, items)
        }
    }
}

/// Expressions, each behind a comma.
#[cycle(expression)]
fn behind_comma<'t, 'a>(list: &Expressions<'_>, items: &'t [Item<'a>]) -> Option<&'t [Item<'a>]>
    ensures { IfSome result (λ rest. seen items.now ≡ behind_comma list.now (seen rest.now)) }
{
    match list {
        Expressions::End => Some(items),
        Expressions::More(first, others) => {
            let items = taken(Token::Symbol(Symbol::Comma), items)?;
            let items = expression(first, items)?;
            behind_comma(others, items)
        }
    }
}

fn sizes<'t, 'a>(list: &Sizes<'_>, items: &'t [Item<'a>]) -> Option<&'t [Item<'a>]>
    ensures { IfSome result (λ rest. seen items.now ≡ sizes_spelled list.now (seen rest.now)) }
{
    match list {
        Sizes::End => Some(items),
        Sizes::Open(others) => {
            let items = taken(Token::Symbol(Symbol::OpenSquare), items)?;
            let items = taken(Token::Symbol(Symbol::CloseSquare), items)?;
            sizes(others, items)
        }
        Sizes::Of(size, others) => {
            let items = taken(Token::Symbol(Symbol::OpenSquare), items)?;
            let items = expression(size, items)?;
            let items = taken(Token::Symbol(Symbol::CloseSquare), items)?;
            sizes(others, items)
        }
    }
}

pub(crate) fn of_type<'t, 'a>(of: &Type<'_>, items: &'t [Item<'a>]) -> Option<&'t [Item<'a>]>
    ensures { IfSome result (λ rest. seen items.now ≡ type_spelled of.now (seen rest.now)) }
{
    let items = sizes(&of.sizes, items)?;
    taken(primitive_token(of.of), items)
}

pub(crate) fn of_type_if<'t, 'a>(
    of: &Option<Type<'_>>,
    items: &'t [Item<'a>],
) -> Option<&'t [Item<'a>]>
    ensures { IfSome result (λ rest. seen items.now ≡ type_if of.now (seen rest.now)) }
{
    match of {
        Some(of) => of_type(of, items),
        None => Some(items),
    }
}

/// The types of results, with commas between.
pub(crate) fn types<'t, 'a>(list: &Primitives, items: &'t [Item<'a>]) -> Option<&'t [Item<'a>]>
    ensures { IfSome result (λ rest. seen items.now ≡ types_spelled list.now (seen rest.now)) }
{
    match list {
        Primitives::One(of) => taken(primitive_token(*of), items),
        Primitives::More(of, others) => {
            let items = taken(primitive_token(*of), items)?;
            let items = taken(Token::Symbol(Symbol::Comma), items)?;
            types(others, items)
        }
    }
}

/// Names, each behind a comma.
fn further_names<'t, 'a>(list: &Names<'_>, items: &'t [Item<'a>]) -> Option<&'t [Item<'a>]>
    ensures { IfSome result (λ rest. seen items.now ≡ names_behind list.now (seen rest.now)) }
{
    match list {
        Names::End => Some(items),
        Names::More(first, others) => {
            let items = taken(Token::Symbol(Symbol::Comma), items)?;
            let items = name(*first, items)?;
            further_names(others, items)
        }
    }
}

/// Names with commas between.
pub(crate) fn names<'t, 'a>(list: &Names<'_>, items: &'t [Item<'a>]) -> Option<&'t [Item<'a>]>
    ensures { IfSome result (λ rest. seen items.now ≡ names_spelled list.now (seen rest.now)) }
{
    match list {
        Names::End => Some(items),
        Names::More(first, others) => {
            let items = name(*first, items)?;
            further_names(others, items)
        }
    }
}

fn passing<'t, 'a>(passing: Passing, items: &'t [Item<'a>]) -> Option<&'t [Item<'a>]>
    ensures { IfSome result (λ rest. seen items.now ≡ passing_spelled passing (seen rest.now)) }
{
    match passing {
        Passing::Value => taken(Token::Keyword(Keyword::Val), items),
        Passing::Variable => Some(items),
        Passing::Channel => {
            let items = taken(Token::Keyword(Keyword::Chan), items)?;
            taken(Token::Keyword(Keyword::Of), items)
        }
    }
}

fn direction<'t, 'a>(direction: Option<Direction>, items: &'t [Item<'a>]) -> Option<&'t [Item<'a>]>
    ensures { IfSome result (λ rest. seen items.now ≡ direction_if direction (seen rest.now)) }
{
    match direction {
        Some(direction) => taken(direction_token(direction), items),
        None => Some(items),
    }
}

/// Parameters, each behind a comma.
fn further_parameters<'t, 'a>(
    list: &Parameters<'_>,
    items: &'t [Item<'a>],
) -> Option<&'t [Item<'a>]>
    ensures { IfSome result (λ rest. seen items.now ≡ parameters_behind list.now (seen rest.now)) }
{
    match list {
        Parameters::End => Some(items),
        Parameters::Typed {
            passing: how,
            of,
            name: parameter,
            direction: way,
            more,
        } => {
            let items = taken(Token::Symbol(Symbol::Comma), items)?;
            let items = passing(*how, items)?;
            let items = of_type(of, items)?;
            let items = name(*parameter, items)?;
            let items = direction(*way, items)?;
            further_parameters(more, items)
        }
        Parameters::Further {
            name: parameter,
            direction: way,
            more,
        } => {
            let items = taken(Token::Symbol(Symbol::Comma), items)?;
            let items = name(*parameter, items)?;
            let items = direction(*way, items)?;
            further_parameters(more, items)
        }
    }
}

/// Parameters with commas between.
pub(crate) fn parameters<'t, 'a>(
    list: &Parameters<'_>,
    items: &'t [Item<'a>],
) -> Option<&'t [Item<'a>]>
    ensures { IfSome result (λ rest. seen items.now ≡ parameters_spelled list.now (seen rest.now)) }
{
    match list {
        Parameters::End => Some(items),
        Parameters::Typed {
            passing: how,
            of,
            name: parameter,
            direction: way,
            more,
        } => {
            let items = passing(*how, items)?;
            let items = of_type(of, items)?;
            let items = name(*parameter, items)?;
            let items = direction(*way, items)?;
            further_parameters(more, items)
        }
        Parameters::Further {
            name: parameter,
            direction: way,
            more,
        } => {
            let items = name(*parameter, items)?;
            let items = direction(*way, items)?;
            further_parameters(more, items)
        }
    }
}
