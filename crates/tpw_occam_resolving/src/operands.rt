//! The types of operands.

ghost use Rattle.std.specs.Prelude.{◌≡◌};
ghost use Rattle.tpw_occam_meaning.specs.Expressions as text;
ghost use Rattle.tpw_occam_meaning.specs.Values as types;
ghost use Rattle.tpw_occam_names.specs.Scopes.{names_of};

use tpw_occam_meaning::{Dyadic, Expression};
use tpw_occam_names::{Scope, type_of};
use tpw_occam_terms::Primitive;

/// Whether an expression is a number, which is of the type that is wanted.
fn is_number(e: &Expression<'_>) -> bool
    ensures { result ≡ text.is_number e.now }
{
    match e {
        Expression::Number { .. } => true,
        Expression::Bracketed { within, .. } => is_number(within),
        _ => false,
    }
}

/// The type of two operands that are compared.
pub(crate) fn compared(
    scope: &Scope<'_, '_, '_>,
    left: &Expression<'_>,
    right: &Expression<'_>,
) -> Option<Primitive>
    ensures { result ≡ text.compared left.now right.now (names_of scope.now) }
{
    if is_number(left) {
        type_of(scope, right)
    } else {
        type_of(scope, left)
    }
}

/// The type of operands that have an order.
fn ordered(of: Option<Primitive>) -> Option<Primitive>
    ensures { result ≡ types.ordered of }
{
    match of {
        Some(Primitive::Bool) => None,
        _ => of,
    }
}

/// The type of an operator's operands, where a comparison has them of this type.
pub(crate) fn operands_of(operator: Dyadic, compared: Option<Primitive>) -> Option<Primitive>
    ensures { result ≡ types.operands_of operator compared }
{
    match operator {
        Dyadic::Equal | Dyadic::NotEqual => compared,
        Dyadic::Less | Dyadic::Greater | Dyadic::AtMost | Dyadic::AtLeast => ordered(compared),
        Dyadic::And | Dyadic::Or => Some(Primitive::Bool),
        _ => Some(Primitive::Int),
    }
}
