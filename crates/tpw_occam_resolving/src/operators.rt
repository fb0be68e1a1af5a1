//! The values of operators. Those of known values are known.

ghost use Rattle.std.specs.Prelude.{◌≡◌, Some, IfOk};
ghost use Rattle.tpw_occam_core.specs.Meaning.{bind};
ghost use Rattle.tpw_occam_meaning.specs.declared.operator.Dyadic.TheVariants as two;
ghost use Rattle.tpw_occam_meaning.specs.Maybe.{and_then};
ghost use Rattle.tpw_occam_meaning.specs.Values as text;
ghost use Rattle.tpw_occam_scoped.specs.Made.{value_made};
ghost use Rattle.tpw_occam_scoped.specs.Meaning.{value_of};

use std::alloc::{AllocError, Global};
use tpw_occam_core::{Operator, bind, low_byte};
use tpw_occam_meaning::{Dyadic, Monadic};
use tpw_occam_names::{Fault, combined, monadic};
use tpw_occam_scoped::{Expression, Value};
use tpw_occam_terms::Primitive;

/// An operator of one operand.
fn monadic_expression(
    alloc: Global,
    operator: Monadic,
    e: Expression,
) -> Result<Expression, AllocError>
    ensures { IfOk result (λ r. value_of r ≡ (λ s. bind (value_of e s) (text.monadic operator))) }
{
    match operator {
        Monadic::Negate => {
            Expression::binary(alloc, Operator::Subtract, Expression::Constant(0), e)
        }
        Monadic::Minus => Expression::binary(alloc, Operator::Minus, Expression::Constant(0), e),
        Monadic::Not => Expression::not(alloc, e),
        Monadic::Complement | Monadic::BitNot | Monadic::Size | Monadic::Convert(_) => {
            Expression::complement(alloc, e)
        }
    }
}

/// The value of an operator on its one operand.
pub(crate) fn of_one(alloc: Global, operator: Monadic, a: Value) -> Result<Value, AllocError>
    ensures { IfOk result (λ r. value_made r ≡ text.of_one (λ a. bind a (text.monadic operator)) (value_made a)) }
{
    match a {
        Value::Known(a) => Ok(Value::Known(bind(a, monadic(operator, a.word)))),
        Value::Varying(e) => Ok(Value::Varying(monadic_expression(alloc, operator, e)?)),
    }
}

/// `<>`
fn not_equal(alloc: Global, left: Expression, right: Expression) -> Result<Expression, AllocError>
    ensures { IfOk result (λ r. value_of r ≡ (λ s. text.combined two.NotEqual (value_of left s) (value_of right s))) }
{
    let equal = Expression::binary(alloc, Operator::Equal, left, right)?;
    Expression::not(alloc, equal)
}

/// `<`
fn less(alloc: Global, left: Expression, right: Expression) -> Result<Expression, AllocError>
    ensures { IfOk result (λ r. value_of r ≡ (λ s. text.combined two.Less (value_of left s) (value_of right s))) }
{
    Expression::binary(alloc, Operator::Greater, right, left)
}

/// `<=`
fn at_most(alloc: Global, left: Expression, right: Expression) -> Result<Expression, AllocError>
    ensures { IfOk result (λ r. value_of r ≡ (λ s. text.combined two.AtMost (value_of left s) (value_of right s))) }
{
    let greater = Expression::binary(alloc, Operator::Greater, left, right)?;
    Expression::not(alloc, greater)
}

/// `>=`
fn at_least(alloc: Global, left: Expression, right: Expression) -> Result<Expression, AllocError>
    ensures { IfOk result (λ r. value_of r ≡ (λ s. text.combined two.AtLeast (value_of left s) (value_of right s))) }
{
    let less = Expression::binary(alloc, Operator::Greater, right, left)?;
    Expression::not(alloc, less)
}

/// `AFTER`
fn after(alloc: Global, left: Expression, right: Expression) -> Result<Expression, AllocError>
    ensures { IfOk result (λ r. value_of r ≡ (λ s. text.combined two.After (value_of left s) (value_of right s))) }
{
    let difference = Expression::binary(alloc, Operator::Minus, left, right)?;
    Expression::binary(
        alloc,
        Operator::Greater,
        difference,
        Expression::Constant(0),
    )
}

/// An operator of two operands.
fn dyadic_expression(
    alloc: Global,
    operator: Dyadic,
    left: Expression,
    right: Expression,
) -> Result<Expression, AllocError>
    ensures { IfOk result (λ r. value_of r ≡ (λ s. text.combined operator (value_of left s) (value_of right s))) }
{
    match operator {
        Dyadic::Add => Expression::binary(alloc, Operator::Add, left, right),
        Dyadic::Subtract => Expression::binary(alloc, Operator::Subtract, left, right),
        Dyadic::Multiply => Expression::binary(alloc, Operator::Multiply, left, right),
        Dyadic::Divide => Expression::binary(alloc, Operator::Divide, left, right),
        Dyadic::Remainder | Dyadic::Rem => {
            Expression::binary(alloc, Operator::Remainder, left, right)
        }
        Dyadic::Plus => Expression::binary(alloc, Operator::Plus, left, right),
        Dyadic::Minus => Expression::binary(alloc, Operator::Minus, left, right),
        Dyadic::Times => Expression::binary(alloc, Operator::Times, left, right),
        Dyadic::Conjunction | Dyadic::BitAnd => {
            Expression::binary(alloc, Operator::BitAnd, left, right)
        }
        Dyadic::Disjunction | Dyadic::BitOr => {
            Expression::binary(alloc, Operator::BitOr, left, right)
        }
        Dyadic::ExclusiveOr => Expression::binary(alloc, Operator::BitXor, left, right),
        Dyadic::ShiftLeft => Expression::binary(alloc, Operator::ShiftLeft, left, right),
        Dyadic::ShiftRight => Expression::binary(alloc, Operator::ShiftRight, left, right),
        Dyadic::Equal => Expression::binary(alloc, Operator::Equal, left, right),
        Dyadic::NotEqual => not_equal(alloc, left, right),
        Dyadic::Less => less(alloc, left, right),
        Dyadic::Greater => Expression::binary(alloc, Operator::Greater, left, right),
        Dyadic::AtMost => at_most(alloc, left, right),
        Dyadic::AtLeast => at_least(alloc, left, right),
        Dyadic::After => after(alloc, left, right),
        Dyadic::And => Expression::and(alloc, left, right),
        Dyadic::Or => Expression::or(alloc, left, right),
    }
}

/// The value of an operator on two values that are not both known.
fn varying(alloc: Global, operator: Dyadic, b: Value, a: Value) -> Result<Value, AllocError>
    ensures { IfOk result (λ r. value_made r
        ≡ text.Varying (λ s. text.combined operator (text.at (value_made b) s) (text.at (value_made a) s))) }
{
    let left = b.expression(alloc)?;
    let right = a.expression(alloc)?;
    Ok(Value::Varying(dyadic_expression(alloc, operator, left, right)?))
}

/// The value of an operator on its two operands.
pub(crate) fn of_two(
    alloc: Global,
    operator: Dyadic,
    b: Value,
    a: Value,
) -> Result<Value, AllocError>
    ensures { IfOk result (λ r. value_made r ≡ text.of_two (text.combined operator) (value_made b) (value_made a)) }
{
    match b {
        Value::Known(b) => match a {
            Value::Known(a) => Ok(Value::Known(combined(operator, b, a))),
            Value::Varying(a) => varying(alloc, operator, Value::Known(b), Value::Varying(a)),
        },
        Value::Varying(b) => varying(alloc, operator, Value::Varying(b), a),
    }
}

/// A value of a type as one of another, where there is such a conversion.
pub(crate) fn converted(
    alloc: Global,
    from: Primitive,
    to: Primitive,
    a: Value,
) -> Result<Value, Fault>
    ensures { IfOk result (λ r. and_then (text.converted from to) (λ make.
        Some (text.of_one (λ a. bind a make) (value_made a))) ≡ Some (value_made r)) }
{
    match (from, to) {
        (Primitive::Bool, Primitive::Int | Primitive::Byte) | (Primitive::Byte, Primitive::Int) => {
            Ok(a)
        }
        (Primitive::Int, Primitive::Byte) => match a {
            Value::Known(a) => Ok(Value::Known(bind(a, low_byte(a.word)))),
            Value::Varying(e) => Ok(Value::Varying(Expression::byte(alloc, e)?)),
        },
        _ => Err(Fault::Wrong),
    }
}
