//! Expressions of a worker, built of their parts. Each contract says what is built, by what the parts mean.

ghost use Rattle.std.specs.Prelude.{◌≡◌, ◌==◌, IfOk};
ghost use Rattle.tp_words.specs.Words.{complement};
ghost use Rattle.tp_words.specs.Numbers.{truth};
ghost use Rattle.tpw_occam_core.specs.Arithmetic.{pure, subscript, low_byte, applied};
ghost use Rattle.tpw_occam_core.specs.Meaning.{Store, value_of, bind, both, either, element_at, array_of, with_value};

use std::alloc::{AllocError, Global};
use tpw_occam_core::{Expression, Kind, Operator};

/// `a[e]`.
pub(crate) fn element(
    alloc: Global,
    array: usize,
    kind: Kind,
    at: Expression,
) -> Result<Expression, AllocError>
    ensures { IfOk result (λ e. (t : Store) →
        value_of e t ≡ bind (value_of at t) (element_at kind (array_of t array))) }
{
    Ok(Expression::Element {
        array,
        kind,
        subscript: Box::new(alloc, at)?,
    })
}

/// A subscript, checked against a size.
pub(crate) fn checked(alloc: Global, below: u32, at: Expression) -> Result<Expression, AllocError>
    ensures { IfOk result (λ e. (t : Store) → value_of e t ≡ bind (value_of at t) (subscript below)) }
{
    Ok(Expression::Checked {
        below,
        subscript: Box::new(alloc, at)?,
    })
}

/// An operator with its operands.
pub(crate) fn binary(
    alloc: Global,
    operator: Operator,
    left: Expression,
    right: Expression,
) -> Result<Expression, AllocError>
    ensures { IfOk result (λ e. (t : Store) →
        value_of e t ≡ bind (value_of left t) (λ b. bind (value_of right t) (applied operator b))) }
{
    Ok(Expression::Binary {
        operator,
        left: Box::new(alloc, left)?,
        right: Box::new(alloc, right)?,
    })
}

/// `~e`.
pub(crate) fn complement(alloc: Global, operand: Expression) -> Result<Expression, AllocError>
    ensures { IfOk result (λ e. (t : Store) →
        value_of e t ≡ bind (value_of operand t) (λ a. pure (complement a))) }
{
    Ok(Expression::Complement(Box::new(alloc, operand)?))
}

/// `NOT e`.
pub(crate) fn not(alloc: Global, operand: Expression) -> Result<Expression, AllocError>
    ensures { IfOk result (λ e. (t : Store) →
        value_of e t ≡ bind (value_of operand t) (λ a. pure (truth (a == 0)))) }
{
    Ok(Expression::Not(Box::new(alloc, operand)?))
}

/// `BYTE e`.
pub(crate) fn byte(alloc: Global, operand: Expression) -> Result<Expression, AllocError>
    ensures { IfOk result (λ e. (t : Store) → value_of e t ≡ bind (value_of operand t) low_byte) }
{
    Ok(Expression::LowByte(Box::new(alloc, operand)?))
}

/// `e AND f`.
pub(crate) fn and(
    alloc: Global,
    left: Expression,
    right: Expression,
) -> Result<Expression, AllocError>
    ensures { IfOk result (λ e. (t : Store) →
        value_of e t ≡ bind (value_of left t) (λ a. both a (value_of right t))) }
{
    Ok(Expression::And(Box::new(alloc, left)?, Box::new(alloc, right)?))
}

/// `e OR f`.
pub(crate) fn or(
    alloc: Global,
    left: Expression,
    right: Expression,
) -> Result<Expression, AllocError>
    ensures { IfOk result (λ e. (t : Store) →
        value_of e t ≡ bind (value_of left t) (λ a. either a (value_of right t))) }
{
    Ok(Expression::Or(Box::new(alloc, left)?, Box::new(alloc, right)?))
}

/// An expression within which a variable has a value.
pub(crate) fn within(
    alloc: Global,
    name: usize,
    value: Expression,
    within: Expression,
) -> Result<Expression, AllocError>
    ensures { IfOk result (λ e. (t : Store) →
        value_of e t ≡ bind (value_of value t) (λ a. value_of within (with_value name a t))) }
{
    Ok(Expression::Let {
        name,
        value: Box::new(alloc, value)?,
        within: Box::new(alloc, within)?,
    })
}
