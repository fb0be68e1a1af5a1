//! Expressions, built of their parts. Each contract says what value is built, by those of the parts, in each state.

ghost use Rattle.std.specs.Prelude.{◌≡◌, ◌==◌, IfOk};
ghost use Rattle.tp_words.specs.Words.{complement};
ghost use Rattle.tp_words.specs.Numbers.{truth};
ghost use Rattle.tpw_occam_core.specs.Arithmetic.{pure, subscript, low_byte, applied};
ghost use Rattle.tpw_occam_core.specs.Meaning.{bind, both, either, element_at};
ghost use Rattle.tpw_occam_meaning.specs.States.{with_cell};
ghost use Rattle.tpw_occam_scoped.specs.Meaning.{value_of};

use crate::expression::Expression;
use std::alloc::{AllocError, Global};
use tpw_occam_core::{Kind, Operator};
use tpw_occam_terms::Span;

impl Expression {
    /// `a[e]`, of an array.
    pub fn element(
        alloc: Global,
        array: usize,
        kind: Kind,
        at: Expression,
    ) -> Result<Expression, AllocError>
        ensures { IfOk result (λ e. value_of e ≡ (λ s. bind (value_of at s) (element_at kind (s.arrays array)))) }
    {
        Ok(Expression::Element {
            array,
            kind,
            subscript: Box::new(alloc, at)?,
        })
    }

    /// `a[e]`, of a table.
    pub fn listed(
        alloc: Global,
        table: Vec<u8>,
        kind: Kind,
        at: Expression,
    ) -> Result<Expression, AllocError>
        ensures { IfOk result (λ e. value_of e ≡ (λ s. bind (value_of at s) (element_at kind table.items))) }
    {
        Ok(Expression::Listed {
            table,
            kind,
            subscript: Box::new(alloc, at)?,
        })
    }

    /// A subscript, checked against a size.
    pub fn checked(alloc: Global, below: u32, at: Expression) -> Result<Expression, AllocError>
        ensures { IfOk result (λ e. value_of e ≡ (λ s. bind (value_of at s) (subscript below))) }
    {
        Ok(Expression::Checked {
            below,
            subscript: Box::new(alloc, at)?,
        })
    }

    /// An operator with its operands.
    pub fn binary(
        alloc: Global,
        operator: Operator,
        left: Expression,
        right: Expression,
    ) -> Result<Expression, AllocError>
        ensures { IfOk result (λ e.
            value_of e ≡ (λ s. bind (value_of left s) (λ b. bind (value_of right s) (applied operator b)))) }
    {
        Ok(Expression::Binary {
            operator,
            left: Box::new(alloc, left)?,
            right: Box::new(alloc, right)?,
        })
    }

    /// `~e`.
    pub fn complement(alloc: Global, operand: Expression) -> Result<Expression, AllocError>
        ensures { IfOk result (λ e. value_of e ≡ (λ s. bind (value_of operand s) (λ a. pure (complement a)))) }
    {
        Ok(Expression::Complement(Box::new(alloc, operand)?))
    }

    /// `NOT e`.
    pub fn not(alloc: Global, operand: Expression) -> Result<Expression, AllocError>
        ensures { IfOk result (λ e. value_of e ≡ (λ s. bind (value_of operand s) (λ a. pure (truth (a == 0))))) }
    {
        Ok(Expression::Not(Box::new(alloc, operand)?))
    }

    /// `BYTE e`.
    pub fn byte(alloc: Global, operand: Expression) -> Result<Expression, AllocError>
        ensures { IfOk result (λ e. value_of e ≡ (λ s. bind (value_of operand s) low_byte)) }
    {
        Ok(Expression::LowByte(Box::new(alloc, operand)?))
    }

    /// `e AND f`.
    pub fn and(alloc: Global, left: Expression, right: Expression) -> Result<Expression, AllocError>
        ensures { IfOk result (λ e. value_of e ≡ (λ s. bind (value_of left s) (λ a. both a (value_of right s)))) }
    {
        Ok(Expression::And(Box::new(alloc, left)?, Box::new(alloc, right)?))
    }

    /// `e OR f`.
    pub fn or(alloc: Global, left: Expression, right: Expression) -> Result<Expression, AllocError>
        ensures { IfOk result (λ e. value_of e ≡ (λ s. bind (value_of left s) (λ a. either a (value_of right s)))) }
    {
        Ok(Expression::Or(Box::new(alloc, left)?, Box::new(alloc, right)?))
    }

    /// An expression within which a cell has a value.
    pub fn within(
        alloc: Global,
        name: Option<Span>,
        cell: usize,
        value: Expression,
        within: Expression,
    ) -> Result<Expression, AllocError>
        ensures { IfOk result (λ e.
            value_of e ≡ (λ s. bind (value_of value s) (λ a. value_of within (with_cell cell a s)))) }
    {
        Ok(Expression::Within {
            name,
            cell,
            value: Box::new(alloc, value)?,
            within: Box::new(alloc, within)?,
        })
    }
}
