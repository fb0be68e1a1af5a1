//! The value of an expression: known, or an expression of the core.

ghost use Rattle.std.specs.Prelude.{◌≡◌, true, false, IfOk};
ghost use Rattle.tpw_occam_core.specs.Meaning.{bind};
ghost use Rattle.tpw_occam_meaning.specs.Names as text;
ghost use Rattle.tpw_occam_meaning.specs.States.{with_cell};
ghost use Rattle.tpw_occam_meaning.specs.Values as text_values;
ghost use Rattle.tpw_occam_scoped.specs.Made.{value_made, passed_into};
ghost use Rattle.tpw_occam_scoped.specs.Meaning.{value_of};
ghost use Rattle.tpw_occam_core.specs.Arithmetic as arithmetic;

use crate::expression::Expression;
use std::alloc::{AllocError, Global};
use tpw_occam_core::{Answer, Operator};
use tpw_occam_terms::Span;

/// A value: a word and its flag, the same in each state, or what an expression has.
#[derive(Drop)]
pub enum Value {
    Known(Answer),
    Varying(Expression),
}

impl Value {
    /// A constant.
    pub fn known(word: u32) -> Value
        ensures { value_made result ≡ text_values.Known word false }
    {
        Value::Known(Answer { word, flag: false })
    }

    /// The word of a cell.
    pub fn cell(cell: usize) -> Value
        ensures { value_made result ≡ text.word_value (text.Kept cell) }
    {
        Value::Varying(Expression::Cell(cell))
    }

    /// The constant that a value is.
    pub fn constant(&self) -> Option<u32>
        ensures { result ≡ text_values.constant_in (value_made self.now) }
    {
        match self {
            Value::Known(answer) => { if answer.flag { None } else { Some(answer.word) } }
            Value::Varying(_) => None,
        }
    }

    /// An expression behind a value that is passed: one that is no constant lies in a cell.
    pub fn passed_into(
        self,
        alloc: Global,
        name: Option<Span>,
        cell: usize,
        rest: Value,
    ) -> Result<Value, AllocError>
        ensures { IfOk result (λ v. value_made v ≡ passed_into cell (value_made self) (value_made rest)) }
    {
        match self {
            Value::Known(answer) => {
                if answer.flag {
                    within(alloc, name, cell, Value::Known(answer), rest)
                } else {
                    Ok(rest)
                }
            }
            Value::Varying(e) => within(alloc, name, cell, Value::Varying(e), rest),
        }
    }

    /// An expression that has the value.
    pub fn expression(self, alloc: Global) -> Result<Expression, AllocError>
        ensures { IfOk result (λ e. value_of e ≡ text_values.at (value_made self)) }
    {
        match self {
            Value::Known(answer) => {
                if answer.flag {
                    flagged(alloc, answer.word)
                } else {
                    Ok(Expression::Constant(answer.word))
                }
            }
            Value::Varying(e) => Ok(e),
        }
    }
}

/// A word that sets the flag: what a division by 0 leaves, and the word.
fn flagged(alloc: Global, word: u32) -> Result<Expression, AllocError>
    ensures { IfOk result (λ e. value_of e ≡ (λ s. arithmetic.answer word true)) }
{
    let zero = Expression::binary(
        alloc,
        Operator::Divide,
        Expression::Constant(0),
        Expression::Constant(0),
    )?;
    Expression::binary(alloc, Operator::Plus, zero, Expression::Constant(word))
}

/// A value within which another one lies in a cell.
fn within(
    alloc: Global,
    name: Option<Span>,
    cell: usize,
    value: Value,
    rest: Value,
) -> Result<Value, AllocError>
    ensures { IfOk result (λ v. value_made v ≡ text_values.Varying (λ s.
        bind (text_values.at (value_made value) s) (λ a. text_values.at (value_made rest) (with_cell cell a s)))) }
{
    let value = value.expression(alloc)?;
    let rest = rest.expression(alloc)?;
    Ok(Value::Varying(Expression::within(alloc, name, cell, value, rest)?))
}
