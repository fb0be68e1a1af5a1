//! Expressions.

ghost use Rattle.std.specs.Prelude.{◌≡◌};
ghost use Rattle.tpw_occam_core.specs.Meaning as core;
ghost use Rattle.tpw_occam_scoped.specs.Meaning as scoped;
ghost use Rattle.tpw_occam_interpreter.specs.Memories.{state_in};

use crate::memory::{Cells, bytes, word};
use crate::watch::{Watch, bind_name};
use tp_words::complement;
use tpw_occam_core::{Answer, applied, bind, checked_subscript, element_at, low_byte, pure};
use tpw_occam_scoped::Expression;

/// The word of an OR, by that of its right operand.
fn either(right: Answer) -> Answer
    ensures { result ≡ core.either 0 right }
{
    Answer {
        word: u32::from(right.word > 0),
        flag: right.flag,
    }
}

/// The value of an expression.
pub(crate) fn value<W: Watch>(cells: &Cells<'_>, watch: &mut W, e: &Expression) -> Answer
    ensures { result ≡ scoped.value_of e.now (state_in cells.now) }
{
    match e {
        Expression::Constant(c) => pure(*c),
        Expression::Cell(x) => pure(word(cells, *x)),
        Expression::Element {
            array,
            kind,
            subscript,
        } => {
            let i = value(cells, watch, subscript);
            bind(i, element_at(*kind, bytes(cells, *array), i.word))
        }
        Expression::Listed {
            table,
            kind,
            subscript,
        } => {
            let i = value(cells, watch, subscript);
            bind(i, element_at(*kind, table, i.word))
        }
        Expression::Checked { below, subscript } => {
            let i = value(cells, watch, subscript);
            bind(i, checked_subscript(*below as usize, i.word))
        }
        Expression::Binary {
            operator,
            left,
            right,
        } => {
            let b = value(cells, watch, left);
            let a = value(cells, watch, right);
            bind(b, bind(a, applied(*operator, b.word, a.word)))
        }
        Expression::Complement(e) => {
            let a = value(cells, watch, e);
            bind(a, pure(complement(a.word)))
        }
        Expression::Not(e) => {
            let a = value(cells, watch, e);
            bind(a, pure(u32::from(a.word == 0)))
        }
        Expression::LowByte(e) => {
            let a = value(cells, watch, e);
            bind(a, low_byte(a.word))
        }
        Expression::And(left, right) => {
            let a = value(cells, watch, left);
            let b = if a.word == 0 {
                pure(0)
            } else {
                value(cells, watch, right)
            };
            bind(a, b)
        }
        Expression::Or(left, right) => {
            let a = value(cells, watch, left);
            let b = if a.word == 0 {
                either(value(cells, watch, right))
            } else {
                pure(1)
            };
            bind(a, b)
        }
        Expression::Within {
            name,
            cell,
            value: bound,
            within,
        } => {
            let a = value(cells, watch, bound);
            // (an argument that is a variable has its own name)
            if !matches!(**bound, Expression::Cell(_)) {
                bind_name(watch, *name, a.word);
            }
            bind(
                a,
                value(&Cells::With(*cell, a.word, &*cells), watch, within),
            )
        }
    }
}
