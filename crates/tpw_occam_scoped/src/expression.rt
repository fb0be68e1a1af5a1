//! Expressions.

use tpw_occam_core::{Kind, Operator};
use tpw_occam_terms::Span;

/// An expression. Cells and arrays are named by numbers. The `name` of a cell is the place of its name in the text, which
/// means nothing.
pub enum Expression {
    Constant(u32),
    /// The word of a cell.
    Cell(usize),
    /// An element of an array that is seen as words or bytes. Its subscript is checked against the array's size.
    Element {
        array: usize,
        kind: Kind,
        subscript: Box<Expression>,
    },
    /// An element of a table, which has these bytes. Its subscript is checked against the table's size.
    Listed {
        table: Vec<u8>,
        kind: Kind,
        subscript: Box<Expression>,
    },
    /// A subscript that is checked against a size.
    Checked {
        below: u32,
        subscript: Box<Expression>,
    },
    Binary {
        operator: Operator,
        left: Box<Expression>,
        right: Box<Expression>,
    },
    /// `~`, every bit turned.
    Complement(Box<Expression>),
    /// `NOT`, of a BOOL.
    Not(Box<Expression>),
    /// `BYTE`, of an INT: its low eight bits, checked.
    LowByte(Box<Expression>),
    /// `AND`: the right operand is evaluated only where the left is TRUE.
    And(Box<Expression>, Box<Expression>),
    /// `OR`: the right operand is evaluated only where the left is FALSE.
    Or(Box<Expression>, Box<Expression>),
    /// An expression within which a cell has a value, under a name or without one.
    Within {
        name: Option<Span>,
        cell: usize,
        value: Box<Expression>,
        within: Box<Expression>,
    },
}

// Written out, since a derived destructor of a recursive type is proved anew by each crate that drops one.
impl Drop for Expression {
    fn drop(self) {
        match self {
            Expression::Constant(_) | Expression::Cell(_) => {}
            Expression::Element {
                array: _,
                kind: _,
                subscript: _only,
            }
            | Expression::Checked {
                below: _,
                subscript: _only,
            }
            | Expression::Complement(_only)
            | Expression::Not(_only)
            | Expression::LowByte(_only) => {}
            Expression::Listed {
                table: _table,
                kind: _,
                subscript: _only,
            } => {}
            Expression::Binary {
                operator: _,
                left: _one,
                right: _other,
            }
            | Expression::And(_one, _other)
            | Expression::Or(_one, _other)
            | Expression::Within {
                name: _,
                cell: _,
                value: _one,
                within: _other,
            } => {}
        }
    }
}
