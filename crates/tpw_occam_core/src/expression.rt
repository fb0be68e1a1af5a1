//! Expressions.

use crate::kind::Kind;

/// An operator on two words.
#[derive(Clone, Copy, Debug, PartialEq, Eq)]
pub enum Operator {
    /// `+`, checked.
    Add,
    /// `-`, checked.
    Subtract,
    /// `*`, checked.
    Multiply,
    /// `PLUS`, the low 32 bits.
    Plus,
    /// `MINUS`, the low 32 bits.
    Minus,
    /// `TIMES`, the low 32 bits.
    Times,
    /// `/`, toward zero.
    Divide,
    /// `\`, with the sign of the dividend.
    Remainder,
    /// `/\`.
    BitAnd,
    /// `\/`.
    BitOr,
    /// `><`.
    BitXor,
    /// `<<`, by a count that is a subscript of 32.
    ShiftLeft,
    /// `>>`, by a count that is a subscript of 32.
    ShiftRight,
    /// `=`.
    Equal,
    /// `>`, signed.
    Greater,
}

/// An expression. Variables and arrays are named by numbers.
pub enum Expression {
    Constant(u32),
    Variable(usize),
    /// An element of an array that is seen as words or bytes. Its subscript is checked against the array's size.
    Element {
        array: usize,
        kind: Kind,
        subscript: Box<Expression>,
    },
    /// A subscript that is checked against a size.
    Checked {
        below: u32,
        subscript: Box<Expression>,
    },
    Binary {
        operator: Operator,
        left: Box<Expression>,
        right: Box<Expression>,
    },
    /// `~`, every bit turned.
    Complement(Box<Expression>),
    /// `NOT`, of a BOOL.
    Not(Box<Expression>),
    /// `BYTE`, of an INT: its low eight bits, checked.
    LowByte(Box<Expression>),
    /// `AND`: the right operand is evaluated only where the left is TRUE.
    And(Box<Expression>, Box<Expression>),
    /// `OR`: the right operand is evaluated only where the left is FALSE.
    Or(Box<Expression>, Box<Expression>),
    /// An expression within which a name has a value.
    Let {
        name: usize,
        value: Box<Expression>,
        within: Box<Expression>,
    },
}

// Written out, since a derived destructor of a recursive type is proved anew by each crate that drops one.
impl Drop for Expression {
    fn drop(self) {
        match self {
            Expression::Constant(_) | Expression::Variable(_) => {}
            Expression::Element {
                array: _,
                kind: _,
                subscript: _only,
            }
            | Expression::Checked {
                below: _,
                subscript: _only,
            }
            | Expression::Complement(_only)
            | Expression::Not(_only)
            | Expression::LowByte(_only) => {}
            Expression::Binary {
                operator: _,
                left: _one,
                right: _other,
            }
            | Expression::And(_one, _other)
            | Expression::Or(_one, _other)
            | Expression::Let {
                name: _,
                value: _one,
                within: _other,
            } => {}
        }
    }
}
