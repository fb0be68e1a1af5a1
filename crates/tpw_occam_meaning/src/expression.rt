//! Expressions, as they are written.

use crate::operator::{Dyadic, Monadic};
use tpw_occam_terms::{Name, Span};

/// `?` or `!`, behind the name of a channel.
#[derive(Clone, Copy, PartialEq, Eq)]
pub enum Direction {
    Receive,
    Send,
}

/// An expression. What is spelled is a part of the text.
#[cycle(expression)]
pub enum Expression<'a> {
    /// A number, by its digits, behind `#` where they are hexadecimal.
    Number {
        spelled: &'a str,
        span: Span,
    },
    /// A character, which is a BYTE, by what stands between its quotes.
    Character {
        spelled: &'a str,
        span: Span,
    },
    /// A table of BYTEs, by what stands between its quotes.
    Text {
        spelled: &'a str,
        span: Span,
    },
    /// `TRUE` or `FALSE`.
    Truth {
        value: bool,
        span: Span,
    },
    /// `MOSTPOS INT`, or `MOSTNEG INT`.
    Most {
        is_negative: bool,
        span: Span,
    },
    /// `[e, ..]`: a table of constants.
    Table {
        items: Box<Expressions<'a>>,
        span: Span,
    },
    Name(Name<'a>),
    /// A channel that is passed, with its direction.
    Channel {
        name: Name<'a>,
        direction: Direction,
    },
    /// `a[e]`
    Element {
        array: Box<Expression<'a>>,
        subscript: Box<Expression<'a>>,
        span: Span,
    },
    /// `f (e, ..)`
    Call {
        name: Name<'a>,
        arguments: Box<Expressions<'a>>,
    },
    /// An expression in brackets.
    Bracketed {
        within: Box<Expression<'a>>,
        span: Span,
    },
    Monadic {
        operator: Monadic,
        span: Span,
        operand: Box<Expression<'a>>,
    },
    Dyadic {
        operator: Dyadic,
        span: Span,
        left: Box<Expression<'a>>,
        right: Box<Expression<'a>>,
    },
    /// An expression with a fault.
    Wrong {
        span: Span,
    },
}

/// Expressions, from the first on.
#[cycle(expression)]
pub enum Expressions<'a> {
    End,
    More(Box<Expression<'a>>, Box<Expressions<'a>>),
}

// Destructors are written out, since a derived one of a recursive type is proved anew by each crate that drops one.

impl Drop for Expression<'_> {
    #[cycle(expression)]
    fn drop(self) {
        match self {
            Expression::Number {
                spelled: _,
                span: _,
            }
            | Expression::Character {
                spelled: _,
                span: _,
            }
            | Expression::Text {
                spelled: _,
                span: _,
            }
            | Expression::Truth { value: _, span: _ }
            | Expression::Most {
                is_negative: _,
                span: _,
            }
            | Expression::Name(_)
            | Expression::Channel {
                name: _,
                direction: _,
            }
            | Expression::Wrong { span: _ } => {}
            Expression::Table {
                items: _list,
                span: _,
            }
            | Expression::Call {
                name: _,
                arguments: _list,
            } => {}
            Expression::Bracketed {
                within: _only,
                span: _,
            }
            | Expression::Monadic {
                operator: _,
                span: _,
                operand: _only,
            } => {}
            Expression::Element {
                array: _one,
                subscript: _other,
                span: _,
            }
            | Expression::Dyadic {
                operator: _,
                span: _,
                left: _one,
                right: _other,
            } => {}
        }
    }
}

impl Drop for Expressions<'_> {
    #[cycle(expression)]
    fn drop(self) {
        match self {
            Expressions::End => {}
            Expressions::More(_first, _more) => {}
        }
    }
}
