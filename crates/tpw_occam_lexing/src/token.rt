//! Tokens.

use crate::keywords::Keyword;
use crate::symbol::Symbol;
use tpw_occam_terms::Span;

/// A token of a text. Its spelling is a part of the text.
#[derive(Clone, Copy)]
pub enum Token<'a> {
    Name(&'a str),
    Keyword(Keyword),
    /// The digits of a number, behind `#` where they are hexadecimal.
    Number(&'a str),
    /// The characters between the quotes of `'a'`.
    Character(&'a str),
    /// The characters between the quotes of `"text"`.
    Text(&'a str),
    Symbol(Symbol),
}

/// A token at its place.
#[derive(Clone, Copy)]
pub struct Item<'a> {
    pub token: Token<'a>,
    pub span: Span,
}
