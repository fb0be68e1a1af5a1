//! Names, types and parameters, as they are written.

use crate::span::Span;

/// A name at its place.
#[derive(Clone, Copy, Debug, PartialEq, Eq)]
pub struct Name<'a> {
    pub text: &'a str,
    pub span: Span,
}

/// The type of a value.
#[derive(Clone, Copy, Debug, PartialEq, Eq)]
pub enum Primitive {
    Int,
    Bool,
    Byte,
}

/// How an argument is passed.
#[derive(Clone, Copy, Debug, PartialEq, Eq)]
pub enum Passing {
    /// `VAL`: the argument's value.
    Value,
    /// Another name for the argument.
    Variable,
    /// `CHAN OF`: another name for a channel.
    Channel,
}
