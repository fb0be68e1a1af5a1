//! Values in a text: their types, their constness, and where they are worked out.

use tpw_occam_core::Answer;
use tpw_occam_terms::{Primitive, Span};

/// The constness of a value in the text.
#[derive(Clone, Copy)]
pub enum Constness {
    /// It is this constant.
    Constant(u32),
    /// It is made of constants, and sets the error flag here.
    Flagged(Span),
    /// It is worked out when the worker runs.
    Computed,
}

/// Where a value comes from.
#[derive(Clone, Copy)]
pub enum Root {
    /// It is a constant, or worked out where it stands.
    Made,
    /// It has a name, which is given its value once.
    Named,
    /// It is what a variable has.
    Variable(usize),
}

/// A value, its type, and what is known of it.
#[derive(Clone, Copy)]
pub struct Value {
    pub of: Primitive,
    pub constness: Constness,
    pub root: Root,
}

/// A constant of a type.
pub(crate) fn constant(of: Primitive, word: u32) -> Value {
    Value {
        of,
        constness: Constness::Constant(word),
        root: Root::Made,
    }
}

/// A value of a type, known when the worker runs.
pub(crate) fn computed(of: Primitive, root: Root) -> Value {
    Value {
        of,
        constness: Constness::Computed,
        root,
    }
}

/// The constness of an answer that is worked out at a place.
pub(crate) fn answered(answer: Answer, span: Span) -> Constness {
    if answer.flag {
        Constness::Flagged(span)
    } else {
        Constness::Constant(answer.word)
    }
}

impl Constness {
    /// The constness of a value that is made of two.
    pub(crate) fn with(self, other: Constness) -> Constness {
        match (self, other) {
            (Constness::Computed, _) => Constness::Computed,
            (_, Constness::Computed) => Constness::Computed,
            (Constness::Flagged(span), _) => Constness::Flagged(span),
            (Constness::Constant(_), other) => other,
        }
    }
}
