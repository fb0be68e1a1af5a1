//! Names, types and parameters, as they are written.

use crate::expression::{Direction, Expression};
use tpw_occam_terms::{Name, Passing, Primitive};

/// Names with commas between, from the first on.
pub enum Names<'a> {
    End,
    More(Name<'a>, Box<Names<'a>>),
}

/// The types of a FUNCTION's results, from the first on.
pub enum Primitives {
    One(Primitive),
    More(Primitive, Box<Primitives>),
}

/// The sizes in front of a type, from the first on; none of what is no array.
pub enum Sizes<'a> {
    End,
    /// `[]`: as many as there are.
    Open(Box<Sizes<'a>>),
    /// `[k]`
    Of(Expression<'a>, Box<Sizes<'a>>),
}

/// The type of values, of arrays, or of what a channel carries.
pub struct Type<'a> {
    pub sizes: Sizes<'a>,
    pub of: Primitive,
}

/// Parameters, from the first on.
pub enum Parameters<'a> {
    End,
    /// A parameter with its type.
    Typed {
        passing: Passing,
        of: Type<'a>,
        name: Name<'a>,
        direction: Option<Direction>,
        more: Box<Parameters<'a>>,
    },
    /// A parameter that is of the type of the one in front of it.
    Further {
        name: Name<'a>,
        direction: Option<Direction>,
        more: Box<Parameters<'a>>,
    },
}

// Destructors are written out, as those of expressions.

impl Drop for Names<'_> {
    fn drop(self) {
        match self {
            Names::End => {}
            Names::More(_, _more) => {}
        }
    }
}

impl Drop for Primitives {
    fn drop(self) {
        match self {
            Primitives::One(_) => {}
            Primitives::More(_, _more) => {}
        }
    }
}

impl Drop for Sizes<'_> {
    fn drop(self) {
        match self {
            Sizes::End => {}
            Sizes::Open(_more) => {}
            Sizes::Of(_size, _more) => {}
        }
    }
}

impl Drop for Type<'_> {
    fn drop(self) {
        let Type {
            sizes: _sizes,
            of: _,
        } = self;
    }
}

impl Drop for Parameters<'_> {
    fn drop(self) {
        match self {
            Parameters::End => {}
            Parameters::Typed {
                passing: _,
                of: _type,
                name: _,
                direction: _,
                more: _more,
            } => {}
            Parameters::Further {
                name: _,
                direction: _,
                more: _more,
            } => {}
        }
    }
}
