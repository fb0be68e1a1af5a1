//! Workers in occam as they are written, and what they mean.
//!
//! A [`Source`] is the syntax tree of a text: what it declares, its worker last. `specs/` says what it means by its
//! names: `meaning_of_text`, a function from a packet to a result, an error flag and traces.
#![tactic(auto)]

mod expression;
pub mod laws;
mod operator;
mod tree;
mod types;

pub use expression::{Direction, Expression, Expressions};
pub use operator::{Dyadic, Monadic};
pub use tree::{
    Cases, Choices, Declaration, Declarations, Process, Processes, Source, ValueProcess,
};
pub use types::{Names, Parameters, Primitives, Sizes, Type};
