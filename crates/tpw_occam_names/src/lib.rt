//! Bindings of names while a text is resolved, on the call's own stack; and the values of numbers, characters,
//! operators and types.
#![tactic(auto)]

mod fault;
mod names;
mod operators;
mod scope;
mod spelled;

pub use fault::Fault;
pub use names::{element_type, named, type_of, type_of_one, type_of_two};
pub use operators::{combined, monadic};
pub use scope::{Channel, Form, Meaning, Protocol, Scope, Shape, Storage, View, Word, look_up};
pub use spelled::{character, number};
