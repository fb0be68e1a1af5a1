//! Scoped cores as workers: each cell lies in a variable, and each array in an array of the worker, as long as it is in
//! scope. What is declared in scopes that are never open together may lie in the same.
#![tactic(auto)]

mod aliases;
mod assignments;
mod expressions;
mod names;
mod needs;
mod parts;
mod process_parts;
mod processes;
mod scope;
mod tables;
mod workers;

pub use expressions::expression;
pub use names::{Declared, names_of};
pub use processes::process;
pub use scope::Scope;
pub use tables::{Fault, Tables};
pub use workers::place;
