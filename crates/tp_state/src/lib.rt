//! Abstract states: what the verifier knows of a worker before an instruction, and what comes after it.
//!
//! The definitions are in `specs/`: what is known of registers and words, the rules of the instructions, and what fits.
//! The laws are the contracts of the functions of [`laws`].
#![tactic(auto)]

mod cell;
mod cells;
mod fault;
mod kind;
pub mod laws;
mod outcome;
mod places;
mod planes;
mod ranges;
mod rules;
mod state;
mod values;

pub use cell::Cell;
pub use cells::Cells;
pub use fault::{StateCode, StateFault};
pub use kind::Kind;
pub use outcome::after;
pub use state::State;
