//! The verifier's table: what is known before each instruction of a worker's code, as the least fixpoint of the rules
//! (Kildall's algorithm).
//!
//! The definitions are in `specs/`: tables, the tables that every edge respects, and the passes that find one.
//! The laws are the contracts of the functions of [`laws`].
#![tactic(auto)]

pub mod laws;
mod passes;
mod predecessors;
mod states;
mod table;

pub use passes::{asked, check_states, places_of};
pub use states::{enter, first_states, state_at};
pub use table::Table;
