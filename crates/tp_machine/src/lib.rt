//! A machine that runs accepted images: it keeps no tags and tests nothing.
//!
//! [`Machine::run`] runs one packet of an accepted image over a member's [`Links`](tp_link::Links). Accepted code never
//! goes wrong, so the machine has plain words and bytes, and no test of what is defined, of an address, of an
//! operation, of the worker's phase or of a shift count: each method asks that its instruction has an effect, and has
//! it.
#![tactic(auto)]

mod arithmetic;
mod bits;
mod control;
mod functions;
pub mod laws;
mod machine;
mod memory;
mod messages;
mod perform;
mod registers;
mod run;
mod stack;
mod start;
mod turn;

pub use machine::Machine;
pub use tp_outcome::Outcome;
