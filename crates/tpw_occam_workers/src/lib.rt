//! From a whole text to a scoped core: its declarations, and its worker, from the packet to the result.
#![tactic(auto)]

mod channels;
mod ends;
mod rest;
mod steps;
mod texts;

pub use texts::resolve;
