//! The parts that both machines share: how a run ends, and what it leaves its devices.
#![tactic(auto)]

pub mod laws;
mod outcome;

pub use outcome::Outcome;
