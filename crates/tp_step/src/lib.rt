//! The transputer's step relation: what worker code does when it runs.
//!
//! The definitions are in `specs/`: the machine's state, the effect of each instruction, a step, being stuck, and the
//! run of a packet alone. The laws about them are the contracts of the functions of [`laws`]. The numbers that the
//! profile fixes are in [`profile`], for the crates that run or judge worker code; no step is made here.
#![tactic(auto)]

pub mod laws;
pub mod profile;
