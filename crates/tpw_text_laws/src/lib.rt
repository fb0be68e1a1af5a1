//! Laws of assembly text: what is written is read back.
//!
//! There is no code here: each function's contract is a law.
#![tactic(auto)]

pub mod laws;
