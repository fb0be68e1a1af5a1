//! Laws of the rules: what is known after an instruction keeps the order of what is known before it, and stays sound.
//!
//! There is no code here: each function's contract is a law. The verifier is exact by them (`tp_check`).
#![tactic(auto)]

pub mod laws;
