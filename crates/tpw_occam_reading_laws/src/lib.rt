//! A text has at most one meaning: trees that are written the same mean the same.
#![tactic(auto)]

pub mod laws;
