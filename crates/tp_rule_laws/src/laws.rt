//! Laws of the rules: each function's contract is the law.

pub mod order;
pub mod sound;
