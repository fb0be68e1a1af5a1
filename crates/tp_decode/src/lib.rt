//! Instructions and listings.
//!
//! A code is a list of spellings of instructions, one after another. It has one cutting into these, or none.
#![tactic(auto)]

mod decoding;
mod fault;
mod instr;
pub mod laws;
mod lines;
mod listing;
mod piece;
mod placed;

pub use decoding::{MAX_CODE, decode};
pub use fault::{DecodeCode, DecodeFault};
pub use instr::{FUNCTIONS, Instr, OPERATIONS, OPR};
pub use listing::Listing;
pub use placed::Placed;
