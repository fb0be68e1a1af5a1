//! A text in occam, read as a tree that spells it.
//!
//! [`parse`] makes a tree, writes it out, and compares. `specs/` says how a tree is written out: `unparse`.
#![tactic(auto)]

mod building;
mod growing;
mod marks;
mod reading;
mod spelled;
mod unparsed;

pub use reading::{Parsed, Standing, parse};
pub use unparsed::is_unparsed;
