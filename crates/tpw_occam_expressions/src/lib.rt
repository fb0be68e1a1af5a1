//! Symbolic code of expressions, and what is known of names and values while code is made.
#![tactic(auto)]

mod emitter;
mod expressions;
mod need;
mod operands;
mod operators;
mod range;
mod subscripts;

pub use emitter::{Allocation, Emitter, Fact, constant, counted, fact_of};
pub use expressions::Value;
pub use range::{FULL, Range};
pub use subscripts::{Offset, base, checked, indexed, kept_byte, reduce, settled};
