//! Programs: each fault, and which comes first.

mod faults;
pub(crate) mod programs;
