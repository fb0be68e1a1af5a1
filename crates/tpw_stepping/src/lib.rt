//! Runs of any image, accepted or not: one shown an instruction at a time, and where the steps of many go.
#![tactic(auto)]

mod place;
mod profiling;
mod shares;
mod stepping;
mod times;

pub use place::place_of;
pub use profiling::{Counted, write_profile};
pub use stepping::{Excerpt, excerpt_of, outcome_of, write_step};
