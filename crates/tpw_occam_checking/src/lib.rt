//! A check of workers in occam: all that is wrong with a text, and what may not be meant.
#![tactic(auto)]

mod assignments;
mod branches;
mod choices;
mod declarations;
mod functions;
mod known;
mod limits;
mod messages;
mod processes;
mod trees;
mod uncalled;
mod usage;
mod whole;
mod worker;

pub use whole::{CheckError, check};
