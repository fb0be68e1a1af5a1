//! Workers in occam whose names are resolved and whose calls are inlined: cells and arrays have numbers, and each is
//! declared where it is used. The number of what is declared is how much is declared around it.
//!
//! A core means a function on the state on which `tpw_occam_meaning` says what a text does.
//! [`Value`] and [`Process`] are built by calls whose contracts say that in the words of the text's meaning.
#![tactic(auto)]

mod expression;
mod expressions;
mod process;
mod processes;
mod value;

pub use expression::Expression;
pub use process::{Assignment, Bytes, Message, Process, Target};
pub use processes::{assigning, no_assignments};
pub use value::Value;
