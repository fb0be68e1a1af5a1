//! From the core of a worker in occam to its program: lines for `tpw_asm`, loops, and the first words of the workspace.
//!
//! Code is made of steps, whose words are those of items: variables, temporaries, constants, arrays. Then items are
//! placed, those first whose words are used most, and steps become lines.
#![tactic(auto)]

mod analysis;
mod assignments;
mod compiled;
mod messages;
mod order;
mod processes;

pub use compiled::compile;
