//! Symbolic code: lines whose words are those of items, as variables, temporaries, constants and arrays. Items are
//! placed once the whole code is there, those first whose words are used most; then steps become the lines of a
//! program.
#![tactic(auto)]

mod code;
mod constants;
mod fault;
mod initial;
mod items;
mod layout;
mod length;
mod lines;
mod loops;
mod program;
mod uses;

pub use code::{Code, CodeLine, Step, Turns};
pub use constants::is_short;
pub use fault::CodeFault;
pub use items::{Item, Placed, START};
pub use program::{Compiled, program_of};
pub use uses::MAX_CLEARED;
