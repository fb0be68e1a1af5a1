//! The program `farmd`, all but the naming of its streams: its words, its members, its statuses and
//! texts.
#![tactic(auto)]

mod chosen;
mod command_line;
mod ending;
mod members;
mod program;
mod words;

pub use chosen::Options;
pub use command_line::options;
pub use ending::Ending;
pub use members::serve_members;
pub use program::{run, run_words};
