//! The program `tpw`, all but the naming of its streams: from its words and its streams to its status.
#![tactic(auto)]

mod assembling;
mod output;
mod performing;
mod program;
mod reporting;
mod translating;

pub use output::Output;
pub use program::run;
pub use tpw_files::Terminal;
