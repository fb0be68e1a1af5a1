//! An interpreter of scoped cores: it computes what a text does, packet by packet. A [`Watch`] follows a run.
#![tactic(auto)]

mod arrays;
mod expressions;
mod memory;
mod messages;
mod running;
mod watch;
mod workers;
mod writing;

pub use memory::{MAX_TRACED, Memory};
pub use running::Halt;
pub use watch::{Watch, WatchFault};
pub use workers::{Given, begin, run_watched, run_worker, value_in};
