//! Lines in, answers out.
//!
//! A service reads an input line by line and writes an answer to each line. Lines open sessions, give them packets and
//! run these on a farm. What is written for what is read is said in `specs/Served.antt`, line by line in
//! `tp_answers/specs/Answers.antt`.
#![tactic(auto)]

mod farm;
mod fault;
pub mod laws;
mod partial_line;
mod reading;
mod running;
mod service;
mod serving;

pub use farm::Farm;
pub use fault::ServeFault;
pub use reading::write_whole;
pub use serving::serve;

/// The most bytes of a line before its line feed.
pub const MAX_LINE: usize = 32_768;
