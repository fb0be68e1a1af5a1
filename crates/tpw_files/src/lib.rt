//! The inputs of the commands of `tpw`, standard input and files, as text or as bytes in hexadecimal; the outcome of a
//! command, and why it fails.
#![tactic(auto)]

mod failure;
mod fault;
mod input;
mod language;
mod outcome;
mod terminal;

pub use failure::Failure;
pub use fault::InputFault;
pub use input::{Input, Inputs, TextFault, bytes_of, hex_bytes, is_standard, text_of};
pub use language::Language;
pub use outcome::{Outcome, write_line};
pub use terminal::Terminal;
