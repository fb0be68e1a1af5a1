//! The verdict on an image, explained; its code with what it costs; its text.
#![tactic(auto)]

mod disassembly;
mod refusing;

pub use disassembly::disassemble_image;
pub use refusing::{write_list, write_why};
