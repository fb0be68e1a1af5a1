//! Programs and their images: lines with labels are assembled to the image of a worker, and an image is written as such
//! lines.
//!
//! The lengths of instructions depend on the distances that they have as operands, and these on the lengths. A layout
//! is a choice of lengths that agrees with itself; an assembler gives the least one.
#![tactic(auto)]

mod assembling;
mod code_lines;
mod disassembling;
mod fault;
mod labelling;
mod layout;
mod placing;
mod program;
mod rows;

pub use assembling::{Assembled, addresses, assemble};
pub use disassembling::disassemble;
pub use fault::{AssemblyFault, LineFault};
pub use program::{Line, Loop, Operation, Program, Spot};
