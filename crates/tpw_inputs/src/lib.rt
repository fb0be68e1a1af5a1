//! Workers, built of the inputs of the tools' commands: images, and texts in assembly and in occam.
#![tactic(auto)]

mod budget;
mod built;
mod occam;
mod symbols;

pub use built::{Built, build};
pub use occam::{Occam, read_occam};
