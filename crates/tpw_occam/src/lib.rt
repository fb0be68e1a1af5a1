//! Workers in occam: from a text to its program, or to what is wrong with it, as diagnostics; and laws of them.
#![tactic(auto)]

mod calls;
mod compiling;
mod diagnosing;
mod fault;
pub mod laws;
mod names;
mod reached;
mod remedies;
mod room;

pub use calls::{CallLines, CalledLoop};
pub use compiling::{CompiledText, compile_text};
pub use diagnosing::fault_at;
pub use fault::{Defect, OccamFault};
pub use names::Located;
