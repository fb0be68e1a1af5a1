//! The flow of a code: `check_flow` gives the nest of its loops, with the edges between its instructions, or the first
//! fault.
#![tactic(auto)]

mod edge;
mod fault;
mod flow;
mod jumps;
pub mod laws;
pub mod limits;
mod nest;
mod range;
mod rows;

pub use edge::{Edge, edges};
pub use fault::{FlowCode, FlowFault};
pub use flow::check_flow;
pub use nest::Nest;
pub use range::LoopRange;
