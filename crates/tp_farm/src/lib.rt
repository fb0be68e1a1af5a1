//! A farm of members: threads that run one image's worker on the packets of a batch.
#![tactic(auto)]

mod batch;
mod fault;
mod gate;
mod gathering;
mod handling;
mod job;
pub mod laws;
mod lending;
mod member;
mod members;
mod thread;

pub use batch::{Batch, run_batch};
pub use fault::FarmFault;
pub use gate::{Gate, OpenGate};
pub use job::Job;
pub use lending::{members_for, run_lent};
