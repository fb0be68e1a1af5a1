//! A machine that runs any worker image: a checking interpreter of the step relation, for debuggers, tests and tools.
//!
//! [`Machine::run_image`] runs one packet of an image over a member's [`Links`](tp_link::Links). The machine keeps a
//! tag beside each register and byte, so it knows what is undefined, and tests everything that it does: where no step
//! exists it answers [`RunFault::Stuck`]. Nothing of the product uses it: accepted images run on `tp_machine`.
//!
//! [`Machine::resume`] goes on from where a debugger or a test has set the machine: its [`Registers`], and the bytes of
//! the workspace by [`Machine::put`] and [`Machine::undefine`], which [`Machine::cell`] reads. [`Machine::start`] sets
//! it to the beginning of a packet's run, and [`Machine::step`] makes one step, and returns its [`Turn`].
#![tactic(auto)]

mod arithmetic;
mod bits;
mod control;
mod fault;
mod functions;
mod machine;
mod memory;
mod messages;
mod phase;
mod places;
mod registers;
mod run;
mod stack;
mod start;
mod step;
mod turn;
mod words;

pub use fault::RunFault;
pub use machine::{Machine, WORKSPACE_BYTES};
pub use phase::Phase;
pub use registers::Registers;
pub use turn::Turn;
