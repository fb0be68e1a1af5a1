//! The stream: packets that one thread feeds, through a queue, and the members take while they run.
//!
//! A [`StreamQueue`] is a [`WorkSource`]; [`laws`] ties its queue and its words to the farm core.
#![tactic(auto)]

mod hand;
pub mod laws;
mod queue;
mod stream;
mod tally;
mod waiting;

pub use hand::{Fed, Feeder, StreamHand, StreamLedger};
pub use stream::{StreamCloseFault, StreamQueue};
pub use tp_board::{BoardFault, Ledger, MAX_MEMBERS, MAX_PACKETS, Packet, Work, WorkSource};
