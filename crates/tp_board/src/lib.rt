//! The farm core, and the board of packet numbers that the members' threads draw from.
//!
//! [`Core`] is the core for one thread. [`Board`] is the same core in four shared words, on which
//! each member's thread makes atomic steps through a [`Seat`] of its own; [`laws`] ties the two.
//! A [`WorkSource`] hands out the packets' bytes with their numbers.
#![tactic(auto)]

mod answer;
mod board;
mod event;
mod farm_core;
pub mod laws;
pub mod rule;
mod source;
pub mod view;

pub use answer::{BoardFault, Claim, Ledger, MAX_MEMBERS, MAX_PACKETS};
pub use board::{Board, BoardSource, CloseFault, Seat};
pub use event::{Event, Reply, Shown};
pub use farm_core::Core;
pub use source::{Packet, Work, WorkSource, with_bytes};
