//! Results by number: a batch's packets, and for each what became of it.
//!
//! A [`Done`] is the result of one packet, and its type keeps that this is what the run of that packet alone gives. A
//! [`Collector`] takes the results of a batch in any order and files each under its packet's number; [`Collected`] has
//! one [`Entry`] for each packet, in order. It belongs to the caller, who needs neither the image nor the packets for
//! it any more.
#![tactic(auto)]

mod collected;
mod collector;
mod done;
mod fault;
pub mod limits;

pub use collected::{Collected, Entry, LostCause};
pub use collector::Collector;
pub use done::Done;
pub use fault::PutFault;
