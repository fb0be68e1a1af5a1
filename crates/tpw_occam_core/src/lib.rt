//! Workers in occam, after names are resolved and calls inlined: what they are, and what they mean.
//!
//! A [`Worker`] receives a packet, runs a [`Process`] and sends a result. Each has one meaning: a result, an error
//! flag and traces for a packet, or that the packet is lost for its traces. `specs/Meaning` defines it.
#![tactic(auto)]

mod arithmetic;
mod arrays;
mod environment;
mod expression;
mod kind;
mod process;
mod scope;
mod sound;
mod worker;

pub use arithmetic::{Answer, applied, bind, checked_subscript, low_byte, pure};
pub use arrays::{element, element_at, size};
pub use expression::{Expression, Operator};
pub use kind::Kind;
pub use process::{Assignment, Message, Process, Target};
pub use scope::Entry;
pub use sound::is_sound;
pub use worker::{Place, Storage, Worker};
