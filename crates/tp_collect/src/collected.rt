//! The results of a batch.

use crate::done::Done;
use std::marker::Model;
use tp_link::LinkFault;

/// Why a packet has no result.
#[derive(Clone, Copy, Debug, PartialEq, Eq)]
pub enum LostCause {
    /// A device refused a call for it.
    Link(LinkFault),
    /// The batch was stopped before it, or nobody took it.
    Stopped,
}

/// The result of one packet.
#[derive(Drop)]
pub enum Entry {
    Done(Done),
    Lost(LostCause),
}

/// The results of the packets of a batch: one entry for each, in the order of their numbers. A contract sees the list
/// of these.
#[derive(Drop)]
pub struct Collected {
    pub entries: Vec<Entry>,
}

impl Model for Collected {
    ghost use Rattle.std.specs.Prelude.{List};
    ghost use Rattle.tp_collect.specs.declared.collected.Entry.{Entry};

    ghost Value = { List Entry };

    ghost view = { λ c. c.entries.items };
}
