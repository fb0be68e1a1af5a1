//! The hands and the feeder of a stream, and what its calls answer.
ghost use Rattle.std.specs.Prelude.{◌≡◌, []};
ghost use Rattle.tp_stream.specs.Streams.{HandView, FeederView, turn_of, hand_of_parts, feeder_of_parts};
ghost use Rattle.tp_stream.specs.Streams.{IsHand, IsFeeder};

use crate::queue::QueuePass;
use crate::tally::Token;
use std::marker::Model;
use tp_board::Ledger;

/// The answer to a try to feed.
#[derive(Clone, Copy, Debug, PartialEq, Eq)]
pub enum Fed {
    /// The next packet, or the next end mark, is in the queue.
    Pushed,
    /// The queue was full, and nothing was pushed.
    Full,
    /// The stream's stop mark is set.
    Stopped,
    /// All packets and an end mark for each member are pushed.
    Over,
}

/// The ends of a stream's packets.
#[derive(Clone, Copy, Debug, PartialEq, Eq)]
pub struct StreamLedger {
    /// How many packets were pushed.
    pub pushed: u32,
    /// Where the packets are that were taken from the queue.
    pub ledger: Ledger,
}

/// The right to take packets from one stream, with what was taken. [`StreamQueue::new`] makes one
/// for each member, and [`StreamQueue::close`] takes all of them back.
///
/// To a contract it is what its pass at the queue and its seat at the words know, and the number in
/// hand. Its type keeps that the numbers that it popped are, each once, those that it finished,
/// those that it abandoned and the one in hand.
///
/// [`StreamQueue::new`]: crate::StreamQueue::new
/// [`StreamQueue::close`]: crate::StreamQueue::close
#[derive(Drop)]
pub struct StreamHand {
    pub(crate) pass: QueuePass,
    pub(crate) token: Token,
    pub(crate) number: Option<u32>,
    // It popped an end mark.
    pub(crate) ended: bool,
    // A load has found the stop mark set.
    pub(crate) stop_seen: bool,
}

impl Model for StreamHand {
    ghost Value = { HandView };

    ghost view = { λ h. hand_of_parts h.pass.table_id h.token.table_id (turn_of h.pass) h.token.me.0 h.number };

    ghost invariant = { λ h.
        IsHand (turn_of h.pass) h.token.me.0 h.number h.ended h.stop_seen × (h.pass.me.1 ≡ []) × (h.token.me.1 ≡ []) };
}

/// The right to feed one stream.
#[derive(Drop)]
pub struct Feeder {
    pub(crate) pass: QueuePass,
    pub(crate) token: Token,
    // How many packets and how many end marks it has pushed.
    pub(crate) pushed: u32,
    pub(crate) marks: u32,
}

impl Model for Feeder {
    ghost Value = { FeederView };

    ghost view = { λ f. feeder_of_parts f.pass.table_id f.token.table_id (turn_of f.pass) f.token.me.0 };

    ghost invariant = { λ f. IsFeeder (turn_of f.pass) f.token.me.0 f.pushed f.marks × (f.pass.me.1 ≡ [])
        × (f.token.me.1 ≡ []) };
}
