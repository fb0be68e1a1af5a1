//! The steps that a member may make on the core, and the replies.

/// One of the four counts of the core, each a word of a board.
#[derive(Clone, Copy, Debug, PartialEq, Eq)]
pub enum Shown {
    /// How many numbers are drawn.
    Claimed,
    /// How many numbers are done.
    Done,
    /// How many numbers are lost.
    Lost,
    /// The stop mark, as 0 or 1.
    Stop,
}

/// One event of one member.
#[derive(Clone, Copy, Debug, PartialEq, Eq)]
pub enum Event {
    /// Draws the least number that was not yet drawn.
    Claim,
    /// The number in hand is done.
    Finish,
    /// The number in hand is lost.
    Abandon,
    /// Sets the stop mark.
    Stop,
    /// Reads one of the counts.
    Look(Shown),
}

/// The answer to an event.
#[derive(Clone, Copy, Debug, PartialEq, Eq)]
pub enum Reply {
    /// To Claim the number drawn; to Finish and Abandon the number that was in hand.
    Number(u32),
    /// To Claim: all numbers are drawn.
    NoMore,
    /// To Claim: this number is still in hand.
    Busy(u32),
    /// To Finish and Abandon: nothing is in hand.
    Empty,
    /// To Stop.
    Made,
    /// To Look.
    Value(u64),
}
