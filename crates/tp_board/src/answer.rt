//! The answers of the calls of a board.
ghost use Rattle.std.specs.Prelude.{◌≡◌};
ghost use Rattle.tp_board.specs.declared.answer.BoardFault.TheVariants.{Memory};

use std::alloc::AllocError;
use std::error::Error;
use std::fmt;

/// The most members that a board has seats for.
pub const MAX_MEMBERS: u32 = 64;

/// The most packets of a board.
pub const MAX_PACKETS: u32 = 1024;

/// A refusal of a board. Its text begins with the refusal's code.
#[derive(Clone, Copy, Debug, PartialEq, Eq)]
pub enum BoardFault {
    /// A1: there are not 1 to 64 members.
    Members,
    /// A2: there are more than 1,024 packets.
    Packets,
    /// A3: the seat has nothing in hand.
    EmptyHand,
    /// Memory was refused.
    Memory,
}

impl fmt::Display for BoardFault {
    ghost use Rattle.std.specs.Prelude.{Some};
    ghost use Rattle.tp_board.specs.Faults.{fault_text};

    ghost output = { λ fault. Some (fault_text fault) };

    fn fmt<W: fmt::Write>(&self, f: &mut fmt::Formatter<W>) -> fmt::Result {
        f.write_str(match self {
            BoardFault::Members => "A1: not 1 to 64 members",
            BoardFault::Packets => "A2: more than 1024 packets",
            BoardFault::EmptyHand => "A3: nothing in hand",
            BoardFault::Memory => "memory",
        })
    }
}

impl Error for BoardFault {}

impl From<AllocError> for BoardFault {
    ghost from_gives = { λ _ fault. fault ≡ Memory };

    fn from(_refused: AllocError) -> BoardFault {
        BoardFault::Memory
    }
}

/// The answer to a claim.
#[derive(Clone, Copy, Debug, PartialEq, Eq)]
pub enum Claim {
    /// The number was drawn, and is in the seat's hand.
    Packet(u32),
    /// All numbers are drawn.
    NoMore,
    /// The board's stop mark is set.
    Stopped,
    /// This number is still in the seat's hand.
    Busy(u32),
}

/// The ends of a board's numbers.
#[derive(Clone, Copy, Debug, PartialEq, Eq)]
pub struct Ledger {
    /// How many numbers were drawn: those below this one.
    pub drawn: u32,
    /// How many of these were finished.
    pub done: u32,
    /// How many were abandoned.
    pub lost: u32,
    /// How many are still in a seat's hand.
    pub in_hand: u32,
    /// Whether some seat called stop.
    pub stopped: bool,
}
