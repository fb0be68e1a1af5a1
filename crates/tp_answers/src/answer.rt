//! Answers, as values.

use crate::outcomes::{AllOutcomes, Outcomes};
use std::alloc::{AllocError, Global};
use std::fmt;
use std::marker::Model;
use tp_accept::RefusalCode;
use tp_decode::{DecodeCode, Listing};

/// Why a line is refused. It prints as its code.
#[derive(Clone, Copy, Debug, PartialEq, Eq)]
pub enum LineFault {
    /// The line is none of the protocol's, or is too long.
    E1,
    /// The name is new, and as many sessions are open as may be.
    E2,
    /// The packet has another length than the image's packets.
    P1,
    /// No session of this name is open.
    P2,
    /// The session keeps as many packets as a batch may have.
    P3,
    /// The code has no cutting into instructions: D1 to D3. The place is an address in the code, in bytes.
    Code { code: DecodeCode, place: usize },
    /// The image is refused: F1 to F10, D1 to D3, J1 to J7, S1 to S11 or B1, with the place of
    /// [`tp_accept::Refusal`].
    Image { code: RefusalCode, place: usize },
}

impl LineFault {
    ghost use Rattle.std.specs.Prelude.{◌≡◌};
    ghost use Rattle.tp_answers.specs.Texts.{fault_place};

    /// Its place: where it has none of its own, the number of the line.
    pub(crate) fn place(&self, number: u64) -> u64
        ensures { result ≡ fault_place number self.now }
    {
        match self {
            LineFault::Code { place, .. } | LineFault::Image { place, .. } => *place as u64,
            _ => number,
        }
    }
}

impl fmt::Display for LineFault {
    ghost use Rattle.std.specs.Prelude.{Some};
    ghost use Rattle.tp_answers.specs.Texts.{fault_code};

    ghost output = { λ fault. Some (fault_code fault) };

    fn fmt<W: fmt::Write>(&self, f: &mut fmt::Formatter<W>) -> fmt::Result {
        match self {
            LineFault::E1 => f.write_str("E1"),
            LineFault::E2 => f.write_str("E2"),
            LineFault::P1 => f.write_str("P1"),
            LineFault::P2 => f.write_str("P2"),
            LineFault::P3 => f.write_str("P3"),
            LineFault::Code { code, .. } => write!(f, "{code}"),
            LineFault::Image { code, .. } => write!(f, "{code}"),
        }
    }
}

/// A listing, in a box: an answer is handed on several times, and most have a few words to say.
#[derive(Drop)]
pub struct BoxedListing {
    listing: Box<Listing>,
}

impl Model for BoxedListing {
    ghost use Rattle.std.specs.Prelude.{List};
    ghost use Rattle.tp_decode.specs.Cutting.{Cut};

    ghost Value = { List Cut };

    ghost view = { λ boxed. boxed.listing.value };
}

impl BoxedListing {
    ghost use Rattle.std.specs.Prelude.{◌≡◌, IfOk};

    pub(crate) fn new(alloc: Global, listing: Listing) -> Result<BoxedListing, AllocError>
        ensures { IfOk result (λ boxed. boxed ≡ listing) }
    {
        Ok(BoxedListing {
            listing: Box::new(alloc, listing)?,
        })
    }

    pub(crate) fn listing(&self) -> &Listing
        ensures { result.now ≡ self.now }
    {
        &self.listing
    }
}

/// The answer to a line.
#[derive(Drop)]
pub enum Answer {
    /// The instructions of a code.
    Listed(BoxedListing),
    /// The image is accepted, and its session is open.
    Yes { code_bytes: usize, budget: u32 },
    /// The packet is kept under this number of the coming batch.
    Kept(usize),
    /// The packets of the session were run.
    Ran(Outcomes),
    /// Those of all sessions were.
    RanAll(AllOutcomes),
    /// The session is gone.
    Gone,
    /// Nothing has changed.
    Refused(LineFault),
}
