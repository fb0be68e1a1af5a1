//! Why the program ends early, with the status and the text of each.

ghost use Rattle.std.specs.Prelude.{◌≡◌};
ghost use Rattle.clap.specs.Words.{kind_of};
ghost use Rattle.tpw_command_line.specs.declared.ending.Ending.TheVariants as ending;
ghost use Rattle.tpw_command_line.specs.Endings.{of_words, status_of};
ghost use Rattle.tpw_files.specs.declared.failure.Failure.TheVariants as failure;

use crate::refusal::Refusal;
use clap::error::ErrorKind;
use std::alloc::{AllocError, AllocFailed};
use thiserror::Error;
use tpw_files::{Failure, Input};
use tpw_runs::PacketFault;

/// Why the program ends before it has done what it was asked for, with its text.
#[derive(Debug, Drop, Error)]
pub enum Ending {
    /// The command line asks for a text alone: for help, or for the version.
    #[error("{0}")]
    Shown(clap::Error),
    /// The command line is refused.
    #[error("{0}")]
    Refused(Refusal),
    /// An input says no packets, or no results that may be expected.
    #[error("{0}:{1}\n")]
    NoMessages(Input, PacketFault),
    /// The command fails.
    #[error("{0}")]
    Failed(Failure),
}

impl Ending {
    /// The status that the program ends with.
    pub fn status(&self) -> u8
        ensures { result ≡ status_of self.now }
    {
        match self {
            Ending::Shown(_) => 0,
            Ending::NoMessages(_, _) | Ending::Failed(_) => 1,
            Ending::Refused(_) => 2,
        }
    }
}

impl From<Failure> for Ending {
    ghost from_gives = { λ fault e. e ≡ ending.Failed fault };

    fn from(failure: Failure) -> Self {
        Ending::Failed(failure)
    }
}

impl From<Refusal> for Ending {
    ghost from_gives = { λ refusal e. e ≡ ending.Refused refusal };

    fn from(refusal: Refusal) -> Self {
        Ending::Refused(refusal)
    }
}

impl From<clap::Error> for Ending {
    ghost from_gives = { λ error e. e ≡ of_words (kind_of error) error };

    fn from(error: clap::Error) -> Self {
        match error.kind() {
            ErrorKind::OutOfMemory => Ending::Failed(Failure::Memory),
            ErrorKind::DisplayHelp | ErrorKind::DisplayVersion => Ending::Shown(error),
            _ => Ending::Refused(Refusal::Line(error)),
        }
    }
}

impl From<AllocError> for Ending {
    ghost from_gives = { λ _ e. e ≡ ending.Failed failure.Memory };

    fn from(_: AllocError) -> Self {
        Ending::Failed(Failure::Memory)
    }
}

impl<T: Drop> From<AllocFailed<T>> for Ending {
    ghost from_gives = { λ _ e. e ≡ ending.Failed failure.Memory };

    fn from(_: AllocFailed<T>) -> Self {
        Ending::Failed(Failure::Memory)
    }
}
