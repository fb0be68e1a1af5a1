//! The outcome of a command.

ghost use Rattle.std.specs.Prelude.{◌≡◌, IfOk, IfErr, OnOk, if◌then◌else◌};
ghost use Rattle.std.specs.Io.KnownBytes.{Appends};
ghost use Rattle.tpw_files.specs.declared.failure.Failure.TheVariants as failure;
ghost use Rattle.tpw_files.specs.declared.outcome.Outcome.TheVariants.{Good, Bad};
ghost use Rattle.tpw_files.specs.Outcomes.{status_on};

use crate::failure::Failure;
use std::io::Write;

/// The outcome of a command that has run.
#[derive(Clone, Copy, Debug, PartialEq, Eq)]
pub enum Outcome {
    /// It has done what it was asked for, and what it was asked about is good.
    Good,
    /// The run has no end, the image is refused, or a packet is lost or has another result than is expected.
    Bad,
}

impl Outcome {
    /// Good where a test holds, else Bad.
    pub fn of(holds: bool) -> Outcome
        ensures { result ≡ (if holds then Good else Bad) }
    {
        if holds { Outcome::Good } else { Outcome::Bad }
    }

    /// The status that the program ends with.
    pub fn status(self) -> u8
        ensures { result ≡ status_on self }
    {
        match self {
            Outcome::Good => 0,
            Outcome::Bad => 1,
        }
    }
}

/// Writes a text, and flushes it.
pub fn write_line<W: Write>(writer: &mut W, text: &str) -> Result<Outcome, Failure>
    ensures text { OnOk result (Appends (W.contents writer.old) (W.contents writer.new) text.now) }
    ensures good { IfOk result (λ outcome. outcome ≡ Good) }
    ensures fault { IfErr result (λ e. e ≡ failure.Write) }
{
    if writer.write_all(text.as_bytes()).is_err() {
        return Err(Failure::Write);
    }
    match writer.flush() {
        Ok(()) => Ok(Outcome::Good),
        Err(_) => Err(Failure::Write),
    }
}
