//! The verdict on an image, why it is refused, and its code with what it costs.

ghost use Rattle.std.specs.Prelude.{◌≡◌, IfOk, if◌then◌else◌};
ghost use Rattle.tpw_files.specs.declared.outcome.Outcome.TheVariants.{Good, Bad};
ghost use Rattle.tpw_why.specs.Verdicts.{is_accepted};

use std::alloc::Global;
use std::io::Write;
use tpw_debug::{ShowFault, SourceText};
use tpw_files::{Failure, Outcome};
use tpw_why::{Verdict, explain, list};

/// The outcome of a command that has written a verdict, once that is flushed.
fn answered<W: Write>(
    verdict: &Verdict,
    written: Result<(), ShowFault>,
    writer: &mut W,
) -> Result<Outcome, Failure>
    ensures { IfOk result (λ outcome. outcome ≡ (if is_accepted verdict.now then Good else Bad)) }
{
    let flushed = writer.flush();
    written?;
    match flushed {
        Ok(()) => Ok(Outcome::of(verdict.is_accepted())),
        Err(_) => Err(Failure::Write),
    }
}

/// Writes the verdict on the image that bytes say; of a refusal also what it means, what is known there, and what helps.
/// Beside the instructions of a text are its lines and its labels.
pub fn write_why<W: Write>(
    alloc: Global,
    bytes: &[u8],
    verdict: &Verdict,
    source: SourceText<'_>,
    writer: &mut W,
) -> Result<Outcome, Failure>
    ensures { IfOk result (λ outcome. outcome ≡ (if is_accepted verdict.now then Good else Bad)) }
{
    let written = explain(alloc, bytes, verdict, source, writer);
    answered(verdict, written, writer)
}

/// Writes the verdict on the image that bytes say, and the code with what each instruction costs.
pub fn write_list<W: Write>(
    alloc: Global,
    bytes: &[u8],
    verdict: &Verdict,
    source: SourceText<'_>,
    writer: &mut W,
) -> Result<Outcome, Failure>
    ensures { IfOk result (λ outcome. outcome ≡ (if is_accepted verdict.now then Good else Bad)) }
{
    let written = list(alloc, bytes, verdict, source, writer);
    answered(verdict, written, writer)
}
