//! The meaning of packets by a text in occam, without an image or a farm.

ghost use Rattle.std.specs.Prelude.{◌≡◌, ◌<◌, ◌+◌, ◌^◌, OnOk};
ghost use Rattle.tpw_runs.specs.Tallies.{counted};

use crate::meaning::Meant;
use crate::said::said_on;
use crate::summary::{is_as_expected, write_summary};
use std::alloc::{AllocError, Global};
use std::io::Write;
use tpw_files::{Failure, Outcome};
use tpw_occam_scoped::Process;
use tpw_runs::{Expected, Form, Kind, LONG_TRACE, Tally, write_expected, write_loss};

/// Whether what is meant by a packet is the result that is expected.
fn is_expected(meant: &Meant, expected: Option<&Expected>) -> bool {
    match (&meant.given, expected) {
        (Some(given), Some(wanted)) => {
            given.result.as_slice() == wanted.message.as_slice() && given.flag == wanted.error
        }
        _ => false,
    }
}

/// The count of a packet, by its meaning and whether that is another result than the expected one.
fn kind_of(meant: &Meant, is_other: bool) -> Kind {
    match &meant.given {
        Some(_) if is_other => Kind::Other,
        Some(_) => Kind::Done,
        None => Kind::Lost,
    }
}

/// Writes what is shown of the packet of a number in a form. Returns whether what is meant by it is another result than
/// the one that is expected.
fn write_meant(
    out: &mut Vec<u8>,
    form: Form<'_>,
    number: usize,
    meant: &Meant,
) -> Result<bool, AllocError> {
    match form {
        Form::Lines(style) => meant.write_lines(out, style, number)?,
        Form::Raw => {
            if let Some(given) = &meant.given {
                out.extend_from_slice(&given.result)?;
            }
        }
        Form::Differences(style, expected) => {
            let expected = expected.get(number);
            if !is_expected(meant, expected) {
                meant.write_lines(out, style, number)?;
                write_expected(out, style, expected)?;
                return Ok(true);
            }
        }
    }
    Ok(false)
}

/// The packet of a number, and the line in which its error flag is set first.
#[derive(Clone, Copy)]
struct Flagged {
    number: usize,
    line: u32,
}

impl Flagged {
    /// That of a packet, where its flag is set.
    fn of(number: usize, meant: &Meant) -> Option<Flagged> {
        match &meant.given {
            Some(given) => Some(Flagged {
                number,
                line: given.flag_line?,
            }),
            None => None,
        }
    }

    /// That which is told behind the packet of a number, which is counted: of the first packet that differs, where results
    /// are expected, else of the first whose flag is set.
    fn behind(
        before: Option<Flagged>,
        number: usize,
        meant: &Meant,
        form: Form<'_>,
        tally: &Tally,
    ) -> Option<Flagged> {
        let is_told = match form {
            Form::Differences(_, _) => tally.first == Some(number),
            Form::Lines(_) | Form::Raw => before.is_none(),
        };
        if is_told {
            Flagged::of(number, meant)
        } else {
            before
        }
    }

    /// Writes where a packet sets its error flag first, as of a run.
    fn write<W: Write>(self, alloc: Global, text: &str, writer: &mut W) -> Result<(), Failure> {
        let lines: Vec<&str> = text.lines().collect(alloc)?;
        let Flagged { number, line } = self;
        let said = said_on(&lines, line);
        write!(
            writer,
            "packet {number} sets the flag first on line {line}: {said}\n"
        )
        .map_err(|_| Failure::Write)
    }
}

/// Writes what is shown in a form of the packet of a number. A loss of which that is nothing goes to `errors`.
fn write_packet<W: Write, E: Write>(
    alloc: Global,
    number: usize,
    meant: &Meant,
    form: Form<'_>,
    writer: &mut W,
    errors: &mut E,
    tally: &mut Tally,
) -> Result<(), Failure>
    requires { counted tally.old < 2 ^ 63 }
    ensures { OnOk result (counted tally.new ≡ counted tally.old + 1) }
{
    let mut text = Vec::new(alloc);
    let is_other = write_meant(&mut text, form, number, meant)?;
    if writer.write_all(&text).is_err() {
        return Err(Failure::Write);
    }
    if let (Form::Raw, None) = (form, &meant.given) {
        write_loss(errors, number, LONG_TRACE);
    }
    tally.add(kind_of(meant, is_other));
    if is_other {
        tally.note_other(number);
    }
    Ok(())
}

/// Evaluates packets, and writes what is shown of each in a form. Returns their outcomes, and which of them sets its error
/// flag first in which line.
fn write_packets<W: Write, E: Write>(
    alloc: Global,
    core: &Process,
    packets: &[Vec<u8>],
    form: Form<'_>,
    writer: &mut W,
    errors: &mut E,
) -> Result<(Tally, Option<Flagged>), Failure> {
    let mut tally = Tally::new();
    let mut flagged = None;
    for (number, packet) in packets.iter().enumerate() {
        let meant = Meant::of(alloc, core, packet)?;
        write_packet(alloc, number, &meant, form, writer, errors, &mut tally)?;
        flagged = Flagged::behind(flagged, number, &meant, form, &tally);
    }
    Ok((tally, flagged))
}

/// Evaluates packets by the core of a text in occam, and writes what is shown of them in a form, where one sets its error
/// flag first, and the last line.
pub fn evaluate_packets<W: Write, E: Write>(
    alloc: Global,
    text: &str,
    core: &Process,
    packets: &[Vec<u8>],
    form: Form<'_>,
    writer: &mut W,
    errors: &mut E,
) -> Result<Outcome, Failure> {
    let (tally, flagged) = write_packets(alloc, core, packets, form, writer, errors)?;
    match form {
        // A picture or a pipe has the results alone.
        Form::Raw => {
            if writer.flush().is_err() {
                return Err(Failure::Write);
            }
            if tally.lost > 0 {
                write_summary(errors, None, &tally, form)?;
            }
        }
        Form::Lines(_) | Form::Differences(_, _) => {
            if let Some(flagged) = flagged {
                flagged.write(alloc, text, writer)?;
            }
            write_summary(writer, None, &tally, form)?
        }
    }
    Ok(Outcome::of(is_as_expected(&tally, form)))
}
