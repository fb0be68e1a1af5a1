//! A packet, evaluated on a text in occam, with a line for each statement.

use crate::meaning::Meant;
use crate::statements::Statements;
use crate::valued::Text;
use std::alloc::Global;
use std::io::Write;
use tpw_files::{Failure, Outcome};
use tpw_occam_interpreter::{Given, WatchFault, run_watched};
use tpw_occam_scoped::Process;
use tpw_runs::Style;

/// Evaluates a packet by the core of a text, and writes the lines of its statements as they are done.
fn write_statements<W: Write>(
    alloc: Global,
    core: &Process,
    text: Text<'_>,
    packet: &[u8],
    hexadecimal: bool,
    writer: &mut W,
) -> Result<Option<Given>, Failure> {
    let mut statements = Statements::of(alloc, text, hexadecimal, writer);
    match run_watched(alloc, core, packet, &mut statements) {
        Ok(given) => Ok(given),
        Err(WatchFault::Memory) => Err(Failure::Memory),
        Err(WatchFault::Write) => Err(Failure::Write),
    }
}

/// Writes what the text means by the packet of a number.
fn write_meant<W: Write>(
    alloc: Global,
    meant: &Meant,
    number: usize,
    style: Style,
    writer: &mut W,
) -> Result<(), Failure> {
    let mut said = Vec::new(alloc);
    meant.write_lines(&mut said, style, number)?;
    match writer.write_all(&said) {
        Ok(()) => Ok(()),
        Err(_) => Err(Failure::Write),
    }
}

/// Evaluates the packet of a number by the core of a text in occam. Writes the lines of its statements, and what the text
/// means by it.
pub fn follow_packet<W: Write>(
    alloc: Global,
    core: &Process,
    text: Text<'_>,
    packet: &[u8],
    number: usize,
    style: Style,
    writer: &mut W,
) -> Result<Outcome, Failure> {
    let given = match write_statements(alloc, core, text, packet, style.hexadecimal, writer) {
        Ok(given) => given,
        Err(failure) => {
            let _ = writer.flush();
            return Err(failure);
        }
    };
    let meant = Meant { given };
    write_meant(alloc, &meant, number, style, writer)?;
    match writer.flush() {
        Ok(()) => Ok(Outcome::of(meant.given.is_some())),
        Err(_) => Err(Failure::Write),
    }
}
