//! The lines of a listing, around a place.

ghost use Rattle.std.specs.Prelude.{◌<◌, length};

use std::alloc::Global;
use std::io::Write;
use tp_decode::Listing;
use tp_image::Image;
use tpw_debug::{ShowFault, SourceText};

/// How many instructions are shown before the place, and behind it.
const AROUND: usize = 4;

/// Writes the loops that begin or end at an address.
fn write_rows<W: Write>(image: &Image, at: usize, writer: &mut W) -> Result<(), ShowFault> {
    for (number, row) in image.loops.iter().enumerate() {
        let written = if row.head as usize == at {
            write!(writer, "  [row {number}: head")
        } else if row.lend as usize == at {
            write!(writer, "  ]row {number}: lend")
        } else {
            Ok(())
        };
        written.map_err(|_| ShowFault::Write)?;
    }
    Ok(())
}

/// How many columns the labels of a line take at least.
const LABEL_COLUMNS: usize = 8;

/// Writes the labels of an address, each with its colon, and white space up to where the listing's line begins.
fn write_labels<W: Write>(
    source: SourceText<'_>,
    at: usize,
    writer: &mut W,
) -> Result<(), ShowFault> {
    let mut columns: usize = 0;
    for label in source.labels {
        if label.at == at {
            let name = label.name;
            write!(writer, "{name}: ").map_err(|_| ShowFault::Write)?;
            columns = columns.saturating_add(name.len()).saturating_add(2);
        }
    }
    for _ in columns..LABEL_COLUMNS {
        write!(writer, " ").map_err(|_| ShowFault::Write)?;
    }
    Ok(())
}

/// Writes the line of the text that says the instruction at an address.
fn write_statement<W: Write>(
    source: SourceText<'_>,
    at: usize,
    writer: &mut W,
) -> Result<(), ShowFault> {
    match source.statement_at(at) {
        Some(statement) => {
            let line = statement.line;
            let text = statement.text;
            write!(writer, "  ; line {line}: {text}").map_err(|_| ShowFault::Write)
        }
        None => Ok(()),
    }
}

/// Writes a line of the listing, the instruction of a number.
fn write_line<W: Write>(
    alloc: Global,
    image: &Image,
    listing: &Listing,
    source: SourceText<'_>,
    number: usize,
    writer: &mut W,
) -> Result<(), ShowFault>
    requires { number < length listing.now }
{
    let line = listing.text(alloc, number)?;
    if let Some(placed) = listing.get(number) {
        write_labels(source, placed.at, writer)?;
        write!(writer, "{line}").map_err(|_| ShowFault::Write)?;
        write_rows(image, placed.at, writer)?;
        write_statement(source, placed.at, writer)?;
    }
    writeln!(writer).map_err(|_| ShowFault::Write)
}

/// Writes the listing around an address, whose line is marked. Of what a text says, each line has its labels and its
/// statement.
pub(crate) fn write_around<W: Write>(
    alloc: Global,
    image: &Image,
    listing: &Listing,
    source: SourceText<'_>,
    place: usize,
    writer: &mut W,
) -> Result<(), ShowFault> {
    let Some(number) = listing.index_of(place) else {
        return Ok(());
    };
    let from = number.saturating_sub(AROUND);
    let to = number
        .saturating_add(AROUND)
        .min(listing.len().saturating_sub(1));
    for i in from..=to {
        if i >= listing.len() {
            return Ok(());
        }
        let mark = if i == number { ">" } else { " " };
        write!(writer, "{mark}").map_err(|_| ShowFault::Write)?;
        write_line(alloc, image, listing, source, i, writer)?;
    }
    Ok(())
}
