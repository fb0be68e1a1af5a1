//! A code, listed with its costs.

ghost use Rattle.tp_decode.specs.Cutting.{IsCutting};

use crate::bound::write_bound;
use crate::costs::{CodeCosts, costs_of_code, listing_of};
use crate::judging::Verdict;
use crate::verdict::{image_of, whole_of, write_line, write_refusal, write_yes};
use std::alloc::Global;
use std::io::Write;
use tp_accept::{Accepted, Counted, RefusalCode};
use tp_decode::{DecodeFault, Listing, Placed, decode};
use tp_image::Image;
use tpw_debug::{ShowFault, SourceText};

/// An image, its instructions, and debug information of them.
#[derive(Clone, Copy)]
struct Listed<'a> {
    image: &'a Image,
    listing: &'a Listing,
    source: SourceText<'a>,
}

/// Writes the labels of an address on a line of their own.
fn list_labels<W: Write>(
    source: SourceText<'_>,
    at: usize,
    writer: &mut W,
) -> Result<(), ShowFault> {
    for label in source.labels {
        if label.at == at {
            let name = label.name;
            writeln!(writer, "{name}:").map_err(|_| ShowFault::Write)?;
        }
    }
    Ok(())
}

/// Writes where an instruction is, its bytes, and what it costs from there on; a dash where no cost is known.
fn list_place<W: Write>(
    alloc: Global,
    code: &[u8],
    placed: Placed,
    cost: Option<Counted>,
    writer: &mut W,
) -> Result<(), ShowFault> {
    let Placed { at, next, .. } = placed;
    let bytes = hex::encode(alloc, code.get(at..next).unwrap_or(&[]))?;
    let bytes = bytes.as_str();
    match cost {
        Some(cost) => {
            let left = cost.whole;
            write!(writer, "{at:>6}  {bytes:<16}  {left:>10}  ")
        }
        None => write!(writer, "{at:>6}  {bytes:<16}           -  "),
    }
    .map_err(|_| ShowFault::Write)
}

/// Writes an instruction, and the line of the text that says it, if it is another than that of the one before.
fn list_text<W: Write>(
    alloc: Global,
    source: SourceText<'_>,
    placed: Placed,
    line: &mut usize,
    writer: &mut W,
) -> Result<(), ShowFault> {
    let Placed { at, instr, .. } = placed;
    let instr = format!(in alloc; "{instr}")?;
    let instr = instr.as_str();
    let written = match source.statement_at(at) {
        Some(statement) if statement.line != *line => {
            *line = statement.line;
            let text = statement.text;
            writeln!(writer, "{instr:<12}  ; line {line}: {text}")
        }
        _ => writeln!(writer, "{instr}"),
    };
    written.map_err(|_| ShowFault::Write)
}

/// Writes each instruction. Without costs a dash takes their place.
fn list_code<W: Write>(
    alloc: Global,
    listed: Listed<'_>,
    costs: &[Option<Counted>],
    writer: &mut W,
) -> Result<(), ShowFault> {
    writeln!(writer, "    at  bytes                   left  instruction").map_err(
        |_| ShowFault::Write,
    )?;
    let Listed {
        image,
        listing,
        source,
    } = listed;
    let mut line = 0;
    for i in 0..listing.len() {
        if let Some(placed) = listing.get(i) {
            let cost = costs.get(placed.at).copied().unwrap_or(None);
            list_labels(source, placed.at, writer)?;
            list_place(alloc, &image.code, placed, cost, writer)?;
            list_text(alloc, source, placed, &mut line, writer)?;
        }
    }
    Ok(())
}

/// Writes the most bytes of a run behind a name, and each instruction with its cost.
fn list_costs<W: Write>(
    alloc: Global,
    listed: Listed<'_>,
    name: &str,
    writer: &mut W,
) -> Result<(), ShowFault>
    requires { IsCutting listed.image.now.code listed.listing.now }
{
    let costs = costs_of_code(alloc, listed.image, listed.listing)?;
    let bytes = whole_of(&costs);
    write_bound(
        listed.source,
        listed.image,
        name,
        bytes,
        &costs.loops,
        writer,
    )?;
    list_code(alloc, listed, &costs.by_address, writer)
}

/// Writes a refusal, and of a code that has instructions each of them: with its cost, where control goes as it may.
fn list_refused<W: Write>(
    alloc: Global,
    text: &[u8],
    source: SourceText<'_>,
    code: RefusalCode,
    place: usize,
    writer: &mut W,
) -> Result<(), ShowFault> {
    let Some(image) = image_of(alloc, text)? else {
        return write_refusal(alloc, text, source, code, place, writer);
    };
    let listing = match decode(alloc, &image.code) {
        Ok(listing) => listing,
        Err(DecodeFault::Memory) => return Err(ShowFault::Memory),
        Err(DecodeFault::Refused { .. }) => {
            return write_refusal(alloc, text, source, code, place, writer);
        }
    };
    let listed = Listed {
        image: &image,
        listing: &listing,
        source,
    };
    write_line(source, Some(&image), code, place, writer)?;
    match code {
        RefusalCode::State(_) | RefusalCode::B1 => list_costs(alloc, listed, "bound   ", writer),
        RefusalCode::Image(_) | RefusalCode::Cutting(_) | RefusalCode::Flow(_) => {
            list_code(alloc, listed, &[], writer)
        }
    }
}

/// Writes the line of an accepted image, and its code with its costs.
fn list_accepted<W: Write>(
    alloc: Global,
    accepted: &Accepted,
    source: SourceText<'_>,
    writer: &mut W,
) -> Result<(), ShowFault> {
    write_yes(accepted, writer)?;
    let listing = listing_of(alloc, accepted)?;
    let listed = Listed {
        image: accepted.image(),
        listing: &listing,
        source,
    };
    list_costs(alloc, listed, "budget  ", writer)
}

/// Writes the verdict on the bytes of an image, and the code: of each instruction its address, its bytes, the most bytes
/// that are executed from there to the end of the loop around it or of the run, its text, and the line of the text that
/// says it.
pub fn list<W: Write>(
    alloc: Global,
    text: &[u8],
    verdict: &Verdict,
    source: SourceText<'_>,
    writer: &mut W,
) -> Result<(), ShowFault> {
    match verdict {
        Verdict::Accepted(accepted) => list_accepted(alloc, accepted, source, writer),
        Verdict::Refused { code, place } => {
            list_refused(alloc, text, source, *code, *place, writer)
        }
    }
}
