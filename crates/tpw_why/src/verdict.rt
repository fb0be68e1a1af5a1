//! A verdict, explained.

ghost use Rattle.tp_decode.specs.Cutting.{IsCutting};

use crate::bound::write_bound;
use crate::costs::{CodeCosts, costs_of_code};
use crate::fields::{write_bytes, write_field, write_turns};
use crate::flow::write_flow;
use crate::judging::Verdict;
use crate::meaning::meaning_of;
use crate::passes::first_refusal;
use crate::states::write_state;
use std::alloc::Global;
use std::io::Write;
use tp_accept::{Accepted, RefusalCode};
use tp_decode::{DecodeFault, Listing, decode};
use tp_flow::{FlowCode, check_flow};
use tp_image::{Image, ImageFault, read_image};
use tpw_debug::{ShowFault, SourceText, Statement};

/// Writes the line of an image that is accepted.
pub(crate) fn write_yes<W: Write>(accepted: &Accepted, writer: &mut W) -> Result<(), ShowFault> {
    let bytes = accepted.code().len();
    let budget = accepted.budget();
    writeln!(writer, "YES {bytes} {budget}").map_err(|_| ShowFault::Write)
}

/// Writes the verdict on the bytes of an image: as farmd answers it, and of a refusal what it means, where it comes, and
/// what helps; the listing has what a text says of its lines.
pub fn explain<W: Write>(
    alloc: Global,
    text: &[u8],
    verdict: &Verdict,
    source: SourceText<'_>,
    writer: &mut W,
) -> Result<(), ShowFault> {
    match verdict {
        Verdict::Accepted(accepted) => write_yes(accepted, writer),
        Verdict::Refused { code, place } => {
            write_refusal(alloc, text, source, *code, *place, writer)
        }
    }
}

/// The line of a text whose instruction or loop is refused, if it is one.
fn line_of(
    source: SourceText<'_>,
    image: Option<&Image>,
    code: RefusalCode,
    place: usize,
) -> Option<usize> {
    match code {
        RefusalCode::Image(_) | RefusalCode::B1 => None,
        RefusalCode::Flow(FlowCode::J6) => {
            let row = image?.loops.get(place)?;
            source.line_before(row.head as usize)
        }
        RefusalCode::Cutting(_) | RefusalCode::Flow(_) | RefusalCode::State(_) => {
            source.line_before(place.saturating_add(1))
        }
    }
}

/// Writes the place of a refusal in a text, before what is refused: its name, and the line and the column, where one is
/// refused.
fn write_text_place<W: Write>(
    source: SourceText<'_>,
    line: Option<usize>,
    writer: &mut W,
) -> Result<(), ShowFault> {
    if source.name.is_empty() {
        return Ok(());
    }
    let name = source.name;
    write!(writer, "{name}:").map_err(|_| ShowFault::Write)?;
    let statement = source
        .statements
        .iter()
        .find(|statement| Some(statement.line) == line);
    if let Some(Statement { line, column, .. }) = statement {
        write!(writer, "{line}:{column}:").map_err(|_| ShowFault::Write)?;
    }
    write!(writer, " ").map_err(|_| ShowFault::Write)
}

/// Writes the line of a refusal, and what it means. In a text it begins with its place there.
pub(crate) fn write_line<W: Write>(
    source: SourceText<'_>,
    image: Option<&Image>,
    code: RefusalCode,
    place: usize,
    writer: &mut W,
) -> Result<(), ShowFault> {
    let refused = meaning_of(code).refused;
    let line = line_of(source, image, code, place);
    write_text_place(source, line, writer)?;
    writeln!(writer, "NO {code} {place}").map_err(|_| ShowFault::Write)?;
    writeln!(writer, "refused  {refused}").map_err(|_| ShowFault::Write)
}

/// Writes what helps against a refusal: what is said of this one, else what helps against others of its code.
fn write_instead<W: Write>(
    code: RefusalCode,
    remedy: Option<&'static str>,
    writer: &mut W,
) -> Result<(), ShowFault> {
    let instead = remedy.unwrap_or(meaning_of(code).instead);
    writeln!(writer, "instead  {instead}").map_err(|_| ShowFault::Write)
}

/// The image that bytes are, if they are one.
pub(crate) fn image_of(alloc: Global, text: &[u8]) -> Result<Option<Image>, ShowFault> {
    match read_image(alloc, text) {
        Ok(image) => Ok(Some(image)),
        Err(ImageFault::Memory) => Err(ShowFault::Memory),
        Err(ImageFault::Refused { .. }) => Ok(None),
    }
}

/// Writes a refusal: its line, what it means, where it comes, and what helps.
pub(crate) fn write_refusal<W: Write>(
    alloc: Global,
    text: &[u8],
    source: SourceText<'_>,
    code: RefusalCode,
    place: usize,
    writer: &mut W,
) -> Result<(), ShowFault> {
    let image = image_of(alloc, text)?;
    write_line(source, image.as_ref(), code, place, writer)?;
    let remedy = match (code, &image) {
        (RefusalCode::Image(code), _) => {
            write_field(text, code, place, writer)?;
            None
        }
        (_, Some(image)) => write_place(alloc, image, source, code, place, writer)?,
        (_, None) => None,
    };
    write_instead(code, remedy, writer)
}

/// Writes where a refusal of an image comes. What helps against this one comes back, where it is another thing than
/// against others of its code.
fn write_place<W: Write>(
    alloc: Global,
    image: &Image,
    source: SourceText<'_>,
    code: RefusalCode,
    place: usize,
    writer: &mut W,
) -> Result<Option<&'static str>, ShowFault> {
    if let RefusalCode::Cutting(_) = code {
        write_bytes(alloc, image, place, writer)?;
        return Ok(None);
    }
    match decode(alloc, &image.code) {
        Ok(listing) => write_code(alloc, image, &listing, source, code, place, writer),
        Err(DecodeFault::Memory) => Err(ShowFault::Memory),
        Err(DecodeFault::Refused { .. }) => Ok(None),
    }
}

/// Writes where a refusal of a code that is cut comes. What helps against this one comes back, as above.
fn write_code<W: Write>(
    alloc: Global,
    image: &Image,
    listing: &Listing,
    source: SourceText<'_>,
    code: RefusalCode,
    place: usize,
    writer: &mut W,
) -> Result<Option<&'static str>, ShowFault>
    requires { IsCutting image.now.code listing.now }
{
    match code {
        RefusalCode::State(_) => return write_passes(alloc, image, listing, source, writer),
        RefusalCode::Flow(code) => {
            write_flow(alloc, image, listing, source, code, place, writer)?
        }
        RefusalCode::B1 => {
            write_turns(image, writer)?;
            write_above(alloc, image, listing, source, writer)?;
        }
        RefusalCode::Image(_) | RefusalCode::Cutting(_) => {}
    }
    Ok(None)
}

/// The bytes from the first instruction on.
pub(crate) fn whole_of(costs: &CodeCosts) -> u64 {
    match costs.by_address.first() {
        Some(Some(first)) => first.whole,
        _ => 0,
    }
}

/// Writes the bound of a code, which is above the limit.
fn write_above<W: Write>(
    alloc: Global,
    image: &Image,
    listing: &Listing,
    source: SourceText<'_>,
    writer: &mut W,
) -> Result<(), ShowFault>
    requires { IsCutting image.now.code listing.now }
{
    let costs = costs_of_code(alloc, image, listing)?;
    let bytes = whole_of(&costs);
    write_bound(source, image, "bound   ", bytes, &costs.loops, writer)
}

/// Writes where the passes over a code refuse it, and what is known there: they are made once more. What helps comes
/// back, as above.
fn write_passes<W: Write>(
    alloc: Global,
    image: &Image,
    listing: &Listing,
    source: SourceText<'_>,
    writer: &mut W,
) -> Result<Option<&'static str>, ShowFault>
    requires { IsCutting image.now.code listing.now }
{
    let Ok(nest) = check_flow(image, listing) else {
        return Ok(None);
    };
    match first_refusal(alloc, image, listing, &nest)? {
        Some(found) => write_state(alloc, image, listing, &nest, source, &found, writer),
        None => Ok(None),
    }
}
