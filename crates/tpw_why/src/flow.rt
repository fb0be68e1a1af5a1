//! The explanation of a refusal of flow.

use crate::known::ShownRow;
use crate::lines::write_around;
use std::alloc::Global;
use std::io::Write;
use tp_decode::{Instr, Listing};
use tp_flow::FlowCode;
use tp_flow::limits::MAX_TURNS;
use tp_image::{Image, LoopRow};
use tpw_debug::{ShowFault, SourceText};

/// Whether a row's range has an address.
fn has(row: &LoopRow, at: u32) -> bool {
    row.head <= at && at <= row.lend
}

/// Whether two rows' ranges have an address in common, and neither lies within the other.
fn cross(one: &LoopRow, other: &LoopRow) -> bool {
    let meet = has(one, other.head) || has(one, other.lend) || has(other, one.head);
    let within = has(one, other.head) && has(one, other.lend);
    let around = has(other, one.head) && has(other, one.lend);
    meet && !within && !around
}

/// The fault of a row by itself, if it has one.
fn fault_alone(image: &Image, listing: &Listing, row: &LoopRow) -> Option<&'static str> {
    let last_index = i64::from(row.start)
        .saturating_add(i64::from(row.count))
        .saturating_sub(1);
    if listing.index_of(row.head as usize).is_none() {
        Some("its head is no instruction's first byte")
    } else if listing.index_of(row.lend as usize).is_none() {
        Some("its lend is no instruction's first byte")
    } else if row.head == 0 {
        Some("its head is address 0")
    } else if row.head >= row.lend {
        Some("its head is not before its lend")
    } else if listing.at(row.lend as usize) != Some(Instr::Lend) {
        Some("no lend stands at its lend")
    } else if row.control.saturating_add(1) >= image.workspace {
        Some("its control word, or the word behind it, lies outside the workspace")
    } else if row.count == 0 || row.count > MAX_TURNS {
        Some("its turns are not 1 to 10000")
    } else if last_index > i64::from(i32::MAX) {
        Some("the index of its last turn is above 2147483647")
    } else {
        None
    }
}

/// The fault of a row beside an earlier one, if it has one.
fn fault_beside(row: &LoopRow, earlier: &LoopRow) -> Option<&'static str> {
    if cross(row, earlier) {
        Some("its range overlaps an earlier row's, and neither lies within the other")
    } else if row.head == earlier.head {
        Some("an earlier row has its head")
    } else if row.lend == earlier.lend {
        Some("an earlier row has its lend")
    } else {
        None
    }
}

/// Which of the conditions on a row does not hold of the row of this number.
fn fault_of_row(image: &Image, listing: &Listing, number: usize) -> &'static str {
    let deep = "it lies within four or more other rows";
    let Some(row) = image.loops.get(number) else {
        return deep;
    };
    if let Some(fault) = fault_alone(image, listing, row) {
        return fault;
    }
    for earlier in image.loops.iter().take(number) {
        if let Some(fault) = fault_beside(row, earlier) {
            return fault;
        }
    }
    deep
}

/// Writes where a jump goes, if a jump is there.
fn write_target<W: Write>(
    listing: &Listing,
    place: usize,
    writer: &mut W,
) -> Result<(), ShowFault> {
    let (Some(instr), Some(next)) = (listing.at(place), listing.next(place)) else {
        return Ok(());
    };
    let (Instr::Jump(distance) | Instr::Cj(distance)) = instr else {
        return Ok(());
    };
    let behind = i64::try_from(next).unwrap_or(i64::MAX);
    let target = behind.saturating_add(i64::from(distance));
    writeln!(
        writer,
        "known    the next instruction is at {next}, the target {distance} bytes on, at {target}"
    )
    .map_err(|_| ShowFault::Write)
}

/// Writes where a refusal of flow comes.
pub(crate) fn write_flow<W: Write>(
    alloc: Global,
    image: &Image,
    listing: &Listing,
    source: SourceText<'_>,
    code: FlowCode,
    place: usize,
    writer: &mut W,
) -> Result<(), ShowFault> {
    if code != FlowCode::J6 {
        write_around(alloc, image, listing, source, place, writer)?;
        return write_target(listing, place, writer);
    }
    if let Some(row) = image.loops.get(place) {
        let name = source.loop_name(place, row);
        let row = ShownRow(*row);
        write!(writer, "known    row {place}: {row}").map_err(|_| ShowFault::Write)?;
        if source.statements.is_empty() {
            writeln!(writer).map_err(|_| ShowFault::Write)?;
        } else {
            writeln!(writer, "; {name}").map_err(|_| ShowFault::Write)?;
        }
    }
    let fault = fault_of_row(image, listing, place);
    writeln!(writer, "why      {fault}").map_err(|_| ShowFault::Write)
}
