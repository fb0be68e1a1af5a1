//! Addresses as places.

ghost use Rattle.std.specs.Prelude.{◌≡◌, ◌==◌, ◌<◌, ◌+◌, ◌^◌, pos, All, map, length, IfOk, IfSome};
ghost use Rattle.std.specs.List.{position};
ghost use Rattle.tp_image.specs.Image.{IsRow};
ghost use Rattle.tpw_asm.specs.Outcome.{AreAddresses};
ghost use Rattle.tpw_asm.specs.Labelling.{place_ahead, placed, labelled, labelled_from, spot_of, loop_of};

use crate::program::{Line, Loop, Operation, Spot};
use std::alloc::{AllocError, Global};
use tp_decode::Instr;
use tp_image::LoopRow;

/// The first of the places that have an address.
fn place_with(addresses: &[u32], address: u32) -> Option<usize>
    ensures place { result ≡ position (λ a. a == address) addresses.now }
    ensures within { IfSome result (λ place. place < length addresses.now) }
{
    addresses.iter().position(|a| *a == address)
}

/// The place that lies this many bytes behind another.
fn place_behind(addresses: &[u32], from: usize, bytes: u32) -> Option<usize>
    requires addresses { AreAddresses addresses.now }
    requires within { from < length addresses.now }
    requires small { bytes < 2 ^ 31 }
    ensures { result ≡ place_ahead addresses.now from (pos bytes) }
{
    match place_with(&addresses[from..], addresses[from] + bytes) {
        Some(place) => Some(from + place),
        None => None,
    }
}

/// The same for any distance: behind a negative one there is no place ahead.
fn place_ahead(addresses: &[u32], from: usize, bytes: i32) -> Option<usize>
    requires addresses { AreAddresses addresses.now }
    requires within { from < length addresses.now }
    ensures { result ≡ place_ahead addresses.now from bytes }
{
    if bytes < 0 {
        return None;
    }
    place_behind(addresses, from, bytes.cast_unsigned())
}

/// An operation of a line with a place for the distance of a jump.
fn placed(addresses: &[u32], line: usize, operation: Operation) -> Operation
    requires addresses { AreAddresses addresses.now }
    requires within { line + 1 < length addresses.now }
    ensures { result ≡ placed addresses.now line operation }
{
    match operation {
        Operation::Plain(Instr::Jump(bytes)) => match place_ahead(addresses, line + 1, bytes) {
            Some(place) => Operation::JumpTo(place),
            None => operation,
        },
        Operation::Plain(Instr::Cj(bytes)) => match place_ahead(addresses, line + 1, bytes) {
            Some(place) => Operation::CjTo(place),
            None => operation,
        },
        _ => operation,
    }
}

/// A line with a place for the distance of a jump.
fn labelled(addresses: &[u32], number: usize, line: Line) -> Line
    requires addresses { AreAddresses addresses.now }
    requires within { number + 1 < length addresses.now }
    ensures { result ≡ labelled addresses.now number line }
{
    match line {
        Line::Byte(byte) => Line::Byte(byte),
        Line::Spelled { operation, bytes } => Line::Spelled {
            operation: placed(addresses, number, operation),
            bytes,
        },
    }
}

/// Lines with places for the distances of jumps.
pub fn labelled_lines(
    alloc: Global,
    addresses: &[u32],
    lines: &[Line],
) -> Result<Vec<Line>, AllocError>
    requires addresses { AreAddresses addresses.now }
    requires count { length addresses.now ≡ length lines.now + 1 }
    ensures { IfOk result (λ all. all.items ≡ labelled_from addresses.now 0 lines.now) }
{
    let mut all = Vec::with_capacity(alloc, lines.len())?;
    for (number, line) in lines.iter().enumerate() {
        all.push(labelled(addresses, number, *line))?;
    }
    Ok(all)
}

/// The place that has an address, or else that address.
#[tactic(auto, unfolding(crate::specs::Labelling::spot_of))]
fn spot_of(addresses: &[u32], address: u32) -> Spot
    requires { address < 2 ^ 16 }
    ensures { result ≡ spot_of addresses.now address }
{
    match place_with(addresses, address) {
        Some(place) => Spot::Place(place),
        None => Spot::Address(address as u16),
    }
}

fn loop_of(addresses: &[u32], row: &LoopRow) -> Loop
    requires { IsRow row.now }
    ensures { result ≡ loop_of addresses.now row.now }
{
    Loop {
        head: spot_of(addresses, row.head),
        lend: spot_of(addresses, row.lend),
        control: row.control as u16,
        count: row.count as u16,
        start: row.start,
    }
}

/// The loops of rows.
pub fn loops_of(alloc: Global, addresses: &[u32], rows: &[LoopRow]) -> Result<Vec<Loop>, AllocError>
    requires { All IsRow rows.now }
    ensures { IfOk result (λ loops. loops.items ≡ map (loop_of addresses.now) rows.now) }
{
    let mut loops = Vec::with_capacity(alloc, rows.len())?;
    for row in rows {
        loops.push(loop_of(addresses, row))?;
    }
    Ok(loops)
}
