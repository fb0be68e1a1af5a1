//! Abstract values of registers and words, as they are spelled.

use crate::fields::{byte, number, signed};
use anyhow::{Context, Result, anyhow};
use std::alloc::{AllocError, Global};
use tp_state::{Cell, Kind};

/// A kind: `u`, or a letter and two ends.
pub(crate) fn kind(text: &str) -> Result<Kind> {
    if text == "u" {
        return Ok(Kind::Undef);
    }
    let (letter, ends) = text.split_once(":").context("no ends")?;
    let (low, high) = ends.split_once(":").context("no two ends")?;
    match letter {
        "n" => Ok(Kind::Int(signed(low)?, signed(high)?)),
        "p" => Ok(Kind::Ptr(number(low)?, number(high)?)),
        "b" => Ok(Kind::BytePtr(number(low)?, number(high)?)),
        _ => Err(anyhow!("no kind: {text}")),
    }
}

/// A kind, spelled.
pub(crate) fn kind_text(alloc: Global, kind: Kind) -> Result<String, AllocError> {
    match kind {
        Kind::Undef => format!(in alloc; "u"),
        Kind::Int(low, high) => format!(in alloc; "n:{low}:{high}"),
        Kind::Ptr(first, last) => format!(in alloc; "p:{first}:{last}"),
        Kind::BytePtr(first, last) => format!(in alloc; "b:{first}:{last}"),
    }
}

/// A cell: a letter, and what stands behind it.
pub(crate) fn cell(text: &str) -> Result<Cell> {
    match text {
        "u" => return Ok(Cell::Undef),
        "a" => return Ok(Cell::Any),
        _ => (),
    }
    let (letter, rest) = text.split_once(":").context("no cell")?;
    match letter {
        "k" => Ok(Cell::Known(signed(rest)?)),
        "i" => Ok(Cell::Index(byte(rest)?)),
        "c" => Ok(Cell::Count(byte(rest)?)),
        _ => Err(anyhow!("no cell: {text}")),
    }
}

/// A cell, spelled.
pub(crate) fn cell_text(alloc: Global, cell: Cell) -> Result<String, AllocError> {
    match cell {
        Cell::Undef => format!(in alloc; "u"),
        Cell::Any => format!(in alloc; "a"),
        Cell::Known(value) => format!(in alloc; "k:{value}"),
        Cell::Index(row) => format!(in alloc; "i:{row}"),
        Cell::Count(row) => format!(in alloc; "c:{row}"),
    }
}
