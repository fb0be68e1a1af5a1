//! The fields of a case, as they are spelled.

use anyhow::{Context, Result, anyhow};
use std::alloc::Global;

/// The spelling of nothing: no bytes, no words, no rows.
pub(crate) const NOTHING: &str = "-";

/// A number.
pub(crate) fn number(text: &str) -> Result<u32> {
    text.parse::<u32>().context("a number")
}

/// A number that may be below 0.
pub(crate) fn signed(text: &str) -> Result<i32> {
    text.parse::<i32>().context("a number of 32 bits")
}

/// A small number: of a loop row, of a phase.
pub(crate) fn byte(text: &str) -> Result<u8> {
    text.parse::<u8>().context("a number below 256")
}

/// A list of bytes.
pub(crate) fn bytes(alloc: Global, text: &str) -> Result<Vec<u8>> {
    if text == NOTHING {
        return Ok(Vec::new(alloc));
    }
    hex::decode(alloc, text).map_err(|_| anyhow!("no bytes: {text}"))
}

/// The fields of a text, parted by spaces.
pub(crate) fn parted<'a>(alloc: Global, text: &'a str) -> Result<Vec<&'a str>> {
    let mut parted = Vec::with_capacity(alloc, 16)?;
    for field in text.split(' ') {
        parted.push(field)?;
    }
    Ok(parted)
}
