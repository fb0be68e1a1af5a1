//! The explanation of an image's fields and bytes.

use crate::known::ShownRow;
use std::alloc::Global;
use std::io::Write;
use tp_image::{Image, ImageCode};
use tp_prefix::MAX_SPELLING;
use tpw_debug::ShowFault;

/// A field of the header: its name, and its range in version 1 and in version 2.
fn range_of(code: ImageCode) -> Option<(&'static str, &'static str, &'static str)> {
    match code {
        ImageCode::F3 => Some(("code bytes", "1 to 2048", "1 to 8192")),
        ImageCode::F4 => Some(("workspace words", "8 to 256", "8 to 512")),
        ImageCode::F5 => {
            Some((
                "the start word",
                "5 to the workspace's last word",
                "5 to the workspace's last word",
            ))
        }
        ImageCode::F6 => Some(("packet words", "1 to 64", "1 to 64")),
        ImageCode::F7 => Some(("result words", "1 to 64", "1 to 64")),
        ImageCode::F8 => Some(("loops", "0 to 16", "0 to 16")),
        ImageCode::F10 => Some(("initial words", "none", "0 to the workspace's words")),
        ImageCode::F1 | ImageCode::F2 | ImageCode::F9 => None,
    }
}

/// The half word at a place, its low byte first.
fn half_word(text: &[u8], place: usize) -> Option<u16> {
    let low = *text.get(place)?;
    let high = *text.get(place.checked_add(1)?)?;
    Some(u16::from_le_bytes([low, high]))
}

/// Writes the field that is refused, with what it may be; or how long the image is.
pub(crate) fn write_field<W: Write>(
    text: &[u8],
    code: ImageCode,
    place: usize,
    writer: &mut W,
) -> Result<(), ShowFault> {
    let length = text.len();
    let written = match (range_of(code), half_word(text, place)) {
        (Some((name, one, two)), Some(value)) => {
            let range = if text.starts_with(b"TPW2") { two } else { one };
            writeln!(
                writer,
                "known    {name}: {value}, at byte {place}; it may be {range}"
            )
        }
        _ => writeln!(writer, "known    the image has {length} bytes"),
    };
    written.map_err(|_| ShowFault::Write)
}

/// Writes the code bytes from a place on, as many as a spelling may have.
pub(crate) fn write_bytes<W: Write>(
    alloc: Global,
    image: &Image,
    place: usize,
    writer: &mut W,
) -> Result<(), ShowFault> {
    let code = image.code.as_slice();
    let from = place.min(code.len());
    let to = from.saturating_add(MAX_SPELLING).min(code.len());
    let bytes = hex::encode(alloc, &code[from..to])?;
    let length = code.len();
    writeln!(
        writer,
        "known    the code's bytes from {place} on are {bytes}, and it has {length}"
    )
    .map_err(|_| ShowFault::Write)
}

/// Writes the loops of an image.
pub(crate) fn write_turns<W: Write>(image: &Image, writer: &mut W) -> Result<(), ShowFault> {
    for (number, row) in image.loops.iter().enumerate() {
        let row = ShownRow(*row);
        writeln!(writer, "known    row {number}: {row}").map_err(|_| ShowFault::Write)?;
    }
    Ok(())
}
