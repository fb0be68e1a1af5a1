//! Reading an image.

ghost use Rattle.std.specs.Prelude.{◌≡◌, ◌<◌, ◌^◌, [], ◌∷◌, ◌⊎◌, length, All, MatchResult, IfOk, IfErr, IfSome, Err};
ghost use Rattle.std.specs.Prelude.{Some};
ghost use Rattle.std.specs.List.{flat_map};
ghost use Rattle.tp_image.specs.Image.{ImageValue, IsRow};
ghost use Rattle.tp_image.specs.Text.{half_word as half_word_text, row_text, word, IsTextOf};
ghost use Rattle.tp_image.specs.Faults.{first_fault, IsWholeHeader};

use crate::fault::ImageFault;
use crate::header::{Header, read_header};
use crate::image::{Image, LoopRow};
use crate::layout::*;
use std::alloc::{AllocError, Global};

/// The number that two bytes spell.
fn half_word(low: u8, high: u8) -> u32
    ensures text { half_word_text result ≡ low ∷ high ∷ [] }
    ensures in_range { result < 2 ^ 16 }
{
    u32::from(u16::from_le_bytes([low, high]))
}

/// The number that four bytes spell.
fn word_of(bytes: [u8; WORD_BYTES]) -> u32
    ensures { word result ≡ bytes }
{
    u32::from_le_bytes(bytes)
}

/// The row that these bytes spell.
fn row_of(bytes: &[u8; ROW_BYTES]) -> LoopRow
    ensures text { row_text result ≡ bytes.now }
    ensures in_range { IsRow result }
{
    LoopRow {
        head: half_word(bytes[0], bytes[1]),
        lend: half_word(bytes[2], bytes[3]),
        control: half_word(bytes[4], bytes[5]),
        count: half_word(bytes[6], bytes[7]),
        start: word_of([bytes[8], bytes[9], bytes[10], bytes[11]]).cast_signed(),
    }
}

/// The rows that these bytes spell.
fn rows_of(alloc: Global, pieces: &[[u8; ROW_BYTES]]) -> Result<Vec<LoopRow>, AllocError>
    ensures text { IfOk result (λ rows. flat_map row_text rows.items ≡ flat_map (λ piece. piece) pieces.now) }
    ensures count { IfOk result (λ rows. length rows.items ≡ length pieces.now) }
    ensures in_range { IfOk result (λ rows. All IsRow rows.items) }
{
    let mut rows = Vec::with_capacity(alloc, pieces.len())?;
    for piece in pieces {
        rows.push(row_of(piece))?;
    }
    Ok(rows)
}

/// The words that these bytes spell.
fn words_of(alloc: Global, pieces: &[[u8; WORD_BYTES]]) -> Result<Vec<u32>, AllocError>
    ensures text { IfOk result (λ words. flat_map word words.items ≡ flat_map (λ piece. piece) pieces.now) }
    ensures count { IfOk result (λ words. length words.items ≡ length pieces.now) }
    ensures in_range { IfOk result (λ words. All (λ word. word < 2 ^ 32) words.items) }
{
    let mut words = Vec::with_capacity(alloc, pieces.len())?;
    for piece in pieces {
        words.push(word_of(*piece))?;
    }
    Ok(words)
}

/// The image that bytes with this header spell.
fn image_of(alloc: Global, header: &Header, bytes: &[u8]) -> Result<Image, AllocError>
    requires { IsWholeHeader header.now bytes.now }
    ensures { IfOk result (λ image. IsTextOf bytes.now image) }
{
    let (_, body) = bytes.split_at(header.version.header_bytes());
    let (table, body) = body.split_at(ROW_BYTES * header.loops);
    let (words, code) = body.split_at(WORD_BYTES * header.initial);
    let (rows, _) = table.as_chunks::<ROW_BYTES>();
    let (words, _) = words.as_chunks::<WORD_BYTES>();
    Ok(Image {
        version: header.version,
        workspace: header.workspace,
        start: header.start,
        packet: header.packet,
        result: header.result,
        loops: rows_of(alloc, rows)?,
        initial: words_of(alloc, words)?,
        code: Vec::from_slice(alloc, code)?,
    })
}

/// Reads an image: a header, the loop rows, the initial words and the code, with nothing after them.
/// Other bytes are refused by the first test that they fail, whose place is a byte offset in them.
/// A refusal takes no memory.
///
/// ```
/// // A worker that adds one to its packet: 16 code bytes, and a word of packet and of result.
/// let image = read_image(alloc, b"TPW1\x10\0\x0C\0\x08\0\x01\0\x01\0\0\0\
///     \x10\x24\xF2\x54\x44\xF7\x70\x81\xD0\x10\x24\xF2\x44\xFB\x21\xF5")?;
/// assert_eq!((image.packet, image.result, image.code.len()), (1, 1, 16));
/// ```
pub fn read_image(alloc: Global, bytes: &[u8]) -> Result<Image, ImageFault>
    // What is read is the image of these bytes.
    ensures image { IfOk result (λ image. IsTextOf bytes.now image) }
    // Bytes that an image has are read as that image, or memory runs out.
    ensures read { (image : ImageValue) → IsTextOf bytes.now image
        → MatchResult result (λ found. found ≡ image) (λ fault. fault ≡ ImageFault.Memory) }
    // Bytes that fail a test are refused by the first, whatever memory is left.
    ensures refused { IfSome (first_fault bytes.now) (λ fault. result ≡ Err fault) }
    // There is no other failure.
    ensures fault { IfErr result (λ fault. (fault ≡ ImageFault.Memory) ⊎ (first_fault bytes.now ≡ Some fault)) }
{
    let header = read_header(bytes)?;
    Ok(image_of(alloc, &header, bytes)?)
}
