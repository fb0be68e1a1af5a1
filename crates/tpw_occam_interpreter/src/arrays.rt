//! Writes to arrays, which are bytes, seen as words or as bytes.

ghost use Rattle.std.specs.Prelude.{◌≡◌, slice_set, ◌<◌, ◌^◌};
ghost use Rattle.std.specs.Int.{w32, to_le_bytes};
ghost use Rattle.tpw_occam_core.specs.Arrays.{kept, with_element, written};

use tpw_occam_core::Kind;

/// The word that a cell or an element of a kind keeps.
pub(crate) fn kept(kind: Kind, word: u32) -> u32
    ensures { result ≡ kept kind word }
{
    match kind {
        Kind::Word => word,
        Kind::Byte => word % 256,
    }
}

/// Puts a byte at a place, if there is one.
fn put_byte(bytes: &mut [u8], at: usize, byte: u8)
    ensures { bytes.new ≡ slice_set bytes.old at byte }
{
    if at < bytes.len() {
        bytes[at] = byte;
    }
}

/// Puts a word's bytes from a place on.
fn put_bytes(bytes: &mut [u8], at: usize, word: u32)
    requires { at < 2 ^ 40 }
    ensures { bytes.new ≡ written bytes.old at (to_le_bytes w32 word) }
{
    let [b0, b1, b2, b3] = word.to_le_bytes();
    put_byte(bytes, at, b0);
    put_byte(bytes, at + 1, b1);
    put_byte(bytes, at + 2, b2);
    put_byte(bytes, at + 3, b3);
}

/// An element of an array takes a word.
pub(crate) fn put_element(kind: Kind, bytes: &mut [u8], i: u32, word: u32)
    ensures { bytes.new ≡ with_element kind bytes.old i word }
{
    match kind {
        Kind::Word => put_bytes(bytes, 4 * i as usize, word),
        Kind::Byte => put_byte(bytes, i as usize, (word % 256) as u8),
    }
}
