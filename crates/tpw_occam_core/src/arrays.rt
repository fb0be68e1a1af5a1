//! Elements of arrays, which are bytes, seen as words or as bytes.

ghost use Rattle.std.specs.Prelude.{◌≡◌, slice_index};
ghost use Rattle.tpw_occam_core.specs.Arrays.{size, element};
ghost use Rattle.tpw_occam_core.specs.Meaning as core;

use crate::arithmetic::{Answer, checked_subscript};
use crate::kind::Kind;

/// How many elements an array has.
pub fn size(kind: Kind, bytes: &[u8]) -> usize
    ensures { result ≡ size kind bytes.now }
{
    match kind {
        Kind::Word => bytes.len() / 4,
        Kind::Byte => bytes.len(),
    }
}

/// The byte at a place, or 0 behind the last.
fn byte(bytes: &[u8], at: usize) -> u8
    ensures { result ≡ slice_index bytes.now at }
{
    bytes.get(at).copied().unwrap_or(0)
}

/// The element at a subscript; 0 stands for what lies behind the last byte.
pub fn element(kind: Kind, bytes: &[u8], i: u32) -> u32
    ensures { result ≡ element kind bytes.now i }
{
    let i = i as usize;
    match kind {
        Kind::Word => u32::from_le_bytes([
            byte(bytes, 4 * i),
            byte(bytes, 4 * i + 1),
            byte(bytes, 4 * i + 2),
            byte(bytes, 4 * i + 3),
        ]),
        Kind::Byte => u32::from(byte(bytes, i)),
    }
}

/// The element of an array at a subscript, checked.
pub fn element_at(kind: Kind, bytes: &[u8], i: u32) -> Answer
    ensures { result ≡ core.element_at kind bytes.now i }
{
    let at = checked_subscript(size(kind, bytes), i);
    Answer {
        word: element(kind, bytes, at.word),
        flag: at.flag,
    }
}
