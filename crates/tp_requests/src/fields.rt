//! The fields of a line.

ghost use Rattle.std.specs.Prelude.{◌≡◌, ◌∷◌, ◌++◌, if◌then◌else◌, MatchOption, IfOk, IfSome, Some, None, position};
ghost use Rattle.std.specs.Prelude.{◌==◌, ◌<◌, length};
ghost use Rattle.std.specs.Option.{option_map};
ghost use Rattle.std.specs.List.{list_all};
ghost use Rattle.tp_requests.specs.Fields.{hex_bytes};
ghost use Rattle.tp_requests.specs.Parts.{IsWithout};
ghost use Rattle.tp_requests.specs.Reading.{is_name_byte, is_name};

use crate::request::{MAX_NAME, Name};
use hex::FromHexError;
use std::alloc::{AllocError, Global};

/// The place of the first byte of a kind.
fn place_of(byte: u8, bytes: &[u8]) -> Option<usize>
    ensures value { result ≡ position (λ b. b == byte) bytes.now }
    ensures within { IfSome result (λ i. i < length bytes.now) }
{
    bytes.iter().position(|other| *other == byte)
}

/// The bytes before the first `separator`, and those behind it.
pub fn split_once(bytes: &[u8], separator: u8) -> Option<(&[u8], &[u8])>
    ensures { MatchOption result (IsWithout separator bytes.now) (λ parts.
        IsWithout separator parts.0.now × (bytes.now ≡ parts.0.now ++ separator ∷ parts.1.now)) }
{
    match place_of(separator, bytes) {
        Some(at) => Some((&bytes[..at], &bytes[at + 1..])),
        None => None,
    }
}

fn is_name_byte(byte: u8) -> bool
    ensures { result ≡ is_name_byte byte }
{
    byte.is_ascii_lowercase() || byte.is_ascii_digit()
}

fn are_name_bytes(field: &[u8]) -> bool
    ensures { result ≡ list_all is_name_byte field.now }
{
    field.iter().all(|byte| is_name_byte(*byte))
}

/// The name that a field is, if it is one.
pub(crate) fn name_of(field: &[u8]) -> Option<Name>
    ensures { option_map (λ name. name.items) result ≡ (if is_name field.now then Some field.now else None) }
{
    if field.is_empty() || field.len() > MAX_NAME || !are_name_bytes(field) {
        return None;
    }
    let mut name = Name::new();
    match name.try_extend_from_slice(field) {
        Ok(()) => Some(name),
        Err(_) => None,
    }
}

/// The bytes that a field spells in hexadecimal, if it does.
pub(crate) fn bytes_of(alloc: Global, field: &[u8]) -> Result<Option<Vec<u8>>, AllocError>
    ensures { IfOk result (λ bytes. option_map (λ v. v.items) bytes ≡ hex_bytes field.now) }
{
    if field.is_empty() {
        return Ok(None);
    }
    match hex::decode(alloc, field) {
        Ok(bytes) => Ok(Some(bytes)),
        Err(FromHexError::OutOfMemory) => Err(AllocError),
        Err(_) => Ok(None),
    }
}
