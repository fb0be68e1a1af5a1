//! The fields of a vector, as they are spelled.

ghost use Rattle.std.specs.Prelude.{◌<◌, IfSome};

use anyhow::{Context, Result, anyhow};
use std::alloc::Global;
use tpw_machine::{Phase, WORKSPACE_BYTES};

/// A workspace, and what a machine keeps behind it. None is an undefined byte.
pub(crate) type Cells = [Option<u8>; WORKSPACE_BYTES];

/// The spelling of nothing: an empty list, an undefined register.
const NOTHING: &str = "-";

/// An undefined byte.
const UNDEFINED: [u8; 2] = *b"--";

/// Every byte behind the workspace.
const BEHIND: u8 = 7;

/// A number in hexadecimal.
pub(crate) fn number(text: &str) -> Result<u32> {
    u32::from_str_radix(text, 16).context("a number")
}

/// A number of 16 bits.
pub(crate) fn half_word(text: &str) -> Result<u16> {
    u16::from_str_radix(text, 16).context("a number of 16 bits")
}

/// An address in the code, which may be below 0.
pub(crate) fn code_address(text: &str) -> Result<i64> {
    i64::from_str_radix(text, 16).context("an address in the code")
}

/// A register, which may be undefined.
pub(crate) fn register(text: &str) -> Result<Option<u32>> {
    if text == NOTHING {
        Ok(None)
    } else {
        Ok(Some(number(text)?))
    }
}

/// The error flag.
pub(crate) fn flag(text: &str) -> Result<bool> {
    match text {
        "0" => Ok(false),
        "1" => Ok(true),
        _ => Err(anyhow!("no flag: {text}")),
    }
}

/// How far the worker is.
pub(crate) fn phase(text: &str) -> Result<Phase> {
    match text {
        "0" => Ok(Phase::BeforePacket),
        "1" => Ok(Phase::BeforeResult),
        "2" => Ok(Phase::AfterResult),
        "3" => Ok(Phase::Stopped),
        _ => Err(anyhow!("no phase: {text}")),
    }
}

/// The value of a hexadecimal digit.
fn digit(byte: u8) -> Option<u8>
    ensures { IfSome result (λ value. value < 16) }
{
    match byte {
        b'0'..=b'9' => Some(byte - b'0'),
        b'a'..=b'f' => Some(byte - b'a' + 10),
        _ => None,
    }
}

/// A byte, which may be undefined.
fn cell(digits: [u8; 2]) -> Result<Option<u8>> {
    if digits == UNDEFINED {
        return Ok(None);
    }
    let high = digit(digits[0]).context("a digit")?;
    let low = digit(digits[1]).context("a digit")?;
    Ok(Some(16 * high + low))
}

/// The digits of each byte of a list.
fn pairs(list: &str) -> Result<&[[u8; 2]]> {
    let (pairs, rest) = list.as_bytes().as_chunks::<2>();
    if rest.is_empty() {
        Ok(pairs)
    } else {
        Err(anyhow!("half a byte"))
    }
}

/// A list of defined bytes.
pub(crate) fn bytes(alloc: Global, list: &str) -> Result<Vec<u8>> {
    let mut bytes = Vec::new(alloc);
    if list != NOTHING {
        for digits in pairs(list)? {
            bytes.push(cell(*digits)?.context("an undefined byte")?)?;
        }
    }
    Ok(bytes)
}

/// Byte i of a workspace with this fill.
fn filled(fill: &str, i: u32) -> Result<Option<u8>> {
    match fill {
        "u" => Ok(None),
        "z" => Ok(Some(0)),
        "p" => {
            let value = 37 * u64::from(i) + 11 * u64::from(i / 256) + 5;
            Ok(Some((value % 256) as u8))
        }
        _ => Err(anyhow!("no fill: {fill}")),
    }
}

/// Puts the bytes of one difference, behind their offset.
fn put_difference(cells: &mut Cells, difference: &str) -> Result<()> {
    let (offset, list) = difference.split_once(":").context("no offset")?;
    let mut at = number(offset)? as usize;
    for digits in pairs(list)? {
        *cells.get_mut(at).context("no such byte")? = cell(*digits)?;
        at = at.saturating_add(1);
    }
    Ok(())
}

/// A workspace of this many words, with this fill and these differences from it.
pub(crate) fn cells(words: u32, fill: &str, differences: &str) -> Result<Cells> {
    let mut cells = [Some(BEHIND); WORKSPACE_BYTES];
    for i in 0..words.saturating_mul(4) {
        *cells.get_mut(i as usize).context("no such byte")? = filled(fill, i)?;
    }
    if differences != NOTHING {
        for difference in differences.split(',') {
            put_difference(&mut cells, difference)?;
        }
    }
    Ok(cells)
}
