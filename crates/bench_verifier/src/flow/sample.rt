//! An image of 8,192 code bytes with 16 loops: four nests, each of four loops.
use anyhow::Result;
use std::alloc::Global;

/// ldl 0, adc 1, stl 0, ldl 1, cj 1, ldc 1, ldl 2, stl 1
pub const MIXED: [u8; 8] = [0x70, 0x81, 0xD0, 0x71, 0xA1, 0x41, 0x72, 0xD1];

/// cj 0
pub const EVERY_JUMP: [u8; 8] = [0xA0; 8];

const NESTS: u16 = 4;

const NEST_BYTES: u16 = 2048;

/// The heads and lends of a nest's loops, from the outermost in, counted from the nest's first byte.
const LOOPS: [(u16, u16); 4] = [(1, 2044), (2, 2042), (3, 2040), (4, 2038)];

/// The image's bytes, where eight bytes fill its code round the loops' ends.
pub fn image_bytes(alloc: Global, fill: [u8; 8]) -> Result<Vec<u8>> {
    let mut bytes = Vec::from_slice(alloc, b"TPW2")?;
    // Code bytes, workspace, start word, packet, result, loops, initial words.
    put_fields(&mut bytes, &[8192, 64, 8, 1, 1, 16, 0])?;
    for nest in 0..NESTS {
        put_rows(&mut bytes, nest)?;
    }
    for nest in 0..NESTS {
        for at in 0..NEST_BYTES {
            bytes.push(code_byte(nest, at, fill))?;
        }
    }
    Ok(bytes)
}

/// Adds these fields, each as two bytes.
fn put_fields(bytes: &mut Vec<u8>, fields: &[u16]) -> Result<()> {
    for field in fields {
        bytes.extend_from_slice(&field.to_le_bytes())?;
    }
    Ok(())
}

/// The rows of a nest's loops, each with ten turns from 0 on and a block of its own.
fn put_rows(bytes: &mut Vec<u8>, nest: u16) -> Result<()> {
    let first = nest.wrapping_mul(NEST_BYTES);
    let mut control = nest.wrapping_mul(8).wrapping_add(16);
    for (head, lend) in LOOPS {
        let (head, lend) = (first.wrapping_add(head), first.wrapping_add(lend));
        put_fields(bytes, &[head, lend, control, 10, 0, 0])?;
        control = control.wrapping_add(2);
    }
    Ok(())
}

/// A code byte of a nest: the lends are at its end, and the code ends by stopp.
fn code_byte(nest: u16, at: u16, fill: [u8; 8]) -> u8 {
    match at {
        2038 | 2040 | 2042 | 2044 => 0x22,
        2039 | 2041 | 2043 | 2045 => 0xF1,
        2046 if nest == NESTS - 1 => 0x21,
        2047 if nest == NESTS - 1 => 0xF5,
        _ => fill[usize::from(at) % 8],
    }
}
