//! A vector's state, and the bytes that are executed in it.

use super::fields::{self, Cells};
use anyhow::{Context, Result, anyhow};
use std::alloc::Global;
use tp_image::{Image, read_image};
use tpw_machine::{Phase, Registers};

/// Each code byte that no vector says.
const FILLER: u8 = 0x4E;

/// The start word, which no vector needs.
const START_WORD: u16 = 5;

/// The fields before the mark.
#[derive(Drop)]
pub(crate) struct Vector {
    pub(crate) image: Image,
    /// How many bytes are to be executed.
    pub(crate) steps: u32,
    pub(crate) registers: Registers,
    pub(crate) phase: Phase,
    pub(crate) cells: Cells,
    /// The bytes to come on link 0.
    pub(crate) to_come: Vec<u8>,
}

/// The code: these bytes from an address on.
fn code(alloc: Global, length: &str, address: &str, list: &str) -> Result<Vec<u8>> {
    let mut code = Vec::from_elem(alloc, FILLER, fields::number(length)? as usize)?;
    let mut at = fields::code_address(address)?;
    for byte in &fields::bytes(alloc, list)? {
        let place = usize::try_from(at).context("before the code")?;
        *code.get_mut(place).context("behind the code")? = *byte;
        at = at.saturating_add(1);
    }
    Ok(code)
}

/// An image of a version, with the fields of its header in their order, no loops and no initial words.
fn image(alloc: Global, version: &str, header: [u16; 6], code: &[u8]) -> Result<Image> {
    let two = version == "2";
    let mut text = Vec::new(alloc);
    text.extend_from_slice(if two { b"TPW2" } else { b"TPW1" })?;
    for field in header {
        text.extend_from_slice(&field.to_le_bytes())?;
    }
    if two {
        text.extend_from_slice(&[0, 0])?;
    }
    text.extend_from_slice(code)?;
    Ok(read_image(alloc, &text)?)
}

/// The image of the fields from the version to the bytes.
fn read_image_fields(alloc: Global, read: &[&str]) -> Result<Image> {
    let [version, words, packet, result, length, iptr, list] = read else {
        return Err(anyhow!("no image"));
    };
    let header = [
        fields::half_word(length)?,
        fields::half_word(words)?,
        START_WORD,
        fields::half_word(packet)?,
        fields::half_word(result)?,
        0,
    ];
    image(alloc, version, header, &code(alloc, length, iptr, list)?)
}

/// The registers of the fields from Oreg to the flag.
fn read_registers(iptr: &str, read: &[&str]) -> Result<Registers> {
    let [oreg, wptr, areg, breg, creg, flag] = read else {
        return Err(anyhow!("no registers"));
    };
    Ok(Registers {
        iptr: fields::code_address(iptr)?,
        oreg: fields::number(oreg)?,
        wptr: fields::number(wptr)?,
        areg: fields::register(areg)?,
        breg: fields::register(breg)?,
        creg: fields::register(creg)?,
        error: fields::flag(flag)?,
    })
}

/// Reads the fields before the mark.
pub(crate) fn read(alloc: Global, text: &str) -> Result<Vector> {
    let mut read = Vec::with_capacity(alloc, 19)?;
    for field in text.split(' ') {
        read.push(field)?;
    }
    let (front, back) = read.split_at_checked(8).context("no image")?;
    let [_, image @ ..] = front else {
        return Err(anyhow!("no image"));
    };
    let [_, words, _, _, _, iptr, _] = image else {
        return Err(anyhow!("no image"));
    };
    let [steps, registers @ .., phase, fill, differences, to_come] = back else {
        return Err(anyhow!("no state"));
    };
    Ok(Vector {
        image: read_image_fields(alloc, image)?,
        steps: fields::number(steps)?,
        registers: read_registers(iptr, registers)?,
        phase: fields::phase(phase)?,
        cells: fields::cells(fields::number(words)?, fill, differences)?,
        to_come: fields::bytes(alloc, to_come)?,
    })
}
