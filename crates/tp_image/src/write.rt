//! Writing an image.

ghost use Rattle.std.specs.Prelude.{◌≡◌, ◌<◌, ◌^◌, ◌++◌, All, IfOk, IfErr, OnOk};
ghost use Rattle.std.specs.List.{flat_map};
ghost use Rattle.tp_image.specs.Image.{IsRow};
ghost use Rattle.tp_image.specs.Text.{half_word, header_of, header_text, row_text, word, text};

use crate::fault::ImageFault;
use crate::header::Header;
use crate::image::{Image, LoopRow, Version};
use std::alloc::{AllocError, Global};

fn put_half_word(out: &mut Vec<u8>, n: u32) -> Result<(), AllocError>
    requires { n < 2 ^ 16 }
    ensures { OnOk result (out.new.items ≡ out.old.items ++ half_word n) }
{
    out.extend_from_slice(&(n as u16).to_le_bytes())
}

/// Writes the header of an image.
fn put_header(out: &mut Vec<u8>, image: &Image) -> Result<(), AllocError>
    ensures { OnOk result (out.new.items ≡ out.old.items ++ header_text (header_of image.now)) }
{
    out.extend_from_slice(match image.version {
        Version::One => b"TPW1",
        Version::Two => b"TPW2",
    })?;
    put_half_word(out, image.code.len() as u32)?;
    put_half_word(out, image.workspace)?;
    put_half_word(out, image.start)?;
    put_half_word(out, image.packet)?;
    put_half_word(out, image.result)?;
    put_half_word(out, image.loops.len() as u32)?;
    if image.version == Version::Two {
        put_half_word(out, image.initial.len() as u32)?;
    }
    Ok(())
}

fn put_row(out: &mut Vec<u8>, row: &LoopRow) -> Result<(), AllocError>
    requires { IsRow row.now }
    ensures { OnOk result (out.new.items ≡ out.old.items ++ row_text row.now) }
{
    put_half_word(out, row.head)?;
    put_half_word(out, row.lend)?;
    put_half_word(out, row.control)?;
    put_half_word(out, row.count)?;
    out.extend_from_slice(&row.start.to_le_bytes())?;
    Ok(())
}

fn put_rows(out: &mut Vec<u8>, rows: &[LoopRow]) -> Result<(), AllocError>
    requires { All IsRow rows.now }
    ensures { OnOk result (out.new.items ≡ out.old.items ++ flat_map row_text rows.now) }
{
    for row in rows {
        put_row(out, row)?;
    }
    Ok(())
}

fn put_words(out: &mut Vec<u8>, words: &[u32]) -> Result<(), AllocError>
    ensures { OnOk result (out.new.items ≡ out.old.items ++ flat_map word words.now) }
{
    for word in words {
        out.extend_from_slice(&word.to_le_bytes())?;
    }
    Ok(())
}

/// Writes an image in the format of its version, each number low byte first.
pub fn write_image(alloc: Global, image: &Image) -> Result<Vec<u8>, ImageFault>
    ensures text { IfOk result (λ bytes. bytes.items ≡ text image.now) }
    ensures memory { IfErr result (λ fault. fault ≡ ImageFault.Memory) }
{
    let mut out = Vec::with_capacity(alloc, Header::of(image).image_bytes())?;
    put_header(&mut out, image)?;
    put_rows(&mut out, &image.loops)?;
    put_words(&mut out, &image.initial)?;
    out.extend_from_slice(&image.code)?;
    Ok(out)
}
