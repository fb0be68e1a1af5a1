//! The command `asm`: text to an image.

ghost use Rattle.std.specs.Prelude.{◌≡◌, ◌⊎◌, ℕ, List, IfOk, IfErr, OnOk, string_bytes};
ghost use Rattle.std.specs.Io.KnownBytes.{Appends};
ghost use Rattle.std.specs.Option.{option_map};
ghost use Rattle.tpw_files.specs.declared.failure.Failure.TheVariants as failure;
ghost use Rattle.tpw_assembly.specs.Programs.{IsUnassembled};
ghost use Rattle.tpw_files.specs.declared.outcome.Outcome.TheVariants.{Good};
ghost use Rattle.tpw_commands.specs.Programs.{IsImageLine, image_line};

use std::alloc::{AllocError, Global};
use std::io::Write;
use tpw_assembly::assembled_from;
use tpw_files::{Failure, Outcome, write_line};

/// An image in hexadecimal on one line: behind `NAME IMAGE`, where a name is given.
fn image_line(alloc: Global, image: &[u8], name: Option<&str>) -> Result<String, AllocError>
    ensures { IfOk result (λ line. string_bytes line ≡ image_line (option_map (λ n. n.now) name.entry) image.now) }
{
    let digits = hex::encode(alloc, image)?;
    match name {
        Some(name) => format!(in alloc; "{name} IMAGE {digits}\n"),
        None => format!(in alloc; "{digits}\n"),
    }
}

/// Writes the image that a text says in hexadecimal on one line: behind `NAME IMAGE`, where a name is given.
pub fn assemble_text<W: Write>(
    alloc: Global,
    text: &[u8],
    writer: &mut W,
    name: Option<&str>,
) -> Result<Outcome, Failure>
    ensures line { OnOk result ((line : List ℕ) × IsImageLine text.now (option_map (λ n. n.now) name.entry) line
        × Appends (W.contents writer.old) (W.contents writer.new) line) }
    ensures good { IfOk result (λ outcome. outcome ≡ Good) }
    ensures refused { IfErr result (λ e. (e ≡ failure.Write)
        ⊎ ((W.contents writer.new ≡ W.contents writer.old) × IsUnassembled text.now e)) }
{
    let made = assembled_from(alloc, text)?;
    let line = image_line(alloc, made.bytes.as_slice(), name)?;
    write_line(writer, line.as_str())
}

/// Writes the image of a worker in hexadecimal on one line: behind `NAME IMAGE`, where a name is given.
pub fn write_image<W: Write>(
    alloc: Global,
    image: &[u8],
    writer: &mut W,
    name: Option<&str>,
) -> Result<Outcome, Failure>
    ensures line { OnOk result (Appends (W.contents writer.old) (W.contents writer.new)
        (image_line (option_map (λ n. n.now) name.entry) image.now)) }
    ensures good { IfOk result (λ outcome. outcome ≡ Good) }
    ensures refused { IfErr result (λ e. (e ≡ failure.Write)
        ⊎ ((W.contents writer.new ≡ W.contents writer.old) × (e ≡ failure.Memory))) }
{
    let line = image_line(alloc, image, name)?;
    write_line(writer, line.as_str())
}
