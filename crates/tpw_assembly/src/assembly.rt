//! The images of programs that assembly texts say.

ghost use Rattle.std.specs.Prelude.{◌≡◌, IfOk, IfErr};
ghost use Rattle.tp_image.specs.Text.{text as image_text};
ghost use Rattle.tpw_asm.specs.Assembly.{AreItsAddresses};
ghost use Rattle.tpw_files.specs.Failures.{of_assembly};
ghost use Rattle.tpw_assembly.specs.Programs.{AreImageOf, IsRefusalOf, IsAssembledTo, IsUnassembled};

use crate::fields::assembled_text;
use std::alloc::Global;
use tp_image::{ImageFault, write_image};
use tpw_asm::{Assembled, AssemblyFault, assemble};
use tpw_files::{Failure, InputFault, text_of};
use tpw_text::{Position, Source, read_source};

/// Why a program has no image, by the places of the words that ask for its lines.
fn failure_of(fault: AssemblyFault, positions: &[Position]) -> Failure
    ensures { result ≡ of_assembly positions.now fault }
{
    match fault {
        AssemblyFault::Line(line, wrong) => match positions.get(line) {
            Some(position) => Failure::Input(InputFault::Line(*position, wrong)),
            None => Failure::Input(InputFault::Assembly(fault)),
        },
        AssemblyFault::Narrow(line) => match positions.get(line) {
            Some(position) => Failure::Input(InputFault::Narrow(*position)),
            None => Failure::Input(InputFault::Assembly(fault)),
        },
        AssemblyFault::Memory => Failure::Memory,
        AssemblyFault::Row(_) | AssemblyFault::TooLong | AssemblyFault::Field(_) => Failure::Input(
            InputFault::Assembly(fault),
        ),
    }
}

/// The bytes of a program's image, and the addresses of its places.
#[derive(Drop)]
pub struct Encoded {
    pub bytes: Vec<u8>,
    pub addresses: Vec<u32>,
}

impl Encoded {
    /// Those of a program that is assembled.
    pub fn of(alloc: Global, made: Assembled) -> Result<Encoded, ImageFault>
        ensures bytes { IfOk result (λ encoded. encoded.bytes.items ≡ image_text made.image) }
        ensures addresses { IfOk result (λ encoded. encoded.addresses ≡ made.addresses) }
        ensures memory { IfErr result (λ fault. fault ≡ ImageFault.Memory) }
    {
        Ok(Encoded {
            bytes: write_image(alloc, &made.image)?,
            addresses: made.addresses,
        })
    }
}

/// The bytes of the image of a program that a text says.
pub fn assembled(alloc: Global, source: &Source<'_>) -> Result<Encoded, Failure>
    ensures image { IfOk result (λ made. AreImageOf source.now.program made.bytes.items) }
    ensures addresses { IfOk result (λ made. AreItsAddresses source.now.program made.addresses.items) }
    ensures refused { IfErr result (λ e. IsRefusalOf source.now e) }
{
    match assemble(alloc, &source.program) {
        Ok(made) => Ok(Encoded::of(alloc, made)?),
        Err(fault) => Err(failure_of(fault, &source.positions)),
    }
}

/// The bytes of the image that an assembly text says.
pub fn assembled_from(alloc: Global, text: &[u8]) -> Result<Encoded, Failure>
    ensures image { IfOk result (λ made. IsAssembledTo text.now made.bytes.items) }
    ensures refused { IfErr result (IsUnassembled text.now) }
{
    let text = text_of(text)?;
    let source = read_source(alloc, text)?;
    assembled_text(alloc, text, &source)
}
