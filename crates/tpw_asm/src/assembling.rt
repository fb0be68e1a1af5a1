//! Assembling.

ghost use Rattle.std.specs.Prelude.{◌≡◌, IfOk, IfErr, MatchResult};
ghost use Rattle.tp_image.specs.Image.{ImageValue};
ghost use Rattle.tpw_asm.specs.Layout.{addresses_from};
ghost use Rattle.tpw_asm.specs.Assembly.{AreItsAddresses, HasLengths, IsAssembly, IsRefused};

use crate::fault::AssemblyFault;
use crate::layout::{Layout, code_of, least_layout};
use crate::placing::{check_lengths, check_lines, check_rows};
use crate::program::Program;
use crate::rows::rows_of;
use std::alloc::Global;
use tp_image::{Fields, Image, ImageFault};

/// The least layout of a program whose lines and loops are sound, and whose lines are as long as they state.
fn layout_of(alloc: Global, program: &Program) -> Result<Layout, AssemblyFault>
    ensures lengths { IfOk result (λ layout. HasLengths program.now layout.lengths.items) }
    ensures addresses { IfOk result (λ layout. layout.addresses.items ≡ addresses_from 0 layout.lengths.items) }
    ensures refused { IfErr result (λ fault. IsRefused program.now fault) }
{
    check_lines(&program.lines)?;
    check_rows(program.lines.len(), &program.loops)?;
    let (most, _) = program.version.most();
    let layout = least_layout(alloc, &program.lines, most as usize)?;
    check_lengths(&program.lines, &layout.lengths)?;
    Ok(layout)
}

/// The address of each place of a program, in its least layout: one more than there are lines. Or why it has no such
/// layout.
pub fn addresses(alloc: Global, program: &Program) -> Result<Vec<u32>, AssemblyFault>
    ensures addresses { IfOk result (λ found. AreItsAddresses program.now found.items) }
    ensures refused { IfErr result (λ fault. IsRefused program.now fault) }
{
    Ok(layout_of(alloc, program)?.addresses)
}

/// A program, assembled.
#[derive(Drop)]
pub struct Assembled {
    pub image: Image,
    /// The address of each place of the program: one more than there are lines.
    pub addresses: Vec<u32>,
}

/// A program, assembled.
fn assembly_of(alloc: Global, program: &Program) -> Result<Assembled, AssemblyFault>
    ensures image { IfOk result (λ made. IsAssembly program.now made.image) }
    ensures addresses { IfOk result (λ made. AreItsAddresses program.now made.addresses.items) }
    ensures refused { IfErr result (λ fault. IsRefused program.now fault) }
{
    let layout = layout_of(alloc, program)?;
    let code = code_of(alloc, &layout.addresses, &program.lines)?;
    let loops = rows_of(alloc, &layout.addresses, &program.loops)?;
    let fields = Fields {
        version: program.version,
        workspace: program.workspace,
        start: program.start,
        packet: program.packet,
        result: program.result,
        loops,
        initial: Vec::from_slice(alloc, &program.initial)?,
        code,
    };
    match Image::new(fields) {
        Ok(image) => Ok(Assembled {
            image,
            addresses: layout.addresses,
        }),
        Err(ImageFault::Refused { code, .. }) => Err(AssemblyFault::Field(code)),
        Err(ImageFault::Memory) => Err(AssemblyFault::Memory),
    }
}

/// The image of a program with the addresses of its places, or the first fault. Its instructions are those of the
/// lines, one by one: each in its canonical spelling where no other length is stated, and a jump to a label with the
/// distance to the label's address. Its rows are those of the loops. Of all layouts for which this holds, it has the
/// least.
pub fn assemble(alloc: Global, program: &Program) -> Result<Assembled, AssemblyFault>
    ensures image { IfOk result (λ made. IsAssembly program.now made.image) }
    ensures addresses { IfOk result (λ made. AreItsAddresses program.now made.addresses.items) }
    ensures refused { IfErr result (λ fault. IsRefused program.now fault) }
    // A program has no other image, and one that is refused has none.
    ensures only { (image : ImageValue) → IsAssembly program.now image
        → MatchResult result (λ made. made.image ≡ image) (λ fault. fault ≡ AssemblyFault.Memory) }
{
    assembly_of(alloc, program)
}
