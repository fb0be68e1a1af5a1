//! Disassembling.

ghost use Rattle.std.specs.Prelude.{IfOk};
ghost use Rattle.tpw_asm.specs.Assembly.{IsAssembly};
ghost use Rattle.tpw_asm.specs.Labelling.{IsDisassembly};

use crate::code_lines::lines_of;
use crate::labelling::{labelled_lines, loops_of};
use crate::layout::{MAX_BYTES, least_layout};
use crate::program::Program;
use std::alloc::{AllocError, Global};
use tp_image::Image;

/// A program that is assembled to the image: a line for each instruction, and a jump to a place has that place as its
/// target. A spelling longer than the canonical one has its length stated. A spelling that no stated length gives is
/// written as bytes, and so is the rest of a code that cannot be cut any further.
pub fn disassemble(alloc: Global, image: &Image) -> Result<Program, AllocError>
    ensures disassembled { IfOk result (λ program. IsDisassembly image.now program) }
    ensures assembled { IfOk result (λ program. IsAssembly program image.now) }
{
    let unlabelled = lines_of(alloc, &image.code)?;
    let Ok(layout) = least_layout(alloc, &unlabelled, MAX_BYTES) else {
        return Err(AllocError);
    };
    let lines = labelled_lines(alloc, &layout.addresses, &unlabelled)?;
    Ok(Program {
        version: image.version,
        workspace: image.workspace,
        start: image.start,
        packet: image.packet,
        result: image.result,
        loops: loops_of(alloc, &layout.addresses, &image.loops)?,
        initial: Vec::from_slice(alloc, &image.initial)?,
        lines,
    })
}
