//! Where a code becomes too long.

use crate::fault::CodeFault;
use std::alloc::{AllocError, Global};
use tp_image::Version;
use tpw_asm::{AssemblyFault, Line, Operation, Program, addresses};

/// An operation whose places lie before this many lines.
fn within(operation: Operation, count: usize) -> Operation {
    match operation {
        Operation::Plain(instr) => Operation::Plain(instr),
        Operation::JumpTo(to) => Operation::JumpTo(to.min(count)),
        Operation::CjTo(to) => Operation::CjTo(to.min(count)),
        Operation::Distance { from, to } => Operation::Distance {
            from: from.min(count),
            to: to.min(count),
        },
    }
}

/// The first this many lines, whose jumps go no further.
fn front(alloc: Global, lines: &[Line], count: usize) -> Result<Vec<Line>, AllocError> {
    let mut front = Vec::with_capacity(alloc, count)?;
    for line in lines.iter().take(count) {
        front.push(match line {
            Line::Byte(byte) => Line::Byte(*byte),
            Line::Spelled { operation, bytes } => Line::Spelled {
                operation: within(*operation, count),
                bytes: *bytes,
            },
        })?;
    }
    Ok(front)
}

/// Whether the first this many lines are short enough.
fn fits(alloc: Global, lines: &[Line], count: usize) -> Result<bool, CodeFault> {
    let program = Program {
        version: Version::Two,
        workspace: 8,
        start: 5,
        packet: 1,
        result: 1,
        loops: Vec::new(alloc),
        initial: Vec::new(alloc),
        lines: front(alloc, lines, count)?,
    };
    match addresses(alloc, &program) {
        Ok(_) => Ok(true),
        Err(AssemblyFault::Memory) => Err(CodeFault::Memory),
        Err(_) => Ok(false),
    }
}

/// The first line by which a code is too long: between lines that are short enough and lines that are too long,
/// halved until they meet.
pub(crate) fn first_beyond(alloc: Global, lines: &[Line]) -> Result<usize, CodeFault> {
    let mut short = 0usize;
    let mut long = lines.len();
    for _ in 0..usize::BITS {
        let middle = short.saturating_add(long.saturating_sub(short) / 2);
        if middle == short {
            return Ok(short);
        }
        if fits(alloc, lines, middle)? {
            short = middle;
        } else {
            long = middle;
        }
    }
    Ok(short)
}
