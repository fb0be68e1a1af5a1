//! Programs in short.

use crate::asserts::unwrap;
use std::alloc::Global;
use std::process::Abort;
use tp_decode::Instr;
use tp_image::Version;
use tpw_asm::{Line, Loop, Operation, Program, Spot};

/// An instruction as it is, in its canonical spelling.
pub fn plain(instr: Instr) -> Line {
    spelled(Operation::Plain(instr), None)
}

pub fn spelled(operation: Operation, bytes: Option<u8>) -> Line {
    Line::Spelled { operation, bytes }
}

/// A conditional jump to a place.
pub fn cj(target: usize) -> Line {
    spelled(Operation::CjTo(target), None)
}

/// The distance that a `lend` has behind it, in the line before the lend.
pub fn back(from: usize, to: usize) -> Line {
    spelled(Operation::Distance { from, to }, None)
}

/// A loop between two places that begins at 0.
pub fn row(head: usize, lend: usize, control: u16, count: u16) -> Loop {
    Loop {
        head: Spot::Place(head),
        lend: Spot::Place(lend),
        control,
        count,
        start: 0,
    }
}

/// A version 1 program that begins at word 5.
pub fn program(
    rt: &impl Abort,
    alloc: Global,
    workspace: u32,
    packet: u32,
    results: u32,
    loops: &[Loop],
    lines: &[Line],
) -> Program {
    Program {
        version: Version::One,
        workspace,
        start: 5,
        packet,
        result: results,
        loops: unwrap(rt, Vec::from_slice(alloc, loops)),
        initial: Vec::new(alloc),
        lines: unwrap(rt, Vec::from_slice(alloc, lines)),
    }
}
