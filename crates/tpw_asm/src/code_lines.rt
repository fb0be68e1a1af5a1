//! The lines of a code.

ghost use Rattle.std.specs.Prelude.{◌≡◌, ◌==◌, ◌≤◌, ◌<◌, ◌⊎◌, [], ◌++◌, map, drop, length, slice_range, IfOk, OnOk};
ghost use Rattle.std.specs.Prelude.{MatchOption};
ghost use Rattle.std.specs.List.{list_all};
ghost use Rattle.tp_decode.specs.declared.fault.DecodeFault.{DecodeFault};
ghost use Rattle.tp_decode.specs.Lines.{shortest};
ghost use Rattle.tp_decode.specs.Front.{BeginsWith, Stops};
ghost use Rattle.tpw_asm.specs.CodeLines.{is_filled, spelling_lines, AreLinesOf};
ghost use Rattle.tpw_asm.specs.declared.program.Line.TheVariants.{Byte};

use crate::layout::PFIX_0;
use crate::program::{Line, Operation};
use std::alloc::{AllocError, Global};
use tp_decode::Instr;
use tp_prefix::read_one;

/// An instruction in a code, and the address behind it.
#[derive(Clone, Copy)]
struct Found {
    instr: Instr,
    next: usize,
}

/// Whether bytes are `pfix 0` alone.
fn is_filling(bytes: &[u8]) -> bool
    ensures { result ≡ list_all (λ byte. byte == 0x20) bytes.now }
{
    bytes.iter().all(|byte| *byte == PFIX_0)
}

/// Whether a spelling is the least one, or the least one behind bytes of `pfix 0`.
fn is_filled(spelling: &[u8], least: &[u8]) -> bool
    requires { length least.now ≤ length spelling.now }
    ensures { result ≡ is_filled spelling.now least.now }
{
    let (front, back) = spelling.split_at(spelling.len() - least.len());
    is_filling(front) && back == least
}

/// Appends a line for each byte.
fn push_bytes(lines: &mut Vec<Line>, bytes: &[u8]) -> Result<(), AllocError>
    ensures { OnOk result (lines.new.items ≡ lines.old.items ++ map Byte bytes.now) }
{
    for byte in bytes {
        lines.push(Line::Byte(*byte))?;
    }
    Ok(())
}

/// Appends the lines of an instruction with this spelling.
fn push_instr(lines: &mut Vec<Line>, instr: Instr, spelling: &[u8]) -> Result<(), AllocError>
    requires least { length (shortest instr) ≤ length spelling.now }
    requires short { length spelling.now ≤ 8 }
    ensures { OnOk result (lines.new.items ≡ lines.old.items ++ spelling_lines spelling.now instr) }
{
    let least = instr.spelling();
    if !is_filled(spelling, least.as_slice()) {
        return push_bytes(lines, spelling);
    }
    let bytes = if spelling.len() == least.len() {
        None
    } else {
        Some(spelling.len() as u8)
    };
    let operation = Operation::Plain(instr);
    lines.push(Line::Spelled { operation, bytes })?;
    Ok(())
}

/// The instruction at an address.
fn found_at(code: &[u8], at: usize) -> Option<Found>
    requires { at ≤ length code.now }
    ensures { MatchOption result ((drop at code.now ≡ []) ⊎ ((e : DecodeFault) × Stops (drop at code.now) at e))
        (λ found. (at < found.next) × (found.next ≤ length code.now)
        × BeginsWith (drop at code.now) (record { bytes = slice_range code.now at found.next; instr = found.instr })) }
{
    if at == code.len() {
        return None;
    }
    let Ok(spelled) = read_one(code, at) else {
        return None;
    };
    let Some(instr) = Instr::of(spelled.function, spelled.operand) else {
        return None;
    };
    Some(Found {
        instr,
        next: spelled.next,
    })
}

/// The lines of a code.
pub fn lines_of(alloc: Global, code: &[u8]) -> Result<Vec<Line>, AllocError>
    ensures { IfOk result (λ lines. AreLinesOf code.now lines.items) }
{
    let mut lines = Vec::new(alloc);
    let mut at = 0;
    while let Some(found) = found_at(code, at) {
        push_instr(&mut lines, found.instr, &code[at..found.next])?;
        at = found.next;
    }
    push_bytes(&mut lines, &code[at..])?;
    Ok(lines)
}
