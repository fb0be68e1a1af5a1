//! The least layout of lines, and the code that it gives.

ghost use Rattle.std.specs.Prelude.{◌≡◌, ◌<◌, ◌≤◌, ◌+◌, ◌-◌, pos, length, map, None, sum, IfOk, IfErr, OnOk, ◌++◌};
ghost use Rattle.std.specs.List.{concat};
ghost use Rattle.tpw_asm.specs.Layout.{addresses_from, distance, instr_at, spelled_at, spelled_from};
ghost use Rattle.tpw_asm.specs.Faults.{way_fault, operation_fault, line_fault, AreSound};
ghost use Rattle.tpw_asm.specs.Outcome.{AreAddresses, IsLaidOut, IsTooLong};

use crate::fault::AssemblyFault;
use crate::program::{Line, Operation};
use std::alloc::{AllocError, Global};
use tp_decode::Instr;

/// The byte of `pfix 0`, which changes nothing at the front of a spelling.
pub const PFIX_0: u8 = 0x20;

/// The most bytes of a code that is laid out.
pub const MAX_BYTES: usize = 0xFFFF;

/// The lengths and the places of lines.
#[derive(Drop)]
pub struct Layout {
    /// The bytes of each line.
    pub lengths: Vec<u8>,
    /// The address of each place: one more than there are lines.
    pub addresses: Vec<u32>,
}

/// The addresses of the places of lines of these lengths.
fn addresses_of(alloc: Global, lengths: &[u8]) -> Result<Vec<u32>, AllocError>
    requires { length lengths.now ≤ MAX_BYTES }
    ensures { IfOk result (λ addresses. addresses.items ≡ addresses_from 0 lengths.now) }
{
    let mut addresses = Vec::with_capacity(alloc, lengths.len() + 1)?;
    let mut at = 0;
    for bytes in lengths {
        addresses.push(at)?;
        at += u32::from(*bytes);
    }
    addresses.push(at)?;
    Ok(addresses)
}

/// The bytes from one place to another.
fn distance(addresses: &[u32], from: usize, to: usize) -> i32
    requires addresses { AreAddresses addresses.now }
    requires sound { way_fault (length addresses.now - 1) from to ≡ None }
    ensures { result ≡ pos (distance addresses.now from to) }
{
    (addresses[to] - addresses[from]) as i32
}

/// The instruction of a line.
fn instr_at(addresses: &[u32], line: usize, operation: Operation) -> Instr
    requires addresses { AreAddresses addresses.now }
    requires sound { operation_fault (length addresses.now - 1) line operation ≡ None }
    ensures { result ≡ instr_at addresses.now line operation }
{
    match operation {
        Operation::Plain(instr) => instr,
        Operation::JumpTo(target) => Instr::Jump(distance(addresses, line + 1, target)),
        Operation::CjTo(target) => Instr::Cj(distance(addresses, line + 1, target)),
        Operation::Distance { from, to } => Instr::Ldc(distance(addresses, from, to)),
    }
}

/// The bytes that a line takes.
fn length_of(addresses: &[u32], number: usize, line: Line) -> u8
    requires addresses { AreAddresses addresses.now }
    requires sound { line_fault (length addresses.now - 1) number line ≡ None }
    ensures { result ≡ length (spelled_at addresses.now number line) }
{
    match line {
        Line::Byte(_) => 1,
        Line::Spelled { operation, bytes } => {
            let least = instr_at(addresses, number, operation).spelling().len() as u8;
            least.max(bytes.unwrap_or(0))
        }
    }
}

/// The bytes that lines take.
fn lengths_of(alloc: Global, addresses: &[u32], lines: &[Line]) -> Result<Vec<u8>, AllocError>
    requires addresses { AreAddresses addresses.now }
    requires count { length addresses.now ≡ length lines.now + 1 }
    requires sound { AreSound lines.now }
    ensures { IfOk result (λ lengths. lengths.items ≡ map length (spelled_from addresses.now 0 lines.now)) }
{
    let mut lengths = Vec::with_capacity(alloc, lines.len())?;
    for (number, line) in lines.iter().enumerate() {
        lengths.push(length_of(addresses, number, *line))?;
    }
    Ok(lengths)
}

/// The least layout of lines, if its code has at most this many bytes. It begins with a byte for each line, and lines
/// only grow.
pub fn least_layout(alloc: Global, lines: &[Line], most: usize) -> Result<Layout, AssemblyFault>
    requires most { most ≤ MAX_BYTES }
    requires sound { AreSound lines.now }
    ensures laid_out { IfOk result (λ layout. IsLaidOut lines.now most layout) }
    ensures fault { IfErr result (λ e. IsTooLong lines.now most e) }
{
    if lines.len() > most {
        return Err(AssemblyFault::TooLong);
    }
    let mut lengths = Vec::new(alloc);
    lengths.resize(lines.len(), 1)?;
    loop {
        let addresses = addresses_of(alloc, &lengths)?;
        if addresses[lines.len()] as usize > most {
            return Err(AssemblyFault::TooLong);
        }
        let needed = lengths_of(alloc, &addresses, lines)?;
        if needed.as_slice() == lengths.as_slice() {
            return Ok(Layout { lengths, addresses });
        }
        lengths = needed;
    }
}

/// Appends what a line is spelled as.
fn put_line(
    code: &mut Vec<u8>,
    addresses: &[u32],
    number: usize,
    line: Line,
) -> Result<(), AllocError>
    requires addresses { AreAddresses addresses.now }
    requires sound { line_fault (length addresses.now - 1) number line ≡ None }
    ensures { OnOk result (code.new.items ≡ code.old.items ++ spelled_at addresses.now number line) }
{
    match line {
        Line::Byte(byte) => code.push(byte)?,
        Line::Spelled { operation, bytes } => {
            let spelling = instr_at(addresses, number, operation).spelling();
            let room = usize::from(bytes.unwrap_or(0)).saturating_sub(spelling.len());
            code.resize(code.len() + room, PFIX_0)?;
            code.extend_from_slice(spelling.as_slice())?;
        }
    }
    Ok(())
}

/// The code of lines.
pub fn code_of(alloc: Global, addresses: &[u32], lines: &[Line]) -> Result<Vec<u8>, AllocError>
    requires addresses { AreAddresses addresses.now }
    requires count { length addresses.now ≡ length lines.now + 1 }
    requires sound { AreSound lines.now }
    ensures { IfOk result (λ code. code.items ≡ concat (spelled_from addresses.now 0 lines.now)) }
{
    let mut code = Vec::new(alloc);
    for (number, line) in lines.iter().enumerate() {
        put_line(&mut code, addresses, number, *line)?;
    }
    Ok(code)
}
