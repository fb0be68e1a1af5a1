//! Checks of lines and loops.

ghost use Rattle.std.specs.Prelude.{◌≡◌, ◌<◌, length};
ghost use Rattle.std.specs.Result.{result_err};
ghost use Rattle.tpw_asm.specs.Faults.{way_fault, operation_fault, line_fault, first_fault, is_behind, is_row_behind};
ghost use Rattle.tpw_asm.specs.Faults.{first_row, is_stated, first_narrow};

use crate::fault::{AssemblyFault, LineFault};
use crate::program::{Line, Loop, Operation, Spot};
use tp_prefix::MAX_SPELLING;

/// The fault of a way from one place to another of a program with this many lines, if there is one.
fn way_fault(count: usize, from: usize, to: usize) -> Option<LineFault>
    ensures { result ≡ way_fault count from to }
{
    if to > count {
        Some(LineFault::NoPlace)
    } else if to < from {
        Some(LineFault::Backward)
    } else {
        None
    }
}

/// The fault of an operation in a line, if there is one.
fn operation_fault(count: usize, line: usize, operation: Operation) -> Option<LineFault>
    requires { line < count }
    ensures { result ≡ operation_fault count line operation }
{
    match operation {
        Operation::Plain(_) => None,
        Operation::JumpTo(target) | Operation::CjTo(target) => way_fault(count, line + 1, target),
        Operation::Distance { from, to } => way_fault(count, from, to),
    }
}

/// The fault of a line by itself, if there is one.
fn line_fault(count: usize, place: usize, line: Line) -> Option<LineFault>
    requires { place < count }
    ensures { result ≡ line_fault count place line }
{
    match line {
        Line::Byte(_) => None,
        Line::Spelled { operation, bytes } => {
            if usize::from(bytes.unwrap_or(0)) > MAX_SPELLING {
                Some(LineFault::TooWide)
            } else {
                operation_fault(count, place, operation)
            }
        }
    }
}

/// Finds the first line that is wrong by itself.
pub fn check_lines(lines: &[Line]) -> Result<(), AssemblyFault>
    ensures { result_err result ≡ first_fault (length lines.now) 0 lines.now }
{
    for (number, line) in lines.iter().enumerate() {
        if let Some(fault) = line_fault(lines.len(), number, *line) {
            return Err(AssemblyFault::Line(number, fault));
        }
    }
    Ok(())
}

/// Whether a spot is a place behind the last one.
fn is_behind(count: usize, spot: Spot) -> bool
    ensures { result ≡ is_behind count spot }
{
    match spot {
        Spot::Place(place) => place > count,
        Spot::Address(_) => false,
    }
}

fn is_row_behind(count: usize, row: &Loop) -> bool
    ensures { result ≡ is_row_behind count row.now }
{
    is_behind(count, row.head) || is_behind(count, row.lend)
}

/// Finds the first loop with a place behind the last one of a program with this many lines.
pub fn check_rows(count: usize, loops: &[Loop]) -> Result<(), AssemblyFault>
    ensures { result_err result ≡ first_row count 0 loops.now }
{
    for (number, row) in loops.iter().enumerate() {
        if is_row_behind(count, row) {
            return Err(AssemblyFault::Row(number));
        }
    }
    Ok(())
}

/// Whether a line is as long as it states.
fn is_stated(line: Line, length: u8) -> bool
    ensures { result ≡ is_stated line length }
{
    match line {
        Line::Spelled {
            operation: _,
            bytes: Some(bytes),
        } => bytes == length,
        _ => true,
    }
}

/// Finds the first line that is not as long as it states, where these are the lengths of lines.
pub fn check_lengths(lines: &[Line], lengths: &[u8]) -> Result<(), AssemblyFault>
    requires { length lengths.now ≡ length lines.now }
    ensures { result_err result ≡ first_narrow 0 lines.now lengths.now }
{
    for (number, line) in lines.iter().enumerate() {
        if !is_stated(*line, lengths[number]) {
            return Err(AssemblyFault::Narrow(number));
        }
    }
    Ok(())
}
