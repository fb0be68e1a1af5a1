//! The command `occam`: the assembly text that a text in occam becomes.

use std::alloc::{AllocError, Global};
use std::io::Write;
use tpw_debug::Printable;
use tpw_files::{Failure, Outcome, write_line};
use tpw_inputs::Occam;
use tpw_occam::Located;
use tpw_text::{Position, read_source, source_text};

/// Appends a name of local words, as a comment. The local word 0 is this word of the workspace.
fn put_name(text: &mut String, located: &Located<'_>, start: u32) -> Result<(), AllocError> {
    let name = located.name;
    let local = located.first.saturating_sub(start);
    if located.words == 1 {
        write!(text, "-- local {local}: {name}\n")
    } else {
        let last = local.saturating_add(located.words.saturating_sub(1));
        write!(text, "-- locals {local} to {last}: {name}\n")
    }
}

/// Appends the names of local words, each once.
fn put_names(text: &mut String, located: &[Located<'_>], start: u32) -> Result<(), AllocError> {
    for (i, one) in located.iter().enumerate() {
        let is_said = located.iter().take(i).any(|other| other.name == one.name
            && other.first == one.first
            && other.words == one.words);
        if !is_said {
            put_name(text, one, start)?;
        }
    }
    Ok(())
}

/// Appends a line of a text in occam, as a comment.
fn put_source(text: &mut String, lines: &[&str], number: u32) -> Result<(), AllocError> {
    let line = lines
        .get((number as usize).saturating_sub(1))
        .unwrap_or(&"");
    let said = Printable(line.trim_ascii());
    write!(text, "-- line {number}: {said}\n")
}

/// Appends an assembly text, and before its statements, which have positions, the lines of a text that they come from.
fn put_statements(
    text: &mut String,
    assembly: &str,
    positions: &[Position],
    lines: &[&str],
    sources: &[u32],
) -> Result<(), AllocError> {
    let mut statements = positions.iter().zip(sources).peekable();
    let mut source = 0u32;
    for (i, line) in assembly.lines().enumerate() {
        if let Some((_, from)) = statements.next_if(|(place, _)| place.line
            == i.saturating_add(1))
        {
            if *from != source {
                put_source(text, lines, *from)?;
                source = *from;
            }
        }
        text.push_str(line)?;
        text.push_str("\n")?;
    }
    Ok(())
}

/// Writes the assembly text that a text in occam becomes, each statement behind the line that it comes from.
pub fn translate<W: Write>(
    alloc: Global,
    occam: &Occam<'_>,
    writer: &mut W,
) -> Result<Outcome, Failure> {
    let compiled = &occam.compiled;
    let assembly = source_text(alloc, &compiled.program, None)?;
    let source = read_source(alloc, assembly.as_str())?;
    let lines: Vec<&str> = occam.text.lines().collect(alloc)?;
    let mut text = String::new(alloc);
    put_names(&mut text, &compiled.located, compiled.program.start)?;
    put_statements(
        &mut text,
        assembly.as_str(),
        &source.positions,
        &lines,
        &compiled.sources,
    )?;
    write_line(writer, text.as_str())
}
