//! Debug information of an assembly text.

use std::alloc::Global;
use tpw_debug::{DebugInfo, Label, Printable, Statement};
use tpw_files::{Failure, Input};
use tpw_text::{Position, Source, statement_of};

/// The statements of a text, each at the address of an instruction that it says.
fn statements_of<'a>(
    alloc: Global,
    text: &'a str,
    positions: &[Position],
    places: &[u32],
) -> Result<Vec<Statement<'a>>, Failure> {
    let mut lines = Vec::new(alloc);
    for line in text.lines() {
        lines.push(line)?;
    }
    let mut statements = Vec::new(alloc);
    for (position, place) in positions.iter().zip(places) {
        if let Some(line) = lines.get(position.line.saturating_sub(1)) {
            statements.push(Statement {
                at: *place as usize,
                line: position.line,
                column: position.column,
                text: Printable(statement_of(alloc, *line)?),
            })?;
        }
    }
    Ok(statements)
}

/// The labels of a text, each at its address.
fn labels_of<'a>(
    alloc: Global,
    source: &Source<'a>,
    places: &[u32],
) -> Result<Vec<Label<'a>>, Failure> {
    let mut labels = Vec::new(alloc);
    for label in &source.labels {
        if let Some(at) = places.get(label.place) {
            labels.push(Label {
                at: *at as usize,
                name: label.name,
            })?;
        }
    }
    Ok(labels)
}

/// Debug information of the text of an input, whose program has its places at these addresses.
pub fn debug_info<'a>(
    alloc: Global,
    input: &Input,
    text: &'a str,
    source: &Source<'a>,
    addresses: &[u32],
) -> Result<DebugInfo<'a>, Failure> {
    Ok(DebugInfo {
        name: format!(in alloc; "{input}")?,
        statements: statements_of(alloc, text, &source.positions, addresses)?,
        labels: labels_of(alloc, source, addresses)?,
        words: Vec::new(alloc),
        calls: Vec::new(alloc),
    })
}
