//! Debug information of a text in occam.

use std::alloc::Global;
use tpw_debug::{Called, DebugInfo, Named, Printable, Statement};
use tpw_files::{Failure, Input};
use tpw_occam::{CompiledText, Located};

/// The lines of a text in occam, each at the addresses of the instructions that come from it.
fn statements_of<'a>(
    alloc: Global,
    text: &'a str,
    sources: &[u32],
    places: &[u32],
) -> Result<Vec<Statement<'a>>, Failure> {
    let lines: Vec<&'a str> = text.lines().collect(alloc)?;
    let mut statements = Vec::new(alloc);
    for (source, place) in sources.iter().zip(places) {
        let line = *source as usize;
        if let Some(said) = lines.get(line.saturating_sub(1)) {
            let statement = said.trim_ascii_start();
            statements.push(Statement {
                at: *place as usize,
                line,
                column: said.len().saturating_sub(statement.len()).saturating_add(1),
                text: Printable(statement.trim_ascii_end()),
            })?;
        }
    }
    Ok(statements)
}

/// The names of a text in occam, as names of workspace words.
pub(crate) fn words_of<'a>(
    alloc: Global,
    located: &[Located<'a>],
) -> Result<Vec<Named<'a>>, Failure> {
    let mut words = Vec::new(alloc);
    for name in located {
        words.push(Named {
            first: name.first as usize,
            words: name.words as usize,
            name: name.name,
            from: name.from as usize,
            to: name.to as usize,
            line: name.line as usize,
            bytes: name.bytes.map(|bytes| bytes as usize),
        })?;
    }
    Ok(words)
}

/// The calls of a text in occam in which its loops stand.
fn calls_of(alloc: Global, compiled: &CompiledText<'_>) -> Result<Vec<Called>, Failure> {
    let rows = &compiled.assembled.image.loops;
    let mut calls = Vec::new(alloc);
    for (row, one) in rows.iter().zip(&compiled.called_loops) {
        for line in one.calls.iter().rev() {
            calls.push(Called {
                head: row.head as usize,
                line: *line as usize,
            })?;
        }
    }
    Ok(calls)
}

/// Debug information of the text of an input.
pub fn debug_info<'a>(
    alloc: Global,
    input: &Input,
    text: &'a str,
    compiled: &CompiledText<'a>,
) -> Result<DebugInfo<'a>, Failure> {
    Ok(DebugInfo {
        name: format!(in alloc; "{input}")?,
        statements: statements_of(
            alloc,
            text,
            &compiled.sources,
            &compiled.assembled.addresses,
        )?,
        labels: Vec::new(alloc),
        words: words_of(alloc, &compiled.located)?,
        calls: calls_of(alloc, compiled)?,
    })
}
