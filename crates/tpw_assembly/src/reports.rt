//! Faults of a text as diagnostics: all that it has.

use crate::expected::expected_at;
use std::alloc::{AllocError, Global};
use tpw_debug::{Diagnostic, MAX_DIAGNOSTICS, Severity, Span};
use tpw_files::{Failure, InputFault};
use tpw_text::{Position, SourceFault, TextFault, read_source};

/// How often a text is read for its faults, each time without the lines of those before.
const MAX_READS: usize = 60;

/// The longest text of which more than one fault is looked for, in bytes.
const MAX_BYTES: usize = 1 << 20;

/// The line of a text that has a number.
pub fn line_of(text: &str, number: usize) -> &str {
    match text.lines().nth(number.saturating_sub(1)) {
        Some(line) => line,
        None => "",
    }
}

/// Whether a character is a word by itself, or ends one.
fn ends_word(c: char) -> bool {
    c.is_ascii_whitespace() || matches!(c, ':' | '/' | ';')
}

/// The word of a line at a column.
pub fn word_at(line: &str, column: usize) -> &str {
    let rest = line.get(column.saturating_sub(1)..).unwrap_or("");
    match rest.find(|c: char| ends_word(c)) {
        Some(0) => rest.get(..1).unwrap_or(""),
        Some(bytes) => rest.get(..bytes).unwrap_or(""),
        None => rest,
    }
}

/// Whether a word is one of those of a line.
fn has_word(line: &str, word: &str) -> bool {
    line.split(|c: char| ends_word(c))
        .any(|other| other == word)
}

/// A text with some of its lines blank.
fn without_lines(alloc: Global, text: &str, left_out: &[usize]) -> Result<String, AllocError> {
    let mut rest = String::with_capacity(alloc, text.len())?;
    for (i, line) in text.lines().enumerate() {
        if !left_out.contains(&i.saturating_add(1)) {
            rest.push_str(line)?;
        }
        rest.push_str("\n")?;
    }
    Ok(rest)
}

/// Whether a fault of a label comes from a line that is left out, which has the label.
fn is_caused(text: &str, left_out: &[usize], fault: SourceFault) -> bool {
    let word = word_at(line_of(text, fault.line), fault.column);
    fault.fault == TextFault::NoLabel
        && left_out
            .iter()
            .any(|number| has_word(line_of(text, *number), word))
}

/// The word at a place of a text.
fn span_of(text: &str, position: Position) -> Span {
    let Position { line, column } = position;
    Span {
        line,
        column,
        width: word_at(line_of(text, line), column).len(),
    }
}

/// The message of a fault: with the word at its place, and the line above that gives a label given twice.
fn message_of(alloc: Global, text: &str, fault: SourceFault) -> Result<String, AllocError> {
    let kind = fault.fault;
    let word = word_at(line_of(text, fault.line), fault.column);
    let above = match kind {
        TextFault::Twice => line_giving(text, word),
        _ => None,
    };
    match above {
        Some(line) => format!(in alloc; "{kind}, in line {line}: {word}"),
        None => format!(in alloc; "{kind}: {word}"),
    }
}

/// A fault of a text.
fn diagnostic_of(alloc: Global, text: &str, fault: SourceFault) -> Result<Diagnostic, AllocError> {
    let SourceFault { line, column, .. } = fault;
    Ok(Diagnostic {
        severity: Severity::Error,
        span: span_of(text, Position { line, column }),
        message: message_of(alloc, text, fault)?,
        expected: expected_at(alloc, text, fault)?,
        help: None,
        nearest: None,
    })
}

/// The number of the first line that gives a label.
fn line_giving(text: &str, name: &str) -> Option<usize> {
    for (i, line) in text.lines().enumerate() {
        let said = line.split("--").next().unwrap_or("");
        if let Some((label, _)) = said.split_once(':') {
            if label.trim_ascii() == name {
                return Some(i.saturating_add(1));
            }
        }
    }
    None
}

/// The next fault of a text, where some of its lines are left out.
fn next_fault(
    alloc: Global,
    text: &str,
    left_out: &[usize],
) -> Result<Option<SourceFault>, AllocError> {
    let rest = without_lines(alloc, text, left_out)?;
    match read_source(alloc, rest.as_str()) {
        Ok(_) => Ok(None),
        Err(
            SourceFault {
                fault: TextFault::Memory,
                ..
            },
        ) => Err(AllocError),
        Err(fault) if left_out.contains(&fault.line) => Ok(None),
        Err(fault) => Ok(Some(fault)),
    }
}

/// The faults of a text, the first of which is known: of each line the first, but for those that come from another
/// line's.
fn faults_of(alloc: Global, text: &str, first: SourceFault) -> Result<Vec<Diagnostic>, AllocError> {
    let mut left_out = Vec::new(alloc);
    let mut found = Vec::new(alloc);
    let mut fault = first;
    for _ in 0..MAX_READS {
        if !is_caused(text, &left_out, fault) {
            found.push(diagnostic_of(alloc, text, fault)?)?;
        }
        left_out.push(fault.line)?;
        if found.len() >= MAX_DIAGNOSTICS || text.len() > MAX_BYTES {
            return Ok(found);
        }
        match next_fault(alloc, text, &left_out)? {
            Some(next) => fault = next,
            None => return Ok(found),
        }
    }
    Ok(found)
}

/// A message at a place of a text.
fn at_place(
    alloc: Global,
    text: &str,
    position: Position,
    message: String,
) -> Result<Option<Vec<Diagnostic>>, AllocError> {
    let mut found = Vec::new(alloc);
    found.push(Diagnostic::new(Severity::Error, span_of(text, position), message))?;
    Ok(Some(found))
}

/// The diagnostics of a fault, if it is at places of the text.
fn placed(
    alloc: Global,
    text: &str,
    fault: &InputFault,
) -> Result<Option<Vec<Diagnostic>>, AllocError> {
    match fault {
        InputFault::Source(first) => Ok(Some(faults_of(alloc, text, *first)?)),
        InputFault::Line(position, wrong) => {
            at_place(alloc, text, *position, format!(in alloc; "{wrong}")?)
        }
        InputFault::Narrow(position) => {
            let message = String::from_str(alloc, "its operand needs a longer spelling")?;
            at_place(alloc, text, *position, message)
        }
        InputFault::Field(position, range) => {
            at_place(alloc, text, *position, String::from_str(alloc, range)?)
        }
        InputFault::Unread(_)
        | InputFault::Empty
        | InputFault::ByteOrderMark
        | InputFault::CarriageReturns
        | InputFault::TooLong
        | InputFault::NotADigit(_)
        | InputFault::HalfAByte(_)
        | InputFault::Image(_)
        | InputFault::NotUtf8(_)
        | InputFault::Assembly(_)
        | InputFault::Compiler(_) => Ok(None),
    }
}

/// The failure of a command whose input has a fault: diagnostics, where the fault is at places of the text.
pub fn diagnosed(alloc: Global, text: &[u8], fault: InputFault) -> Failure {
    let Ok(text) = str::from_utf8(text) else {
        return Failure::Input(fault);
    };
    match placed(alloc, text, &fault) {
        Ok(Some(diagnostics)) => Failure::Text(diagnostics),
        Ok(None) => Failure::Input(fault),
        Err(_) => Failure::Memory,
    }
}
