//! The form that is expected where a text has a fault.

use crate::reports::{line_of, word_at};
use std::alloc::{AllocError, Global};
use tp_decode::{FUNCTIONS, Instr, OPERATIONS};
use tpw_text::{SourceFault, TextFault};

/// How the statement of each keyword is written.
const FORMS: [(&str, &str); 8] = [
    ("packet", "packet N"),
    ("result", "result N"),
    ("start", "start N"),
    ("workspace", "workspace N"),
    ("version", "version 1 or version 2"),
    ("init", "init WORD: VALUE"),
    ("byte", "byte N"),
    (
        "loop",
        "loop head SPOT lend SPOT control WORD turns N start N",
    ),
];

/// How the statement of a keyword is written.
fn form_of_keyword(word: &str) -> Option<&'static str> {
    FORMS
        .iter()
        .find(|(keyword, _)| word.eq_ignore_ascii_case(*keyword))
        .map(|(_, form)| *form)
}

/// The instruction of a name, at the operand 0.
fn instr_named(instrs: &[Instr], word: &str) -> Option<Instr> {
    instrs
        .iter()
        .copied()
        .find(|instr| word.eq_ignore_ascii_case(instr.name()))
}

/// How an instruction with an operand of its own is written.
fn form_of_function(alloc: Global, instr: Instr) -> Result<String, AllocError> {
    let name = instr.name();
    match instr {
        Instr::Jump(_) | Instr::Cj(_) => format!(in alloc; "{name} LABEL"),
        Instr::Ldc(_) => format!(in alloc; "{name} N or {name} LABEL - LABEL"),
        _ => format!(in alloc; "{name} N"),
    }
}

/// How a statement is written that begins with a word, if one does.
fn form_of(alloc: Global, word: &str) -> Result<Option<String>, AllocError> {
    if let Some(form) = form_of_keyword(word) {
        return Ok(Some(String::from_str(alloc, form)?));
    }
    if let Some(instr) = instr_named(&FUNCTIONS, word) {
        return Ok(Some(form_of_function(alloc, instr)?));
    }
    match instr_named(&OPERATIONS, word) {
        Some(instr) => {
            let name = instr.name();
            Ok(Some(format!(in alloc; "{name}, without an operand")?))
        }
        None => Ok(None),
    }
}

/// The statement of a line: what is behind its label.
fn statement_in(line: &str) -> &str {
    match line.split_once(':') {
        Some((label, behind)) if !label.trim_ascii().contains(' ') => behind.trim_ascii_start(),
        _ => line.trim_ascii_start(),
    }
}

/// How the statement of a line is written.
fn form_in(alloc: Global, line: &str) -> Result<Option<String>, AllocError> {
    match form_of(alloc, word_at(statement_in(line), 1))? {
        Some(form) => Ok(Some(form)),
        None => form_of(alloc, word_at(line.trim_ascii_start(), 1)),
    }
}

/// The form that is expected at a fault of a text.
pub fn expected_at(
    alloc: Global,
    text: &str,
    fault: SourceFault,
) -> Result<Option<String>, AllocError> {
    let line = line_of(text, fault.line);
    let of_statement = match fault.fault {
        TextFault::Missing | TextFault::Unexpected | TextFault::Extra => true,
        TextFault::OutOfRange => word_at(statement_in(line), 1).eq_ignore_ascii_case("version"),
        _ => false,
    };
    if of_statement {
        form_in(alloc, line)
    } else {
        Ok(None)
    }
}
