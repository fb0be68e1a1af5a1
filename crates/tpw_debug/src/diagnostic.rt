//! Diagnostics: the faults and warnings of a text, at their places.

ghost use Rattle.std.specs.Prelude.{◌≡◌};

use crate::printable::{Printable, is_numbered};
use std::fmt;

/// The most diagnostics of a text that are told.
pub const MAX_DIAGNOSTICS: usize = 20;

/// The longest line that is quoted, in bytes.
const MAX_QUOTED: usize = 160;

/// Whether a text is refused for it.
#[derive(Clone, Copy, Debug, PartialEq, Eq)]
pub enum Severity {
    Error,
    /// The text is taken: it may mean something else than its author does.
    Warning,
}

/// A stretch of a line: its line and its first column, counted from 1, and its width. Columns and widths are bytes.
#[derive(Clone, Copy, Debug, PartialEq, Eq)]
pub struct Span {
    pub line: usize,
    pub column: usize,
    pub width: usize,
}

/// A fault or a warning, at a place of a text.
#[derive(Debug, Drop)]
pub struct Diagnostic {
    pub severity: Severity,
    pub span: Span,
    pub message: String,
    /// The form that is expected there, where it is known.
    pub expected: Option<String>,
    /// A remedy, where one is known.
    pub help: Option<&'static str>,
    /// The name that may be meant.
    pub nearest: Option<String>,
}

impl Diagnostic {
    /// A message alone.
    pub fn new(severity: Severity, span: Span, message: String) -> Diagnostic
        ensures severity { result.severity ≡ severity }
        ensures span { result.span ≡ span }
        ensures message { result.message ≡ message }
    {
        Diagnostic {
            severity,
            span,
            message,
            expected: None,
            help: None,
            nearest: None,
        }
    }
}

impl fmt::Display for Diagnostic {
    fn fmt<W: fmt::Write>(&self, f: &mut fmt::Formatter<W>) -> fmt::Result {
        let Span { line, column, .. } = self.span;
        let message = Printable(self.message.as_str());
        let kind = match self.severity {
            Severity::Error => "",
            Severity::Warning => "warning: ",
        };
        write!(f, "{line}:{column}: {kind}{message}")?;
        if let Some(expected) = &self.expected {
            write!(f, "; expected {expected}")?;
        }
        if let Some(help) = self.help {
            write!(f, "; {help}")?;
        }
        if let Some(nearest) = &self.nearest {
            write!(f, ": is `{nearest}` meant?")?;
        }
        Ok(())
    }
}

/// A line of a text, with carets below the bytes of a span.
#[derive(Clone, Copy)]
struct Quoted<'a> {
    line: &'a str,
    span: Span,
}

impl Quoted<'_> {
    /// Writes white space of the width that a text is printed in, and tabs where it has them.
    fn write_margin<W: fmt::Write>(before: &str, f: &mut fmt::Formatter<W>) -> fmt::Result {
        for c in before.chars() {
            f.write_str(match c {
                '\t' => "\t",
                _ if is_numbered(c) => "    ",
                _ => " ",
            })?;
        }
        Ok(())
    }
}

impl fmt::Display for Quoted<'_> {
    fn fmt<W: fmt::Write>(&self, f: &mut fmt::Formatter<W>) -> fmt::Result {
        let Span {
            line: number,
            column,
            width,
        } = self.span;
        let printed = Printable(self.line);
        write!(f, "{number:>5} | {printed}\n      | ")?;
        let before = self.line.get(..column.saturating_sub(1)).unwrap_or("");
        Quoted::write_margin(before, f)?;
        for _ in 0..width.max(1).min(MAX_QUOTED) {
            f.write_char('^')?;
        }
        Ok(())
    }
}

/// Diagnostics of a text that has a name, at most twenty: each as `NAME:LINE:COLUMN:` with what is said, and below it
/// its line with carets under the place, if it is no long one.
#[derive(Clone, Copy)]
pub struct Report<'a> {
    pub name: &'a str,
    pub text: &'a str,
    pub diagnostics: &'a [Diagnostic],
}

impl fmt::Display for Report<'_> {
    fn fmt<W: fmt::Write>(&self, f: &mut fmt::Formatter<W>) -> fmt::Result {
        let name = self.name;
        for diagnostic in self.diagnostics.iter().take(MAX_DIAGNOSTICS) {
            write!(f, "{name}:{diagnostic}\n")?;
            let span = diagnostic.span;
            let line = self.text.lines().nth(span.line.saturating_sub(1));
            match line {
                Some(line) if line.len() <= MAX_QUOTED => {
                    let quoted = Quoted { line, span };
                    write!(f, "{quoted}\n")?;
                }
                _ => {}
            }
        }
        match self.diagnostics.len().saturating_sub(MAX_DIAGNOSTICS) {
            0 => Ok(()),
            more => write!(f, "{name}: and {more} more\n"),
        }
    }
}
