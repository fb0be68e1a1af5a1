//! Diagnostics of a text in occam, of what the passes below find: the one adapter from their kinds of faults.

ghost use Rattle.std.specs.Prelude.{◌≤◌, All, IfOk, length};
ghost use Rattle.tpw_occam.specs.Compilation.{IsPlaced};

use crate::remedies::remedy_of;
use std::alloc::{AllocError, Global};
use tpw_debug::{Diagnostic, MAX_DIAGNOSTICS, Severity, Span};
use tpw_occam_faults::{Fault, FaultKind, Note};
use tpw_occam_terms::{FaultKind as SyntaxFault, Span as TreeSpan, Wanted, placed};

/// The place of a span in a text.
fn span_of(text: &str, span: TreeSpan) -> Span
    ensures { IsPlaced text.now result }
{
    let TreeSpan {
        line,
        column,
        width,
    } = placed(text, span);
    Span {
        line,
        column,
        width,
    }
}

/// The message of a fault. Where an operator is wanted, it names the token that is in its place.
fn message_of(
    alloc: Global,
    text: &str,
    kind: FaultKind<'_>,
    span: TreeSpan,
) -> Result<String, AllocError> {
    let token = token_at(text, span);
    if kind == FaultKind::Syntax(SyntaxFault::Wanted(Wanted::Operator)) && !token.is_empty() {
        return format!(in alloc; "{kind}: in front of `{token}`");
    }
    format!(in alloc; "{kind}")
}

/// The bytes of a span of a text.
fn token_at(text: &str, span: TreeSpan) -> &str {
    let line = text.lines().nth(span.line.saturating_sub(1)).unwrap_or("");
    let start = span.column.saturating_sub(1);
    line.get(start..start.saturating_add(span.width))
        .unwrap_or("")
}

/// The name that is near to one that is unknown, and the fault without it.
fn without_near(kind: FaultKind<'_>) -> (FaultKind<'_>, Option<&str>) {
    match kind {
        FaultKind::Unknown { name, near } => (FaultKind::Unknown { name, near: None }, near),
        kind => (kind, None),
    }
}

/// A name, copied.
fn owned(alloc: Global, name: Option<&str>) -> Result<Option<String>, AllocError> {
    match name {
        Some(name) => Ok(Some(String::from_str(alloc, name)?)),
        None => Ok(None),
    }
}

/// The faults of a text, at most twenty.
pub(crate) fn faults_of(
    alloc: Global,
    text: &str,
    faults: &[Fault<'_>],
) -> Result<Vec<Diagnostic>, AllocError>
    ensures few { IfOk result (λ v. length v.items ≤ 20) }
    ensures placed { IfOk result (λ v. All (λ d. IsPlaced text.now d.span) v.items) }
{
    let mut diagnostics = Vec::new(alloc);
    for fault in faults {
        if diagnostics.len() >= MAX_DIAGNOSTICS {
            break;
        }
        let (kind, near) = without_near(fault.kind);
        diagnostics.push(Diagnostic {
            severity: Severity::Error,
            span: span_of(text, fault.span),
            message: message_of(alloc, text, kind, fault.span)?,
            expected: None,
            help: remedy_of(text, kind, fault.span),
            nearest: owned(alloc, near)?,
        })?;
    }
    Ok(diagnostics)
}

/// The warnings of a text.
pub(crate) fn warnings_of(
    alloc: Global,
    text: &str,
    notes: &[Note<'_>],
) -> Result<Vec<Diagnostic>, AllocError>
    ensures { IfOk result (λ v. All (λ d. IsPlaced text.now d.span) v.items) }
{
    let mut diagnostics = Vec::new(alloc);
    for note in notes {
        let kind = note.kind;
        diagnostics.push(Diagnostic {
            severity: Severity::Warning,
            span: span_of(text, note.span),
            message: format!(in alloc; "{kind}")?,
            expected: None,
            help: None,
            nearest: None,
        })?;
    }
    Ok(diagnostics)
}

/// The statement of a line of a text: what is behind its indentation.
fn statement_at(text: &str, line: usize) -> TreeSpan {
    let said = text.lines().nth(line.saturating_sub(1)).unwrap_or("");
    let statement = said.trim_ascii_start();
    TreeSpan {
        line,
        column: said.len().saturating_sub(statement.len()).saturating_add(1),
        width: statement.trim_ascii_end().len(),
    }
}

/// A fault of a line of a text.
pub fn fault_at(text: &str, line: usize, message: String) -> Diagnostic
    ensures { IsPlaced text.now result.span }
{
    Diagnostic::new(
        Severity::Error,
        span_of(text, statement_at(text, line)),
        message,
    )
}
