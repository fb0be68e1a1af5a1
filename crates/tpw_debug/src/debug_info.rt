//! Debug information.

use crate::source::{Called, Label, Named, SourceText, Statement};

/// Debug information of the code that a text is assembled or compiled to: its statements at the addresses of their
/// instructions, its labels at theirs, its names of workspace words, and the calls in which its loops stand.
#[derive(Drop)]
pub struct DebugInfo<'a> {
    /// The name of the text, as faults of it have it.
    pub name: String,
    pub statements: Vec<Statement<'a>>,
    pub labels: Vec<Label<'a>>,
    pub words: Vec<Named<'a>>,
    pub calls: Vec<Called>,
}

impl DebugInfo<'_> {
    /// The same, lent.
    pub fn source_text(&self) -> SourceText<'_> {
        SourceText {
            name: self.name.as_str(),
            statements: &self.statements,
            labels: &self.labels,
            words: &self.words,
            calls: &self.calls,
            at: None,
        }
    }
}
