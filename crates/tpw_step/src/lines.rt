//! The lines of a text by the addresses of its code.

use std::alloc::{AllocError, Global};
use tpw_debug::{SourceText, Statement};

/// The statements of a text by the addresses of the instructions that they say: of each address up to the last one the
/// number of its first statement.
#[derive(Drop)]
pub(crate) struct Lines<'a> {
    statements: &'a [Statement<'a>],
    numbers: Vec<Option<usize>>,
}

impl<'a> Lines<'a> {
    /// Those of a text, in a code of this many bytes.
    pub(crate) fn of(
        alloc: Global,
        source: SourceText<'a>,
        code: usize,
    ) -> Result<Lines<'a>, AllocError> {
        let mut numbers: Vec<Option<usize>> = vec![in alloc; None; code]?;
        for (number, statement) in source.statements.iter().enumerate() {
            if let Some(first) = numbers.get_mut(statement.at) {
                *first = first.or(Some(number));
            }
        }
        Ok(Lines {
            statements: source.statements,
            numbers,
        })
    }

    /// The statement that says the instruction at an address.
    pub(crate) fn at(&self, at: i64) -> Option<Statement<'a>> {
        let at = usize::try_from(at).ok()?;
        let number = self.numbers.get(at).copied().flatten()?;
        self.statements.get(number).copied()
    }
}
