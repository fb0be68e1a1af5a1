//! Declarations in scope.

/// The variables and arrays in which something that is in scope lies, from the innermost on.
#[derive(Clone, Copy)]
pub enum Scope<'s> {
    Empty,
    Variable(usize, &'s Scope<'s>),
    Array(usize, &'s Scope<'s>),
}
