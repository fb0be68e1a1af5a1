//! The names of a text, each once: which are used, and which are assigned to.

use std::alloc::{AllocError, Global};
use tpw_occam_faults::{Findings, NoteKind, Unused};
use tpw_occam_terms::{Name, Span};

/// How much of a text is looked at, at the most: expressions, processes, and names, each as often as it is passed by.
const MAX_LOOKED_AT: u32 = 50_000_000;

/// How far names are seen: those that were declared up to the innermost.
pub(crate) type Scope = Option<usize>;

/// The parameters of a PROC: the first, and how many.
#[derive(Clone, Copy)]
pub(crate) struct Places {
    pub(crate) first: usize,
    pub(crate) count: usize,
}

impl Places {
    /// No parameters.
    pub(crate) const NONE: Places = Places { first: 0, count: 0 };
}

/// A name, and what is done with it.
#[derive(Clone, Copy)]
struct Known<'a> {
    name: Name<'a>,
    /// Its kind, where a warning is due if it is never used.
    what: Option<Unused>,
    parameters: Places,
    /// Where the name is declared that it is another one for.
    other: Option<usize>,
    is_used: bool,
    is_written: bool,
    before: Scope,
}

/// All names that were declared, each knowing those before it, and notes.
#[derive(Drop)]
pub(crate) struct Usage<'a> {
    pub(crate) findings: Findings<'a>,
    known: Vec<Known<'a>>,
    /// How much may still be looked at.
    left: u32,
}

impl<'a> Usage<'a> {
    pub(crate) fn new(alloc: Global) -> Usage<'a> {
        Usage {
            findings: Findings::new(alloc),
            known: Vec::new(alloc),
            left: MAX_LOOKED_AT,
        }
    }

    /// Whether more is looked at.
    pub(crate) fn goes_on(&mut self) -> bool {
        self.look_at(1);
        self.left > 0
    }

    /// Counts so many names that are looked at.
    fn look_at(&mut self, names: usize) {
        let names = u32::try_from(names).unwrap_or(u32::MAX);
        self.left = self.left.saturating_sub(names);
    }

    /// Looks at no more: of names that are not used nothing is known then.
    pub(crate) fn end(&mut self) {
        self.left = 0;
    }

    /// How many names are declared.
    pub(crate) fn count(&self) -> usize {
        self.known.len()
    }

    /// Declares a name in front of a scope.
    pub(crate) fn declare(
        &mut self,
        before: Scope,
        name: Name<'a>,
        what: Option<Unused>,
        parameters: Places,
    ) -> Result<Scope, AllocError> {
        let innermost = self.known.len();
        self.look_at(1);
        self.known.push(Known {
            name,
            what,
            parameters,
            other: None,
            is_used: false,
            is_written: false,
            before,
        })?;
        Ok(Some(innermost))
    }

    /// Declares another name in front of a scope, for one that is declared at a place.
    pub(crate) fn declare_other(
        &mut self,
        before: Scope,
        name: Name<'a>,
        other: Option<usize>,
    ) -> Result<Scope, AllocError> {
        let at = self.known.len();
        let scope = self.declare(before, name, Some(Unused::Value), Places::NONE)?;
        if let Some(known) = self.known.get_mut(at) {
            known.other = other;
        }
        Ok(scope)
    }

    /// Where a name is declared that is in scope.
    fn find(&mut self, scope: Scope, name: Name<'a>) -> Option<usize> {
        let mut scope = scope;
        for _ in 0..self.known.len() {
            if !self.goes_on() {
                return None;
            }
            let at = scope?;
            let known = self.known.get(at)?;
            if known.name.text == name.text {
                return Some(at);
            }
            scope = known.before;
        }
        None
    }

    /// Uses a name; returns where it is declared.
    pub(crate) fn use_name(&mut self, scope: Scope, name: Name<'a>) -> Option<usize> {
        let at = self.find(scope, name)?;
        if let Some(known) = self.known.get_mut(at) {
            known.is_used = true;
        }
        Some(at)
    }

    /// Assigns to what is declared at a place, and to what that is another name for.
    fn write(&mut self, at: usize) {
        let mut next = Some(at);
        for _ in 0..self.known.len() {
            let Some(at) = next else {
                return;
            };
            next = None;
            if let Some(known) = self.known.get_mut(at) {
                known.is_written = true;
                next = known.other;
            }
        }
    }

    /// Uses a name that is assigned to; returns where it is declared.
    pub(crate) fn write_name(&mut self, scope: Scope, name: Name<'a>) -> Option<usize> {
        let at = self.use_name(scope, name)?;
        self.write(at);
        Some(at)
    }

    /// Uses the innermost name of a scope.
    pub(crate) fn use_innermost(&mut self, scope: Scope) {
        if let Some(known) = self.known.get_mut(scope.unwrap_or(0)) {
            known.is_used = true;
        }
    }

    /// The parameters of a PROC that is called.
    pub(crate) fn called(&mut self, scope: Scope, name: Name<'a>) -> Places {
        match self.use_name(scope, name).and_then(|at| self.known.get(at)) {
            Some(known) => known.parameters,
            None => Places::NONE,
        }
    }

    /// Whether a PROC assigns to its parameter of a number.
    pub(crate) fn is_written(&self, parameters: Places, index: usize) -> bool {
        index < parameters.count
            && self
                .known
                .get(parameters.first.saturating_add(index))
                .is_some_and(|known| known.is_written)
    }

    /// Whether a name is one of those from a place on.
    fn is_from(&self, first: usize, name: Name<'a>) -> bool {
        for at in first..self.known.len() {
            let Some(known) = self.known.get(at) else {
                return false;
            };
            if known.name.text == name.text {
                return true;
            }
        }
        false
    }

    /// Notes a name that stands in one list behind an equal one: the names from one on.
    pub(crate) fn note_twice(&mut self, first: usize, name: Name<'a>) -> Result<(), AllocError> {
        let count = self.known.len().saturating_sub(first);
        self.look_at(count);
        if self.left == 0 {
            return Ok(());
        }
        if self.is_from(first, name) {
            let kind = NoteKind::TwiceInList { name: name.text };
            self.findings.note(name.span, kind)?;
        }
        Ok(())
    }

    /// Notes a name at a place.
    pub(crate) fn note(&mut self, span: Span, kind: NoteKind<'a>) -> Result<(), AllocError> {
        self.findings.note(span, kind)
    }

    /// Notes names that are not used, where all was looked at.
    pub(crate) fn note_unused(&mut self) -> Result<(), AllocError> {
        if self.left == 0 {
            return Ok(());
        }
        for known in &self.known {
            if let (false, Some(what)) = (known.is_used, known.what) {
                let name = known.name.text;
                self.findings
                    .note(known.name.span, NoteKind::NeverUsed { name, what })?;
            }
        }
        Ok(())
    }
}
