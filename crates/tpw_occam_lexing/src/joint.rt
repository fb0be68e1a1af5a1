//! Lines of a text, joined to those that they go on over.

ghost use Rattle.std.specs.Prelude.{◌≡◌, ◌∷◌, ◌++◌, [], false, OnOk, IfOk, Option, List, Some, option_map, map};
ghost use Rattle.tpw_occam_lexing.specs.Lines.{WrittenLine, written, in_front, where_clean};
ghost use Rattle.tpw_occam_lexing.specs.Reading.{meant, outcome};

use crate::line::{Joining, Line, joining_of};
use std::alloc::AllocError;
use tpw_occam_terms::{FaultKind, Span};

/// The lines of a text.
#[derive(Drop)]
pub struct Lexed<'a> {
    pub lines: Vec<Line<'a>>,
    /// Whether the text has lines of tokens. Else some line has a fault.
    pub is_clean: bool,
}

/// Lines that are done, and the last one, which may go on.
#[derive(Drop)]
pub(crate) struct Joint<'a> {
    pub done: Vec<Line<'a>>,
    pub pending: Option<Line<'a>>,
    /// Whether all is tokens, and goes on as it may.
    pub is_clean: bool,
}

/// The front of a line.
fn front(line: &Line<'_>) -> Span {
    Span {
        line: line.end.line,
        column: 1,
        width: line.indent,
    }
}

/// The first token of a line.
fn first(line: &Line<'_>) -> Span {
    Span {
        line: line.end.line,
        column: line.indent.saturating_add(1),
        width: 1,
    }
}

impl<'a> Joint<'a> {
    /// A line that is no longer pending, and the next one.
    fn put_apart(&mut self, above: Line<'a>, line: Line<'a>) -> Result<(), AllocError>
        ensures done { OnOk result (map written self.new.done.items ≡ map written self.old.done.items ++ written above.entry ∷ []) }
        ensures pending { OnOk result (option_map written self.new.pending ≡ Some (written line.entry)) }
        ensures clean { self.new.is_clean ≡ self.old.is_clean }
    {
        self.done.push(above)?;
        self.pending = Some(line);
        Ok(())
    }

    /// A line is to go on with the one above, and is indented less.
    fn put_shallow(&mut self, above: Line<'a>, line: Line<'a>) -> Result<(), AllocError>
        ensures { self.new.is_clean ≡ false }
    {
        self.is_clean = false;
        let (mut above, mut line) = (above, line);
        line.is_doubtful = !line.is_by_itself();
        above.put_fault(FaultKind::ShallowRest, front(&line))?;
        self.put_apart(above, line)
    }

    /// A line goes on with one that does not.
    fn put_early(&mut self, above: Line<'a>, line: Line<'a>) -> Result<(), AllocError>
        ensures { self.new.is_clean ≡ false }
    {
        self.is_clean = false;
        let mut above = above;
        above.put_fault(FaultKind::EarlyBreak, first(&line))?;
        self.pending = Some(above.with(line)?);
        Ok(())
    }

    /// Puts a line behind the pending one.
    #[tactic(auto, unfolding(crate::specs::Reading::meant))]
    fn put_behind(&mut self, above: Line<'a>, line: Line<'a>) -> Result<(), AllocError>
        ensures { OnOk result ((more : Option (List WrittenLine)) → meant self.new more
            ≡ outcome self.old.is_clean (map written self.old.done.items) (Some (written above.entry))
            (option_map (λ lines. written line.entry ∷ lines) more)) }
    {
        let goes_on = above.is_open() && (self.is_clean || !above.ends_wrong);
        let begins_between = line.begins_between() && (self.is_clean || line.begins_at_once());
        match joining_of(goes_on, above.indent, line.indent, begins_between) {
            Joining::Behind => {
                self.pending = Some(above.with(line)?);
                Ok(())
            }
            Joining::Apart => self.put_apart(above, line),
            Joining::Shallow => self.put_shallow(above, line),
            Joining::Early => self.put_early(above, line),
        }
    }

    /// The lines, where no more come.
    #[tactic(auto, unfolding(crate::specs::Reading::meant))]
    pub(crate) fn finish(self) -> Result<Lexed<'a>, AllocError>
        ensures { IfOk result (λ l. meant self.entry (Some []) ≡ where_clean l.is_clean (map written l.lines.items)) }
    {
        let Joint {
            mut done,
            pending,
            is_clean,
        } = self;
        if let Some(line) = pending {
            done.push(line)?;
        }
        Ok(Lexed {
            lines: done,
            is_clean,
        })
    }

    /// Puts the next line.
    #[tactic(auto, unfolding(crate::specs::Reading::meant))]
    pub(crate) fn put(&mut self, line: Line<'a>, is_clean: bool) -> Result<(), AllocError>
        ensures { OnOk result ((more : Option (List WrittenLine)) → meant self.new more
            ≡ meant self.old (in_front (where_clean is_clean (written line.entry)) more)) }
    {
        self.is_clean = self.is_clean && is_clean;
        if is_clean && line.items.is_empty() {
            return Ok(());
        }
        match self.pending.take() {
            Some(above) => self.put_behind(above, line),
            None => {
                self.pending = Some(line);
                Ok(())
            }
        }
    }
}
