//! The loops of a text, by the calls in which they stand.

use std::alloc::{AllocError, Global};
use std::fmt;
use tpw_occam_scoped::Process;

/// A loop of several turns: the line that it begins in, how many others it lies within, and the lines of the calls in which
/// it stands, the outermost first.
#[derive(Drop)]
pub struct CalledLoop {
    pub line: u32,
    pub depth: usize,
    pub calls: Vec<u32>,
}

/// The calls in which a loop stands, from the innermost on: `, called on line 14, on line 21`. Nothing where it stands in
/// none.
#[derive(Clone, Copy)]
pub struct CallLines<'a>(pub &'a [u32]);

impl fmt::Display for CallLines<'_> {
    fn fmt<W: fmt::Write>(&self, f: &mut fmt::Formatter<W>) -> fmt::Result {
        let mut is_first = true;
        for line in self.0.iter().rev() {
            f.write_str(if is_first {
                ", called on line "
            } else {
                ", on line "
            })?;
            write!(f, "{line}")?;
            is_first = false;
        }
        Ok(())
    }
}

/// The loops that are found, and where the process stands that is at hand: its line, how many loops are around it, and
/// the lines of its calls.
#[derive(Drop)]
struct Found {
    all: Vec<CalledLoop>,
    line: u32,
    depth: usize,
    calls: Vec<u32>,
}

impl Found {
    /// Goes to a line of a process. A line above the one around it is that of a PROC that is called there: what is called is
    /// declared above. Returns whether it is.
    fn enter(&mut self, line: u32) -> Result<bool, AllocError> {
        let is_called = line < self.line;
        if is_called {
            self.calls.push(self.line)?;
        }
        self.line = line;
        Ok(is_called)
    }

    /// Goes back to the line around that.
    fn leave(&mut self, around: u32, is_called: bool) {
        self.line = around;
        if is_called {
            self.calls.pop();
        }
    }

    /// Adds a loop of the line that is at hand.
    fn add_loop(&mut self, alloc: Global) -> Result<(), AllocError> {
        self.all.push(CalledLoop {
            line: self.line,
            depth: self.depth,
            calls: Vec::from_slice(alloc, &self.calls)?,
        })?;
        Ok(())
    }

    /// Adds the loops of a process, each behind those in it.
    fn add(&mut self, alloc: Global, p: &Process) -> Result<(), AllocError> {
        match p {
            Process::Sequence(first, second)
            | Process::If {
                guarded: first,
                rest: second,
                ..
            } => {
                self.add(alloc, first)?;
                self.add(alloc, second)
            }
            Process::Repeat { count, body, .. } if *count > 1 => {
                let depth = self.depth;
                self.depth = depth.saturating_add(1);
                self.add(alloc, body)?;
                self.depth = depth;
                self.add_loop(alloc)
            }
            Process::Repeat { body, .. }
            | Process::Variable { body, .. }
            | Process::Value { body, .. }
            | Process::Array { body, .. } => self.add(alloc, body),
            Process::At { line, body } => {
                let around = self.line;
                let is_called = self.enter(*line)?;
                self.add(alloc, body)?;
                self.leave(around, is_called);
                Ok(())
            }
            _ => Ok(()),
        }
    }
}

/// The loops of several turns of a worker's text, each behind those in it.
pub(crate) fn loops_of(alloc: Global, core: &Process) -> Result<Vec<CalledLoop>, AllocError> {
    let mut found = Found {
        all: Vec::new(alloc),
        line: 0,
        depth: 0,
        calls: Vec::new(alloc),
    };
    found.add(alloc, core)?;
    Ok(found.all)
}

/// Whether loops are those of these lines.
fn are_of(loops: &[CalledLoop], lines: &[u32]) -> bool {
    loops.len() == lines.len() && loops.iter().zip(lines).all(|(one, line)| one.line == *line)
}

/// The loops of the code of a text that begin in these lines. None where code is left out in which there are such.
pub(crate) fn called_loops(
    alloc: Global,
    core: &Process,
    lines: &[u32],
) -> Result<Vec<CalledLoop>, AllocError> {
    let loops = loops_of(alloc, core)?;
    if are_of(&loops, lines) {
        Ok(loops)
    } else {
        Ok(Vec::new(alloc))
    }
}
