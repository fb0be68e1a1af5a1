//! A run by statements of its text.

use crate::lines::Lines;
use crate::run::{Made, Run, Shown, write_message};
use crate::workspace::{Change, Written};
use std::alloc::{AllocError, Global};
use std::io::Write;
use tp_decode::Instr;
use tp_step::profile::WORD_BYTES;
use tpw_debug::{ShowFault, Statement};

/// What a statement has done so far: the words under names that it has given values, the messages that it has sent, and
/// whether it has set the error flag.
#[derive(Drop)]
pub(crate) struct Doing {
    /// Its line, where the text has one.
    line: Option<usize>,
    /// The address of its last instruction.
    at: i64,
    /// The steps made with that.
    count: u64,
    changes: Vec<Change>,
    result: String,
    trace: String,
    sets_flag: bool,
}

/// A word that was stored and has the value that it had: as one that had another, in the byte that was stored, or in all
/// of it.
fn stored_again(run: &Run, made: &Made) -> Option<Change> {
    let (word, lane) = made.stored()?;
    let after = run.word(word)?;
    let before = match (made.instr, lane) {
        (Some(Instr::Sb), lane) => Some(after ^ (255 << (8 * (lane % WORD_BYTES)))),
        _ => None,
    };
    Some(Change {
        word,
        before,
        after: Some(after),
    })
}

impl Doing {
    /// Nothing.
    pub(crate) fn new(alloc: Global) -> Doing {
        Doing {
            line: None,
            at: 0,
            count: 0,
            changes: Vec::new(alloc),
            result: String::new(alloc),
            trace: String::new(alloc),
            sets_flag: false,
        }
    }

    /// Whether an instruction of a line, which has written these words, belongs to another statement, or to another turn
    /// or call of this one.
    fn is_left_by(&self, line: Option<usize>, made: &Made, changes: &[Change]) -> bool {
        let is_sent = |mine: &String, other: &String| !mine.is_empty() && !other.is_empty();
        self.line != line
            || made.at <= self.at
            || is_sent(&self.result, &made.result)
            || is_sent(&self.trace, &made.trace)
            || changes.iter().any(|change| self
                .changes
                .iter()
                .any(|other| other.word == change.word))
    }

    /// Whether it is to be shown.
    fn is_shown(&self, shown: Shown<'_>) -> bool {
        let written = Written {
            changes: &self.changes,
            style: shown.style(self.at),
        };
        if !shown.watched.is_empty() {
            return written.changes(shown.watched);
        }
        let sends = !self.result.is_empty() || !self.trace.is_empty();
        !self.changes.is_empty() || sends || self.sets_flag
    }

    /// Writes its line, where it is to be shown.
    pub(crate) fn write<W: Write>(
        &self,
        shown: Shown<'_>,
        lines: &Lines<'_>,
        writer: &mut W,
    ) -> Result<(), ShowFault> {
        let statement = lines.at(self.at);
        let (Some(Statement { line, text, .. }), true) = (statement, self.is_shown(shown)) else {
            return Ok(());
        };
        let count = self.count;
        let written = Written {
            changes: &self.changes,
            style: shown.style(self.at),
        };
        write!(writer, "{count} line {line}:{written}").map_err(|_| ShowFault::Write)?;
        write_message(writer, "result", self.result.as_str())?;
        write_message(writer, "trace", self.trace.as_str())?;
        if self.sets_flag {
            write!(writer, " flag 1").map_err(|_| ShowFault::Write)?;
        }
        writeln!(writer, "  ; {text}").map_err(|_| ShowFault::Write)
    }

    /// Goes on by an instruction that was made. What is done with is written, where it is to be shown.
    pub(crate) fn take<W: Write>(
        &mut self,
        alloc: Global,
        run: &Run,
        shown: Shown<'_>,
        lines: &Lines<'_>,
        writer: &mut W,
    ) -> Result<(), ShowFault> {
        let made = &run.made;
        let source = shown.style(made.at).source;
        let mut changes = Vec::new(alloc);
        let again = if made.changes.is_empty() {
            stored_again(run, made)
        } else {
            None
        };
        for change in made.changes.iter().chain(again.iter()) {
            if change.after.is_some() && source.named(change.word).is_some() {
                changes.push(*change)?;
            }
        }
        let line = lines.at(made.at).map(|statement| statement.line);
        if self.is_left_by(line, made, &changes) {
            self.write(shown, lines, writer)?;
            *self = Doing::new(alloc);
            self.line = line;
        }
        if run.is_shown() {
            self.add(alloc, run, &changes)?;
        }
        Ok(())
    }

    /// Adds what an instruction has done.
    fn add(&mut self, alloc: Global, run: &Run, changes: &[Change]) -> Result<(), AllocError> {
        let made = &run.made;
        self.at = made.at;
        self.count = run.count();
        self.changes.extend_from_slice(changes)?;
        self.sets_flag = self.sets_flag || (!made.before.error && run.has_flag());
        if !made.result.is_empty() {
            self.result = String::from_str(alloc, made.result.as_str())?;
        }
        if !made.trace.is_empty() {
            self.trace = String::from_str(alloc, made.trace.as_str())?;
        }
        Ok(())
    }
}
