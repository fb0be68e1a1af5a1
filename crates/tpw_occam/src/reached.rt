//! The calls in a worker by which a line of a PROC is reached.

use std::alloc::{AllocError, Global};
use tpw_occam_scoped::Process;

/// The most calls that are told.
const MAX_CALLS: usize = 4;

/// The lines of calls by which a line is reached, which stands in front of the worker's steps.
#[derive(Drop)]
struct Calls {
    line: u32,
    /// The line of the worker's first step.
    first: u32,
    lines: Vec<u32>,
}

impl Calls {
    /// Adds the line of a call, once; of what is declared for the whole worker there is none.
    fn add(&mut self, call: u32) -> Result<(), AllocError> {
        if call > self.first && !self.lines.contains(&call) {
            self.lines.push(call)?;
        }
        Ok(())
    }

    /// Looks for the line in a process that stands in a line of the worker.
    fn look(&mut self, p: &Process, call: u32) -> Result<(), AllocError> {
        match p {
            Process::Sequence(first, second)
            | Process::If {
                guarded: first,
                rest: second,
                ..
            } => {
                self.look(first, call)?;
                self.look(second, call)
            }
            Process::Repeat { body, .. } => self.look(body, call),
            Process::Variable { body, .. } => self.look(body, call),
            Process::Value { body, .. } => self.look(body, call),
            Process::Array { body, .. } => self.look(body, call),
            Process::At { line, body } => {
                if *line == self.line {
                    self.add(call)?;
                }
                self.look(body, call.max(*line))
            }
            _ => Ok(()),
        }
    }
}

/// The calls by which a line of a core is reached, where it stands in front of the worker's first step.
pub(crate) fn calls_of(
    alloc: Global,
    core: &Process,
    first: u32,
    line: u32,
) -> Result<String, AllocError> {
    let mut said = String::new(alloc);
    if line >= first {
        return Ok(said);
    }
    let mut calls = Calls {
        line,
        first,
        lines: Vec::new(alloc),
    };
    calls.look(core, first)?;
    for (index, call) in calls.lines.iter().take(MAX_CALLS).enumerate() {
        let before = if index == 0 {
            ", called on line "
        } else {
            ", "
        };
        let more = format!(in alloc; "{before}{call}")?;
        said.push_str(&more)?;
    }
    Ok(said)
}
