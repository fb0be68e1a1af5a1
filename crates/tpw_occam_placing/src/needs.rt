//! Which variables and arrays a worker needs. No clause says that they are enough: what has no place is refused later.

use crate::tables::{Fault, Tables};
use std::alloc::Global;
use tpw_occam_core::{Kind, Storage};
use tpw_occam_scoped::{Assignment, Bytes, Expression, Message, Process, Target};

/// The number of a cell that no text declares: for a packet that goes to an element.
pub(crate) const SPARE: usize = usize::MAX;

impl Tables {
    /// The number of the variable of a kind that is for a cell.
    pub(crate) fn variable_for(&self, cell: usize, kind: Kind) -> Option<usize> {
        for (n, other) in self.cells.iter().enumerate() {
            if *other == cell && self.kinds.get(n) == Some(&kind) {
                return Some(n);
            }
        }
        None
    }

    /// The number of the array of this many bytes that is for an array.
    pub(crate) fn array_for(&self, array: usize, bytes: u32) -> Option<usize> {
        for (n, other) in self.arrays.iter().enumerate() {
            if let (true, Some(Storage::Zeros(count))) = (*other == array, self.storages.get(n)) {
                if *count == bytes {
                    return Some(n);
                }
            }
        }
        None
    }

    /// A variable of a kind for a cell.
    fn need_variable(&mut self, cell: usize, kind: Kind) -> Result<(), Fault> {
        if self.variable_for(cell, kind).is_some() {
            return Ok(());
        }
        self.cells.push(cell)?;
        self.kinds.push(kind)?;
        Ok(())
    }

    /// This many bytes for an array.
    fn need_array(&mut self, array: usize, bytes: u32) -> Result<(), Fault> {
        if self.array_for(array, bytes).is_some() {
            return Ok(());
        }
        self.arrays.push(array)?;
        self.storages.push(Storage::Zeros(bytes))?;
        Ok(())
    }

    /// A table.
    fn need_table(&mut self, alloc: Global, bytes: &[u8]) -> Result<(), Fault> {
        if self.table(bytes).is_some() {
            return Ok(());
        }
        let table = Vec::from_slice(alloc, bytes)?;
        self.arrays.push(SPARE)?;
        self.storages.push(Storage::Table(table))?;
        Ok(())
    }

    fn need_bytes(&mut self, alloc: Global, bytes: &Bytes) -> Result<(), Fault> {
        match bytes {
            Bytes::Array(_) => Ok(()),
            Bytes::Table(table) => self.need_table(alloc, table),
        }
    }

    fn need_expression(&mut self, alloc: Global, e: &Expression) -> Result<(), Fault> {
        match e {
            Expression::Constant(_) | Expression::Cell(_) => Ok(()),
            Expression::Element { subscript: e, .. }
            | Expression::Checked { subscript: e, .. }
            | Expression::Complement(e)
            | Expression::Not(e)
            | Expression::LowByte(e) => self.need_expression(alloc, e),
            Expression::Listed {
                table,
                subscript,
                ..
            } => {
                self.need_table(alloc, table)?;
                self.need_expression(alloc, subscript)
            }
            Expression::Binary { left, right, .. }
            | Expression::And(left, right)
            | Expression::Or(left, right) => {
                self.need_expression(alloc, left)?;
                self.need_expression(alloc, right)
            }
            // (what is another cell's word has no place of its own)
            Expression::Within { value, within, .. } if matches!(**value, Expression::Cell(_)) => {
                self.need_expression(alloc, within)
            }
            Expression::Within {
                cell,
                value,
                within,
                ..
            } => {
                self.need_variable(*cell, Kind::Word)?;
                self.need_expression(alloc, value)?;
                self.need_expression(alloc, within)
            }
        }
    }

    fn need_target(&mut self, alloc: Global, target: &Target) -> Result<(), Fault> {
        match target {
            Target::Cell { .. } => Ok(()),
            Target::Element { subscript, .. } => self.need_expression(alloc, subscript),
        }
    }

    fn need_assignments(&mut self, alloc: Global, list: &[Assignment]) -> Result<(), Fault> {
        for a in list {
            self.need_target(alloc, &a.target)?;
            self.need_expression(alloc, &a.value)?;
        }
        Ok(())
    }

    fn need_message(&mut self, alloc: Global, m: &Message) -> Result<(), Fault> {
        match m {
            Message::Value(e) => self.need_expression(alloc, e),
            Message::Whole(bytes) => self.need_bytes(alloc, bytes),
        }
    }

    fn need_packet(&mut self, alloc: Global, target: &Target) -> Result<(), Fault> {
        match target {
            Target::Cell { .. } => Ok(()),
            Target::Element { subscript, .. } => {
                self.need_variable(SPARE, Kind::Word)?;
                self.need_expression(alloc, subscript)
            }
        }
    }

    fn need_process(&mut self, alloc: Global, p: &Process) -> Result<(), Fault> {
        match p {
            Process::Skip | Process::Stop | Process::ReceiveArray(_) => Ok(()),
            Process::Assign(list) => self.need_assignments(alloc, list),
            Process::Copy { from, .. } => self.need_bytes(alloc, from),
            Process::Sequence(first, second) => {
                self.need_process(alloc, first)?;
                self.need_process(alloc, second)
            }
            Process::Repeat { cell, body, .. } => {
                self.need_variable(*cell, Kind::Word)?;
                self.need_process(alloc, body)
            }
            Process::If {
                guard,
                guarded,
                rest,
            } => {
                self.need_expression(alloc, guard)?;
                self.need_process(alloc, guarded)?;
                self.need_process(alloc, rest)
            }
            Process::Variable {
                cell,
                kind,
                body,
                ..
            } => {
                self.need_variable(*cell, *kind)?;
                self.need_process(alloc, body)
            }
            Process::Value {
                cell,
                value,
                body,
                ..
            } => {
                self.need_variable(*cell, Kind::Word)?;
                self.need_expression(alloc, value)?;
                self.need_process(alloc, body)
            }
            Process::Array {
                array,
                bytes,
                body,
                ..
            } => {
                self.need_array(*array, *bytes)?;
                self.need_process(alloc, body)
            }
            Process::ReceiveWord(target) => self.need_packet(alloc, target),
            Process::Trace(m) | Process::Send(m) => self.need_message(alloc, m),
            Process::At { body, .. } => self.need_process(alloc, body),
        }
    }
}

/// The variables and the arrays that a worker needs.
pub(crate) fn needed(alloc: Global, p: &Process) -> Result<Tables, Fault> {
    let mut tables = Tables {
        cells: Vec::new(alloc),
        kinds: Vec::new(alloc),
        arrays: Vec::new(alloc),
        storages: Vec::new(alloc),
    };
    tables.need_process(alloc, p)?;
    Ok(tables)
}
