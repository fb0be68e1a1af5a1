//! The variables and arrays that are declared, and what is done with them.

use crate::environment::Storage;
use std::alloc::{AllocError, Global};
use tpw_occam_terms::Name;

/// A variable or an array, and what is done with it.
#[derive(Clone, Copy)]
struct Cell<'a> {
    name: Name<'a>,
    is_read: bool,
    is_written: bool,
}

/// Variables and arrays, by their numbers.
#[derive(Drop)]
pub struct Cells<'a> {
    cells: Vec<Cell<'a>>,
}

impl<'a> Cells<'a> {
    pub(crate) fn new(alloc: Global) -> Cells<'a> {
        Cells {
            cells: Vec::new(alloc),
        }
    }

    /// A new variable or array.
    pub fn add(&mut self, name: Name<'a>) -> Result<usize, AllocError> {
        let at = self.cells.len();
        self.cells.push(Cell {
            name,
            is_read: false,
            is_written: false,
        })?;
        Ok(at)
    }

    /// The name of one.
    pub(crate) fn name(&self, at: usize) -> Option<Name<'a>> {
        Some(self.cells.get(at)?.name)
    }

    /// How many there are.
    pub fn count(&self) -> usize {
        self.cells.len()
    }

    pub(crate) fn read(&mut self, at: usize) {
        if let Some(cell) = self.cells.get_mut(at) {
            cell.is_read = true;
        }
    }

    pub fn write(&mut self, at: usize) {
        if let Some(cell) = self.cells.get_mut(at) {
            cell.is_written = true;
        }
    }

    /// An array is read; of a table nothing is kept.
    pub fn read_array(&mut self, storage: Storage) {
        if let Storage::Array(at) = storage {
            self.read(at);
        }
    }

    /// An array is written to.
    pub fn write_array(&mut self, storage: Storage) {
        if let Storage::Array(at) = storage {
            self.write(at);
        }
    }

    /// Whether one is written to anywhere.
    pub fn is_written(&self, at: usize) -> bool {
        self.cells.get(at).is_some_and(|cell| cell.is_written)
    }

    /// The name of one that is never read.
    pub fn unread(&self, at: usize) -> Option<Name<'a>> {
        let cell = self.cells.get(at)?;
        if cell.is_read { None } else { Some(cell.name) }
    }

    /// The name of one that is read, and never written to.
    pub fn unwritten(&self, at: usize) -> Option<Name<'a>> {
        let cell = self.cells.get(at)?;
        if cell.is_read && !cell.is_written {
            Some(cell.name)
        } else {
            None
        }
    }
}
