//! The variables and arrays of a worker.

ghost use Rattle.std.specs.Prelude.{◌≡◌, true, Some, None, IfSome, IsTrue, slice_get};
ghost use Rattle.tpw_occam_core.specs.Meaning.{first_bytes, kind_of};
ghost use Rattle.tpw_occam_core.specs.Sound.{is_table, bytes_of};
ghost use Rattle.tpw_occam_placing.specs.Placing.{is_this, cell_in, storage_at, array_in, variable_of, array_of};

use crate::scope::Scope;
use std::alloc::{AllocError, AllocFailed};
use tpw_occam_core::{Kind, Storage};

/// Why no worker is made.
#[derive(Clone, Copy, Debug, PartialEq, Eq)]
pub enum Fault {
    Memory,
    /// More is nested than is allowed.
    Deep,
    /// A number is declared twice or not at all, or has nowhere to lie.
    Misplaced,
}

impl From<AllocError> for Fault {
    fn from(_: AllocError) -> Fault {
        Fault::Memory
    }
}

impl<T: Drop> From<AllocFailed<T>> for Fault {
    fn from(_: AllocFailed<T>) -> Fault {
        Fault::Memory
    }
}

/// The variables and the arrays of a worker, and what lies in each while it is in scope.
#[derive(Drop)]
pub struct Tables {
    /// The number of the cell that lies in a variable, and what the variable keeps.
    pub cells: Vec<usize>,
    pub kinds: Vec<Kind>,
    /// The number of the array that lies in an array; of a table nothing.
    pub arrays: Vec<usize>,
    pub storages: Vec<Storage>,
}

/// Whether a storage is a table.
fn is_table(storage: &Storage) -> bool
    ensures { result ≡ is_table storage.now }
{
    matches!(storage, Storage::Table(_))
}

impl Tables {
    /// Whether a cell lies in a variable.
    fn has_cell(&self, n: usize, cell: usize) -> bool
        ensures { result ≡ is_this cell (cell_in self.now n) }
    {
        match self.cells.get(n) {
            Some(other) => *other == cell,
            None => false,
        }
    }

    /// Whether an array lies in an array of the worker.
    fn has_array(&self, n: usize, array: usize) -> bool
        ensures { result ≡ is_this array (array_in self.now n) }
    {
        match (self.storages.get(n), self.arrays.get(n)) {
            (Some(storage), Some(other)) => !is_table(storage) && *other == array,
            (None, Some(other)) => *other == array,
            (_, None) => false,
        }
    }

    /// The innermost variable in which a cell lies.
    pub(crate) fn variable(&self, scope: &Scope<'_>, cell: usize) -> Option<usize>
        ensures { result ≡ variable_of self.now scope.now cell }
    {
        match scope {
            Scope::Empty => None,
            Scope::Variable(n, before) => {
                if self.has_cell(*n, cell) {
                    Some(*n)
                } else {
                    self.variable(before, cell)
                }
            }
            Scope::Array(_, before) => self.variable(before, cell),
        }
    }

    /// The innermost array in which an array lies.
    pub(crate) fn array(&self, scope: &Scope<'_>, array: usize) -> Option<usize>
        ensures { result ≡ array_of self.now scope.now array }
    {
        match scope {
            Scope::Empty => None,
            Scope::Variable(_, before) => self.array(before, array),
            Scope::Array(n, before) => {
                if self.has_array(*n, array) {
                    Some(*n)
                } else {
                    self.array(before, array)
                }
            }
        }
    }

    /// A variable of a kind in which a cell lies that is not in scope.
    pub(crate) fn free_variable(&self, scope: &Scope<'_>, cell: usize, kind: Kind) -> Option<usize>
        ensures lies { IfSome result (λ n. is_this cell (cell_in self.now n) ≡ true) }
        ensures kind { IfSome result (λ n. slice_get self.now.kinds.items n ≡ Some kind) }
        ensures new { IfSome result (λ n. variable_of self.now scope.now cell ≡ None) }
    {
        if self.variable(scope, cell).is_some() {
            return None;
        }
        for n in 0..self.cells.len() {
            if self.has_cell(n, cell) && self.kinds.get(n) == Some(&kind) {
                return Some(n);
            }
        }
        None
    }

    /// The table that has these bytes.
    pub(crate) fn table(&self, bytes: &[u8]) -> Option<usize>
        ensures table { IfSome result (λ n. is_table (storage_at self.now n) ≡ true) }
        ensures bytes { IfSome result (λ n. first_bytes (storage_at self.now n) ≡ bytes.now) }
    {
        for (n, storage) in self.storages.iter().enumerate() {
            if let Storage::Table(other) = storage {
                if other.as_slice() == bytes {
                    return Some(n);
                }
            }
        }
        None
    }

    /// Whether a variable keeps words, or bytes.
    pub(crate) fn keeps(&self, n: usize, kind: Kind) -> bool
        ensures { IsTrue result → kind_of self.now.kinds.items n ≡ kind }
    {
        match self.kinds.get(n) {
            Some(other) => *other == kind,
            None => false,
        }
    }

    /// How many bytes an array of the worker has.
    fn bytes(&self, n: usize) -> usize
        ensures { result ≡ bytes_of (storage_at self.now n) }
    {
        match self.storages.get(n) {
            Some(Storage::Zeros(count)) => *count as usize,
            Some(Storage::Table(bytes)) => bytes.len(),
            None => 0,
        }
    }

    /// Whether two arrays of the worker have as many bytes.
    pub(crate) fn are_alike(&self, n: usize, m: usize) -> bool
        ensures { IsTrue result → bytes_of (storage_at self.now m) ≡ bytes_of (storage_at self.now n) }
    {
        self.bytes(n) == self.bytes(m)
    }

    /// An array of this many bytes in which an array lies that is not in scope.
    pub(crate) fn free_array(&self, scope: &Scope<'_>, array: usize, bytes: u32) -> Option<usize>
        ensures lies { IfSome result (λ n. is_this array (array_in self.now n) ≡ true) }
        ensures bytes { IfSome result (λ n. bytes_of (storage_at self.now n) ≡ bytes) }
        ensures new { IfSome result (λ n. array_of self.now scope.now array ≡ None) }
    {
        if self.array(scope, array).is_some() {
            return None;
        }
        for n in 0..self.arrays.len() {
            if self.has_array(n, array) && self.has_zeros(n, bytes) {
                return Some(n);
            }
        }
        None
    }

    /// Whether an array of the worker is this many zeros at first.
    fn has_zeros(&self, n: usize, bytes: u32) -> bool
        ensures { IsTrue result → bytes_of (storage_at self.now n) ≡ bytes }
    {
        match self.storages.get(n) {
            Some(Storage::Zeros(other)) => *other == bytes,
            _ => false,
        }
    }
}
