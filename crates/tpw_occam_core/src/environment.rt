//! The environment of a part of a worker.

ghost use Rattle.std.specs.Prelude.{◌≡◌, IfOk};
ghost use Rattle.tpw_occam_core.specs.Sound.{storage_of, bytes_of, is_table, is_seen, is_written, is_new_array};
ghost use Rattle.tpw_occam_core.specs.Sound.{is_new_name, globals};
ghost use Rattle.tpw_occam_core.specs.Environment.{environment_of};

use crate::kind::Kind;
use crate::scope::{Entry, has_array, has_name};
use crate::worker::{Storage, Worker};
use std::alloc::{AllocError, Global};
use std::marker::Model;

/// The environment of a part of a worker: the names and arrays that there are, and which of them are in scope.
#[derive(Drop)]
pub(crate) struct Environment<'a> {
    /// How many names of words there are.
    count: usize,
    storages: &'a [Storage],
    pub(crate) scope: Vec<Entry>,
}

impl<'a> Model for Environment<'a> {
    ghost use Rattle.tpw_occam_core.specs.Environment.{Environment};

    ghost Value = { Environment };

    ghost view = { λ env. record { count = env.count; storages = env.storages.now; scope = env.scope.items } };
}

/// The names that are declared for the whole worker.
fn globals(alloc: Global, worker: &Worker) -> Result<Vec<Entry>, AllocError>
    ensures { IfOk result (λ scope. scope.items ≡ globals worker.now) }
{
    let mut scope = Vec::new(alloc);
    for x in &worker.global_variables {
        scope.push(Entry::Variable(*x))?;
    }
    for a in &worker.global_arrays {
        scope.push(Entry::Array(*a))?;
    }
    Ok(scope)
}

/// The bytes of an array; 0 where there is no such array.
fn bytes_of(storages: &[Storage], a: usize) -> u64
    ensures { result ≡ bytes_of (storage_of storages.now a) }
{
    match storages.get(a) {
        Some(Storage::Zeros(count)) => u64::from(*count),
        Some(Storage::Table(bytes)) => bytes.len() as u64,
        None => 0,
    }
}

fn is_table(storages: &[Storage], a: usize) -> bool
    ensures { result ≡ is_table (storage_of storages.now a) }
{
    match storages.get(a) {
        Some(Storage::Table(_)) => true,
        _ => false,
    }
}

impl<'a> Environment<'a> {
    /// The environment of what stands outermost in a worker.
    pub(crate) fn of(alloc: Global, worker: &'a Worker) -> Result<Environment<'a>, AllocError>
        ensures { IfOk result (λ env. env ≡ environment_of worker.now) }
    {
        Ok(Environment {
            count: worker.variables.len(),
            storages: &worker.arrays,
            scope: globals(alloc, worker)?,
        })
    }

    /// The bytes of an array; 0 where there is no such array.
    pub(crate) fn bytes_of(&self, a: usize) -> u64
        ensures { result ≡ bytes_of (storage_of self.now.storages a) }
    {
        bytes_of(self.storages, a)
    }

    pub(crate) fn is_seen(&self, a: usize, kind: Kind) -> bool
        ensures { result ≡ is_seen self.now.storages self.now.scope a kind }
    {
        match kind {
            Kind::Byte => has_array(&self.scope, a),
            Kind::Word => has_array(&self.scope, a) && bytes_of(self.storages, a) % 4 == 0,
        }
    }

    pub(crate) fn is_written(&self, a: usize) -> bool
        ensures { result ≡ is_written self.now.storages self.now.scope a }
    {
        has_array(&self.scope, a) && !is_table(self.storages, a)
    }

    pub(crate) fn is_new_array(&self, a: usize) -> bool
        ensures { result ≡ is_new_array self.now.storages self.now.scope a }
    {
        a < self.storages.len() && !is_table(self.storages, a) && !has_array(&self.scope, a)
    }

    pub(crate) fn is_new_name(&self, x: usize) -> bool
        ensures { result ≡ is_new_name self.now.count self.now.scope x }
    {
        x < self.count && !has_name(&self.scope, x)
    }
}
