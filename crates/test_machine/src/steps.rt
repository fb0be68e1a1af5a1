//! Single steps on the machine: a state, the bytes of one instruction, and the state after them.

mod answer;
mod fields;
mod run;
mod vector;

use anyhow::Result;
use std::alloc::Global;

/// Whether an outcome is the vector's. The machine does not report its address where a device refuses a call.
pub(crate) fn agrees(came: &str, wanted: &str) -> bool {
    came == wanted || came == "W" && wanted.starts_with("W ")
}

/// The outcome of a vector.
pub(crate) fn came(alloc: Global, state: &str) -> Result<String> {
    let vector = vector::read(alloc, state)?;
    let ran = run::run(alloc, &vector)?;
    answer::text(alloc, &vector, &ran)
}
