//! Answers as texts.

use anyhow::Result;
use std::alloc::{AllocError, Global};
use tpw_occam_interpreter::Given;

/// The spelling of no bytes.
const NOTHING: &str = "-";

/// Bytes in hexadecimal.
fn digits(alloc: Global, bytes: &[u8]) -> Result<String, AllocError> {
    if bytes.is_empty() {
        return String::from_str(alloc, NOTHING);
    }
    hex::encode(alloc, bytes)
}

/// A packet's result, flag and traces; `lost` where its traces are too long.
pub(crate) fn answer_of(alloc: Global, given: &Option<Given>) -> Result<String> {
    let Some(given) = given else {
        return Ok(String::from_str(alloc, "lost")?);
    };
    let result = digits(alloc, &given.result)?;
    let traced = digits(alloc, &given.traced)?;
    let flag = u8::from(given.flag);
    Ok(format!(in alloc; "{result} {flag} {traced}")?)
}
