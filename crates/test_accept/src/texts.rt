//! Texts that are made of others, and what is answered to a text.

use crate::asserts::unwrap;
use std::alloc::Global;
use std::process::Abort;
use test_samples::INCREMENT;
use tp_accept::accept;

/// The bytes of a version 1 header.
const HEADER_BYTES: usize = 16;

/// A text with bytes at a place replaced by others.
pub(crate) fn changed(
    rt: &impl Abort,
    alloc: Global,
    text: &[u8],
    at: usize,
    bytes: &[u8],
) -> Vec<u8> {
    let mut copy = unwrap(rt, Vec::from_slice(alloc, text));
    for (i, byte) in bytes.iter().enumerate() {
        if let Some(place) = copy.get_mut(at.saturating_add(i)) {
            *place = *byte;
        }
    }
    copy
}

/// The increment's header, with the length of a short code, and the code.
pub(crate) fn with_code(rt: &impl Abort, alloc: Global, code: &[u8]) -> Vec<u8> {
    let header = INCREMENT.get(..HEADER_BYTES).unwrap_or(&[]);
    let length = u8::try_from(code.len()).unwrap_or(0);
    let mut text = changed(rt, alloc, header, 4, &[length]);
    unwrap(rt, text.extend_from_slice(code));
    text
}

/// A code that receives a packet, then has a number of times `ldc 0`, `cj 0`, and sends its packet, behind a header.
pub(crate) fn many_jumps(rt: &impl Abort, alloc: Global, header: &[u8], times: usize) -> Vec<u8> {
    let mut text = unwrap(rt, Vec::from_slice(alloc, header));
    unwrap(rt, text.extend_from_slice(b"\x10\x24\xF2\x54\x44\xF7"));
    for _ in 0..times {
        unwrap(rt, text.extend_from_slice(b"\x40\xA0"));
    }
    unwrap(rt, text.extend_from_slice(b"\x10\x24\xF2\x44\xFB\x21\xF5"));
    text
}

/// The header of 900 jumps: 1,813 code bytes.
pub(crate) const NINE_HUNDRED: &[u8] = b"TPW1\x15\x07\x0C\0\x08\0\x01\0\x01\0\0\0";

/// The header of 4,000 jumps: 8,013 code bytes.
pub(crate) const FOUR_THOUSAND: &[u8] = b"TPW2\x4D\x1F\x0C\0\x08\0\x01\0\x01\0\0\0\0\0";

/// The answer to a text: YES with the code bytes and the budget, or NO with the refusal as it prints.
pub(crate) fn answer(rt: &impl Abort, alloc: Global, text: &[u8]) -> String {
    let text = unwrap(rt, Vec::from_slice(alloc, text));
    match accept(alloc, text) {
        Ok(accepted) => {
            let bytes = accepted.code().len();
            let budget = accepted.budget();
            unwrap(rt, format!(in alloc; "YES {bytes} {budget}"))
        }
        Err(refusal) => unwrap(rt, format!(in alloc; "NO {refusal}")),
    }
}
