//! A farm of wires, and what is served on it.

use crate::asserts::unwrap;
use std::alloc::Global;
use std::io::{Read, Write};
use std::process::Abort;
use std::sync::Wait;
use std::thread::Threads;
use tp_link::{boxed, media_of};
use tp_session::{Farm, ServeFault, serve};

/// The room of each medium in bytes.
const ROOM: usize = 256;

/// Serves on this many members, of which there are 1 to 64.
pub fn serve_on<T: Abort + Threads + Wait + Sync, R: Read, W: Write>(
    rt: &T,
    alloc: Global,
    members: usize,
    trace: bool,
    reader: &mut R,
    writer: &mut W,
) -> Result<(), ServeFault> {
    let mut media = unwrap(rt, media_of(alloc, members, ROOM));
    let links = unwrap(rt, boxed(alloc, &mut media));
    if links.is_empty() || links.len() > 64 {
        return Err(ServeFault::Thread);
    }
    serve(rt, alloc, reader, writer, Farm::new(links, trace))
}

/// The output for an input.
pub fn served<T: Abort + Threads + Wait + Sync>(
    rt: &T,
    alloc: Global,
    members: usize,
    trace: bool,
    input: &[u8],
) -> Vec<u8> {
    let mut reader = input;
    let mut writer = Vec::new(alloc);
    let result = serve_on(rt, alloc, members, trace, &mut reader, &mut writer);
    unwrap(rt, result);
    writer
}

/// A line of some texts.
pub fn push_line(rt: &impl Abort, input: &mut Vec<u8>, parts: &[&str]) {
    for part in parts {
        unwrap(rt, input.extend_from_slice(part.as_bytes()));
    }
    unwrap(rt, input.push(b'\n'));
}

/// The line that gives a session an image, with its digits in capitals.
pub fn push_image(
    rt: &impl Abort,
    alloc: Global,
    input: &mut Vec<u8>,
    session: &str,
    image: &[u8],
) {
    let digits = unwrap(rt, hex::encode_upper(alloc, image));
    push_line(rt, input, &[session, " IMAGE ", digits.as_str()]);
}

/// An input that gives session `a` an image.
pub fn opened(rt: &impl Abort, alloc: Global, image: &[u8]) -> Vec<u8> {
    let mut input = Vec::new(alloc);
    push_image(rt, alloc, &mut input, "a", image);
    input
}

/// Whether this is written for an input without traces.
pub fn answers<T: Abort + Threads + Wait + Sync>(
    rt: &T,
    alloc: Global,
    members: usize,
    input: &[u8],
    wanted: &[u8],
) -> bool {
    let written = served(rt, alloc, members, false, input);
    written.as_slice() == wanted
}
