//! The program run on words and streams, as the tests of its commands do.

use crate::asserts::unwrap;
use std::alloc::Global;
use std::env::Env;
use std::fs::File;
use std::io::{Eprint, Read, Write};
use std::process::Abort;
use std::rt::Files;
use std::sync::Wait;
use std::thread::Threads;
use std::time::Clock;
use test_samples::streams::Ended;
use tpw_commands::{Output, Terminal, run};

/// Runs the program on a command line, a reader and a writer.
pub fn ran<T, E: Env, R: Read, W: Write>(
    rt: &T,
    alloc: Global,
    words: &E,
    input: &mut R,
    output: &mut W,
) -> Ended
where
    T: Files + Threads + Wait + Clock + Eprint + Sync,
{
    let mut errors = Vec::new(alloc);
    let mut terminal = Terminal {
        errors: &mut errors,
        is_terminal: false,
    };
    let mut output = Output::new(output);
    let status = run(rt, words, alloc, input, &mut output, &mut terminal);
    Ended { status, errors }
}

/// An image's digits on a line, in capitals.
pub fn capitals(rt: &impl Abort, alloc: Global, image: &[u8]) -> String {
    let mut line = unwrap(rt, hex::encode_upper(alloc, image));
    unwrap(rt, line.push_str("\n"));
    line
}

/// Writes a text to a file, which is made.
pub fn write_file(rt: &(impl Files + Abort), name: &str, text: &str) {
    let mut file = unwrap(rt, File::create(rt, name));
    unwrap(rt, file.write_all(text.as_bytes()));
}
