//! The program of those who write workers, each of its commands once.

use crate::expected::{CASES, Case};
use std::alloc::Global;
use std::io::Eprint;
use std::process::ExitCode;
use std::rt::Files;
use std::sync::Wait;
use std::thread::Threads;
use std::time::Clock;
use test_samples::answers::{Answer, Tally, same_if};
use test_samples::page::Page;
use test_samples::streams::Words;
use tpw_commands::{Output, Terminal, run};

/// The answer of a command, and how many bytes it has written. Where memory or a thread is refused, it reports that
/// fault, and what it has written is the beginning of the expected text.
fn answer<T>(rt: &T, alloc: Global, case: &Case<'_>) -> (Answer, usize)
where
    T: Files + Threads + Wait + Clock + Eprint + Sync,
{
    let input = case.input.page();
    let mut input = input.written();
    let mut output = Output::new(Page::new());
    let mut errors = Page::new();
    let mut terminal = Terminal {
        errors: &mut errors,
        is_terminal: false,
    };
    let status = run(
        rt,
        &Words(case.words),
        alloc,
        &mut input,
        &mut output,
        &mut terminal,
    );
    let (written, fault) = (output.writer.written(), errors.written());
    let expected = case.expected.page();
    let expected = expected.written();
    let answer = if fault.is_empty() {
        same_if(status == ExitCode::from(case.status) && written == expected)
    } else if (fault == b"tpw: memory\n".as_slice() || fault == b"tpw: thread\n".as_slice())
        && status == ExitCode::from(1)
        && expected.starts_with(written)
    {
        Answer::Memory
    } else {
        Answer::Other
    };
    (answer, written.len())
}

/// Makes every call, and counts the answers.
pub fn all<T>(rt: &T, alloc: Global) -> Tally
where
    T: Files + Threads + Wait + Clock + Eprint + Sync,
{
    let mut tally = Tally::new();
    for case in &CASES {
        let (answer, written) = answer(rt, alloc, case);
        tally.add(answer);
        tally.written = tally.written.saturating_add(written);
    }
    tally
}
