//! How many threads run a batch, as the system counts them.

use super::{image_line, ran};
use crate::asserts::unwrap;
use std::alloc::Global;
use std::process::{Abort, ExitCode};
use std::rt::Files;
use std::sync::Wait;
use std::sync::atomic::{AtomicBool, Ordering};
use std::thread::{Threads, join};
use std::{fs, io};
use test_samples::TEN_TIMES_TEN_THOUSAND;

/// How many threads this process has.
fn threads_now<R: Files + AllocGlobal>(rt: &R) -> io::Result<usize> {
    let status = fs::read_to_string(rt, "/proc/self/status")?;
    for line in status.lines() {
        if let Some(count) = line.strip_prefix("Threads:\t") {
            return Ok(count.parse().unwrap_or(0));
        }
    }
    Ok(0)
}

/// How often the threads are counted at most.
const MAX_LOOKS: u32 = 10_000_000;

/// The most threads that this process is seen to have at a time, until it is done.
fn most_threads<R: Files + AllocGlobal>(rt: &R, done: &AtomicBool) -> usize {
    let mut most = 0;
    for _ in 0..MAX_LOOKS {
        if done.load(Ordering::SeqCst) {
            return most;
        }
        most = threads_now(rt).unwrap_or(0).max(most);
    }
    most
}

/// Waits until this process has no more threads than these: a joined thread is counted until the system has ended it.
fn settle<R: Files + AllocGlobal>(rt: &R, threads: usize) {
    for _ in 0..MAX_LOOKS {
        if threads_now(rt).unwrap_or(0) <= threads {
            return;
        }
    }
}

/// A worker of 400,130 steps, twelve packets for it, and their run: some milliseconds for each of three members.
fn long_batch(rt: &impl Abort, alloc: Global) -> Vec<u8> {
    let mut input = image_line(rt, alloc, TEN_TIMES_TEN_THOUSAND);
    for _ in 0..12u8 {
        unwrap(rt, input.extend_from_slice(b"a PACKET 05000000\n"));
    }
    unwrap(rt, input.extend_from_slice(b"a RUN\n"));
    input
}

/// Serves the batch by this many members, and the most threads that are seen meanwhile.
fn most_threads_for<R: Threads + Wait + Files + AllocGlobal + Sync>(
    rt: &R,
    members: &str,
    input: &[u8],
) -> (ExitCode, usize) {
    let done = AtomicBool::new(false);
    let serving = || {
        let mut input = input;
        let mut output = Vec::new(rt.alloc());
        let ended = ran(
            rt,
            rt.alloc(),
            &["farmd", "--members", members],
            &mut input,
            &mut output,
        );
        done.store(true, Ordering::SeqCst);
        ended.status
    };
    join(rt, serving, || most_threads(rt, &done))
}

/// How often a batch is served at most, until all of its threads are seen.
const MAX_BATCHES: u32 = 20;

/// The most threads that are seen in some batches; one more is served only where fewer than these were seen.
fn most_threads_of<R: Threads + Wait + Files + AllocGlobal + Sync>(
    rt: &R,
    members: &str,
    input: &[u8],
    before: usize,
    wanted: usize,
) -> usize {
    let mut seen = 0;
    for _ in 0..MAX_BATCHES {
        settle(rt, before);
        let (status, most) = most_threads_for(rt, members, input);
        if status != ExitCode::SUCCESS {
            return 0;
        }
        seen = most.max(seen);
        if seen >= wanted {
            return seen;
        }
    }
    seen
}

/// While a batch is served there are a thread that serves, and one for each member, beside those that were there.
#[test]
fn members_are_threads(rt: HostRuntime) {
    let input = long_batch(&rt, rt.alloc());
    let before = unwrap(&rt, threads_now(&rt));
    for (members, count) in [("1", 1), ("3", 3)] {
        let wanted = before.saturating_add(1).saturating_add(count);
        assert_eq!(rt;
            most_threads_of(&rt, members, &input, before, wanted),
            wanted,
            "{members}"
        );
    }
}
