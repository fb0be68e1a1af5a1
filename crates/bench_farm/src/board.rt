//! How many packets a second 1, 2 and 4 threads claim and finish on boards of 1,024 packets, beside
//! plain atomics that make the same steps.
//!
//! Works off a few boards, and prints what was finished; timed, many boards, several times, with the times.

mod plain;
mod post;
mod rounds;

use crate::board::rounds::work_off;
use anyhow::Result;
use std::alloc::Global;
use std::rt::Runtime;
use std::thread::Threads;
use std::time::Instant;
use test_samples::took::Took;

const QUICK_BOARDS: u32 = 4;

const TIMED_BOARDS: u32 = 10_000;

/// How often each is timed, in turn with the others.
const TIMES: u32 = 5;

pub(crate) fn measure<R: Runtime<A = Global> + Threads + Sync>(
    rt: &R,
    is_timed: bool,
) -> Result<()> {
    let times = if is_timed { TIMES } else { 1 };
    for _ in 0..times {
        for threads in [1, 2, 4] {
            report(rt, threads, is_timed)?;
        }
    }
    Ok(())
}

/// Prints how many packets this many threads finish, on boards and by plain atomics.
fn report<R: Runtime<A = Global> + Threads + Sync>(
    rt: &R,
    threads: u32,
    is_timed: bool,
) -> Result<()> {
    let boards = if is_timed { TIMED_BOARDS } else { QUICK_BOARDS };
    let posts = post::posts_for(rt.alloc(), threads, boards)?;
    let start = Instant::now(rt)?;
    let board = work_off(rt, posts)?;
    let on_boards = Took::since(rt, start, is_timed, "boards")?;
    let places = plain::places_for(rt.alloc(), threads, boards)?;
    let start = Instant::now(rt)?;
    let plain = work_off(rt, places)?;
    let by_plain = Took::since(rt, start, is_timed, "plain")?;
    println!(rt;
        "threads {threads}: board {board} packets, plain atomics {plain} packets{on_boards}{by_plain}"
    )?;
    Ok(())
}
