//! How fast the machine, the board and the farm are, beside plain code that does the same work in the same run.
//!
//! `bench_farm WORD` measures what the word names, and prints what was counted and how long that took; the scripts make
//! rates of it. With no word each is done once, in small, and what was counted is printed, which is the same at every
//! run.
#![tactic(auto)]

mod board;
mod farm;
mod machine;

use anyhow::{Result, bail};
use std::alloc::Global;
use std::env;
use std::rt::Runtime;
use std::sync::Wait;
use std::thread::Threads;

fn main(rt: HostRuntime) -> Result<()> {
    let mut words = env::args(&rt)?;
    let Some(word) = words.nth(1) else {
        drop(words);
        return all_in_small(&rt);
    };
    match word.as_str() {
        "machine" => machine::measure(&rt, true),
        "turns" => machine::turns(&rt),
        "board" => board::measure(&rt, true),
        "farm" => farm::measure(&rt, true),
        "farm-once" => farm::run_once(&rt),
        _ => bail!("the words are machine, turns, board, farm, farm-once"),
    }
}

/// Each measurement once, in small.
fn all_in_small<R: Runtime<A = Global> + Threads + Wait + Sync>(rt: &R) -> Result<()> {
    machine::measure(rt, false)?;
    board::measure(rt, false)?;
    farm::measure(rt, false)
}
