//! How many instruction bytes a second the machine executes, and the tested machine beside it; and, of two loops, plain
//! functions that make the same turns over an array.
//!
//! Runs each worker once, and prints the counts; timed, many times on each in turn, with the times of all its rounds.

mod plain;
mod rounds;
mod workers;

use anyhow::{Result, anyhow};
use rounds::{Plain, Run, Runs, Tested, rounds};
use std::alloc::Global;
use std::rt::Runtime;
use std::time::Instant;
use test_samples::took::Took;
use tp_accept::{Accepted, accept};
use workers::{WORKERS, Worker};

/// How often each is timed, in turn with the others.
const TIMES: u32 = 7;

/// The rounds of the first worker that `turns` makes: the packets of four full batches.
const ROUNDS_ALONE: u32 = 4096;

pub(crate) fn measure<R: Runtime<A = Global>>(rt: &R, is_timed: bool) -> Result<()> {
    let times = if is_timed { TIMES } else { 1 };
    for worker in &WORKERS {
        let accepted = accepted(rt.alloc(), worker)?;
        for _ in 0..times {
            report_worker(rt, worker, &accepted, is_timed)?;
        }
    }
    Ok(())
}

fn accepted(alloc: Global, worker: &Worker) -> Result<Accepted> {
    let text = Vec::from_slice(alloc, worker.image)?;
    accept(alloc, text).map_err(|refusal| anyhow!("{refusal}"))
}

/// Runs the first worker alone, to compare this program's processor time with another one's, and prints the counts.
pub(crate) fn turns<R: Runtime<A = Global>>(rt: &R) -> Result<()> {
    let [worker, ..] = &WORKERS;
    let accepted = accepted(rt.alloc(), worker)?;
    turns_of(rt, worker, &accepted)
}

fn turns_of<R: Runtime<A = Global>>(rt: &R, worker: &Worker, accepted: &Accepted) -> Result<()> {
    let packet = accepted.packet_bytes();
    let machine = &mut machine_with(accepted);
    let run = rounds(rt.alloc(), machine, packet, ROUNDS_ALONE)?;
    println!(rt; "{}: {} instruction bytes", worker.name, run.counted)?;
    Ok(())
}

/// The machine, with an image.
fn machine_with(accepted: &Accepted) -> Plain<'_> {
    Plain {
        machine: tp_machine::Machine::new(),
        accepted,
    }
}

/// The tested machine, with an image.
fn tested_with(accepted: &Accepted) -> Tested<'_> {
    Tested {
        machine: tpw_machine::Machine::new(),
        image: accepted.image(),
    }
}

/// Prints the cost of a worker's rounds on both machines, and in the plain function that makes its turns.
fn report_worker<R: Runtime<A = Global>>(
    rt: &R,
    worker: &Worker,
    accepted: &Accepted,
    is_timed: bool,
) -> Result<()> {
    let machine = &mut machine_with(accepted);
    report_machine(rt, worker, "the machine", machine, accepted, is_timed)?;
    let tested = &mut tested_with(accepted);
    report_machine(rt, worker, "tested", tested, accepted, is_timed)?;
    let Some(turns) = worker.turns else {
        return Ok(());
    };
    let name = worker.name;
    let start = Instant::now(rt)?;
    let result = plain_rounds(turns, accepted, count_of(worker, is_timed));
    let took = Took::since(rt, start, is_timed, "all")?;
    println!(rt; "{name}, plain loop: {result}{took}")?;
    Ok(())
}

/// How many rounds are made of a worker.
fn count_of(worker: &Worker, is_timed: bool) -> u32 {
    if is_timed { worker.rounds } else { 1 }
}

/// Prints the cost of a worker's rounds on one machine.
fn report_machine<R: Runtime<A = Global>, M: Runs>(
    rt: &R,
    worker: &Worker,
    kind: &str,
    machine: &mut M,
    accepted: &Accepted,
    is_timed: bool,
) -> Result<()> {
    let name = worker.name;
    let count = count_of(worker, is_timed);
    let start = Instant::now(rt)?;
    let run = rounds(rt.alloc(), machine, accepted.packet_bytes(), count)?;
    let took = Took::since(rt, start, is_timed, "all")?;
    let Run {
        counted,
        result_word,
    } = run;
    println!(rt; "{name}, {kind}: {counted} instruction bytes, result {result_word}{took}")?;
    Ok(())
}

/// The same turns by a plain function: the word that it leaves. The places of its words are read from the image: no
/// compiler knows them.
fn plain_rounds((outer, inner): (u32, u32), accepted: &Accepted, count: u32) -> u32 {
    let sum = accepted.result_bytes() % 8;
    let block = (accepted.packet_bytes() + 1) % 8;
    let mut words = [0u32; plain::WORDS];
    for _ in 0..count {
        words[sum] = 0;
        plain::turns(&mut words, sum, block, outer, inner);
    }
    words[sum]
}
