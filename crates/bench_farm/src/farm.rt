//! How many packets a second a farm of 1, 2 and 4 members runs: one batch of 1,024 packets, with a light worker and
//! with a heavy one.
//!
//! Runs each batch once, the heavy ones with few packets, and prints its counts; timed, several times, with the times.

mod workers;

use anyhow::{Result, anyhow};
use std::alloc::Global;
use std::rt::Runtime;
use std::sync::Wait;
use std::thread::Threads;
use std::time::Instant;
use test_samples::took::Took;
use tp_accept::{Accepted, accept};
use tp_board::Packet;
use tp_collect::{Collected, Entry};
use tp_farm::{Job, OpenGate, run_batch};
use tp_link::{Links, Medium, OwnedWire};
use workers::Worker;

const TIMED_PACKETS: u32 = 1024;

/// How often each batch is timed.
const TIMES: u32 = 11;

const MEMBERS: [u32; 3] = [1, 2, 4];

/// The bytes of a packet and of a result: one word.
const WORD_BYTES: usize = 4;

pub(crate) fn measure<R: Runtime<A = Global> + Threads + Wait + Sync>(
    rt: &R,
    is_timed: bool,
) -> Result<()> {
    let times = if is_timed { TIMES } else { 1 };
    for worker in [workers::LIGHT, workers::HEAVY] {
        let image = accepted(rt.alloc(), &worker)?;
        for _ in 0..times {
            report(rt, &worker, &image, is_timed)?;
        }
    }
    Ok(())
}

/// The results of a batch: its packets that are done, the sum of their results, and how long it took.
#[derive(Clone, Copy)]
struct Run {
    done: u64,
    sum: u64,
    took: Took,
}

/// Packets of one word each, from 0 on.
fn packets(alloc: Global, count: u32) -> Result<Vec<Packet>> {
    let mut all = Vec::new(alloc);
    for word in 0..count {
        let mut packet = Packet::new();
        let _ = packet.try_extend_from_slice(&word.to_le_bytes());
        all.push(packet)?;
    }
    Ok(all)
}

fn wire(alloc: Global) -> Result<OwnedWire> {
    let (wire, _end) = OwnedWire::new(alloc, Medium::new(alloc, WORD_BYTES)?)?;
    Ok(wire)
}

/// The devices of this many members.
fn links(alloc: Global, members: u32) -> Result<Vec<Links<OwnedWire>>> {
    let mut all = Vec::new(alloc);
    for _ in 0..members {
        all.push(Links {
            source: wire(alloc)?,
            sink: wire(alloc)?,
            trace: wire(alloc)?,
        })?;
    }
    Ok(all)
}

fn word(bytes: &[u8]) -> u64 {
    match bytes {
        [a, b, c, d] => u64::from(u32::from_le_bytes([*a, *b, *c, *d])),
        _ => 0,
    }
}

/// How many entries are done, and the sum of their results.
fn count(collected: &Collected) -> (u64, u64) {
    let mut done = 0u64;
    let mut sum = 0u64;
    for entry in collected.entries.iter() {
        if let Entry::Done(one) = entry {
            done = done.saturating_add(1);
            sum = sum.saturating_add(word(one.result.as_slice()));
        }
    }
    (done, sum)
}

/// Runs one batch of this many packets.
fn run_batch_of<R: Runtime<A = Global> + Threads + Wait + Sync>(
    rt: &R,
    image: &Accepted,
    count_of_packets: u32,
    members: u32,
    is_timed: bool,
) -> Result<Run> {
    let packets = packets(rt.alloc(), count_of_packets)?;
    let job = Job {
        batch: 0,
        image,
        packets: &packets,
    };
    run_job(rt, &job, members, is_timed)
}

/// Runs a job's batch, and times it from its call to its answer.
fn run_job<R: Runtime<A = Global> + Threads + Wait + Sync>(
    rt: &R,
    job: &Job<'_>,
    members: u32,
    is_timed: bool,
) -> Result<Run> {
    let links = links(rt.alloc(), members)?;
    let start = Instant::now(rt)?;
    let batch = run_batch(rt, rt.alloc(), job, links, &OpenGate).map_err(|fault| anyhow!(
        "{fault}"
    ))?;
    let took = Took::since(rt, start, is_timed, "all");
    let (done, sum) = count(&batch.collected);
    drop(batch);
    let took = took?;
    Ok(Run { done, sum, took })
}

fn accepted(alloc: Global, worker: &Worker) -> Result<Accepted> {
    let text = Vec::from_slice(alloc, worker.image)?;
    accept(alloc, text).map_err(|refusal| anyhow!("{refusal}"))
}

/// Prints the results of a worker's batches.
fn report<R: Runtime<A = Global> + Threads + Wait + Sync>(
    rt: &R,
    worker: &Worker,
    image: &Accepted,
    is_timed: bool,
) -> Result<()> {
    let name = worker.name;
    let count = if is_timed { TIMED_PACKETS } else { worker.few };
    for members in MEMBERS {
        let Run { done, sum, took } = run_batch_of(rt, image, count, members, is_timed)?;
        println!(rt; "{name}, members {members}: {done} packets done, sum of results {sum}{took}")?;
    }
    Ok(())
}

/// Runs one batch of the heavy worker by four members, for its peak of memory.
pub(crate) fn run_once<R: Runtime<A = Global> + Threads + Wait + Sync>(rt: &R) -> Result<()> {
    let image = accepted(rt.alloc(), &workers::HEAVY)?;
    let run = run_batch_of(rt, &image, TIMED_PACKETS, 4, false);
    drop(image);
    let Run { done, sum, .. } = run?;
    println!(rt; "{done} packets done, sum of results {sum}")?;
    Ok(())
}
