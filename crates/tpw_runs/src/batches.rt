//! Batches, one behind another.

ghost use Rattle.std.specs.Prelude.{◌≡◌, ◌≤◌, ◌<◌, ◌+◌, ◌++◌, ◌*◌, ◌^◌, ℕ, List, All, IfOk, OnOk, length, map, true};
ghost use Rattle.std.specs.Io.KnownBytes.{Appends};
ghost use Rattle.tp_farm.specs.Refused.{IsEnvironmental};
ghost use Rattle.tpw_runs.specs.Reports.{ShowsAll};
ghost use Rattle.tpw_runs.specs.Results.{AreResults, AreReady, HasRun};

use crate::fault::RunFault;
use crate::report::Report;
use std::alloc::{AllocError, Global};
use std::io::Write;
use std::sync::Wait;
use std::thread::Threads;
use tp_accept::Accepted;
use tp_collect::{Collected, Entry};
use tp_farm::{FarmFault, Gate, Job, run_lent};
use tp_link::{LinkDevice, Links};
use tp_stream::{MAX_PACKETS, Packet};

/// Why a batch that has begun gives nothing.
fn fault_of(fault: FarmFault) -> RunFault
    requires { IsEnvironmental fault }
{
    match fault {
        FarmFault::Thread => RunFault::Thread,
        FarmFault::Memory => RunFault::Memory,
        _ => unreachable!(),
    }
}

/// Runs the packets of one batch. The links are returned to `links`.
fn run_one<R: Threads + Wait + Sync, D: LinkDevice + Send, G: Gate>(
    rt: &R,
    alloc: Global,
    job: &Job<'_>,
    links: &mut Vec<Links<D>>,
    gate: &G,
) -> Result<Collected, RunFault>
    requires open { G.open_for_good gate.now ≡ true }
    requires ready { AreReady D.state job.now.image.now.image links.old.items }
    requires few { length job.now.packets.now ≤ 1024 }
    requires whole { All (λ p. length p.items ≡ 4 * job.now.image.now.image.packet) job.now.packets.now }
    ensures results { IfOk result (AreResults job.now.image.now.image job.now.image.now.budget
        (map (λ p. p.items) job.now.packets.now)) }
    ensures ready { OnOk result (AreReady D.state job.now.image.now.image links.new.items) }
{
    match run_lent(rt, alloc, job, links, gate) {
        Ok(collected) => Ok(collected),
        Err(fault) => Err(fault_of(fault)),
    }
}

/// Messages as packets of a batch.
fn batch_of(alloc: Global, messages: &[Vec<u8>]) -> Result<Vec<Packet>, AllocError>
    requires { All (λ m. length m.items ≤ 256) messages.now }
    ensures { IfOk result (λ packets. map (λ p. p.items) packets.items ≡ map (λ m. m.items) messages.now) }
{
    let mut packets = Vec::with_capacity(alloc, messages.len())?;
    for message in messages {
        let mut packet = Packet::new();
        let _ = packet.try_extend_from_slice(message);
        packets.push(packet)?;
    }
    Ok(packets)
}

/// Appends what a report shows of the packets of a batch.
fn show_batch<S: Report>(
    report: &mut S,
    out: &mut Vec<u8>,
    packets: &[Vec<u8>],
    entries: &[Entry],
) -> Result<(), AllocError>
    requires room { S.count report.old + length entries.now < 2 ^ 63 }
    requires each { length entries.now ≡ length packets.now }
    ensures count { OnOk result (S.count report.new ≡ S.count report.old + length entries.now) }
    ensures shown { OnOk result ((shown : List ℕ) × (out.new.items ≡ out.old.items ++ shown)
        × ShowsAll S.text S.becomes report.old (map (λ p. p.items) packets.now) entries.now shown report.new) }
{
    for (i, entry) in entries.iter().enumerate() {
        report.show(out, &packets[i], entry)?;
    }
    Ok(())
}

/// Writes what is shown of a batch, and flushes it.
fn write_shown<W: Write>(writer: &mut W, shown: &[u8]) -> Result<(), RunFault>
    ensures { OnOk result (Appends (W.contents writer.old) (W.contents writer.new) shown.now) }
{
    if writer.write_all(shown).is_err() {
        return Err(RunFault::Write);
    }
    match writer.flush() {
        Ok(()) => Ok(()),
        Err(_) => Err(RunFault::Write),
    }
}

/// Runs packets of the image's length on the members that the links make, in batches of at most 1,024, one behind
/// another. What the report shows of a batch is written once the batch has ended.
pub fn run_packets<R: Threads + Wait + Sync, D: LinkDevice + Send, G: Gate, S: Report, W: Write>(
    rt: &R,
    alloc: Global,
    image: &Accepted,
    packets: &[Vec<u8>],
    mut links: Vec<Links<D>>,
    gate: &G,
    report: &mut S,
    writer: &mut W,
) -> Result<(), RunFault>
    requires open { G.open_for_good gate.now ≡ true }
    requires ready { AreReady D.state image.now.image links.items }
    requires whole { All (λ p. length p.items ≡ 4 * image.now.image.packet) packets.now }
    requires new { S.count report.old ≡ 0 }
    ensures { OnOk result (HasRun S.text S.becomes image.now (map (λ p. p.items) packets.now)
        (W.contents writer.old) (W.contents writer.new) report.old report.new) }
{
    let mut shown = Vec::new(alloc);
    let mut number = 0usize;
    while number < packets.len() {
        let count = (packets.len() - number).min(MAX_PACKETS as usize);
        let messages = &packets[number..number + count];
        let batch = batch_of(alloc, messages)?;
        let job = Job {
            batch: number as u64,
            image,
            packets: &batch,
        };
        let collected = run_one(rt, alloc, &job, &mut links, gate)?;
        shown.clear();
        show_batch(report, &mut shown, messages, &collected.entries)?;
        write_shown(writer, &shown)?;
        number += count;
    }
    Ok(())
}
