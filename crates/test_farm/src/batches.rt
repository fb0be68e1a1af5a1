//! Batches to run, and what they answer.

use crate::asserts::unwrap;
use std::alloc::Global;
use std::process::Abort;
use std::sync::Wait;
use std::thread::Threads;
use test_samples::INCREMENT;
use tp_accept::accept;
use tp_collect::{Collected, Done, Entry, LostCause};
use tp_farm::{Batch, FarmFault, Gate, Job, run_batch};
use tp_link::{
    DeviceFault, FaultyWire, Link, LinkDevice, LinkFault, Links, Media, boxed, media_of,
};
use tp_stream::Packet;

/// The number of the batches here.
pub(crate) const BATCH: u64 = 7;

/// The end of a packet.
#[derive(Clone, Copy, PartialEq, Eq)]
pub(crate) enum PacketEnd {
    /// Its result as one word, its error flag, and how many instruction bytes were run.
    Done {
        result: u32,
        error: bool,
        steps: u32,
    },
    Lost(Link, DeviceFault),
    Stopped,
}

fn word(bytes: &[u8]) -> u32 {
    match bytes {
        [a, b, c, d] => u32::from_le_bytes([*a, *b, *c, *d]),
        _ => 0,
    }
}

pub(crate) fn of_entry(entry: &Entry) -> PacketEnd {
    match entry {
        Entry::Done(done) => PacketEnd::Done {
            result: word(done.result.as_slice()),
            error: done.error,
            steps: done.steps,
        },
        Entry::Lost(LostCause::Link(LinkFault { link, code })) => PacketEnd::Lost(*link, *code),
        Entry::Lost(LostCause::Stopped) => PacketEnd::Stopped,
    }
}

/// The end of a packet of this word on `INCREMENT`: one more, in 16 instruction bytes, of which the sum of the greatest
/// number and one sets the error flag.
pub(crate) fn one_more(word: u32) -> PacketEnd {
    PacketEnd::Done {
        result: word.wrapping_add(1),
        error: word == 0x7FFF_FFFF,
        steps: 16,
    }
}

/// The end of a packet of this word on `TRACES_ITS_PACKET`: the same, in 19 instruction bytes.
pub(crate) fn the_same(word: u32) -> PacketEnd {
    PacketEnd::Done {
        result: word,
        error: false,
        steps: 19,
    }
}

pub(crate) fn outcomes(rt: &impl Abort, alloc: Global, collected: &Collected) -> Vec<PacketEnd> {
    let mut all = Vec::new(alloc);
    for entry in collected.entries.iter() {
        unwrap(rt, all.push(of_entry(entry)));
    }
    all
}

/// A packet of each of these words.
pub(crate) fn packets(rt: &impl Abort, alloc: Global, words: &[u32]) -> Vec<Packet> {
    let mut all = Vec::new(alloc);
    for word in words {
        let mut packet = Packet::new();
        unwrap(rt, packet.try_extend_from_slice(&word.to_le_bytes()));
        unwrap(rt, all.push(packet));
    }
    all
}

/// This many words in a row, from 0.
pub(crate) fn count_up(rt: &impl Abort, alloc: Global, count: u32) -> Vec<u32> {
    let mut words = Vec::new(alloc);
    for word in 0..count {
        unwrap(rt, words.push(word));
    }
    words
}

/// Runs an image's worker on these packets, and returns the batch or its refusal.
pub(crate) fn batch_of<R: Abort + Threads + Wait + Sync, D: LinkDevice + Send, G: Gate>(
    rt: &R,
    alloc: Global,
    image: &[u8],
    packets: &[Packet],
    links: Vec<Links<D>>,
    gate: &G,
) -> Result<Batch<D>, FarmFault> {
    let bytes = unwrap(rt, Vec::from_slice(alloc, image));
    let image = unwrap(rt, accept(alloc, bytes));
    let job = Job {
        batch: BATCH,
        image: &image,
        packets,
    };
    run_batch(rt, alloc, &job, links, gate)
}

/// Runs an image's worker on packets of one word each, and returns the batch.
pub(crate) fn batch_on<R: Abort + Threads + Wait + Sync, D: LinkDevice + Send, G: Gate>(
    rt: &R,
    alloc: Global,
    image: &[u8],
    words: &[u32],
    links: Vec<Links<D>>,
    gate: &G,
) -> Batch<D> {
    let packets = packets(rt, alloc, words);
    unwrap(rt, batch_of(rt, alloc, image, &packets, links, gate))
}

/// Runs an image's worker on packets of one word each, and returns their entries.
pub(crate) fn run_on<R: Abort + Threads + Wait + Sync, D: LinkDevice + Send, G: Gate>(
    rt: &R,
    alloc: Global,
    image: &[u8],
    words: &[u32],
    links: Vec<Links<D>>,
    gate: &G,
) -> Collected {
    batch_on(rt, alloc, image, words, links, gate).collected
}

/// The outcomes of packets of one word each that one member runs.
pub(crate) fn run_by_one<R: Abort + Threads + Wait + Sync, D: LinkDevice + Send, G: Gate>(
    rt: &R,
    alloc: Global,
    image: &[u8],
    words: &[u32],
    links: Links<D>,
    gate: &G,
) -> Vec<PacketEnd> {
    let links = alone(rt, alloc, links);
    let collected = run_on(rt, alloc, image, words, links, gate);
    outcomes(rt, alloc, &collected)
}

/// Runs `INCREMENT` on these words by this many members, and returns their entries.
pub(crate) fn increments_by<R: Abort + Threads + Wait + Sync, G: Gate>(
    rt: &R,
    alloc: Global,
    words: &[u32],
    members: usize,
    gate: &G,
) -> Collected {
    let mut media = unwrap(rt, media_of(alloc, members, ROOM));
    let links = unwrap(rt, boxed(alloc, &mut media));
    run_on(rt, alloc, INCREMENT, words, links, gate)
}

/// The room of each medium in bytes, unless stated otherwise.
pub(crate) const ROOM: usize = 256;

/// Wires that fail in their calls of these numbers, in source, sink and trace.
pub(crate) fn failing(media: &mut Media, calls: [u64; 3]) -> Links<FaultyWire<'_>> {
    Links {
        source: FaultyWire::new(&mut media.source, calls[0]),
        sink: FaultyWire::new(&mut media.sink, calls[1]),
        trace: FaultyWire::new(&mut media.trace, calls[2]),
    }
}

/// All three devices have ended.
pub(crate) fn have_ended(media: &Media) -> bool {
    media.source.ended() && media.sink.ended() && media.trace.ended()
}

/// A list of one.
pub(crate) fn alone<T: Drop>(rt: &impl Abort, alloc: Global, one: T) -> Vec<T> {
    let mut all = Vec::new(alloc);
    unwrap(rt, all.push(one));
    all
}

fn same_result(left: &Done, right: &Done) -> bool {
    left.batch == right.batch
        && left.packet == right.packet
        && left.result.as_slice() == right.result.as_slice()
        && left.error == right.error
        && left.steps == right.steps
        && left.trace.as_slice() == right.trace.as_slice()
}

fn same_entry(left: &Entry, right: &Entry) -> bool {
    match (left, right) {
        (Entry::Done(left), Entry::Done(right)) => same_result(left, right),
        (Entry::Lost(left), Entry::Lost(right)) => left == right,
        _ => false,
    }
}

/// Whether two batches have equal entries in each field.
pub(crate) fn same(left: &Collected, right: &Collected) -> bool {
    left.entries.len() == right.entries.len()
        && left
            .entries
            .iter()
            .zip(right.entries.iter())
            .all(|(left, right)| same_entry(left, right))
}
