//! Batches: two packets by two members, and by one member more than a queue holds.

use arrayvec::ArrayVec;
use std::alloc::{AllocError, Global};
use std::sync::Wait;
use std::thread::Threads;
use test_samples::INCREMENT;
use test_samples::answers::{Answer, same_if};
use tp_accept::{Accepted, Refusal, accept};
use tp_board::Packet;
use tp_collect::{Collected, Entry};
use tp_farm::{FarmFault, Job, OpenGate, run_batch};
use tp_link::{boxed, media_of};

/// The room of each medium in bytes.
const ROOM: usize = 16;

/// Running both batches. A thread that cannot be started for want of memory is answered as G4, and counts as memory
/// refused.
pub fn batch<R: Threads + Wait + Sync>(rt: &R, alloc: Global) -> Answer {
    let Ok(text) = Vec::from_slice(alloc, INCREMENT) else {
        return Answer::Memory;
    };
    let image = match accept(alloc, text) {
        Ok(image) => image,
        Err(Refusal::Memory) => return Answer::Memory,
        Err(_) => return Answer::Other,
    };
    match both(rt, alloc, &image) {
        Ok(right) => same_if(right),
        Err(FarmFault::Memory | FarmFault::Thread) => Answer::Memory,
        Err(_) => Answer::Other,
    }
}

/// Whether both batches give the packets plus one.
fn both<R: Threads + Wait + Sync>(
    rt: &R,
    alloc: Global,
    image: &Accepted,
) -> Result<bool, FarmFault> {
    let two = [1u32, 0x7FFF_FFFF];
    let many = count_up(alloc, MANY)?;
    let few = increments(rt, alloc, image, two.as_slice(), 2)?;
    let streamed = increments(rt, alloc, image, many.as_slice(), 1)?;
    Ok(are_one_more(&few, two.as_slice()) && are_one_more(&streamed, many.as_slice()))
}

/// More packets than a queue holds, so that it is full where its member is refused memory.
const MANY: u32 = 70;

/// This many words in a row, from 0.
fn count_up(alloc: Global, count: u32) -> Result<Vec<u32>, AllocError> {
    let mut words = Vec::new(alloc);
    for word in 0..count {
        words.push(word)?;
    }
    Ok(words)
}

fn packet(word: u32) -> Packet {
    ArrayVec::try_from(word.to_le_bytes().as_slice()).unwrap_or(ArrayVec::new())
}

/// A packet of each of these words.
fn packets_of(alloc: Global, words: &[u32]) -> Result<Vec<Packet>, AllocError> {
    let mut packets = Vec::with_capacity(alloc, words.len())?;
    for word in words {
        packets.push(packet(*word))?;
    }
    Ok(packets)
}

/// The batch of packets of these words, by this many members.
fn increments<R: Threads + Wait + Sync>(
    rt: &R,
    alloc: Global,
    image: &Accepted,
    words: &[u32],
    members: usize,
) -> Result<Collected, FarmFault> {
    let mut media = media_of(alloc, members, ROOM)?;
    let links = boxed(alloc, &mut media)?;
    let packets = packets_of(alloc, words)?;
    let job = Job {
        batch: 0,
        image,
        packets: &packets,
    };
    Ok(run_batch(rt, alloc, &job, links, &OpenGate)?.collected)
}

/// Whether these are the words plus one, each with the error flag where the sum is too great to be read signed.
fn are_one_more(collected: &Collected, words: &[u32]) -> bool {
    let are_equal = collected.entries.iter().zip(words).all(|(entry, word)| match entry {
        Entry::Done(done) => {
            done.result.as_slice() == word.wrapping_add(1).to_le_bytes().as_slice()
                && done.error == (*word == 0x7FFF_FFFF)
        }
        Entry::Lost(_) => false,
    });
    are_equal && collected.entries.len() == words.len()
}
