//! Filing results by number.

ghost use Rattle.std.specs.Prelude.{◌≡◌, ◌<◌, ◌≤◌, length, map, replicate, IfOk, slice_set, vec_len};
ghost use Rattle.tp_board.specs.Limits.{most_packets};
ghost use Rattle.tp_collect.specs.declared.collected.Entry.TheVariants as entry;
ghost use Rattle.tp_collect.specs.Collected.{IsCollected, Names, job_of_parts};
ghost use Rattle.tp_collect.specs.Collecting.{collection, vacant, is_vacant, loss_by};
ghost use Rattle.tp_collect.specs.Collecting.{number_fault, put_fault, collection_with, put_answer, lose_answer};

use crate::collected::{Collected, Entry, LostCause};
use crate::done::Done;
use crate::fault::PutFault;
use crate::limits::MAX_MESSAGE;
use arrayvec::ArrayVec;
use std::alloc::{AllocError, Global};
use std::marker::Model;
use tp_image::Image;
use tp_link::LinkFault;

/// Takes the results of one batch, in any order, and files each under its packet's number. It borrows the image and the
/// packets; what it is given is its own.
#[derive(Drop)]
pub struct Collector<'j> {
    batch: u64,
    image: &'j Image,
    packets: &'j [ArrayVec<u8, MAX_MESSAGE>],
    entries: Vec<Entry>,
}

impl<'j> Model for Collector<'j> {
    ghost use Rattle.tp_collect.specs.Collecting.{Collection, collection};

    ghost Value = { Collection };

    ghost use Rattle.std.specs.Prelude.{map};
    ghost use Rattle.tp_collect.specs.Collected.{IsCollected, job_of_parts};

    ghost view = { λ c. collection
        (job_of_parts c.batch c.image.now (map (λ p. p.items) c.packets.now)) c.entries.items };

    ghost invariant = { λ c.
        IsCollected (job_of_parts c.batch c.image.now (map (λ p. p.items) c.packets.now)) c.entries.items };
}

impl<'j> Collector<'j> {
    /// A collector of a batch's packets, with nothing filed. It makes room for all entries, so no later call takes
    /// memory.
    pub fn new(
        alloc: Global,
        batch: u64,
        image: &'j Image,
        packets: &'j [ArrayVec<u8, MAX_MESSAGE>],
    ) -> Result<Collector<'j>, AllocError>
        requires { length packets.now ≤ most_packets }
        ensures { IfOk result (λ c. c ≡ collection (job_of_parts batch image.now (map (λ p. p.items) packets.now))
            (replicate (length packets.now) vacant)) }
    {
        let entries = all_vacant(alloc, packets.len())?;
        Ok(Collector {
            batch,
            image,
            packets,
            entries,
        })
    }

    /// Files a result under its packet's number. A refused one is handed back, and nothing changes. It takes no memory.
    pub fn put(&mut self, done: Done) -> Result<(), (PutFault, Done)>
        requires { done.batch ≡ self.old.batch.number → done.packet < length self.old.batch.packets →
            Names self.old.batch done }
        ensures answer { result ≡ put_answer done (put_fault self.old done) }
        ensures entry { self.new ≡ collection_with done.packet (entry.Done done) (put_fault self.old done) self.old }
    {
        if done.batch != self.batch {
            return Err((PutFault::OtherBatch, done));
        }
        let number = done.packet;
        if let Some(fault) = refusal(&self.entries, number) {
            return Err((fault, done));
        }
        file(&mut self.entries, number, Entry::Done(done));
        Ok(())
    }

    /// Files under a packet's number that a device refused a call for it. If it is refused, nothing changes. It takes
    /// no memory.
    pub fn lose(&mut self, number: u32, fault: LinkFault) -> Result<(), PutFault>
        ensures answer { result ≡ lose_answer (number_fault self.old.entries number) }
        ensures entry { self.new ≡
            collection_with number (loss_by fault) (number_fault self.old.entries number) self.old }
    {
        if let Some(fault) = refusal(&self.entries, number) {
            return Err(fault);
        }
        file(
            &mut self.entries,
            number,
            Entry::Lost(LostCause::Link(fault)),
        );
        Ok(())
    }

    /// One entry for each packet, in order: what was filed under its number, else that it was lost by a stop. It takes
    /// no memory.
    pub fn finish(self) -> Collected
        ensures entries { result ≡ self.entry.entries }
        ensures collected { IsCollected self.entry.batch result }
    {
        Collected {
            entries: self.entries,
        }
    }
}

/// Why nothing may be filed under a number.
fn refusal(entries: &[Entry], number: u32) -> Option<PutFault>
    ensures { result ≡ number_fault entries.now number }
{
    let Some(entry) = entries.get(number as usize) else {
        return Some(PutFault::NoPacket);
    };
    if is_vacant(entry) {
        None
    } else {
        Some(PutFault::Filed)
    }
}

/// Whether nothing is filed in an entry.
fn is_vacant(entry: &Entry) -> bool
    ensures { result ≡ is_vacant entry.now }
{
    matches!(entry, Entry::Lost(LostCause::Stopped))
}

/// An entry takes the place of that of a number.
fn file(entries: &mut Vec<Entry>, number: u32, entry: Entry)
    requires { number < vec_len entries.old }
    ensures { entries.new.items ≡ slice_set entries.old.items number entry }
{
    entries[number as usize] = entry;
}

/// As many entries with nothing filed.
fn all_vacant(alloc: Global, count: usize) -> Result<Vec<Entry>, AllocError>
    ensures { IfOk result (λ entries. entries.items ≡ replicate count vacant) }
{
    let mut entries = Vec::with_capacity(alloc, count)?;
    for _ in 0..count {
        entries.push_reserved(Entry::Lost(LostCause::Stopped));
    }
    Ok(entries)
}
