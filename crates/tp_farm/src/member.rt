//! A member's work: taking packets, handling them, and filing what became of them.

ghost use Rattle.std.specs.Prelude.{◌≡◌, ◌<◌, true, IfSome, Some, None, slice_get, vec_len, vec_capacity};
ghost use Rattle.tp_farm.specs.Jobs.{value_of_job, AreWhole};
ghost use Rattle.tp_farm.specs.Members.{HasAccounts, EndsBy, IsRefused};
ghost use Rattle.tp_farm.specs.Turns.{no_progress, MayTake, HasTaken, HasPutDown};

use crate::gate::Gate;
use crate::handling::{Received, handle};
use crate::job::Job;
use std::alloc::Global;
use std::snapshot::Snapshot;
use std::sync::Wait;
use tp_collect::Done;
use tp_link::{LinkDevice, LinkFault, Links};
use tp_machine::Machine;
use tp_stream::{Packet, Work, WorkSource};

/// The end of one packet.
#[derive(Drop)]
pub(crate) enum Filed {
    Done(Done),
    /// A device refused a call for the packet of this number.
    Lost(u32, LinkFault),
}

/// Why a member takes no more packets.
#[derive(Clone, Copy, Debug, PartialEq, Eq)]
pub(crate) enum End {
    /// There are no more.
    Drained,
    /// The batch was stopped, by the gate or by another member.
    Stopped,
    /// Memory was refused.
    Memory,
}

/// A member, with its hand at the source of its packets, its machine and its devices.
#[derive(Drop)]
pub(crate) struct Member<H, D> {
    pub(crate) number: u32,
    pub(crate) hand: H,
    pub(crate) machine: Machine,
    pub(crate) links: Links<D>,
    pub(crate) received: Received,
    /// The ends of its packets so far.
    pub(crate) filed: Vec<Filed>,
    /// The devices at its start, for contracts.
    pub(crate) entry: Snapshot<Links<D>>,
}

/// Handles a packet that is in hand, files what became of it, and finishes or abandons it.
fn file_packet<W: WorkSource, D: LinkDevice, G: Gate>(
    job: &Job<'_>,
    gate: &G,
    source: &W,
    member: &mut Member<W::Hand, D>,
    number: u32,
    packet: &Packet,
)
    requires own { W.is_own source.now member.old.hand }
    requires in_hand { (W.progress member.old.hand).in_hand ≡ Some number }
    requires whole { AreWhole (value_of_job job.now) }
    requires packet { slice_get (value_of_job job.now).packets number ≡ Some packet.now.items }
    requires room { vec_len member.old.filed < vec_capacity member.old.filed }
    requires accounts { HasAccounts D.state W.progress (value_of_job job.now) member.old }
    ensures own { W.is_own source.now member.new.hand }
    ensures number { member.new.number ≡ member.old.number }
    ensures entry { member.new.entry.value ≡ member.old.entry.value }
    ensures accounts { HasAccounts D.state W.progress (value_of_job job.now) member.new }
    ensures put_down { HasPutDown (W.progress member.old.hand) (W.progress member.new.hand) }
{
    gate.claimed(member.number, number);
    let answer = handle(
        &mut member.machine,
        job,
        number,
        packet,
        &mut member.links,
        &mut member.received,
    );
    match answer {
        Ok(done) => {
            member.filed.push_reserved(Filed::Done(done));
            let _ = source.finish(&mut member.hand);
            gate.finished(member.number, number);
        }
        Err(fault) => {
            member.filed.push_reserved(Filed::Lost(number, fault));
            let _ = source.abandon(&mut member.hand);
            gate.finished(member.number, number);
        }
    }
}

/// Takes the next packet and files what became of it, or ends.
fn take_packet<W: WorkSource, D: LinkDevice, G: Gate>(
    rt: &impl Wait,
    job: &Job<'_>,
    gate: &G,
    source: &W,
    member: &mut Member<W::Hand, D>,
) -> Option<End>
    requires own { W.is_own source.now member.old.hand }
    requires may { MayTake (W.progress member.old.hand) }
    requires packets { W.packets source.now ≡ (value_of_job job.now).packets }
    requires whole { AreWhole (value_of_job job.now) }
    requires accounts { HasAccounts D.state W.progress (value_of_job job.now) member.old }
    ensures own { W.is_own source.now member.new.hand }
    ensures number { member.new.number ≡ member.old.number }
    ensures entry { member.new.entry.value ≡ member.old.entry.value }
    ensures accounts { HasAccounts D.state W.progress (value_of_job job.now) member.new }
    ensures going { result ≡ None → HasTaken (W.progress member.old.hand) (W.progress member.new.hand) }
    ensures allowed { result ≡ None → G.has_answered gate.now member.old.number true }
    ensures refused { IfSome result
        (IsRefused (G.has_answered gate.now member.old.number) (W.progress member.new.hand)) }
    ensures end { IfSome result (EndsBy (value_of_job job.now) (G.open_for_good gate.now)
        (W.progress member.new.hand)) }
{
    if member.filed.reserve(1).is_err() {
        source.stop(&mut member.hand);
        return Some(End::Memory);
    }
    if !gate.ask(member.number) {
        source.stop(&mut member.hand);
        return Some(End::Stopped);
    }
    let given = source.next(rt, &mut member.hand);
    match &given {
        Work::Packet { number, bytes } => {
            file_packet(job, gate, source, member, *number, bytes);
            None
        }
        Work::NoMore => Some(End::Drained),
        Work::Stopped => Some(End::Stopped),
    }
}

/// A member's whole work: it makes room for its share, and takes packets until there are no more, or the batch is
/// stopped, or a fault comes. One turn more than there are packets is enough.
pub(crate) fn work<W: WorkSource, D: LinkDevice, G: Gate>(
    rt: &impl Wait,
    job: &Job<'_>,
    gate: &G,
    source: &W,
    share: usize,
    member: &mut Member<W::Hand, D>,
) -> End
    requires own { W.is_own source.now member.old.hand }
    requires fresh { W.progress member.old.hand ≡ no_progress }
    requires packets { W.packets source.now ≡ (value_of_job job.now).packets }
    requires whole { AreWhole (value_of_job job.now) }
    requires accounts { HasAccounts D.state W.progress (value_of_job job.now) member.old }
    ensures own { W.is_own source.now member.new.hand }
    ensures entry { member.new.entry.value ≡ member.old.entry.value }
    ensures accounts { HasAccounts D.state W.progress (value_of_job job.now) member.new }
    ensures refused { IsRefused (G.has_answered gate.now member.old.number) (W.progress member.new.hand) result }
    ensures end { EndsBy (value_of_job job.now) (G.open_for_good gate.now) (W.progress member.new.hand) result }
{
    if member.filed.reserve_exact(share).is_err() {
        source.stop(&mut member.hand);
        return End::Memory;
    }
    for _ in 0..job.packets.len() + 1 {
        if let Some(end) = take_packet(rt, job, gate, source, member) {
            return end;
        }
    }
    End::Drained
}
