//! Batches.

ghost use Rattle.std.specs.Prelude.{◌≡◌, ◌==◌, ◌<◌, not, All, None, Err, position, IfSome, IfOk, IfErr, OnOk};
ghost use Rattle.std.specs.Prelude.{List, length, vec_len};
ghost use Rattle.tp_link.specs.declared.links.Links.{Links};
ghost use Rattle.tp_board.specs.Ledgers.{Balances};
ghost use Rattle.tp_stream.specs.Streams.{IsHandOf, IsFeederOf, all_seen};
ghost use Rattle.tp_farm.specs.Feeding.{HasOnlyFed};
ghost use Rattle.tp_farm.specs.Jobs.{value_of_job, AreWhole};
ghost use Rattle.tp_farm.specs.Working.{HaveToSettle};
ghost use Rattle.tp_farm.specs.BatchWork.{BatchWork, batch_work};
ghost use Rattle.tp_farm.specs.Refused.{job_fault, Begins, IsEnvironmental};
ghost use Rattle.tp_farm.specs.Gathering.{empty_collection};
ghost use Rattle.tp_farm.specs.Batches.{IsBatchOver};
ghost use Rattle.tp_farm.specs.Promised.{GoesWell};
ghost use Rattle.tp_farm.specs.Reserved.{HasRoom};

use crate::fault::FarmFault;
use crate::gate::Gate;
use crate::gathering::{MemberResults, gather_all, take_hands};
use crate::job::Job;
use crate::members::run_members;
use crate::thread::{Returned, Shared};
use std::alloc::{AllocError, Global};
use std::sync::Wait;
use std::thread::Threads;
use tp_collect::{Collected, Collector};
use tp_link::{LinkDevice, Links};
use tp_stream::{Feeder, Ledger, MAX_MEMBERS, MAX_PACKETS, Packet, StreamHand, StreamQueue};

/// The results of a batch's packets, and the links in the order in which they were given.
#[derive(Drop)]
pub struct Batch<D> {
    pub collected: Collected,
    pub links: Vec<Links<D>>,
}

/// Whether there are this many bytes. That each is below 256 is in the type of the slice.
fn are_bytes(packet: &[u8], count: usize) -> bool
    ensures value { result ≡ (length packet.now == count) }
    ensures bytes { All (λ byte. byte < 256) packet.now }
{
    packet.len() == count
}

/// The number of the first packet that has another length.
fn first_other(packets: &[Packet], bytes: usize) -> Option<usize>
    ensures value { result ≡ position (λ p. not (length p.items == bytes)) packets.now }
    ensures within { IfSome result (λ i. i < length packets.now) }
    ensures bytes { result ≡ None → All (λ p. All (λ byte. byte < 256) p.items) packets.now }
{
    packets
        .iter()
        .position(|packet| !are_bytes(packet.as_slice(), bytes))
}

/// Why a batch does not begin: the first that holds of G1, G2 and G3.
fn job_fault(job: &Job<'_>, members: usize) -> Option<FarmFault>
    ensures fault { result ≡ job_fault members (value_of_job job.now) }
    ensures whole { result ≡ None → AreWhole (value_of_job job.now) }
{
    if members == 0 || members > MAX_MEMBERS as usize {
        return Some(FarmFault::Members);
    }
    if job.packets.len() > MAX_PACKETS as usize {
        return Some(FarmFault::Packets);
    }
    match first_other(job.packets, job.image.packet_bytes()) {
        Some(number) => Some(FarmFault::Length(number as u32)),
        None => None,
    }
}

/// A collector of the packets of a job that begins.
fn begin<'j>(alloc: Global, job: &'j Job<'j>, members: usize) -> Result<Collector<'j>, FarmFault>
    ensures collector { IfOk result (λ c. c ≡ empty_collection (value_of_job job.now)) }
    ensures begins { OnOk result (job_fault members (value_of_job job.now) ≡ None) }
    ensures begun { OnOk result (Begins members (value_of_job job.now)) }
    ensures refused { IfSome (job_fault members (value_of_job job.now)) (λ fault. result ≡ Err fault) }
    ensures err { job_fault members (value_of_job job.now) ≡ None → IfErr result IsEnvironmental }
{
    if let Some(fault) = job_fault(job, members) {
        return Err(fault);
    }
    match Collector::new(alloc, job.batch, job.image.image(), job.packets) {
        Ok(collector) => Ok(collector),
        Err(_) => Err(FarmFault::Memory),
    }
}

/// Reserved for what the members give back.
#[derive(Drop)]
struct Reserved<D> {
    hands: Vec<StreamHand>,
    kept: Vec<MemberResults<D>>,
    links: Vec<Links<D>>,
}

impl<D: Drop> Reserved<D> {
    /// Reserved for this many members.
    fn for_members(alloc: Global, members: usize) -> Result<Reserved<D>, AllocError>
        ensures { IfOk result (HasRoom members) }
    {
        Ok(Reserved {
            hands: Vec::with_capacity(alloc, members)?,
            kept: Vec::with_capacity(alloc, members)?,
            links: Vec::with_capacity(alloc, members)?,
        })
    }
}

/// Closes a stream whose hands are all here.
fn close_stream<R: Wait>(
    rt: &R,
    stream: StreamQueue<'_>,
    feeder: Feeder,
    hands: Vec<StreamHand>,
) -> Ledger
    requires feeder { IsFeederOf stream feeder }
    requires own { All (IsHandOf stream) hands.items }
    requires all { length hands.items ≡ stream.members }
    ensures { Balances (length stream.entry.packets) (all_seen hands.items feeder) result }
{
    match stream.close(rt, feeder, hands) {
        Ok(closed) => closed.ledger,
        Err(_) => unreachable!(),
    }
}

/// Makes one batch of what the members give back: the stream is closed, which accounts for each number once, and all
/// that was filed is gathered. The first fault of a member is the answer.
fn settle<R: Wait, D: LinkDevice>(
    rt: &R,
    stream: StreamQueue<'_>,
    feeder: Feeder,
    mut collector: Collector<'_>,
    returned: Vec<Returned<D>>,
    mut room: Reserved<D>,
) -> Result<Batch<D>, FarmFault>
    requires worked { (work : BatchWork) × (before : List (Links D)) ×
        HaveToSettle D.state stream work before returned.items collector }
    requires feeder { IsFeederOf stream feeder }
    requires fed { HasOnlyFed feeder }
    requires members { vec_len returned ≡ stream.members }
    requires some { 0 < vec_len returned }
    requires room { HasRoom (vec_len returned) room }
    ensures batch { (work : BatchWork) (before : List (Links D)) →
        HaveToSettle D.state stream.entry work before returned.items collector.entry
        → IfOk result (IsBatchOver D.state work before) }
    ensures err { IfErr result IsEnvironmental }
{
    take_hands(returned, &mut room.hands, &mut room.kept)?;
    let _ledger = close_stream(rt, stream, feeder, room.hands);
    gather_all(&mut collector, room.kept, &mut room.links);
    Ok(Batch {
        collected: collector.finish(),
        links: room.links,
    })
}

/// Runs the packets of a job, by a member for each of the links: a thread with a machine of its own. The links come
/// back in the order given; where there is a fault they are dropped. It may wait.
///
/// Accepted code never goes wrong: each packet's worker ends by stopp within the budget and is never stuck, and each
/// result that is collected is what the run of its packet alone gives.
///
/// G1, G2 and G3 are tested first, in this order. Where a thread cannot be started no further one is, and the members
/// that were started go on until they end. A member to which memory was refused stops the batch first.
///
/// ```
/// // `image` adds one to its packet.
/// let packets = [Packet::try_from([41, 0, 0, 0].as_slice())?];
/// let job = Job { batch: 1, image: &image, packets: &packets };
/// let mut media = media_of(alloc, 2, 256)?;
/// let links = boxed(alloc, &mut media)?;
/// let batch = run_batch(&rt, alloc, &job, links, &OpenGate)?;
/// let Some(Entry::Done(done)) = batch.collected.entries.get(0) else { panic!() };
/// assert_eq!(done.result.as_slice(), [42, 0, 0, 0]);
/// ```
pub fn run_batch<'j, R: Threads + Wait + Sync, D: LinkDevice + Send, G: Gate>(
    rt: &R,
    alloc: Global,
    job: &'j Job<'j>,
    links: Vec<Links<D>>,
    gate: &'j G,
) -> Result<Batch<D>, FarmFault>
    ensures batch { IfOk result (IsBatchOver D.state (batch_work G.open_for_good job.now gate.now) links.items) }
    ensures keeps_promise { IfOk result (λ b. GoesWell (value_of_job job.now) job.now.image.now.budget b.collected) }
    ensures refused { IfSome (job_fault (length links.items) (value_of_job job.now)) (λ fault. result ≡ Err fault) }
    ensures err { job_fault (length links.items) (value_of_job job.now) ≡ None → IfErr result IsEnvironmental }
{
    let collector = match begin(alloc, job, links.len()) {
        Ok(collector) => collector,
        Err(fault) => return Err(fault),
    };
    run_begun(rt, alloc, job, links, gate, collector)
}

/// Runs the packets of a job that begins, from a stream.
fn run_begun<'j, R: Threads + Wait + Sync, D: LinkDevice + Send, G: Gate>(
    rt: &R,
    alloc: Global,
    job: &'j Job<'j>,
    links: Vec<Links<D>>,
    gate: &'j G,
    collector: Collector<'_>,
) -> Result<Batch<D>, FarmFault>
    requires begins { Begins (vec_len links) (value_of_job job.now) }
    requires collector { collector ≡ empty_collection (value_of_job job.now) }
    ensures batch { IfOk result (IsBatchOver D.state (batch_work G.open_for_good job.now gate.now) links.items) }
    ensures err { IfErr result IsEnvironmental }
{
    let members = links.len();
    let room = Reserved::for_members(alloc, members)?;
    let made = StreamQueue::new(alloc, job.packets, members as u32);
    let Ok((stream, feeder, hands)) = made else {
        return Err(FarmFault::Memory);
    };
    let shared = Shared {
        job: &*job,
        gate: &*gate,
        stream: &stream,
        share: job.packets.len().div_ceil(members),
    };
    let (returned, feeder) = run_members(rt, alloc, &shared, feeder, hands, links)?;
    settle(rt, stream, feeder, collector, returned, room)
}
