//! Batches on members whose links are lent.

ghost use Rattle.std.specs.Prelude.{◌≡◌, ◌≤◌, None, IfOk, IfErr, length};
ghost use Rattle.tp_board.specs.Limits.{most_members};
ghost use Rattle.tp_farm.specs.Jobs.{value_of_job};
ghost use Rattle.tp_farm.specs.BatchWork.{batch_work};
ghost use Rattle.tp_farm.specs.Refused.{job_fault, IsEnvironmental};
ghost use Rattle.tp_farm.specs.Batches.{IsBatchOver};

use crate::batch::run_batch;
use crate::fault::FarmFault;
use crate::gate::Gate;
use crate::job::Job;
use std::alloc::Global;
use std::mem;
use std::sync::Wait;
use std::thread::Threads;
use tp_collect::Collected;
use tp_link::{LinkDevice, Links};
use tp_stream::MAX_MEMBERS;

/// Of these members as many as run this number of packets: no more than there are packets, and 1 to 64.
///
/// ```
/// assert_eq!(members_for(8, 3), 3);
/// assert_eq!(members_for(8, 0), 1);
/// ```
pub fn members_for(members: usize, packets: usize) -> usize
    ensures least { 1 ≤ result }
    ensures most { result ≤ most_members }
    ensures within { 1 ≤ members → result ≤ members }
{
    packets.min(members).min(MAX_MEMBERS as usize).max(1)
}

/// Runs the packets of a job that begins as [`run_batch`] does, on links that are lent: they come back in the order
/// given. Where there is a fault they are dropped, and none is left.
pub fn run_lent<'j, R: Threads + Wait + Sync, D: LinkDevice + Send, G: Gate>(
    rt: &R,
    alloc: Global,
    job: &'j Job<'j>,
    links: &mut Vec<Links<D>>,
    gate: &'j G,
) -> Result<Collected, FarmFault>
    requires { job_fault (length links.old.items) (value_of_job job.now) ≡ None }
    ensures batch { IfOk result (λ collected. IsBatchOver D.state (batch_work G.open_for_good job.now gate.now)
        links.old.items (record { collected = collected; links = links.new })) }
    ensures err { IfErr result IsEnvironmental }
{
    let lent = mem::replace(links, Vec::new(alloc));
    match run_batch(rt, alloc, job, lent, gate) {
        Ok(batch) => {
            *links = batch.links;
            Ok(batch.collected)
        }
        Err(fault) => Err(fault),
    }
}
