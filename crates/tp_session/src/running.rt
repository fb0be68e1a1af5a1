//! Running the packets of a session.

ghost use Rattle.std.specs.Prelude.{◌≡◌, ◌≤◌, ℕ, IfOk, IfErr, OnOk, None, length, map};
ghost use Rattle.std.specs.List.{AllZip};
ghost use Rattle.tp_board.specs.Limits.{most_members};
ghost use Rattle.tp_farm.specs.Jobs.{value_of_job};
ghost use Rattle.tp_farm.specs.Refused.{job_fault, IsEnvironmental};
ghost use Rattle.tp_answers.specs.Sessions.{Session};
ghost use Rattle.tp_answers.specs.Rules.{IsOutcome};
ghost use Rattle.tp_answers.specs.Answers.{AreOutcomes};
ghost use Rattle.tp_answers.specs.Outcomes.{outcome_of};
ghost use Rattle.tp_answers.specs.OpenSessions.{session_of};
ghost use Rattle.tp_session.specs.Fitness.{AreFit, HasMembers, AreAsMany};
ghost use Rattle.tp_session.specs.Services.{IsResourceFault};

use crate::fault::ServeFault;
use std::alloc::Global;
use std::sync::Wait;
use std::thread::Threads;
use tp_answers::{OpenSession, Outcomes};
use tp_collect::Collected;
use tp_farm::{FarmFault, Job, OpenGate, members_for, run_lent};
use tp_link::{LinkDevice, Links};

/// Why a batch that has begun gives nothing, as a fault of serving.
fn fault_of(fault: FarmFault) -> ServeFault
    requires { IsEnvironmental fault }
    ensures thread { fault ≡ FarmFault.Thread → result ≡ ServeFault.Thread }
    ensures memory { fault ≡ FarmFault.Memory → result ≡ ServeFault.Memory }
    ensures want { IsResourceFault result }
{
    match fault {
        FarmFault::Thread => ServeFault::Thread,
        FarmFault::Memory => ServeFault::Memory,
        _ => unreachable!(),
    }
}

/// Runs the packets of a job on the members, from a stream. Returns as many links as there were.
fn run_packets<R: Threads + Wait + Sync, D: LinkDevice + Send>(
    rt: &R,
    alloc: Global,
    links: &mut Vec<Links<D>>,
    job: &Job<'_>,
) -> Result<Collected, ServeFault>
    requires members { HasMembers links.old.items }
    requires begins { job_fault (length links.old.items) (value_of_job job.now) ≡ None }
    ensures outcomes { AreFit D.state links.old.items → IfOk result (λ entries.
        AllZip (IsOutcome (value_of_job job.now).image) (value_of_job job.now).packets (map outcome_of entries)) }
    ensures members { OnOk result (AreAsMany links.old.items links.new.items) }
    ensures fit { AreFit D.state links.old.items → OnOk result (AreFit D.state links.new.items) }
    ensures want { IfErr result IsResourceFault }
{
    match run_lent(rt, alloc, job, links, &OpenGate) {
        Ok(collected) => Ok(collected),
        Err(fault) => Err(fault_of(fault)),
    }
}

/// Runs the packets of a job on no more members than there are packets: the others rest. Returns as many links as there
/// were.
fn run_on_enough<R: Threads + Wait + Sync, D: LinkDevice + Send>(
    rt: &R,
    alloc: Global,
    links: &mut Vec<Links<D>>,
    job: &Job<'_>,
) -> Result<Collected, ServeFault>
    requires members { HasMembers links.old.items }
    requires begins { (members : ℕ) → 1 ≤ members → members ≤ most_members →
        job_fault members (value_of_job job.now) ≡ None }
    ensures outcomes { AreFit D.state links.old.items → IfOk result (λ entries.
        AllZip (IsOutcome (value_of_job job.now).image) (value_of_job job.now).packets (map outcome_of entries)) }
    ensures members { OnOk result (AreAsMany links.old.items links.new.items) }
    ensures fit { AreFit D.state links.old.items → OnOk result (AreFit D.state links.new.items) }
    ensures want { IfErr result IsResourceFault }
{
    let enough = members_for(links.len(), job.packets.len());
    let mut resting = links.split_off(enough)?;
    let collected = run_packets(rt, alloc, links, job)?;
    links.append(&mut resting)?;
    Ok(collected)
}

/// Runs the packets of a session.
pub(crate) fn run_session<R: Threads + Wait + Sync, D: LinkDevice + Send>(
    rt: &R,
    alloc: Global,
    links: &mut Vec<Links<D>>,
    batch: u64,
    session: &OpenSession,
) -> Result<Outcomes, ServeFault>
    requires members { HasMembers links.old.items }
    ensures outcomes { AreFit D.state links.old.items → (s : Session) → s ≡ session_of s.name session.now →
        IfOk result (AreOutcomes IsOutcome s) }
    ensures members { OnOk result (AreAsMany links.old.items links.new.items) }
    ensures fit { AreFit D.state links.old.items → OnOk result (AreFit D.state links.new.items) }
    ensures want { IfErr result IsResourceFault }
{
    let job = Job {
        batch,
        image: &session.image,
        packets: &session.packets,
    };
    let collected = run_on_enough(rt, alloc, links, &job)?;
    Ok(Outcomes::new(alloc, &collected)?)
}
