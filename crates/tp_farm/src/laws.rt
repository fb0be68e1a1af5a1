//! Laws of a batch of accepted code: each function's contract is the law.

ghost use Rattle.std.specs.Prelude.{◌≡◌, Bool, true, List, All};
ghost use Rattle.tp_outcome.specs.Devices.{Devices};
ghost use Rattle.tp_collect.specs.declared.collected.Entry.{Entry};
ghost use Rattle.tp_farm.specs.Jobs.{value_of_job};
ghost use Rattle.tp_farm.specs.Batches.{IsBatch};
ghost use Rattle.tp_farm.specs.Promised.{GoesWell, TakeAll, LosesLongTracesAlone};

use crate::job::Job;

/// Accepted code never goes wrong: for every image that the verifier accepts (a job's image is an `Accepted`), every
/// list of packets of its length, every number of members and every order of their steps, each worker ends by stopp
/// within the stated number of instruction bytes, is never stuck in the transputer's step relation, and each collected
/// result is the declared-length result and error flag of its packet run alone, with its count of instruction bytes and
/// its trace.
///
/// The one premise is that the batch was run (`IsBatch`, which `run_batch` answers whatever the members, their
/// schedule, the devices and the gate are). That memory and threads were found and the members were joined is in that
/// answer. A packet that a device refused, or that a stop kept from being run, has no result, and `IsBatch` says of
/// each why.
pub fn accepted_code_never_goes_wrong(job: &Job<'_>)
    ensures { (open_for_good : Bool) (before after : List Devices) (entries : List Entry) →
        IsBatch (value_of_job job.now) open_for_good before after entries →
        GoesWell (value_of_job job.now) job.now.image.now.budget entries }
{}

/// Over devices that are open, cannot fail and have the room, under a gate that is open for good, each packet has the
/// result of its run alone; but where the trace of that run is longer than 256 bytes, and there alone, the packet is
/// lost by K2 of the trace.
pub fn long_traces_alone_are_lost(job: &Job<'_>)
    ensures { (before after : List Devices) (entries : List Entry) →
        All (TakeAll job.now.image.now.image) before →
        IsBatch (value_of_job job.now) true before after entries →
        LosesLongTracesAlone (value_of_job job.now) job.now.image.now.budget entries }
{}
