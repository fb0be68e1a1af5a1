//! The outcomes of packets that were run.

ghost use Rattle.std.specs.Prelude.{◌≡◌, ◌++◌, [], ◌∷◌, map, IfOk, OnOk};
ghost use Rattle.tp_answers.specs.Outcomes.{result_of, outcome_of};

use std::alloc::{AllocError, Global};
use std::marker::Model;
use tp_collect::{Collected, Done, Entry};
use tp_requests::Name;

/// The outcome of a packet's run, in no more room than that takes.
#[derive(Drop)]
pub(crate) struct PacketRun {
    pub(crate) result: Vec<u8>,
    pub(crate) error: bool,
    pub(crate) steps: u32,
    pub(crate) trace: Vec<u8>,
}

impl Model for PacketRun {
    ghost use Rattle.std.specs.Prelude.{◌≤◌, length};
    ghost use Rattle.tp_collect.specs.DoneValue.{most_message_bytes, most_trace};
    ghost use Rattle.tp_answers.specs.Results.{RunResult, run_result};

    ghost Value = { RunResult };

    ghost view = { λ run. run_result run.result.items run.error run.steps run.trace.items };

    ghost invariant = { λ run. (length run.result.items ≤ most_message_bytes) × (length run.trace.items ≤ most_trace) };
}

impl PacketRun {
    /// That of a result.
    fn of(alloc: Global, done: &Done) -> Result<PacketRun, AllocError>
        ensures { IfOk result (λ run. run ≡ result_of done.now) }
    {
        Ok(PacketRun {
            result: Vec::from_slice(alloc, done.result.as_slice())?,
            error: done.error,
            steps: done.steps,
            trace: Vec::from_slice(alloc, done.trace.as_slice())?,
        })
    }

    /// That of an entry; none where the packet was lost.
    fn of_entry(alloc: Global, entry: &Entry) -> Result<Option<PacketRun>, AllocError>
        ensures { IfOk result (λ outcome. outcome ≡ outcome_of entry.now) }
    {
        match entry {
            Entry::Done(done) => Ok(Some(PacketRun::of(alloc, done)?)),
            Entry::Lost(_) => Ok(None),
        }
    }
}

/// The outcomes of a session's packets, in order of number. A contract sees of each its run, or none where it was
/// lost.
#[derive(Drop)]
pub struct Outcomes {
    runs: Vec<Option<PacketRun>>,
}

impl Model for Outcomes {
    ghost use Rattle.std.specs.Prelude.{List, Option};
    ghost use Rattle.tp_answers.specs.Results.{RunResult};

    ghost Value = { List (Option RunResult) };

    ghost view = { λ outcomes. outcomes.runs.items };
}

impl Outcomes {
    /// Those of a batch.
    pub fn new(alloc: Global, collected: &Collected) -> Result<Outcomes, AllocError>
        ensures { IfOk result (λ outcomes. outcomes ≡ map outcome_of collected.now) }
    {
        let mut runs = Vec::with_capacity(alloc, collected.entries.len())?;
        for entry in &collected.entries {
            runs.push(PacketRun::of_entry(alloc, entry)?)?;
        }
        Ok(Outcomes { runs })
    }

    /// Each packet's run, or none where it was lost.
    pub(crate) fn runs(&self) -> &[Option<PacketRun>]
        ensures { result.now ≡ self.now }
    {
        &self.runs
    }
}

/// The outcomes of the packets of all sessions, in the order in which they were opened. A contract sees of each session
/// its name and its outcomes.
#[derive(Drop)]
pub struct AllOutcomes {
    sessions: Vec<(Name, Outcomes)>,
}

impl Model for AllOutcomes {
    ghost use Rattle.std.specs.Prelude.{ℕ, List, Option, map};
    ghost use Rattle.tp_answers.specs.Results.{RunResult};

    ghost Value = { List (List ℕ × List (Option RunResult)) };

    ghost view = { λ all. map (λ session. (session.0.items, session.1)) all.sessions.items };
}

impl AllOutcomes {
    /// Those of no session yet.
    pub fn new(alloc: Global) -> AllOutcomes
        ensures { result ≡ [] }
    {
        AllOutcomes {
            sessions: Vec::new(alloc),
        }
    }

    /// Those of one session more.
    pub fn push(&mut self, name: Name, outcomes: Outcomes) -> Result<(), AllocError>
        ensures { OnOk result (self.new ≡ self.old ++ (name.items, outcomes) ∷ []) }
    {
        self.sessions.push((name, outcomes))?;
        Ok(())
    }

    /// Each session's name and outcomes.
    pub(crate) fn sessions(&self) -> &[(Name, Outcomes)]
        ensures { map (λ session. (session.0.items, session.1)) result.now ≡ self.now }
    {
        &self.sessions
    }
}
