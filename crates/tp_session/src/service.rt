//! The service: what is kept between two lines, and the answer to each.

ghost use Rattle.std.specs.Prelude.{◌≡◌, ◌≤◌, ◌<◌, ◌+◌, ◌%◌, ◌^◌, [], Some, map, length, slice_get, slice_set, IfOk};
ghost use Rattle.std.specs.Prelude.{IfErr, OnOk};
ghost use Rattle.tp_requests.specs.Requests.{asked};
ghost use Rattle.tp_answers.specs.Sessions.{Session, session_named, with_changed, without_packets};
ghost use Rattle.tp_answers.specs.Rules.{IsOutcome};
ghost use Rattle.tp_answers.specs.Answers.{AreOutcomes, IsAnswerToRun, IsAnswerToRunAll};
ghost use Rattle.tp_session.specs.Protocol.{most_line};
ghost use Rattle.tp_session.specs.Fitness.{AreFit, HasMembers};
ghost use Rattle.tp_session.specs.Services.{StaysOn, IsResourceFault, IsListable, AnswersRequest, AnswersText};

use crate::fault::ServeFault;
use crate::running::run_session;
use std::alloc::Global;
use std::sync::Wait;
use std::thread::Threads;
use tp_answers::{
    AllOutcomes, Answer, LineFault, Outcomes, Sessions, drop_session, keep, list, open,
};
use tp_link::{LinkDevice, Links};
use tp_requests::{Name, Request, read_request};

/// The state of a service between two lines.
#[derive(Drop)]
pub(crate) struct Service<D> {
    pub(crate) sessions: Sessions,
    pub(crate) links: Vec<Links<D>>,
    pub(crate) trace: bool,
    /// The number of the next batch: 0 at first, and one more after each, modulo 2^64.
    batches: u64,
}

impl<D> Service<D> {
    /// No session is open.
    pub(crate) fn new(alloc: Global, links: Vec<Links<D>>, trace: bool) -> Service<D>
        ensures sessions { result.sessions ≡ [] }
        ensures links { result.links ≡ links }
        ensures trace { result.trace ≡ trace }
        ensures batches { result.batches ≡ 0 }
    {
        Service {
            sessions: Sessions::new(alloc),
            links,
            trace,
            batches: 0,
        }
    }
}

impl<D: LinkDevice + Send> Service<D> {
    /// Runs the packets of the session at a place, which are forgotten.
    fn run_at<R: Threads + Wait + Sync>(
        &mut self,
        rt: &R,
        alloc: Global,
        index: usize,
    ) -> Result<Outcomes, ServeFault>
        requires there { index < length self.old.sessions }
        requires members { HasMembers self.old.links.items }
        ensures outcomes { AreFit D.state self.old.links.items → (s : Session) →
            slice_get self.old.sessions index ≡ Some s → IfOk result (AreOutcomes IsOutcome s) }
        ensures sessions { (s : Session) → slice_get self.old.sessions index ≡ Some s →
            OnOk result (self.new.sessions ≡ slice_set self.old.sessions index (without_packets s)) }
        ensures stays { OnOk result (StaysOn D.state self.old self.new) }
        ensures batches { OnOk result (self.new.batches ≡ (self.old.batches + 1) % 2 ^ 64) }
        ensures want { IfErr result IsResourceFault }
    {
        let batch = self.batches;
        let session = self.sessions.at_mut(index);
        let outcomes = run_session(rt, alloc, &mut self.links, batch, session)?;
        session.forget();
        self.batches = batch.wrapping_add(1);
        Ok(outcomes)
    }

    /// Runs the packets of a session.
    fn run<R: Threads + Wait + Sync>(
        &mut self,
        rt: &R,
        alloc: Global,
        name: &Name,
    ) -> Result<Answer, ServeFault>
        requires { HasMembers self.old.links.items }
        ensures answer { AreFit D.state self.old.links.items →
            IfOk result (IsAnswerToRun IsOutcome (session_named name.now.items self.old.sessions)) }
        ensures sessions { OnOk result
            (self.new.sessions ≡ with_changed without_packets name.now.items self.old.sessions) }
        ensures stays { OnOk result (StaysOn D.state self.old self.new) }
        ensures want { IfErr result IsResourceFault }
    {
        match self.sessions.find(name) {
            Some(index) => Ok(Answer::Ran(self.run_at(rt, alloc, index)?)),
            None => Ok(Answer::Refused(LineFault::P2)),
        }
    }

    /// Runs the packets of all sessions, in the order in which they were opened.
    fn run_all<R: Threads + Wait + Sync>(
        &mut self,
        rt: &R,
        alloc: Global,
    ) -> Result<Answer, ServeFault>
        requires { HasMembers self.old.links.items }
        ensures answer { AreFit D.state self.old.links.items →
            IfOk result (IsAnswerToRunAll IsOutcome self.old.sessions) }
        ensures sessions { OnOk result (self.new.sessions ≡ map without_packets self.old.sessions) }
        ensures stays { OnOk result (StaysOn D.state self.old self.new) }
        ensures want { IfErr result IsResourceFault }
    {
        let mut all = AllOutcomes::new(alloc);
        for index in 0..self.sessions.len() {
            let name = self.sessions.name_at(index).clone()?;
            let outcomes = self.run_at(rt, alloc, index)?;
            all.push(name, outcomes)?;
        }
        Ok(Answer::RanAll(all))
    }

    /// The answer to a request.
    // Inlined, as what answers a line is: else each answer is copied once more on its way to where it is written.
    #[inline(always)]
    fn answer<R: Threads + Wait + Sync>(
        &mut self,
        rt: &R,
        alloc: Global,
        request: Request<'_>,
    ) -> Result<Answer, ServeFault>
        requires members { HasMembers self.old.links.items }
        requires listed { IsListable (asked request) }
        ensures answer { AreFit D.state self.old.links.items → IfOk result (λ answer.
            AnswersRequest (Some (asked request.entry)) self.old.sessions answer self.new.sessions) }
        ensures stays { OnOk result (StaysOn D.state self.old self.new) }
        ensures want { IfErr result IsResourceFault }
    {
        match request {
            Request::List(code) => Ok(list(alloc, &code)?),
            Request::Image(name, text) => Ok(open(&mut self.sessions, alloc, name, text)?),
            Request::Packet(name, packet) => Ok(keep(&mut self.sessions, &name, &packet)?),
            Request::Run(name) => self.run(rt, alloc, &name),
            Request::RunAll => self.run_all(rt, alloc),
            Request::Drop(name) => Ok(drop_session(&mut self.sessions, &name)),
        }
    }

    /// The answer to what a line says.
    #[inline(always)]
    pub(crate) fn answer_line<R: Threads + Wait + Sync>(
        &mut self,
        rt: &R,
        alloc: Global,
        line: &[u8],
    ) -> Result<Answer, ServeFault>
        requires members { HasMembers self.old.links.items }
        requires short { length line.now ≤ most_line }
        ensures answer { AreFit D.state self.old.links.items → IfOk result (λ answer.
            AnswersText line.now self.old.sessions answer self.new.sessions) }
        ensures stays { OnOk result (StaysOn D.state self.old self.new) }
        ensures want { IfErr result IsResourceFault }
    {
        match read_request(alloc, line)? {
            Some(request) => self.answer(rt, alloc, request),
            None => Ok(Answer::Refused(LineFault::E1)),
        }
    }
}
