//! The farm core as plain code, for one thread.
ghost use Rattle.std.specs.Prelude.{◌≡◌, ◌<◌, ℕ, length, take, IfOk, OnOk, OnErr};
ghost use Rattle.tp_board.specs.declared.event.Event.TheVariants.{Claim, Finish, Abandon};
ghost use Rattle.tp_board.specs.CoreState.{CoreState, core_state, opening_core, step, value_shown, TakesMemory};
ghost use Rattle.tp_board.specs.Runs.{core_after, replies, AllMembers, Accounts, IsKept, DrawsInOrder};

use crate::event::{Event, Reply, Shown};
use std::alloc::{AllocError, Global};
use std::marker::Model;

/// The core of one thread: which numbers are drawn, and where each of them is.
///
/// To a contract it is a state of the farm core, in which each number drawn so far is once, in
/// a hand, among those done or among those lost.
#[derive(Drop)]
pub struct Core {
    packets: u32,
    drawn: u32,
    hands: Vec<Option<u32>>,
    done: Vec<u32>,
    lost: Vec<u32>,
    stop: bool,
}

impl Model for Core {
    ghost Value = { CoreState };

    ghost view = { λ s. core_state s.packets s.drawn s.hands.items s.done.items s.lost.items s.stop };

    ghost invariant = { λ s. Accounts (core_state s.packets s.drawn s.hands.items s.done.items s.lost.items s.stop) };
}

impl Core {
    /// The opening core of `packets` packets and `members` members, both numbered from 0.
    pub fn new(alloc: Global, packets: u32, members: u32) -> Result<Core, AllocError>
        ensures { IfOk result (λ s. s ≡ opening_core packets members) }
    {
        let hands = Vec::from_elem(alloc, None, members as usize)?;
        Ok(Core {
            packets,
            drawn: 0,
            hands,
            done: Vec::new(alloc),
            lost: Vec::new(alloc),
            stop: false,
        })
    }

    /// One event of one member. Only Finish and Abandon of a number in hand take memory; after an
    /// `Err` nothing has changed.
    pub fn step(&mut self, alloc: Global, member: u32, event: Event) -> Result<Reply, AllocError>
        requires { member < length self.old.hands }
        ensures ok { IfOk result (λ r. (r, self.new) ≡ step self.old member event) }
        ensures err { OnErr result (self.new ≡ self.old) }
        ensures memory { OnErr result (TakesMemory self.old member event) }
    {
        match event {
            Event::Claim => Ok(self.claim(member)),
            Event::Finish => self.finish(member),
            Event::Abandon => self.abandon(member),
            Event::Stop => {
                self.stop = true;
                Ok(Reply::Made)
            }
            Event::Look(what) => Ok(Reply::Value(self.look(what))),
        }
    }

    /// The events in order, each with its member, and their replies. After an `Err` the events of
    /// a beginning of the list have been made.
    pub fn play(&mut self, alloc: Global, events: &[(u32, Event)]) -> Result<Vec<Reply>, AllocError>
        requires { AllMembers (length self.old.hands) events.now }
        ensures replies { IfOk result (λ r. r.items ≡ replies self.old events.now) }
        ensures after { OnOk result (self.new ≡ core_after self.old events.now) }
        ensures err { OnErr result ((n : ℕ) × (self.new ≡ core_after self.old (take n events.now))) }

        // What every list of events keeps to.
        ensures drawn { IfOk result (λ r. DrawsInOrder self.old events.now r.items self.new) }
        ensures each_once { Accounts self.new }
        ensures kept { IsKept self.old self.new }
    {
        self.law_accounts();
        let mut answers = Vec::with_capacity(alloc, events.len())?;
        for entry in events {
            let answer = self.step(alloc, entry.0, entry.1)?;
            answers.push_reserved(answer);
        }
        self.law_accounts();
        Ok(answers)
    }

    // What the type keeps: a read of a field brings it in.
    fn law_accounts(&self)
        ensures { Accounts self.now }
    {
        let _ = &self.packets;
    }

    fn claim(&mut self, member: u32) -> Reply
        requires { member < length self.old.hands }
        ensures { (result, self.new) ≡ step self.old member Claim }
    {
        let at = member as usize;
        if let Some(number) = self.hands[at] {
            return Reply::Busy(number);
        }
        if self.drawn >= self.packets {
            return Reply::NoMore;
        }
        let number = self.drawn;
        self.hands[at] = Some(number);
        self.drawn += 1;
        Reply::Number(number)
    }

    fn finish(&mut self, member: u32) -> Result<Reply, AllocError>
        requires { member < length self.old.hands }
        ensures ok { IfOk result (λ r. (r, self.new) ≡ step self.old member Finish) }
        ensures err { OnErr result (self.new ≡ self.old) }
        ensures memory { OnErr result (TakesMemory self.old member Finish) }
    {
        let at = member as usize;
        let Some(number) = self.hands[at] else {
            return Ok(Reply::Empty);
        };
        self.done.reserve(1)?;
        self.done.push_reserved(number);
        self.hands[at] = None;
        Ok(Reply::Number(number))
    }

    fn abandon(&mut self, member: u32) -> Result<Reply, AllocError>
        requires { member < length self.old.hands }
        ensures ok { IfOk result (λ r. (r, self.new) ≡ step self.old member Abandon) }
        ensures err { OnErr result (self.new ≡ self.old) }
        ensures memory { OnErr result (TakesMemory self.old member Abandon) }
    {
        let at = member as usize;
        let Some(number) = self.hands[at] else {
            return Ok(Reply::Empty);
        };
        self.lost.reserve(1)?;
        self.lost.push_reserved(number);
        self.hands[at] = None;
        Ok(Reply::Number(number))
    }

    fn look(&self, what: Shown) -> u64
        ensures { result ≡ value_shown self.now what }
    {
        match what {
            Shown::Claimed => u64::from(self.drawn),
            Shown::Done => self.done.len() as u64,
            Shown::Lost => self.lost.len() as u64,
            Shown::Stop => u64::from(self.stop),
        }
    }
}
