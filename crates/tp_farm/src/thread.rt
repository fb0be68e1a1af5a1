//! A member's thread.

ghost use Rattle.std.specs.Prelude.{◌≡◌, IfSome};
ghost use Rattle.tp_farm.specs.Working.{IsSet, IsFresh, HasWorkedOn};

use crate::gate::Gate;
use crate::handling::Received;
use crate::job::Job;
use crate::member::{End, Filed, Member, work};
use std::alloc::Global;
use std::snapshot::Snapshot;
use std::sync::Wait;
use tp_link::{LinkDevice, Links};
use tp_machine::Machine;
use tp_stream::{StreamHand, StreamQueue};

/// The return of a member's thread: its hand, its devices, what it filed, and why it ended.
#[derive(Drop)]
pub(crate) struct Returned<D> {
    pub(crate) hand: StreamHand,
    pub(crate) links: Links<D>,
    pub(crate) filed: Vec<Filed>,
    pub(crate) end: End,
}

/// The common state of all members.
#[derive(Drop)]
pub(crate) struct Shared<'j, G> {
    pub(crate) job: &'j Job<'j>,
    pub(crate) gate: &'j G,
    pub(crate) stream: &'j StreamQueue<'j>,
    /// How many packets each member gets, where all take as many.
    pub(crate) share: usize,
}

/// The whole work of the member of a number, on a machine of its own.
pub(crate) fn work_as<D: LinkDevice, G: Gate>(
    rt: &impl Wait,
    alloc: Global,
    shared: &Shared<'_, G>,
    number: u32,
    hand: StreamHand,
    links: Links<D>,
) -> Returned<D>
    requires set { IsSet shared.now }
    requires fresh { IsFresh shared.now.stream.now hand }
    ensures { HasWorkedOn D.state G.open_for_good shared.now links result }
{
    let entry = Snapshot::of(&links);
    let mut member = Member {
        number,
        hand,
        machine: Machine::new(),
        links,
        received: Received::new(),
        filed: Vec::new(alloc),
        entry,
    };
    let end = work(
        rt,
        shared.job,
        shared.gate,
        shared.stream,
        shared.share,
        &mut member,
    );
    let Member {
        hand,
        links,
        filed,
        ..
    } = member;
    Returned {
        hand,
        links,
        filed,
        end,
    }
}
