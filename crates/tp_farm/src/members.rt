//! The members of a batch, each in a thread of its own.

ghost use Rattle.std.specs.Prelude.{◌≡◌, ◌≤◌, ◌+◌, ◌++◌, ◌∷◌, [], true, List, map, IfSome, IfOk, IfErr, All};
ghost use Rattle.std.specs.Prelude.{vec_len, vec_capacity};
ghost use Rattle.std.specs.List.{AllZip};
ghost use Rattle.tp_link.specs.declared.links.Links.{Links};
ghost use Rattle.tp_stream.specs.Streams.{IsFeederOf};
ghost use Rattle.tp_farm.specs.Feeding.{HasOnlyFed, HasEnded};
ghost use Rattle.tp_farm.specs.Refused.{IsEnvironmental};
ghost use Rattle.tp_farm.specs.Working.{IsSet, IsFresh, HasWorkedOn, HaveWorkedOn};

use crate::fault::FarmFault;
use crate::gate::Gate;
use crate::thread::{Returned, Shared, work_as};
use std::alloc::{AllocError, Global};
use std::snapshot::Snapshot;
use std::sync::Wait;
use std::thread;
use std::thread::{Promise, PromisedHandle, Scope, Threads, join_promised};
use tp_link::{LinkDevice, Links};
use tp_stream::{Fed, Feeder, StreamHand, StreamQueue};

/// The promise of a member's thread: it has done the shared's work with the devices that it had.
#[derive(Drop)]
struct MemberPromise<'j, G, D> {
    shared: &'j Shared<'j, G>,
    before: Snapshot<Links<D>>,
}

impl<'j, G: Gate, D: LinkDevice> Promise<Returned<D>> for MemberPromise<'j, G, D> {
    ghost use Rattle.tp_farm.specs.Working.{HasWorkedOn};

    ghost kept_by = { λ p r. HasWorkedOn D.state G.open_for_good p.shared.now p.before.value r };
}

/// A member's thread.
type Handle<'e, G, D> = PromisedHandle<Returned<D>, MemberPromise<'e, G, D>>;

/// Starts the member of a number.
fn start<'s, 'e, R: Wait + Sync, D: LinkDevice + Send + 'e, G: Gate>(
    rt: &'e R,
    scope: &'s Scope<'s, &'e ()>,
    alloc: Global,
    shared: &'e Shared<'e, G>,
    number: u32,
    hand: StreamHand,
    links: Links<D>,
) -> Option<Handle<'e, G, D>>
    requires set { IsSet shared.now }
    requires fresh { IsFresh shared.now.stream.now hand }
    ensures shared { IfSome result (λ h. h.promise.shared.now ≡ shared.now) }
    ensures before { IfSome result (λ h. h.promise.before.value ≡ links) }
{
    let promise = MemberPromise {
        shared,
        before: Snapshot::of(&links),
    };
    let started = scope.spawn_with(
        promise,
        move || -> Returned<D>
            requires set { IsSet shared.now }
            requires fresh { IsFresh shared.now.stream.now hand }
            ensures worked { HasWorkedOn D.state G.open_for_good shared.entry.now links result }
        { work_as(rt, alloc, shared, number, hand, links) },
    );
    match started {
        Ok(handle) => Some(handle),
        Err(refused) => {
            drop(refused);
            None
        }
    }
}

/// Members that were started.
#[derive(Drop)]
struct Started<'e, G: Gate, D: LinkDevice> {
    handles: Vec<Handle<'e, G, D>>,
    all_started: bool,
}

/// Starts a member for each of the links in turn, up to the first for which no thread could be started.
fn start_all<'s, 'e, R: Wait + Sync, D: LinkDevice + Send + 'e, G: Gate>(
    rt: &'e R,
    scope: &'s Scope<'s, &'e ()>,
    alloc: Global,
    shared: &'e Shared<'e, G>,
    mut hands: Vec<StreamHand>,
    all: Vec<Links<D>>,
) -> Result<Started<'e, G, D>, AllocError>
    requires set { IsSet shared.now }
    requires fresh { All (IsFresh shared.now.stream.now) hands.items }
    requires hands { vec_len hands ≡ vec_len all }
    requires members { vec_len all ≤ 64 }
    ensures first { IfOk result
        (λ s. (rest : List (Links D)) × (map (λ h. h.promise.before.value) s.handles.items ++ rest ≡ all.items)) }
    ensures before { IfOk result
        (λ s. s.all_started ≡ true → map (λ h. h.promise.before.value) s.handles.items ≡ all.items) }
    ensures shared { IfOk result (λ s. All (λ h. h.promise.shared.now ≡ shared.now) s.handles.items) }
{
    let mut handles = Vec::with_capacity(alloc, all.len())?;
    let mut number = 0u32;
    for links in all {
        let Some(hand) = hands.pop() else {
            unreachable!()
        };
        let Some(handle) = start(rt, scope, alloc, shared, number, hand, links) else {
            return Ok(Started {
                handles,
                all_started: false,
            });
        };
        handles.push_reserved(handle);
        number += 1;
    }
    Ok(Started {
        handles,
        all_started: true,
    })
}

/// Feeds a stream until all is pushed, or a member has stopped it.
fn feed_all<R: Wait>(rt: &R, stream: &StreamQueue<'_>, feeder: &mut Feeder)
    requires own { IsFeederOf stream.now feeder.old }
    requires fed { HasOnlyFed feeder.old }
    ensures own { IsFeederOf stream.now feeder.new }
    ensures fed { HasOnlyFed feeder.new }
    ensures ends { HasEnded feeder.new }
{
    for _ in rt.forever() {
        match stream.feed(rt, feeder) {
            Fed::Pushed => {}
            Fed::Full => stream.wait_for_room(rt),
            Fed::Stopped | Fed::Over => return,
        }
    }
}

/// Joins the members that were started.
fn join_all<R: Threads + Wait, D: LinkDevice, G: Gate>(
    rt: &R,
    started: Started<'_, G, D>,
) -> Result<Vec<Returned<D>>, FarmFault>
    ensures joined { IfOk result (λ rs. (started.entry.all_started ≡ true) × AllZip
        (λ h r. HasWorkedOn D.state G.open_for_good h.promise.shared.now h.promise.before.value r)
        started.entry.handles.items rs.items) }
    ensures err { IfErr result IsEnvironmental }
{
    match join_promised(rt, started.handles) {
        Ok(returned) => {
            if started.all_started {
                Ok(returned)
            } else {
                Err(FarmFault::Thread)
            }
        }
        Err(refused) => {
            for handle in refused.value {
                let _ = handle.join(rt);
            }
            Err(FarmFault::Memory)
        }
    }
}

/// Starts the members, feeds their stream, and joins those that were started. Nothing returns between the first start
/// and the last join; where a member could not be started the stream is stopped first.
fn start_feed_and_join<'s, 'e, R: Threads + Wait + Sync, D: LinkDevice + Send + 'e, G: Gate>(
    rt: &'e R,
    scope: &'s Scope<'s, &'e ()>,
    alloc: Global,
    shared: &'e Shared<'e, G>,
    mut feeder: Feeder,
    hands: Vec<StreamHand>,
    all: Vec<Links<D>>,
) -> Result<(Vec<Returned<D>>, Feeder), FarmFault>
    requires set { IsSet shared.now }
    requires fresh { All (IsFresh shared.now.stream.now) hands.items }
    requires feeder { IsFeederOf shared.now.stream.now feeder }
    requires fed { HasOnlyFed feeder }
    requires hands { vec_len hands ≡ vec_len all }
    requires members { vec_len all ≤ 64 }
    ensures worked { IfOk result (λ r.
        HaveWorkedOn D.state G.open_for_good shared.now all.items r.0.items) }
    ensures feeder { IfOk result (λ r. IsFeederOf shared.now.stream.now r.1 × HasOnlyFed r.1) }
    ensures err { IfErr result IsEnvironmental }
{
    let started = start_all(rt, scope, alloc, shared, hands, all)?;
    if started.all_started {
        feed_all(rt, shared.stream, &mut feeder);
    } else {
        shared.stream.stop_feeding(&mut feeder);
    }
    let returned = join_all(rt, started)?;
    Ok((returned, feeder))
}

/// Runs the members, each in a thread of its own, and feeds them until all is pushed; then waits for their ends. What
/// they give back comes in the order of the links.
pub(crate) fn run_members<R: Threads + Wait + Sync, D: LinkDevice + Send, G: Gate>(
    rt: &R,
    alloc: Global,
    shared: &Shared<'_, G>,
    feeder: Feeder,
    hands: Vec<StreamHand>,
    all: Vec<Links<D>>,
) -> Result<(Vec<Returned<D>>, Feeder), FarmFault>
    requires set { IsSet shared.now }
    requires fresh { All (IsFresh shared.now.stream.now) hands.items }
    requires feeder { IsFeederOf shared.now.stream.now feeder }
    requires fed { HasOnlyFed feeder }
    requires hands { vec_len hands ≡ vec_len all }
    requires members { vec_len all ≤ 64 }
    ensures worked { IfOk result (λ r.
        HaveWorkedOn D.state G.open_for_good shared.now all.items r.0.items) }
    ensures feeder { IfOk result (λ r. IsFeederOf shared.now.stream.now r.1 × HasOnlyFed r.1) }
    ensures err { IfErr result IsEnvironmental }
{
    thread::scope(
        thread::scope_env(),
        rt,
        |scope| -> Result<(Vec<Returned<D>>, Feeder), FarmFault>
            requires set { IsSet shared.now }
            requires fresh { All (IsFresh shared.now.stream.now) hands.items }
            requires feeder { IsFeederOf shared.now.stream.now feeder }
            requires fed { HasOnlyFed feeder }
            requires hands { vec_len hands ≡ vec_len all }
            requires members { vec_len all ≤ 64 }
            ensures worked { IfOk result (λ r.
                HaveWorkedOn D.state G.open_for_good shared.entry.now all.items r.0.items) }
            ensures feeder { IfOk result (λ r. IsFeederOf shared.entry.now.stream.now r.1 × HasOnlyFed r.1) }
            ensures err { IfErr result IsEnvironmental }
        { start_feed_and_join(rt, scope, alloc, shared, feeder, hands, all) },
    )
}
