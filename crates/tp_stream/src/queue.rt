//! The queue of a stream, and its rule: the packets' numbers in order, and then an end mark for
//! each member.
ghost use Rattle.std.specs.Prelude.{◌≡◌, ◌<◌, ◌≤◌, ◌+◌, [], true, false, IfOk, MatchOption};
ghost use Rattle.crossbeam_queue.specs.Fifo.{Held};
ghost use Rattle.crossbeam_queue.specs.Passes.{view, IsPassOf, IsSamePass, ruled_capacity};
ghost use Rattle.tp_board.specs.Limits.{most_packets};
ghost use Rattle.tp_stream.specs.Queues.{first, feeder, hand, without_one, join_of_passes, put, item_of, MayPut};
ghost use Rattle.tp_stream.specs.Queues.{Took, Waits};
ghost use Rattle.tp_stream.specs.Queues.{Left, LeftAt, TookRest};

use crossbeam_queue::protocol::{Join, Lesson, Outcome, Protocol, Split};
use crossbeam_queue::{Pass, RuledArrayQueue};
use std::alloc::{AllocError, Global};
use std::collections::LinkedList;
use std::marker::{Brand, PhantomData};
use std::sync::Wait;

/// How many items the queue has room for.
pub const CAPACITY: usize = 32;

/// An item of the queue.
#[derive(Clone, Copy)]
pub enum Item {
    /// A packet, by its number.
    Number(u32),
    /// The end, for the one member that takes it.
    End,
}

/// The knowledge of a pass: the stream's sizes, its part of the queue, whether it feeds, how many
/// packets and marks it pushed, which numbers it popped, and how many marks. For contracts and
/// proofs alone: no value of it is ever made.
pub struct PassView {
    pub packets: u64,
    pub members: u64,
    pub parts: u64,
    pub feeds: u64,
    pub pushed: u64,
    pub marks: u64,
    pub popped: LinkedList<u32>,
    pub ended: u64,
}

/// Names one stream by its sizes, which its first pass gets.
pub trait Sizes {
    ghost use Rattle.std.specs.Prelude.{ℕ};

    ghost packets: { ℕ };

    ghost members: { ℕ };
}

impl Sizes for Brand {
    ghost packets = { 0 };

    ghost members = { 0 };
}

/// The rule of the queue.
pub struct InOrder;

impl Protocol<Item, PassView> for InOrder {
    ghost use Rattle.tp_stream.specs.Queues.{first, Streamed};

    ghost holds = { Streamed };

    ghost first = { first };
}

/// A push, by the pass that feeds.
pub struct Feeds;

impl Outcome<Item, PassView> for Feeds {
    ghost use Rattle.std.specs.Prelude.{◌≡◌};
    ghost use Rattle.tp_stream.specs.Queues.{put};

    ghost then = { λ v x w. w ≡ put v x };
}

impl Lesson<Item, PassView> for Feeds {
    ghost use Rattle.tp_stream.specs.Queues.{Waits};

    ghost fact = { Waits };
}

/// A pop.
pub struct Takes;

impl Outcome<Item, PassView> for Takes {
    ghost use Rattle.tp_stream.specs.Queues.{Took};

    ghost then = { Took };
}

impl Lesson<Item, PassView> for Takes {
    ghost fact = { λ v items. Unit {0} };
}

/// A pop by the pass that has every part, and what that one knows of the queue.
pub struct Rest;

impl Outcome<Item, PassView> for Rest {
    ghost use Rattle.tp_stream.specs.Queues.{Took};

    ghost then = { Took };
}

impl Lesson<Item, PassView> for Rest {
    ghost use Rattle.tp_stream.specs.Queues.{Left};

    ghost fact = { Left };
}

/// Gives the first pass the sizes of the stream, and makes the first hand.
pub struct FirstHand<B> {
    sizes: PhantomData<B>,
}

impl<B: Sizes> Split<PassView> for FirstHand<B> {
    ghost use Rattle.tp_stream.specs.Queues.{feeder, hand};

    ghost left = { λ v. feeder B.packets B.members B.members };

    ghost right = { λ v. hand B.packets B.members };
}

/// The cut of one more hand from the pass that feeds, and the joining of two passes.
pub struct OneHand;

impl Split<PassView> for OneHand {
    ghost use Rattle.tp_stream.specs.Queues.{without_one, hand};

    ghost left = { without_one };

    ghost right = { λ v. hand v.packets v.members };
}

impl Join<PassView> for OneHand {
    ghost use Rattle.tp_stream.specs.Queues.{join_of_passes, nobody};

    ghost both = { join_of_passes };

    ghost spent = { nobody };
}

pub type Queue = RuledArrayQueue<Item, PassView, InOrder>;

pub type QueuePass = Pass<Item, PassView>;

/// A queue for this many packets and members, with the pass that feeds and the first of the hands.
pub fn open_queue(
    alloc: Global,
    packets: u32,
    members: u32,
) -> Result<(Queue, QueuePass, QueuePass), AllocError>
    requires { 0 < members }
    ensures own { IfOk result (λ q. IsPassOf q.0 q.1 × IsPassOf q.0 q.2 × (ruled_capacity q.0 ≡ 32)) }
    ensures feeder { IfOk result (λ q. view q.1 ≡ feeder packets members members) }
    ensures hand { IfOk result (λ q. view q.2 ≡ hand packets members) }
{
    let (queue, mut pass) = Queue::ruled(alloc, CAPACITY)?;
    let taker = deal::<Brand>(&queue, &mut pass, packets, members);
    Ok((queue, pass, taker))
}

// Tells the first pass the sizes, which exist for the proof alone.
fn deal<B: Sizes>(queue: &Queue, pass: &mut QueuePass, packets: u32, members: u32) -> QueuePass
    requires queue { IsPassOf queue.now pass.old × (view pass.old ≡ first) }
    requires sizes { (B.packets ≡ packets) × (B.members ≡ members) × (0 < members) }
    ensures { IsSamePass pass.old pass.new × IsPassOf queue.now result
        × (view pass.new ≡ feeder packets members members) × (view result ≡ hand packets members) }
{
    queue.another::<FirstHand<B>>(pass)
}

/// One more hand, cut from the pass that feeds.
pub fn new_hand(queue: &Queue, pass: &mut QueuePass) -> QueuePass
    requires queue { IsPassOf queue.now pass.old }
    requires parts { (1 < (view pass.old).parts) × ((view pass.old).feeds ≡ 1) }
    ensures { IsSamePass pass.old pass.new × IsPassOf queue.now result
        × (view pass.new ≡ without_one (view pass.old))
        × (view result ≡ hand (view pass.old).packets (view pass.old).members) }
{
    queue.another::<OneHand>(pass)
}

/// Two passes in one.
pub fn join(queue: &Queue, pass: &mut QueuePass, other: QueuePass)
    requires queue { IsPassOf queue.now pass.old × IsPassOf queue.now other }
    requires parts { 0 < (view pass.old).parts }
    ensures { IsSamePass pass.old pass.new × (view pass.new ≡ join_of_passes (view pass.old) (view other)) }
{
    queue.absorb::<OneHand>(pass, other);
}

/// Tries to push the item that is next. False only where the queue was full.
pub fn feed<R: Wait>(rt: &R, queue: &Queue, pass: &mut QueuePass, item: Item) -> bool
    requires queue { IsPassOf queue.now pass.old × (ruled_capacity queue.now ≡ 32) }
    requires next { MayPut (view pass.old) × (item ≡ item_of (view pass.old)) }
    ensures own { IsSamePass pass.old pass.new }
    ensures pushed { result ≡ true → view pass.new ≡ put (view pass.old) item }
    ensures full { result ≡ false → (view pass.new ≡ view pass.old) × Held 32 (Waits (view pass.old)) }
{
    match queue.push_as::<Feeds, R>(rt, pass, item) {
        Ok(()) => true,
        Err(_) => false,
    }
}

/// Tries to pop what is next. None only where the queue was empty.
pub fn take<R: Wait>(rt: &R, queue: &Queue, pass: &mut QueuePass) -> Option<Item>
    requires queue { IsPassOf queue.now pass.old }
    requires part { 0 < (view pass.old).parts }
    ensures { IsSamePass pass.old pass.new
        × MatchOption result (view pass.new ≡ view pass.old) (λ x. Took (view pass.old) x (view pass.new)) }
{
    queue.pop_as::<Takes, R>(rt, pass)
}

// The same for the pass with every part: at None the queue holds nothing.
fn drain<R: Wait>(rt: &R, queue: &Queue, pass: &mut QueuePass) -> Option<Item>
    requires queue { IsPassOf queue.now pass.old }
    requires parts { (view pass.old).members + 1 ≤ (view pass.old).parts }
    ensures { IsSamePass pass.old pass.new
        × MatchOption result ((view pass.new ≡ view pass.old) × Left (view pass.old) [])
        (λ x. Took (view pass.old) x (view pass.new)) }
{
    queue.pop_as::<Rest, R>(rt, pass)
}

/// Takes out what is left, where this pass has every part. The answer is how many numbers were
/// popped before: those below it.
pub fn drain_rest<R: Wait>(rt: &R, queue: &Queue, pass: &mut QueuePass, pushed: u32) -> u32
    requires queue { IsPassOf queue.now pass.old }
    requires parts { (view pass.old).members + 1 ≤ (view pass.old).parts }
    requires pushed { ((view pass.old).pushed ≡ pushed) × ((view pass.old).packets ≤ most_packets) }
    ensures before { LeftAt (view pass.old) result }
    ensures rest { TookRest (view pass.old) (view pass.new) }
{
    queue.learn_as::<Rest>(pass);
    let mut left: u32 = 0;
    for _ in rt.forever() {
        match drain(rt, queue, pass) {
            Some(Item::Number(_)) => left += 1,
            Some(Item::End) => {}
            None => return pushed - left,
        }
    }
    unreachable!()
}
