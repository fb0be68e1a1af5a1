//! How the two sides of a stream's queue wait for each other: the feeder while the queue is full, the members while it
//! is empty. They sleep until the other side has pushed or popped half of the queue.
//!
//! The kit states nothing of a sleep, of a wake, or of the number that a word has. So a contract pins which items wake
//! the other side (`is_worth_a_wake`), and tests show that every wait ends.
ghost use Rattle.std.specs.Prelude.{◌≡◌};
ghost use Rattle.tp_stream.specs.Queues.{wakes_other};

use crate::queue::{CAPACITY, Item};
use std::sync::Wait;
use std::sync::atomic::{AtomicU64, Ordering};
use std::thread::Parker;
use std::time::Duration;

/// This many numbers that one side has moved wake the other.
const WAKE_EVERY: u32 = CAPACITY as u32 / 2;

/// The longest sleep, in microseconds: no wait depends on a wake.
const MAX_SLEEP: u64 = 1000;

/// Where the feeder and the members sleep.
#[derive(Drop)]
pub struct Waiting {
    feeder: Parker,
    /// How often the members were woken.
    wakes: AtomicU64,
}

/// Whether the other side is woken when this is pushed or popped.
fn is_worth_a_wake(item: Item) -> bool
    ensures { result ≡ wakes_other item }
{
    match item {
        Item::Number(number) => number % WAKE_EVERY == WAKE_EVERY - 1,
        Item::End => true,
    }
}

impl Waiting {
    pub fn new() -> Waiting {
        Waiting {
            feeder: Parker::new(),
            wakes: AtomicU64::new(0),
        }
    }

    /// How often the members were woken, modulo 2^32. A member reads it before the try after which it sleeps, so that
    /// it misses no wake.
    pub fn wakes(&self) -> u32 {
        (self.wakes.load(Ordering::SeqCst) % (1 << 32)) as u32
    }

    /// A member sleeps until it is woken, or does not where a member was woken since it read `wakes`.
    pub fn sleep_as_member<R: Wait>(&self, rt: &R, wakes: u32) {
        let longest = Duration::from_micros(MAX_SLEEP);
        self.wakes.park_timeout(rt, wakes, longest);
    }

    /// The feeder sleeps until it is woken, or does not where it was woken since it slept last.
    pub fn sleep_as_feeder<R: Wait>(&self, rt: &R) {
        let longest = Duration::from_micros(MAX_SLEEP);
        self.feeder.park_timeout(rt, longest);
    }

    /// Wakes one member. It wakes the next when it finds work, so no more wake than there is work for.
    pub fn wake_member(&self) {
        self.wakes.fetch_add(1, Ordering::SeqCst);
        self.wakes.wake_one();
    }

    /// Wakes all: the stream is stopped.
    pub fn wake_all(&self) {
        self.wakes.fetch_add(1, Ordering::SeqCst);
        self.wakes.wake_all();
        self.feeder.unpark();
    }

    /// Wakes a member where the item that the feeder has pushed is worth it.
    pub fn after_push(&self, item: Item) {
        if is_worth_a_wake(item) {
            self.wake_member();
        }
    }

    /// Wakes the feeder where the item that a member has popped is worth it.
    pub fn after_pop(&self, item: Item) {
        if is_worth_a_wake(item) {
            self.feeder.unpark();
        }
    }
}
