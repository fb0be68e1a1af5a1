//! How far a run is, for those who wait at a terminal.

use std::io::Eprint;
use std::sync::atomic::{AtomicU64, Ordering};
use std::time::{Clock, Instant};
use tp_farm::Gate;

/// How long what is shown stays before it is shown anew.
const INTERVAL_MILLISECONDS: u64 = 100;

/// A gate that is open for good and counts the packets that members have finished. Where it is given a start, it shows
/// on standard error how many of how many, how many a second, and how many seconds are left at that rate.
#[derive(Drop)]
pub struct Progress<'r, R> {
    rt: &'r R,
    packets: u64,
    start: Option<Instant>,
    finished: AtomicU64,
    /// When it was shown last, in milliseconds from the start.
    shown: AtomicU64,
}

impl<'r, R: Clock + Eprint> Progress<'r, R> {
    /// Progress of a number of packets, which is shown or not.
    pub fn new(rt: &'r R, packets: usize, is_shown: bool) -> Progress<'r, R> {
        let start = if is_shown {
            Instant::now(rt).ok()
        } else {
            None
        };
        Progress {
            rt,
            packets: packets as u64,
            start,
            finished: AtomicU64::new(0),
            shown: AtomicU64::new(0),
        }
    }

    /// Shows the number of packets that are finished, and the time since the start.
    fn show(&self, finished: u64, milliseconds: u64) {
        let packets = self.packets;
        let left = packets.saturating_sub(finished);
        let rate = finished.saturating_mul(1000) / milliseconds.max(1);
        let seconds = left.saturating_mul(milliseconds) / finished.max(1) / 1000;
        let _ = eprint!(self.rt;
            "\r{finished} of {packets} packets, {rate} a second, {seconds} s left\x1b[K"
        );
    }

    /// Counts one packet more, and shows it where the last time is long enough ago.
    fn count(&self, start: Instant) {
        let finished = self
            .finished
            .fetch_add(1, Ordering::SeqCst)
            .saturating_add(1);
        let Ok(elapsed) = start.elapsed(self.rt) else {
            return;
        };
        let now = u64::try_from(elapsed.as_millis()).unwrap_or(u64::MAX);
        let last = self.shown.load(Ordering::SeqCst);
        if now.saturating_sub(last) < INTERVAL_MILLISECONDS {
            return;
        }
        if self
            .shown
            .compare_exchange(last, now, Ordering::SeqCst, Ordering::SeqCst)
            .is_ok()
        {
            self.show(finished, now);
        }
    }

    /// Counts one packet more that is finished.
    pub fn add(&self) {
        if let Some(start) = self.start {
            self.count(start);
        }
    }

    /// Clears the line on which it was shown.
    pub fn clear(&self) {
        if self.start.is_some() {
            let _ = eprint!(self.rt; "\r\x1b[K");
        }
    }
}

impl<R: Clock + Eprint + Sync> Gate for Progress<'_, R> {
    ghost use Rattle.std.specs.Prelude.{◌≡◌, true};

    ghost open_for_good = { λ _. true };

    ghost has_answered = { λ _ _ answer. answer ≡ true };

    fn ask(&self, _member: u32) -> bool {
        true
    }

    fn claimed(&self, _member: u32, _number: u32) {}

    fn finished(&self, _member: u32, _number: u32) {
        self.add();
    }
}
