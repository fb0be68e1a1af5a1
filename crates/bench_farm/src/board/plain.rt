//! Plain atomics that make the same steps as a board: to claim, a load of `stop` and an addition to
//! `claimed`; to finish, an addition to `done`. Nothing is proved of them, and they have no seats.
use crate::board::rounds::Place;
use anyhow::Result;
use std::alloc::Global;
use std::sync::Arc;
use std::sync::atomic::AtomicU64;
use std::sync::atomic::Ordering::SeqCst;
use tp_board::MAX_PACKETS;

#[derive(Drop)]
struct Words {
    claimed: AtomicU64,
    done: AtomicU64,
    stop: AtomicU64,
}

/// One thread's share of the words.
#[derive(Drop)]
pub(crate) struct PlainPlace {
    words: Arc<Words, Global>,
}

impl PlainPlace {
    fn claim(&self) -> Option<u64> {
        if self.words.stop.load(SeqCst) != 0 {
            return None;
        }
        let found = self.words.claimed.fetch_add(1, SeqCst);
        (found < u64::from(MAX_PACKETS)).then_some(found)
    }
}

impl Place for PlainPlace {
    fn work(&mut self) -> u64 {
        for finished in 0..u64::from(MAX_PACKETS) {
            if self.claim().is_none() {
                return finished;
            }
            self.words.done.fetch_add(1, SeqCst);
        }
        u64::from(MAX_PACKETS)
    }
}

/// For each thread its places, one at each of this many boards' words.
pub(crate) fn places_for(alloc: Global, threads: u32, boards: u32) -> Result<Vec<Vec<PlainPlace>>> {
    let mut all = Vec::new(alloc);
    for _ in 0..threads {
        all.push(Vec::new(alloc))?;
    }
    for _ in 0..boards {
        let shared = Arc::new(
            alloc,
            Words {
                claimed: AtomicU64::new(0),
                done: AtomicU64::new(0),
                stop: AtomicU64::new(0),
            },
        )?;
        for own in all.iter_mut() {
            own.push(PlainPlace {
                words: Arc::try_clone(&shared)?,
            })?;
        }
    }
    Ok(all)
}
