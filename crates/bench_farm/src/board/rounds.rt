//! Boards that are worked off by threads.
use anyhow::Result;
use std::alloc::Global;
use std::rt::Runtime;
use std::thread;
use std::thread::Threads;

/// A place at one board, for one thread to work at.
pub(crate) trait Place: Drop {
    /// Claims and finishes until there is no more: how many were finished.
    fn work(&mut self) -> u64;
}

/// A thread for each list of places, which it works at in order: how many packets were finished.
pub(crate) fn work_off<R: Runtime<A = Global> + Threads + Sync, P: Place + Send>(
    rt: &R,
    places: Vec<Vec<P>>,
) -> Result<u64> {
    let counts = thread::map_vec(rt, places, &|own: Vec<P>| worked(own))?;
    let finished = counts
        .iter()
        .fold(0u64, |sum, count| sum.wrapping_add(*count));
    Ok(finished)
}

fn worked<P: Place>(places: Vec<P>) -> u64 {
    let mut finished = 0u64;
    for mut place in places {
        finished = finished.wrapping_add(place.work());
    }
    finished
}
