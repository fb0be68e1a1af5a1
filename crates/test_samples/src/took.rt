//! How long things took, for benchmarks.

use std::rt::Runtime;
use std::time::Instant;
use std::{fmt, io};

/// How long something took, in nanoseconds; none where it is done in small, and then nothing is printed.
#[derive(Clone, Copy)]
pub struct Took {
    what: &'static str,
    nanos: Option<u128>,
}

impl Took {
    /// The time from the start until now.
    pub fn since<R: Runtime>(
        rt: &R,
        start: Instant,
        is_timed: bool,
        what: &'static str,
    ) -> io::Result<Took> {
        let nanos = start.elapsed(rt)?.as_nanos();
        Ok(Took {
            what,
            nanos: is_timed.then_some(nanos),
        })
    }
}

impl fmt::Display for Took {
    fn fmt<W: fmt::Write>(&self, f: &mut fmt::Formatter<W>) -> fmt::Result {
        match self.nanos {
            Some(nanos) => write!(f, ", {} {nanos} ns", self.what),
            None => Ok(()),
        }
    }
}
