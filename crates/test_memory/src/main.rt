//! Calls of the libraries that take memory, where one allocation is refused: that call answers Memory, and every other
//! call what it answers with ample memory.
//!
//! Standard input is a number n. The program makes allocations of its own until the n-th one from then on is its
//! allocation number 1,000, the one that `rt try --fail-alloc 1000` refuses; with 0 none of these calls is refused. It
//! prints how many calls answered as with ample memory, how many answered Memory, and how many answered anything else.
//! `./memory-refused` runs it with n from 0 on.
#![tactic(auto)]

mod batch;
mod calls;

use std::io;
use std::io::Read;
use test_samples::answers::{number_in, spend_all_but};

fn main(rt: HostRuntime) -> io::Result<()> {
    let mut bytes = [0; 8];
    let count = rt.reader().read(&mut bytes)?;
    spend_all_but(rt.alloc(), number_in(bytes.get(..count).unwrap_or(&[])));
    let tally = calls::all(&rt, rt.alloc());
    let (same, memory, other) = (tally.same, tally.memory, tally.other);
    println!(rt; "same {same}, memory {memory}, other {other}")
}
