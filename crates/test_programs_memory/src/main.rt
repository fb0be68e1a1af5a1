//! The programs `farmd` and `tpw`, where one allocation is refused: what makes it answers Memory, and everything else
//! what it answers with ample memory.
//!
//! Standard input is a number n, behind a `t` where the commands of `tpw` are run, and not `farmd`. The program makes
//! allocations of its own until the n-th one from then on is its allocation number 4,000, the one that `rt try
//! --fail-alloc 4000` refuses; with 0 none of theirs is refused. It prints how many ended as with ample memory, how
//! many with the fault Memory, how many with anything else, and how many bytes were written. `./memory-refused` runs it
//! with n from 0 on.
#![tactic(auto)]

mod daemon;
mod expected;
mod tools;

use std::io;
use std::io::Read;
use test_samples::answers::{number_in, spend_all_but};

/// The most allocations that `spend_all_but` makes.
const MAX_SPENT: u64 = 1000;

/// How often it makes as many up to the one that is refused.
const PARTS: u64 = 4;

fn main(rt: HostRuntime) -> io::Result<()> {
    let mut bytes = [0; 8];
    let count = rt.reader().read(&mut bytes)?;
    let text = bytes.get(..count).unwrap_or(&[]);
    let number = number_in(text);
    for part in 0..PARTS {
        spend_all_but(rt.alloc(), number.saturating_sub(MAX_SPENT * part));
    }
    let tally = if text.first() == Some(&b't') {
        tools::all(&rt, rt.alloc())
    } else {
        daemon::all(&rt, rt.alloc())
    };
    let (same, memory, other) = (tally.same, tally.memory, tally.other);
    let written = tally.written;
    println!(rt; "same {same}, memory {memory}, other {other}, written {written}")
}
