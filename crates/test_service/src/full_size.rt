//! Output at full size, and its flushes.

use crate::asserts::{assert_same, unwrap};
use crate::farms::opened;
use crate::listings::{long_line, long_listing};
use crate::streams::{flushes_of, read_fails_as};
use std::alloc::Global;
use std::process::Abort;
use test_samples::INCREMENT;

/// The longest answer to a listing is flushed once.
#[test]
fn the_longest_listing_is_flushed_once(rt: HostRuntime) {
    let input = long_line(&rt, rt.alloc(), 16_381, b"\n");
    let wanted = long_listing(&rt, rt.alloc(), 16_381);
    let writer = flushes_of(&rt, rt.alloc(), 1, &input);
    assert!(rt; writer.taken.as_slice() == wanted.as_bytes());
    assert_same(&rt, &writer.flushes.as_slice(), &[wanted.len()].as_slice());
}

/// How many packets a session keeps.
const PACKETS: u32 = 1024;

/// A session with as many packets as it keeps, each of which is 1, and their run.
fn full_session(rt: &impl Abort, alloc: Global) -> Vec<u8> {
    let mut input = opened(rt, alloc, INCREMENT);
    for _ in 0..PACKETS {
        unwrap(rt, input.extend_from_slice(b"a PACKET 01000000\n"));
    }
    unwrap(rt, input.extend_from_slice(b"a RUN\n"));
    input
}

/// The answers before the run.
fn kept(rt: &impl Abort, alloc: Global) -> String {
    let mut output = String::new(alloc);
    unwrap(rt, output.push_str("YES 16 16\n"));
    for number in 0..PACKETS {
        let line = unwrap(rt, format!(in alloc; "KEPT {number}\n"));
        unwrap(rt, output.push_str(line.as_str()));
    }
    output
}

/// The answer to the run.
fn results(rt: &impl Abort, alloc: Global) -> String {
    let mut output = String::new(alloc);
    for number in 0..PACKETS {
        let line = unwrap(rt, format!(in alloc; "R {number} 0 16 02000000\n"));
        unwrap(rt, output.push_str(line.as_str()));
    }
    unwrap(rt, output.push_str("DONE 1024\n"));
    output
}

/// The answer to a batch of 1,024 packets is flushed once, and so is each answer before it.
#[test]
fn a_full_batch_is_flushed_once(rt: HostRuntime) {
    let kept = kept(&rt, rt.alloc());
    let results = results(&rt, rt.alloc());
    let input = full_session(&rt, rt.alloc());
    let writer = flushes_of(&rt, rt.alloc(), 4, &input);
    let [first @ .., before, last] = writer.flushes.as_slice() else {
        panic!(rt; "too few flushes");
    };
    assert_same(&rt, &first.len(), &1024);
    assert_same(&rt, &*before, &kept.len());
    assert_same(&rt, &*last, &kept.len().saturating_add(results.len()));
    assert!(rt; writer.taken.starts_with(kept.as_bytes()));
    assert!(rt; writer.taken.ends_with(results.as_bytes()));
}

/// The answers to this many empty lines.
fn refusals(rt: &impl Abort, alloc: Global, lines: u32) -> String {
    let mut output = String::new(alloc);
    for index in 0..lines {
        let number = u64::from(index).saturating_add(1);
        let line = unwrap(rt, format!(in alloc; "NO E1 {number}\n"));
        unwrap(rt, output.push_str(line.as_str()));
    }
    output
}

/// A read that fails behind 10,001 lines is a fault, and each of them is answered.
#[test]
fn a_late_read_fails(rt: HostRuntime) {
    let input = unwrap(&rt, vec![in rt.alloc(); b'\n'; 10_001]);
    let wanted = refusals(&rt, rt.alloc(), 10_001);
    let same = read_fails_as(&rt, rt.alloc(), &input, 10_002, wanted.as_bytes());
    assert!(rt; same);
}
