//! Large texts that say no program.

use crate::asserts::{assert_same, unwrap};
use tpw_text::{TextFault, read_source};

/// A line of a million bytes, and a hundred thousand lines: a fault with its place.
#[test]
fn large_texts(rt: HostRuntime) {
    let mut text = String::new(rt.alloc());
    for _ in 0..100_000 {
        unwrap(&rt, text.push_str("frobnicate"));
    }
    match read_source(rt.alloc(), text.as_str()) {
        Ok(_) => assert!(rt; false),
        Err(found) => assert_same(
            &rt,
            &(found.line, found.column, found.fault),
            &(1, 1, TextFault::Unknown),
        ),
    }
    let mut text = String::new(rt.alloc());
    for _ in 0..100_000 {
        unwrap(&rt, text.push_str("rev\n"));
    }
    match read_source(rt.alloc(), text.as_str()) {
        Ok(_) => assert!(rt; false),
        Err(found) => assert_same(
            &rt,
            &(found.line, found.column, found.fault),
            &(16_385, 1, TextFault::TooMany),
        ),
    }
}
