//! The example in the documentation of `serve`.

use crate::asserts::{assert_same, unwrap};
use tp_link::{boxed, media_of};
use tp_session::{Farm, serve};

#[test]
fn two_lines_are_answered(rt: HostRuntime) {
    let alloc = rt.alloc();
    let mut media = unwrap(&rt, media_of(alloc, 1, 256));
    let links = unwrap(&rt, boxed(alloc, &mut media));
    if links.is_empty() || links.len() > 64 {
        panic!(rt; "one medium gives one member");
    }
    let farm = Farm::new(links, false);
    let mut reader = b"LIST 604F\nHELLO\n".as_slice();
    let mut writer = Vec::new(alloc);
    unwrap(&rt, serve(&rt, alloc, &mut reader, &mut writer, farm));
    let wanted = b"0 604f ldc -1\nDONE 1\nNO E1 2\n".as_slice();
    assert_same(&rt, &writer.as_slice(), &wanted);
}
