//! The values of initial words.

use crate::asserts::unwrap;
use std::alloc::Global;
use std::process::Abort;
use tpw_text::read_source;

fn has_initial(rt: &impl Abort, alloc: Global, text: &str, wanted: &[u32]) {
    let source = unwrap(rt, read_source(alloc, text));
    assert!(rt; source.program.initial.as_slice() == wanted, "{text}");
}

/// Initial words that have no value are 0, and a value is a word of 32 bits, whatever its sign.
#[test]
fn initial_words(rt: HostRuntime) {
    has_initial(
        &rt,
        rt.alloc(),
        "init 2: 4\ninit 3: -1\ninit 5: #FFFFFFFE",
        &[0, 0, 4, 0xFFFF_FFFF, 0, 0xFFFF_FFFE],
    );
    has_initial(&rt, rt.alloc(), "init 0: 1\nstart 6", &[1]);
}
