//! Inputs of full size.

use crate::asserts::{assert_same, unwrap};
use tp_decode::{Instr, decode};

/// The longest code that can be cut, all `ldc 1`.
#[test]
fn the_longest_code(rt: HostRuntime) {
    let code = unwrap(&rt, vec![in rt.alloc(); 0x41; 65_535]);
    let listing = unwrap(&rt, decode(rt.alloc(), &code).ok().ok_or("refused"));
    assert_same(&rt, &listing.starts().len(), &65_535);
    assert_same(&rt, &listing.at(65_534), &Some(Instr::Ldc(1)));
    assert_same(&rt, &listing.next(65_534), &Some(65_535));
}
