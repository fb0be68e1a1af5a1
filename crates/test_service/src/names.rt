//! Every instruction by its name, as the Compiler Writer's Guide spells it.

use crate::asserts::unwrap;
use crate::farms::answers;
use std::alloc::Global;
use std::process::Abort;

/// Each instruction of the table: its code, and what is listed for it.
const NAMES: [(&str, &str); 40] = [
    ("07", "j 7"),
    ("11", "ldlp 1"),
    ("32", "ldnl 2"),
    ("43", "ldc 3"),
    ("54", "ldnlp 4"),
    ("75", "ldl 5"),
    ("86", "adc 6"),
    ("a7", "cj 7"),
    ("b8", "ajw 8"),
    ("c9", "eqc 9"),
    ("da", "stl 10"),
    ("eb", "stnl 11"),
    ("f0", "rev"),
    ("f1", "lb"),
    ("f2", "bsub"),
    ("f4", "diff"),
    ("f5", "add"),
    ("f7", "in"),
    ("f8", "prod"),
    ("f9", "gt"),
    ("fa", "wsub"),
    ("fb", "out"),
    ("fc", "sub"),
    ("21f0", "seterr"),
    ("21f3", "csub0"),
    ("21f5", "stopp"),
    ("21ff", "rem"),
    ("22f1", "lend"),
    ("22fc", "div"),
    ("23f2", "not"),
    ("23f3", "xor"),
    ("23fb", "sb"),
    ("24f0", "shr"),
    ("24f1", "shl"),
    ("24f2", "mint"),
    ("24f6", "and"),
    ("24fa", "move"),
    ("24fb", "or"),
    ("25f2", "sum"),
    ("25f3", "mul"),
];

/// A line that lists each code.
fn all_codes(rt: &impl Abort, alloc: Global) -> Vec<u8> {
    let mut input = Vec::new(alloc);
    for (code, _) in NAMES.iter() {
        let line = unwrap(rt, format!(in alloc; "LIST {code}\n"));
        unwrap(rt, input.extend_from_slice(line.as_bytes()));
    }
    input
}

fn all_names(rt: &impl Abort, alloc: Global) -> Vec<u8> {
    let mut output = Vec::new(alloc);
    for (code, text) in NAMES.iter() {
        let answer = unwrap(rt, format!(in alloc; "0 {code} {text}\nDONE 1\n"));
        unwrap(rt, output.extend_from_slice(answer.as_bytes()));
    }
    output
}

#[test]
fn every_name(rt: HostRuntime) {
    let input = all_codes(&rt, rt.alloc());
    let output = all_names(&rt, rt.alloc());
    assert!(rt; answers(&rt, rt.alloc(), 1, &input, &output));
}
