//! The places of the words that ask for a text's lines, and the statements of its lines.

use crate::asserts::{assert_same, unwrap};
use tpw_text::{Position, read_source, statement_of};

const TEXT: &str = "\
workspace 9
here: mint ; a word by itself
   byte   2
        ldc/2 1
end:
\tldl 1
 cj here
";

/// Each line has the place of the word that asks for it, a byte at its number.
#[test]
fn positions(rt: HostRuntime) {
    let wanted = [(2, 7), (3, 11), (4, 9), (6, 2), (7, 2)];
    let source = unwrap(&rt, read_source(rt.alloc(), TEXT));
    assert_same(&rt, &source.positions.len(), &wanted.len());
    for (position, (line, column)) in source.positions.iter().zip(wanted) {
        assert_same(&rt, &*position, &Position { line, column });
    }
}

/// The statements of lines.
#[test]
fn statements(rt: HostRuntime) {
    let cases = [
        ("", ""),
        (" \t", ""),
        ("even:   ldl 1      -- the sum", "ldl 1"),
        ("  mint\t; x", "mint"),
        ("mint -- a: b", "mint"),
        ("here :\tldc 1 ", "ldc 1"),
        ("here:", ""),
        ("init 0: 1", "init 0: 1"),
        ("a: init 0: 1", "init 0: 1"),
        ("é: mint", "mint"),
        (": mint", ": mint"),
        ("[: mint", "mint"),
    ];
    for (line, statement) in cases {
        let told = unwrap(&rt, statement_of(rt.alloc(), line));
        assert_eq!(rt; told, statement, "{line}");
    }
}
