//! Images as hexadecimal.

use tpw_files::{TextFault, bytes_of};

/// Which texts say which bytes, and where others have their first fault.
#[test]
fn texts(rt: HostRuntime) {
    let cases = [
        ("", Ok([].as_slice())),
        ("54 ", Ok([0x54].as_slice())),
        (" \t54\n5\r\n0aF\r\n", Ok([0x54, 0x50, 0xAF].as_slice())),
        ("54 50", Err(TextFault::NotADigit(3))),
        ("  5g4", Err(TextFault::NotADigit(4))),
        ("0x54", Err(TextFault::NotADigit(2))),
        ("545\n", Err(TextFault::HalfAByte(4))),
    ];
    for (text, said) in cases {
        match (bytes_of(rt.alloc(), text.as_bytes()), said) {
            (Ok(bytes), Ok(wanted)) => assert!(rt; bytes.as_slice() == wanted, "{text}"),
            (Err(fault), Err(wanted)) => assert_eq!(rt; fault, wanted, "{text}"),
            _ => assert!(rt; false, "{text}"),
        }
    }
}
