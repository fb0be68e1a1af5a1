//! Operands and their canonical spellings, as the Compiler Writer's Guide's rule gives them.

use crate::asserts::{assert_same, unwrap};
use std::process::Abort;
use tp_decode::{DecodeCode, DecodeFault, Instr, Listing, decode};
use tp_prefix::{PrefixFault, Spelled, encode, read_one};

fn spells(rt: &impl std::process::Abort, operand: i32, bytes: &[u8]) {
    assert!(rt; encode(4, operand).as_slice() == bytes, "{operand}");
}

#[test]
fn load_constants(rt: HostRuntime) {
    spells(&rt, 15, &[0x4F]);
    spells(&rt, 16, &[0x21, 0x40]);
    spells(&rt, 256, &[0x21, 0x20, 0x40]);
    spells(
        &rt,
        2_147_483_647,
        &[0x27, 0x2F, 0x2F, 0x2F, 0x2F, 0x2F, 0x2F, 0x4F],
    );
    spells(&rt, -1, &[0x60, 0x4F]);
    spells(&rt, -17, &[0x61, 0x4F]);
    spells(&rt, -256, &[0x6F, 0x40]);
    spells(&rt, -257, &[0x21, 0x60, 0x4F]);
}

/// Of a code that is not decoded a code and an address are printed.
#[test]
fn prints_faults(rt: HostRuntime) {
    let codes = [
        (DecodeCode::D1, "D1 at byte 0"),
        (DecodeCode::D2, "D2 at byte 1"),
        (DecodeCode::D3, "D3 at byte 2"),
    ];
    for (place, (code, text)) in codes.into_iter().enumerate() {
        let fault = DecodeFault::Refused { code, place };
        let printed = unwrap(&rt, format!(in rt.alloc(); "{fault}"));
        assert_same(&rt, &printed.as_str(), &text);
    }
    let memory = DecodeFault::Memory;
    let printed = unwrap(&rt, format!(in rt.alloc(); "{memory}"));
    assert_same(&rt, &printed.as_str(), &"out of memory");
}

#[test]
fn one_at_a_place(rt: HostRuntime) {
    let code = [0x41, 0x21, 0x60, 0x4F, 0x20, 0x20];
    let third = Spelled {
        function: 4,
        operand: -257,
        next: 4,
    };
    assert_same(&rt, &read_one(&code, 1), &Ok(third));
    assert_same(&rt, &read_one(&code, 4), &Err(PrefixFault::D1(4)));
    assert_same(&rt, &read_one(&[0x20; 8], 0), &Err(PrefixFault::D2(0)));
}

#[test]
fn a_listing_finds_its_instructions(rt: HostRuntime) {
    let listing = unwrap(
        &rt,
        decode(rt.alloc(), &[0x20, 0x41, 0x24, 0xF2, 0xD0])
            .ok()
            .ok_or("refused"),
    );
    assert_found(&rt, &listing);
    assert_same(&rt, &Instr::of(15, 0x4A), &Some(Instr::MoveBytes));
    assert_same(&rt, &Instr::of(9, 0), &None);
}

/// The instructions ldc 1, mint and stl 0 are at 0, 2 and 4, and none is elsewhere.
fn assert_found(rt: &impl Abort, listing: &Listing) {
    assert!(rt; listing.starts() == [0, 2, 4].as_slice());
    let found = [
        (0, Some(Instr::Ldc(1))),
        (1, None),
        (2, Some(Instr::Mint)),
        (4, Some(Instr::Stl(0))),
        (5, None),
    ];
    for (at, instr) in found {
        assert_eq!(rt; listing.at(at), instr, "at {at}");
    }
    assert_same(rt, &listing.next(2), &Some(4));
    assert_same(rt, &listing.next(3), &None);
}

#[test]
fn the_lowest_refusal(rt: HostRuntime) {
    let call = decode(rt.alloc(), &[0x41, 0x90, 0x22]);
    assert!(rt;
        matches!(
            call,
            Err(DecodeFault::Refused {
                code: DecodeCode::D3,
                place: 1
            })
        )
    );
    let cut = decode(rt.alloc(), &[0x41, 0x22]);
    assert!(rt;
        matches!(
            cut,
            Err(DecodeFault::Refused {
                code: DecodeCode::D1,
                place: 1
            })
        )
    );
    let long = decode(
        rt.alloc(),
        &[0x41, 0x20, 0x20, 0x20, 0x20, 0x20, 0x20, 0x20, 0x20],
    );
    assert!(rt;
        matches!(
            long,
            Err(DecodeFault::Refused {
                code: DecodeCode::D2,
                place: 1
            })
        )
    );
    let empty = decode(rt.alloc(), &[]);
    assert!(rt; matches!(empty, Ok(_)));
}
