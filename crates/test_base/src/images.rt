//! Images and refusals worked out by hand, and each call once with ample memory.

use crate::asserts::{assert_same, unwrap};
use std::alloc::Global;
use std::process::Abort;
use test_samples::*;
use tp_image::{Image, ImageCode, ImageFault, LoopRow, read_image, upgrade, write_image};

// The calls, with nothing said of what they answer: the tests compare it when they run.

fn read(alloc: Global, bytes: &[u8]) -> Result<Image, ImageFault> {
    read_image(alloc, bytes)
}

fn written(alloc: Global, image: &Image) -> Result<Vec<u8>, ImageFault> {
    write_image(alloc, image)
}

fn upgraded(alloc: Global, image: &Image) -> Result<Image, ImageFault> {
    upgrade(alloc, image)
}

/// How many loop rows, initial words and code bytes there are.
fn sizes_of(image: &Image) -> (usize, usize, usize) {
    (image.loops.len(), image.initial.len(), image.code.len())
}

/// That an image is written as these bytes.
fn assert_written(rt: &(impl Abort + AllocGlobal), image: &Image, bytes: &[u8]) {
    let written = unwrap(rt, written(rt.alloc(), image));
    assert_same(rt, &written.as_slice(), &bytes);
}

/// The bytes with others from a place on.
fn changed(rt: &impl Abort, alloc: Global, bytes: &[u8], place: usize, others: &[u8]) -> Vec<u8> {
    let mut changed = unwrap(rt, Vec::from_slice(alloc, bytes));
    for (i, other) in others.iter().enumerate() {
        if let Some(byte) = changed.get_mut(place.saturating_add(i)) {
            *byte = *other;
        }
    }
    changed
}

/// That bytes are refused so.
fn assert_refused(rt: &(impl Abort + AllocGlobal), bytes: &[u8], code: ImageCode, place: usize) {
    match read(rt.alloc(), bytes) {
        Ok(_) => panic!(rt; "an image was read, and {code} wanted"),
        Err(fault) => assert_same(rt, &fault, &ImageFault::Refused { code, place }),
    }
}

/// A sample, and what it says: its version, its workspace words, loop rows, initial words and code bytes.
type Sample = (&'static [u8], u8, u32, usize, usize, usize);

const SAMPLES: [Sample; 24] = [
    (INCREMENT, 1, 12, 0, 0, 16),
    (SUM_TO_TEN, 1, 16, 1, 0, 27),
    (ONE_TURN, 1, 16, 1, 0, 27),
    (SUM_TO_TEN_THOUSAND, 1, 16, 1, 0, 30),
    (ONE_TURN_TOO_MANY, 1, 16, 1, 0, 30),
    (NESTED_TOO_LONG, 1, 16, 2, 0, 35),
    (TEN_TIMES_TEN_THOUSAND, 1, 16, 2, 0, 35),
    (READS_AFTER_JUMP, 1, 12, 0, 0, 17),
    (JUMPS_INTO_SPELLING, 1, 12, 0, 0, 18),
    (RECEIVES_TWO_WORDS, 1, 12, 0, 0, 16),
    (SENDS_TWICE, 1, 12, 0, 0, 18),
    (LOADS_ANY_WORD, 1, 20, 0, 0, 18),
    (PICKS_A_WORD, 1, 20, 0, 0, 21),
    (READS_BELOW_WPTR, 1, 12, 0, 0, 16),
    (STORES_INTO_COUNT, 1, 16, 1, 0, 27),
    (FIVE_UNLESS_ZERO, 1, 12, 0, 0, 17),
    (TRACES_ITS_PACKET, 1, 12, 0, 0, 19),
    (TRACES_65_TIMES, 1, 16, 1, 0, 28),
    (SHIFTS_BY_ITS_PACKET, 1, 12, 0, 0, 18),
    (STORES_BY_TWO_WAYS, 1, 12, 0, 0, 22),
    (MOVES_IN_VERSION_1, 1, 16, 0, 0, 19),
    (MOVES_A_WORD, 2, 16, 0, 1, 19),
    (INCREMENT_2, 2, 12, 0, 0, 16),
    (MOVES_ONTO_ITSELF, 2, 16, 0, 0, 18),
];

fn assert_sample(rt: &(impl Abort + AllocGlobal), sample: Sample) {
    let (bytes, version, workspace, loops, initial, code) = sample;
    let image = unwrap(rt, read(rt.alloc(), bytes));
    assert_same(
        rt,
        &(image.version(), image.workspace),
        &(version, workspace),
    );
    assert_same(rt, &(image.start, image.packet, image.result), &(8, 1, 1));
    assert_same(rt, &sizes_of(&image), &(loops, initial, code));
    assert_written(rt, &image, bytes);
}

#[test]
fn reads_and_writes_samples(rt: HostRuntime) {
    for sample in SAMPLES {
        assert_sample(&rt, sample);
    }
}

#[test]
fn reads_rows_and_words(rt: HostRuntime) {
    let nested = unwrap(&rt, read(rt.alloc(), TEN_TIMES_TEN_THOUSAND));
    let outer = LoopRow {
        head: 13,
        lend: 26,
        control: 10,
        count: 10,
        start: 0,
    };
    let inner = LoopRow {
        head: 20,
        lend: 22,
        control: 12,
        count: 10_000,
        start: 0,
    };
    assert_same(&rt, &nested.loops.as_slice(), &[outer, inner].as_slice());
    assert_same(&rt, &nested.code.as_slice(), &&TEN_TIMES_TEN_THOUSAND[40..]);
    let copies = unwrap(&rt, read(rt.alloc(), MOVES_A_WORD));
    assert_same(&rt, &copies.initial.as_slice(), &[42].as_slice());
}

#[test]
fn reads_a_negative_start(rt: HostRuntime) {
    let bytes = changed(&rt, rt.alloc(), SUM_TO_TEN, 24, b"\xFE\xFF\xFF\xFF");
    let image = unwrap(&rt, read(rt.alloc(), &bytes));
    for row in &image.loops {
        assert_same(&rt, &row.start, &-2);
    }
    assert_written(&rt, &image, &bytes);
}

#[test]
fn refuses_beginnings(rt: HostRuntime) {
    assert_same(&rt, &NESTED_TOO_LONG.len(), &75);
    for n in 0..75 {
        if n < 4 {
            assert_refused(&rt, &NESTED_TOO_LONG[..n], ImageCode::F1, 0);
        } else {
            assert_refused(&rt, &NESTED_TOO_LONG[..n], ImageCode::F2, n);
        }
    }
    unwrap(&rt, read(rt.alloc(), NESTED_TOO_LONG));
    assert_refused(&rt, &INCREMENT[..16], ImageCode::F2, 16);
}

#[test]
fn refuses_bytes_left_over(rt: HostRuntime) {
    let mut bytes = unwrap(&rt, Vec::from_slice(rt.alloc(), INCREMENT));
    unwrap(&rt, bytes.push(0));
    assert_refused(&rt, &bytes, ImageCode::F9, 32);
}

#[test]
fn refuses_fields_out_of_range(rt: HostRuntime) {
    // Behind the single fields come those with two neighbours that are both bad: the first is answered.
    let refusals: [(&[u8], usize, &[u8], ImageCode, usize); 23] = [
        (INCREMENT, 3, b"3", ImageCode::F1, 0),
        (INCREMENT, 4, b"\x00\x00", ImageCode::F3, 4),
        (INCREMENT, 4, b"\x01\x08", ImageCode::F3, 4),
        (INCREMENT, 4, b"\x4D\x1F", ImageCode::F3, 4),
        (INCREMENT_2, 4, b"\x01\x20", ImageCode::F3, 4),
        (INCREMENT, 6, b"\x07\x00", ImageCode::F4, 6),
        (INCREMENT, 6, b"\x00\x02", ImageCode::F4, 6),
        (INCREMENT_2, 6, b"\x01\x02", ImageCode::F4, 6),
        (INCREMENT, 8, b"\x04\x00", ImageCode::F5, 8),
        (INCREMENT, 8, b"\x0C\x00", ImageCode::F5, 8),
        (INCREMENT, 10, b"\x00\x00", ImageCode::F6, 10),
        (INCREMENT, 10, b"\x41\x00", ImageCode::F6, 10),
        (INCREMENT, 12, b"\x00\x00", ImageCode::F7, 12),
        (INCREMENT, 12, b"\x41\x00", ImageCode::F7, 12),
        (INCREMENT, 14, b"\x11\x00", ImageCode::F8, 14),
        (MOVES_A_WORD, 16, b"\x11\x00", ImageCode::F10, 16),
        (MOVES_A_WORD, 16, b"\x10\x00", ImageCode::F2, 41),
        (INCREMENT, 4, b"\x00\x00\x00\x00", ImageCode::F3, 4),
        (INCREMENT, 6, b"\x00\x00\x00\x00", ImageCode::F4, 6),
        (INCREMENT, 8, b"\x04\x00\x00\x00", ImageCode::F5, 8),
        (INCREMENT, 10, b"\x00\x00\x00\x00", ImageCode::F6, 10),
        (INCREMENT, 12, b"\x41\x00\x11\x00", ImageCode::F7, 12),
        (MOVES_A_WORD, 14, b"\x11\x00\x11\x00", ImageCode::F8, 14),
    ];
    for (bytes, place, others, code, at) in refusals {
        let bytes = changed(&rt, rt.alloc(), bytes, place, others);
        assert_refused(&rt, &bytes, code, at);
    }
}

#[test]
fn reads_the_largest_fields(rt: HostRuntime) {
    let widest = changed(&rt, rt.alloc(), INCREMENT_2, 6, b"\x00\x02");
    assert_same(&rt, &unwrap(&rt, read(rt.alloc(), &widest)).workspace, &512);
    let messages = changed(&rt, rt.alloc(), INCREMENT, 10, b"\x40\x00\x40\x00");
    assert_same(&rt, &unwrap(&rt, read(rt.alloc(), &messages)).result, &64);
}

/// The bytes before, as a header of this many code bytes and the code's first, then `ldc 0; cj 0` so
/// many times, then the bytes after.
fn with_long_code(
    rt: &impl Abort,
    alloc: Global,
    before: &[u8],
    code_bytes: &[u8],
    times: u32,
    after: &[u8],
) -> Vec<u8> {
    let mut bytes = changed(rt, alloc, before, 4, code_bytes);
    for _ in 0..times {
        unwrap(rt, bytes.extend_from_slice(b"\x40\xA0"));
    }
    unwrap(rt, bytes.extend_from_slice(after));
    bytes
}

#[test]
fn reads_long_codes(rt: HostRuntime) {
    let alloc = rt.alloc();
    let first = with_long_code(
        &rt,
        alloc,
        &INCREMENT[..22],
        b"\x15\x07",
        900,
        &INCREMENT[25..],
    );
    assert_same(&rt, &unwrap(&rt, read(alloc, &first)).code.len(), &1813);
    let second = with_long_code(
        &rt,
        alloc,
        &INCREMENT_2[..24],
        b"\x4D\x1F",
        4000,
        &INCREMENT_2[27..],
    );
    assert_same(&rt, &unwrap(&rt, read(alloc, &second)).code.len(), &8013);
}

/// The largest image of version 2: 16 rows, 512 initial words and 8,192 code bytes. Row i has head i, and word i and
/// code byte i are i's low byte.
fn largest(rt: &impl Abort, alloc: Global) -> Vec<u8> {
    let mut bytes = unwrap(
        rt,
        Vec::from_slice(
            alloc,
            b"TPW2\x00\x20\x00\x02\xFF\x01\x40\x00\x40\x00\x10\x00\x00\x02",
        ),
    );
    for row in 0..16u8 {
        unwrap(
            rt,
            bytes.extend_from_slice(&[row, 0, 1, 2, 3, 4, 5, 6, 7, 8, 9, 0xFF]),
        );
    }
    for word in 0..512u32 {
        unwrap(rt, bytes.extend_from_slice(&[(word % 256) as u8, 0, 0, 0]));
    }
    for byte in 0..8192u32 {
        unwrap(rt, bytes.push((byte % 256) as u8));
    }
    bytes
}

fn assert_is_the_largest(rt: &impl Abort, image: &Image) {
    let last = LoopRow {
        head: 15,
        lend: 0x0201,
        control: 0x0403,
        count: 0x0605,
        start: -16_185_337,
    };
    assert_same(rt, &sizes_of(image), &(16, 512, 8192));
    assert_same(rt, &(image.workspace, image.start), &(512, 511));
    assert_same(
        rt,
        &(image.loops.last(), image.initial.last()),
        &(Some(&last), Some(&255)),
    );
}

#[test]
fn reads_and_writes_the_largest(rt: HostRuntime) {
    let bytes = largest(&rt, rt.alloc());
    assert_same(&rt, &bytes.len(), &10_450);
    let image = unwrap(&rt, read(rt.alloc(), &bytes));
    assert_is_the_largest(&rt, &image);
    assert_written(&rt, &image, &bytes);
    let upgraded = unwrap(&rt, upgraded(rt.alloc(), &image));
    assert_written(&rt, &upgraded, &bytes);
}

#[test]
fn upgrades(rt: HostRuntime) {
    let image = unwrap(&rt, read(rt.alloc(), INCREMENT));
    let image = unwrap(&rt, upgraded(rt.alloc(), &image));
    assert_same(&rt, &image.version(), &2);
    assert_written(&rt, &image, INCREMENT_2);
    let copies = unwrap(&rt, read(rt.alloc(), MOVES_A_WORD));
    let copies = unwrap(&rt, upgraded(rt.alloc(), &copies));
    assert_written(&rt, &copies, MOVES_A_WORD);
}

#[test]
fn prints_faults(rt: HostRuntime) {
    let refused = ImageFault::Refused {
        code: ImageCode::F10,
        place: 16,
    };
    assert_same(
        &rt,
        &unwrap(&rt, format!(in rt.alloc(); "{refused}")).as_str(),
        &"F10 at byte 16",
    );
    let memory = ImageFault::Memory;
    assert_same(
        &rt,
        &unwrap(&rt, format!(in rt.alloc(); "{memory}")).as_str(),
        &"out of memory",
    );
}

/// That an image has the one initial word 42, or that memory was refused.
fn assert_has_42(rt: &impl Abort, answer: &Result<Image, ImageFault>) {
    match answer {
        Err(fault) => assert_same(rt, &*fault, &ImageFault::Memory),
        Ok(image) => assert_same(rt, &image.initial.as_slice(), &[42].as_slice()),
    }
}

fn assert_written_or_memory(rt: &(impl Abort + AllocGlobal), image: &Image, bytes: &[u8]) {
    match written(rt.alloc(), image) {
        Err(fault) => assert_same(rt, &fault, &ImageFault::Memory),
        Ok(found) => assert_same(rt, &found.as_slice(), &bytes),
    }
}

/// Where an allocation fails, each call answers `Memory` or what it answers with ample memory.
#[test]
fn answers_memory_or_the_same(rt: HostRuntime) {
    let answer = read(rt.alloc(), MOVES_A_WORD);
    assert_has_42(&rt, &answer);
    if let Ok(image) = answer {
        assert_written_or_memory(&rt, &image, MOVES_A_WORD);
        assert_has_42(&rt, &upgraded(rt.alloc(), &image));
    }
    assert_refused(&rt, &INCREMENT[..16], ImageCode::F2, 16);
}
