//! The workers that are timed, as image bytes.

/// A worker, how it is timed, and how many turns a plain function makes in its place.
pub(crate) struct Worker {
    pub(crate) name: &'static str,
    pub(crate) image: &'static [u8],
    /// The runs of one measurement.
    pub(crate) rounds: u32,
    /// Turns of the outer loop, and of the inner one in each of these.
    pub(crate) turns: Option<(u32, u32)>,
}

pub(crate) const WORKERS: [Worker; 4] = [SUM, NEST, CHECKSUM, MOVES];

/// Sums the indices of 10,000 turns: ldl 1; ldl 2; add; stl 1; ldlp 2; ldc 8; lend.
const SUM: Worker = Worker {
    name: "10,000 turns",
    image: test_samples::SUM_TO_TEN_THOUSAND,
    rounds: 400,
    turns: Some((1, 10_000)),
};

/// An empty loop of 25 turns in a loop of 400.
const NEST: Worker = Worker {
    name: "400 turns of 25",
    image: b"TPW1\x23\0\x10\0\x08\0\x01\0\x01\0\x02\0\
        \x0D\0\x1A\0\x0A\0\x90\x01\0\0\0\0\
        \x14\0\x16\0\x0C\0\x19\0\0\0\0\0\
        \x10\x24\xF2\x54\x44\xF7\x40\xD2\x20\x21\x29\x40\xD3\
        \x40\xD4\x20\x20\x21\x49\xD5\x14\x44\x22\xF1\x12\x4F\x22\xF1\
        \x10\x24\xF2\x44\xFB\x21\xF5",
    rounds: 700,
    turns: Some((400, 25)),
};

/// The checksum CRC-32 of 16 words, bit by bit: 20 different instructions, prefixes, a cj in the inner of two loops.
const CHECKSUM: Worker = Worker {
    name: "checksum",
    image: test_samples::CHECKSUM,
    rounds: 1_500,
    turns: None,
};

/// Moves 1,000 bytes in each of 10,000 turns: ldlp 4; ldlp 254; ldc 1000; move; ldlp 2; ldc 12; lend.
const MOVES: Worker = Worker {
    name: "moves of 1,000 bytes",
    image: b"TPW2\x20\0\0\x02\x05\0\x01\0\x01\0\x01\0\0\0\
        \x0D\0\x17\0\x07\0\x10\x27\0\0\0\0\
        \x10\x24\xF2\x54\x44\xF7\x40\xD2\x22\x27\x21\x40\xD3\
        \x14\x2F\x1E\x23\x2E\x48\x24\xFA\x12\x4C\x22\xF1\
        \x10\x24\xF2\x44\xFB\x21\xF5",
    rounds: 20,
    turns: None,
};
