//! Images, packets and answers, worked out by hand.

use test_samples::*;

/// An image, packets that are run on it, and all answers.
pub struct Case {
    pub name: &'static str,
    pub trace: bool,
    pub image: &'static [u8],
    pub packets: &'static [&'static str],
    pub answers: &'static str,
}

/// Images that are run.
pub const RUNS: [Case; 14] = [
    Case {
        name: "increment",
        trace: false,
        image: INCREMENT,
        packets: &["01000000", "FFFFFF7F", "01000000"],
        answers: "YES 16 16\nKEPT 0\nKEPT 1\nKEPT 2\nR 0 0 16 02000000\nR 1 1 16 00000080\nR 2 0 16 02000000\nDONE 3\n",
    },
    Case {
        name: "sum in a loop of ten turns",
        trace: false,
        image: SUM_TO_TEN,
        packets: &["00000000"],
        answers: "YES 27 99\nKEPT 0\nR 0 0 99 2d000000\nDONE 1\n",
    },
    Case {
        name: "one turn",
        trace: false,
        image: ONE_TURN,
        packets: &["00000000"],
        answers: "YES 27 27\nKEPT 0\nR 0 0 27 00000000\nDONE 1\n",
    },
    Case {
        name: "ten thousand turns",
        trace: false,
        image: SUM_TO_TEN_THOUSAND,
        packets: &["00000000"],
        answers: "YES 30 80022\nKEPT 0\nR 0 0 80022 f8dcfa02\nDONE 1\n",
    },
    Case {
        name: "a loop in a loop of ten turns",
        trace: false,
        image: TEN_TIMES_TEN_THOUSAND,
        packets: &["05000000"],
        answers: "YES 35 400130\nKEPT 0\nR 0 0 400130 05000000\nDONE 1\n",
    },
    Case {
        name: "a pointer of any size made small",
        trace: false,
        image: PICKS_A_WORD,
        packets: &["FFFFFFFF"],
        answers: "YES 21 21\nKEPT 0\nR 0 0 21 00000000\nDONE 1\n",
    },
    Case {
        name: "two ways",
        trace: false,
        image: FIVE_UNLESS_ZERO,
        packets: &["00000000", "07000000"],
        answers: "YES 17 17\nKEPT 0\nKEPT 1\nR 0 0 15 00000000\nR 1 0 17 05000000\nDONE 2\n",
    },
    Case {
        name: "a trace that is written",
        trace: true,
        image: TRACES_ITS_PACKET,
        packets: &["0A000000"],
        answers: "YES 19 19\nKEPT 0\nR 0 0 19 0a000000\nT 0 0a000000\nDONE 1\n",
    },
    Case {
        name: "a trace that is not written",
        trace: false,
        image: TRACES_ITS_PACKET,
        packets: &["0A000000"],
        answers: "YES 19 19\nKEPT 0\nR 0 0 19 0a000000\nDONE 1\n",
    },
    Case {
        name: "no trace",
        trace: true,
        image: INCREMENT,
        packets: &["01000000"],
        answers: "YES 16 16\nKEPT 0\nR 0 0 16 02000000\nT 0 -\nDONE 1\n",
    },
    Case {
        name: "a trace that is too long",
        trace: false,
        image: TRACES_65_TIMES,
        packets: &["00000000"],
        answers: "YES 28 668\nKEPT 0\nLOST 0\nDONE 1\n",
    },
    Case {
        name: "a trace that is too long, where traces are written",
        trace: true,
        image: TRACES_65_TIMES,
        packets: &["00000000"],
        answers: "YES 28 668\nKEPT 0\nLOST 0\nDONE 1\n",
    },
    Case {
        name: "two values that meet",
        trace: false,
        image: STORES_BY_TWO_WAYS,
        packets: &["00000000", "05000000"],
        answers: "YES 22 20\nKEPT 0\nKEPT 1\nR 0 0 19 02000000\nR 1 0 20 01000000\nDONE 2\n",
    },
    Case {
        name: "initial words",
        trace: false,
        image: MOVES_A_WORD,
        packets: &["01000000"],
        answers: "YES 19 19\nKEPT 0\nR 0 0 19 2a000000\nDONE 1\n",
    },
];

/// Images with their verdict: what each does, its bytes and the answer.
pub const VERDICTS: [(&str, &[u8], &str); 19] = [
    ("ten thousand and one turns", ONE_TURN_TOO_MANY, "NO J6 0\n"),
    ("a loop in a loop", NESTED_TOO_LONG, "NO B1 0\n"),
    ("a read after a jump", READS_AFTER_JUMP, "NO S1 8\n"),
    ("a jump into a spelling", JUMPS_INTO_SPELLING, "NO J1 7\n"),
    (
        "a message of another length",
        RECEIVES_TWO_WORDS,
        "NO S7 5\n",
    ),
    ("two results", SENDS_TWICE, "NO S9 15\n"),
    ("a pointer of any size", LOADS_ANY_WORD, "NO S3 8\n"),
    ("a word that is lost", READS_BELOW_WPTR, "NO S4 6\n"),
    ("a store into a live count", STORES_INTO_COUNT, "NO S5 15\n"),
    ("a header alone", HEADER_ALONE, "NO F2 16\n"),
    ("a byte left over", BYTE_LEFT_OVER, "NO F9 32\n"),
    ("move in version 1", MOVES_IN_VERSION_1, "NO S11 10\n"),
    (
        "too many initial words",
        TOO_MANY_INITIAL_WORDS,
        "NO F10 16\n",
    ),
    ("an overlap", MOVES_ONTO_ITSELF, "NO S3 9\n"),
    (
        "a workspace that is too large",
        WORKSPACE_TOO_LARGE,
        "NO F4 6\n",
    ),
    (
        "a workspace that is too large in version 1",
        WORKSPACE_TOO_LARGE_IN_VERSION_1,
        "NO F4 6\n",
    ),
    (
        "a code that is too long in version 1",
        CODE_TOO_LONG_IN_VERSION_1,
        "NO F3 4\n",
    ),
    ("increment in version 2", INCREMENT_2, "YES 16 16\n"),
    ("the largest workspace", LARGEST_WORKSPACE, "YES 16 16\n"),
];
