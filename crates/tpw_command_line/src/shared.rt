//! Arguments that several commands take.

use crate::argument::{Argument, Kind};
use crate::options::{
    DENY_WARNINGS, EXPECT, FILE, HEX, HEX_EXPECT, HEX_PACKETS, IN_OCCAM, MEMBERS, PACKETS, RAW,
    TRACE, WORDS,
};

/// Where a command reads.
pub(crate) const FILE_ARGUMENT: Argument = Argument {
    name: FILE,
    kind: Kind::Positional("FILE"),
    help: "Read in place of standard input",
};

/// The language of a worker.
pub(crate) const OCCAM_ARGUMENT: Argument = Argument {
    name: IN_OCCAM,
    kind: Kind::Flag,
    help: "The worker is in occam, as that of a FILE named .occ is",
};

/// Whether a worker with warnings is refused.
pub(crate) const DENY_ARGUMENT: Argument = Argument {
    name: DENY_WARNINGS,
    kind: Kind::Flag,
    help: "Refuse a worker in occam with warnings, with status 1",
};

/// A packet.
pub(crate) const WORDS_ARGUMENT: Argument = Argument {
    name: WORDS,
    kind: Kind::Texts("WORDS"),
    help: "A packet, as a line of FILE has it; may be given again",
};

/// A file of packets.
pub(crate) const PACKETS_ARGUMENT: Argument = Argument {
    name: PACKETS,
    kind: Kind::Text("FILE"),
    help: "Packets, one a line",
};

/// How packets are written.
pub(crate) const HEX_PACKETS_ARGUMENT: Argument = Argument {
    name: HEX_PACKETS,
    kind: Kind::Flag,
    help: "Packets are in hexadecimal, as they are sent, else words as numbers",
};

/// How many members run packets.
pub(crate) const MEMBERS_ARGUMENT: Argument = Argument {
    name: MEMBERS,
    kind: Kind::Members("N"),
    help: "How many members run packets, 1 to 64; 4 where nothing is said",
};

/// A file of results that are expected.
pub(crate) const EXPECT_ARGUMENT: Argument = Argument {
    name: EXPECT,
    kind: Kind::Text("FILE"),
    help: "Results that are expected, one a line: what differs alone is written",
};

/// How expected results are written.
pub(crate) const HEX_EXPECT_ARGUMENT: Argument = Argument {
    name: HEX_EXPECT,
    kind: Kind::FlagRequiring(EXPECT),
    help: "Expected results are in hexadecimal, as they are sent, else words as numbers",
};

/// Whether traces are written.
pub(crate) const TRACE_ARGUMENT: Argument = Argument {
    name: TRACE,
    kind: Kind::Flag,
    help: "Follow each result with its trace",
};

/// How results are written.
pub(crate) const HEX_ARGUMENT: Argument = Argument {
    name: HEX,
    kind: Kind::Flag,
    help: "Write results in hexadecimal, as they are sent, else as signed numbers",
};

/// Whether the bytes of results are written alone.
pub(crate) const RAW_ARGUMENT: Argument = Argument {
    name: RAW,
    kind: Kind::FlagConflicting(&[EXPECT, HEX, TRACE]),
    help: "Write the bytes of results alone, one behind another",
};
