//! The names of arguments and options, by which what they are given is found.

/// The file that a command reads in place of standard input.
pub(crate) const FILE: &str = "file";

/// The worker is in occam.
pub(crate) const IN_OCCAM: &str = "occam";

/// A worker with warnings is refused.
pub(crate) const DENY_WARNINGS: &str = "deny-warnings";

/// A packet.
pub(crate) const WORDS: &str = "words";

/// A file of packets.
pub(crate) const PACKETS: &str = "packets";

/// Packets are in hexadecimal.
pub(crate) const HEX_PACKETS: &str = "hex-packets";

/// A file of results that are expected.
pub(crate) const EXPECT: &str = "expect";

/// Expected results are in hexadecimal.
pub(crate) const HEX_EXPECT: &str = "hex-expect";

/// Traces are written.
pub(crate) const TRACE: &str = "trace";

/// Results, or the numbers of a run, are written in hexadecimal.
pub(crate) const HEX: &str = "hex";

/// The bytes of results are written alone.
pub(crate) const RAW: &str = "raw";

/// How many members run packets.
pub(crate) const MEMBERS: &str = "members";

/// Runs are compared with what a text means.
pub(crate) const CHECK: &str = "check";

/// A name goes before an image.
pub(crate) const LINE: &str = "line";

/// The packet that is followed, by its number.
pub(crate) const NUMBER: &str = "number";

/// The place from which a run is shown.
pub const FROM: &str = "from";

/// The place at which a run is left.
pub const UNTIL: &str = "until";

/// A run is shown by statements.
pub(crate) const STATEMENTS: &str = "statements";

/// The words whose changes are shown.
pub(crate) const WATCH: &str = "watch";
