//! Packets that are lost, on standard error.

use crate::lines::cause_text;
use std::io::Write;
use tp_collect::LostCause;
use tp_link::{DeviceFault, Link, LinkFault};

/// Why a packet is lost whose trace is longer than it may be.
pub const LONG_TRACE: LostCause = LostCause::Link(LinkFault {
    link: Link::Trace,
    code: DeviceFault::Full,
});

/// Writes that the packet of a number is lost, and why.
pub fn write_loss<E: Write>(errors: &mut E, number: usize, cause: LostCause) {
    let why = cause_text(cause);
    let _ = write!(errors, "tpw: packet {number} is lost: {why}\n");
}
