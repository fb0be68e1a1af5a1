//! Runs over media.

use crate::asserts::unwrap;
use std::alloc::Global;
use std::process::Abort;
use tp_accept::{Accepted, accept};
use tp_link::{LinkDevice, LinkFault, Media};
use tp_machine::{Machine, Outcome};

/// The room of each medium in bytes.
const ROOM: usize = 256;

/// A machine whose fields have all bits set.
pub(crate) fn all_bits_set() -> Machine {
    Machine {
        workspace: [0xFF; 2048],
        a: u32::MAX,
        b: u32::MAX,
        c: u32::MAX,
        wptr: u32::MAX,
        oreg: u32::MAX,
        iptr: u32::MAX,
        error: true,
    }
}

pub(crate) fn accepted(rt: &impl Abort, alloc: Global, image: &[u8]) -> Accepted {
    let text = unwrap(rt, Vec::from_slice(alloc, image));
    unwrap(rt, accept(alloc, text))
}

/// The answer of a packet's run, and the contents of the media after it.
pub(crate) fn run_packet(
    rt: &impl Abort,
    alloc: Global,
    machine: &mut Machine,
    accepted: &Accepted,
    packet: &[u8],
) -> (Result<Outcome, LinkFault>, Media) {
    let mut media = unwrap(rt, Media::new(alloc, ROOM));
    let mut links = media.wires();
    unwrap(rt, links.source.send(packet));
    let answered = machine.run(accepted, &mut links);
    drop(links);
    (answered, media)
}
