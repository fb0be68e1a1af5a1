//! The members that run packets.

ghost use Rattle.std.specs.Prelude.{◌≡◌, ◌≤◌, ◌*◌, All, OnOk, length, map, true};
ghost use Rattle.tpw_runs.specs.Results.{HasRun};

use crate::batches::run_packets;
use crate::fault::RunFault;
use crate::report::Report;
use std::alloc::Global;
use std::io::Write;
use std::sync::Wait;
use std::thread::Threads;
use tp_accept::Accepted;
use tp_collect::limits::MAX_MESSAGE;
use tp_farm::Gate;
use tp_link::{boxed, media_of};

/// Runs packets as [`run_packets`] does, on members of its own: 1 to 64.
pub fn run_on_members<R: Threads + Wait + Sync, G: Gate, S: Report, W: Write>(
    rt: &R,
    alloc: Global,
    image: &Accepted,
    packets: &[Vec<u8>],
    members: usize,
    gate: &G,
    report: &mut S,
    writer: &mut W,
) -> Result<(), RunFault>
    requires least { 1 ≤ members }
    requires most { members ≤ 64 }
    requires open { G.open_for_good gate.now ≡ true }
    requires whole { All (λ p. length p.items ≡ 4 * image.now.image.packet) packets.now }
    requires new { S.count report.old ≡ 0 }
    ensures { OnOk result (HasRun S.text S.becomes image.now (map (λ p. p.items) packets.now)
        (W.contents writer.old) (W.contents writer.new) report.old report.new) }
{
    let mut media = media_of(alloc, members, MAX_MESSAGE)?;
    let links = boxed(alloc, &mut media)?;
    run_packets(rt, alloc, image, packets, links, gate, report, writer)
}
